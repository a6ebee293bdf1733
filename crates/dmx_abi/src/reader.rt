// Reads a request from its number and its argument.
ghost use Rattle.std.specs.Prelude.{◌≡◌, ◌≤◌, ◌+◌, length, Some, Ok, Err, IfOk, IfErr};
ghost use Rattle.dmx_abi.specs.Layout.{argument_len as argument_len_of, field, sixteen, Spells, IsFault};
ghost use Rattle.dmx_abi.specs.Decoded.{requested, decoded};
ghost use Rattle.dmx_abi.specs.declared.request.Request.{Request as RequestValue};
ghost use Rattle.dmx_abi.specs.declared.request.AbiFault.{AbiFault as FaultValue};

use crate::numbers::{
    ADD_PID, GET_STC, REMOVE_PID, SET_BUFFER_SIZE, SET_FILTER, SET_PES_FILTER, START, STOP,
};
use crate::request::{AbiFault, Request};
use byteorder::{ByteOrder, LittleEndian};

/// How many bytes the argument of this number's request has; None where no request has the number.
pub fn argument_len(number: u32) -> Option<u32>
    ensures { result ≡ argument_len_of number }
{
    match number {
        START | STOP => Some(0),
        SET_FILTER => Some(60),
        SET_PES_FILTER => Some(20),
        SET_BUFFER_SIZE => Some(4),
        GET_STC => Some(16),
        ADD_PID | REMOVE_PID => Some(2),
        _ => None,
    }
}

// The number in two bytes, from this byte on.
fn u16_at(argument: &[u8], at: usize) -> u16
    requires { at + 2 ≤ length argument.now }
    ensures { result ≡ field at 2 argument.now }
{
    LittleEndian::read_u16(&argument[at..])
}

// The number in four bytes, from this byte on.
fn u32_at(argument: &[u8], at: usize) -> u32
    requires { at + 4 ≤ length argument.now }
    ensures { result ≡ field at 4 argument.now }
{
    LittleEndian::read_u32(&argument[at..])
}

// The 16 bytes from this byte on.
fn sixteen_at(argument: &[u8], at: usize) -> [u8; 16]
    requires { at + 16 ≤ length argument.now }
    ensures { result ≡ sixteen at argument.now }
{
    let mut bytes = [0; 16];
    bytes.copy_from_slice(&argument[at..at + 16]);
    bytes
}

// The request of this number. The argument has the length that such a request has.
fn request_of(number: u32, argument: &[u8]) -> Request
    requires { argument_len_of number ≡ Some (length argument.now) }
    ensures spelled { Spells number argument.now result }
    ensures value { result ≡ requested number argument.now }
{
    match number {
        START => Request::Start,
        STOP => Request::Stop,
        SET_FILTER => Request::SetFilter {
            pid: u16_at(argument, 0),
            filter: sixteen_at(argument, 2),
            mask: sixteen_at(argument, 18),
            mode: sixteen_at(argument, 34),
            timeout: u32_at(argument, 52),
            flags: u32_at(argument, 56),
        },
        SET_PES_FILTER => Request::SetPes {
            pid: u16_at(argument, 0),
            input: u32_at(argument, 4),
            output: u32_at(argument, 8),
            pes_type: u32_at(argument, 12),
            flags: u32_at(argument, 16),
        },
        SET_BUFFER_SIZE => Request::SetSize(u32_at(argument, 0)),
        GET_STC => Request::GetStc {
            num: u32_at(argument, 0),
        },
        ADD_PID => Request::AddPid(u16_at(argument, 0)),
        _ => Request::RemovePid(u16_at(argument, 0)),
    }
}

/// The request that a number and its argument ask for.
///
/// # Errors
///
/// `Unknown` exactly where no request has the number, and `Length` exactly where one has it and its argument has another
/// length.
pub fn decode(number: u32, argument: &[u8]) -> Result<Request, AbiFault>
    ensures spelled { IfOk result (Spells number argument.now) }
    // Where a number and an argument spell a request, that one is answered.
    ensures whole { (request : RequestValue) → Spells number argument.now request → result ≡ Ok request }
    ensures fault { IfErr result (IsFault number argument.now) }
    // Where there is a cause, the fault that it is the cause of is answered.
    ensures told { (fault : FaultValue) → IsFault number argument.now fault → result ≡ Err fault }
    // The same as a function.
    ensures value { result ≡ decoded number argument.now }
{
    let Some(want) = argument_len(number) else {
        return Err(AbiFault::Unknown { number });
    };
    if argument.len() as u64 != want as u64 {
        return Err(AbiFault::Length {
            want,
            found: argument.len() as u64,
        });
    }
    Ok(request_of(number, argument))
}
