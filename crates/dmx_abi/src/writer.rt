// Writes a request as its number and its argument.
ghost use Rattle.std.specs.Prelude.{◌≡◌, ◌≤◌, ◌+◌, ◌-◌, ◌++◌, length, replicate};
ghost use Rattle.byteorder.specs.Endian.{little_bytes};
ghost use Rattle.dmx_abi.specs.Written.{number_of as number_of_request, argument_of as argument_of_request, Fits};

use crate::numbers::{
    ADD_PID, GET_STC, REMOVE_PID, SET_BUFFER_SIZE, SET_FILTER, SET_PES_FILTER, START, STOP,
};
use crate::request::Request;
use arrayvec::ArrayVec;

// The bytes of an argument that are written so far.
type ArgumentBytes = ArrayVec<u8, 60>;

// Writes bytes behind the others, for which there is room.
fn put(written: &mut ArgumentBytes, bytes: &[u8])
    requires { length written.old.items + length bytes.now ≤ 60 }
    ensures { written.new.items ≡ written.old.items ++ bytes.now }
{
    match written.try_extend_from_slice(bytes) {
        Ok(()) => (),
        Err(_) => unreachable!(),
    }
}

// Writes a number as two bytes, the lowest first.
fn put_u16(written: &mut ArgumentBytes, number: u16)
    requires { length written.old.items + 2 ≤ 60 }
    ensures { written.new.items ≡ written.old.items ++ little_bytes 2 number }
{
    put(written, &number.to_le_bytes());
}

// Writes a number as four bytes, the lowest first.
fn put_u32(written: &mut ArgumentBytes, number: u32)
    requires { length written.old.items + 4 ≤ 60 }
    ensures { written.new.items ≡ written.old.items ++ little_bytes 4 number }
{
    put(written, &number.to_le_bytes());
}

// The number of a request.
fn number_of(request: &Request) -> u32
    ensures { result ≡ number_of_request request.now }
{
    match request {
        Request::Start => START,
        Request::Stop => STOP,
        Request::SetFilter { .. } => SET_FILTER,
        Request::SetPes { .. } => SET_PES_FILTER,
        Request::SetSize(_) => SET_BUFFER_SIZE,
        Request::AddPid(_) => ADD_PID,
        Request::RemovePid(_) => REMOVE_PID,
        Request::GetStc { .. } => GET_STC,
    }
}

// The argument of a request, with 0 in the bytes that no field has.
fn argument_of(request: &Request) -> ArgumentBytes
    ensures { result.items ≡ argument_of_request request.now }
{
    let mut written = ArgumentBytes::new();
    match request {
        Request::Start | Request::Stop => {}
        Request::SetFilter {
            pid,
            filter,
            mask,
            mode,
            timeout,
            flags,
        } => {
            put_u16(&mut written, *pid);
            put(&mut written, filter);
            put(&mut written, mask);
            put(&mut written, mode);
            put_u16(&mut written, 0);
            put_u32(&mut written, *timeout);
            put_u32(&mut written, *flags);
        }
        Request::SetPes {
            pid,
            input,
            output,
            pes_type,
            flags,
        } => {
            put_u16(&mut written, *pid);
            put_u16(&mut written, 0);
            put_u32(&mut written, *input);
            put_u32(&mut written, *output);
            put_u32(&mut written, *pes_type);
            put_u32(&mut written, *flags);
        }
        Request::SetSize(size) => put_u32(&mut written, *size),
        Request::AddPid(pid) | Request::RemovePid(pid) => put_u16(&mut written, *pid),
        Request::GetStc { num } => {
            put_u32(&mut written, *num);
            put(&mut written, &[0; 12]);
        }
    }
    written
}

// The fields of a request have the ranges of their types. It has nothing to do.
fn fits(request: Request)
    ensures { Fits request }
{
    let _ = request;
}

/// Writes the argument of a request into the first bytes of `out`, and 0 into those behind it. It answers the request's number
/// and how many bytes the argument has.
pub fn encode(request: &Request, out: &mut [u8; 60]) -> (u32, u32)
    ensures number { result.0 ≡ number_of_request request.now }
    ensures len { result.1 ≡ length (argument_of_request request.now) }
    ensures written { out.new ≡ argument_of_request request.now ++ replicate (60 - length (argument_of_request request.now)) 0 }
    ensures fits { Fits request.now }
{
    let written = argument_of(request);
    fits(*request);
    *out = [0; 60];
    out[..written.len()].copy_from_slice(written.as_slice());
    (number_of(request), written.len() as u32)
}
