// Reads what a request asks.
ghost use Rattle.std.specs.Prelude.{◌≡◌, ◌≤◌, ◌+◌, length, take, drop, Some};
ghost use Rattle.seats.specs.Imports.{decoded, field};
ghost use Rattle.seats.specs.Asks.{ioctl_of as ioctl_by, call_of as call_by, asked as asked_by, ask_of as ask_by, IsAskInRange};

use crate::serve_frames::numbers::{
    ARGUMENT_AT, ARGUMENT_LEN, CLOSE, EBADF, EINVAL, ENOTTY, IOCTL, LEAVE, OPEN_DEMUX, OPEN_DVR,
    POLL, READ, REQUEST_LEN,
};
use byteorder::{ByteOrder, LittleEndian};
use client_script::{Want, want_of};
use dmx_abi::{AbiFault, decode};
use dmx_calls::limits::{DEMUX_NODES, LARGEST_READ};

/// What a program asks.
#[derive(Clone, Copy, PartialEq, Eq, Drop)]
pub enum Ask {
    /// Opens the first demux node that is free.
    OpenDemux,
    /// One call on a node.
    Call {
        /// The node: 0 to 31 for a demux node, 32 for the dvr node.
        node: u32,
        /// What is asked of it.
        want: Want,
    },
    /// Closes all nodes that the program has.
    Leave,
    /// Nothing that a node can be asked: it is refused without a call, with this error of Linux.
    Refused(u32),
}

// What an ioctl on a node asks.
fn ioctl_of(node: u32, number: u32, argument: &[u8]) -> Ask
    ensures value { result ≡ ioctl_by node (decoded number argument.now) }
    ensures range { node ≤ 32 → IsAskInRange result }
{
    match decode(number, argument) {
        Ok(request) => match want_of(request) {
            Some(want) => Ask::Call { node, want },
            None => Ask::Refused(EINVAL),
        },
        Err(AbiFault::Unknown { .. }) => Ask::Refused(ENOTTY),
        Err(AbiFault::Length { .. }) => Ask::Refused(EINVAL),
    }
}

// The number in four bytes, from this byte on.
fn u32_at(bytes: &[u8], at: usize) -> u32
    requires { at + 4 ≤ length bytes.now }
    ensures { result ≡ field at 4 bytes.now }
{
    LittleEndian::read_u32(&bytes[at..])
}

// What a request with this verb asks of one of the 33 nodes.
fn call_of(verb: u32, node: u32, number: u32, len: u32, argument: &[u8]) -> Ask
    requires node { node ≤ 32 }
    requires argument { length argument.now ≡ 60 }
    ensures value { result ≡ call_by verb node number len argument.now }
    ensures range { IsAskInRange result }
{
    match verb {
        CLOSE => Ask::Call {
            node,
            want: Want::Close,
        },
        IOCTL => {
            if len > ARGUMENT_LEN {
                return Ask::Refused(EINVAL);
            }
            ioctl_of(node, number, &argument[..len as usize])
        }
        READ => Ask::Call {
            node,
            want: Want::Read(number.min(LARGEST_READ)),
        },
        POLL => Ask::Call {
            node,
            want: Want::Poll,
        },
        _ => Ask::Refused(EINVAL),
    }
}

// What a request with this verb asks.
fn asked(verb: u32, node: u32, number: u32, len: u32, argument: &[u8]) -> Ask
    requires { length argument.now ≡ 60 }
    ensures value { result ≡ asked_by verb node number len argument.now }
    ensures range { IsAskInRange result }
{
    match verb {
        OPEN_DEMUX => Ask::OpenDemux,
        OPEN_DVR => Ask::Call {
            node: DEMUX_NODES,
            want: Want::Open,
        },
        LEAVE => Ask::Leave,
        _ => {
            if node > DEMUX_NODES {
                return Ask::Refused(EBADF);
            }
            call_of(verb, node, number, len, argument)
        }
    }
}

impl Ask {
    /// What these bytes ask: verb, node, number and length in four bytes each, the lowest first, and an argument of 60 bytes of
    /// which the first `length` count.
    ///
    /// A read's number is its count, and asks for no more than 65,536 bytes. Where a verb wants a node, one above 32 is refused
    /// with EBADF; an unknown verb and a length above 60 with EINVAL; an ioctl that `dmx_abi` doesn't know with ENOTTY, and with
    /// EINVAL where its argument has another length, its input or its output is none, or it asks for a system time counter, which
    /// no node has.
    pub fn of(bytes: &[u8; REQUEST_LEN]) -> Ask
        ensures value { result ≡ ask_by bytes.now }
        ensures range { IsAskInRange result }
    {
        let verb = u32_at(bytes, 0);
        let node = u32_at(bytes, 4);
        let number = u32_at(bytes, 8);
        let len = u32_at(bytes, 12);
        asked(verb, node, number, len, &bytes[ARGUMENT_AT..])
    }
}
