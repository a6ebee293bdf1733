// Writes what is told in reply.
ghost use Rattle.std.specs.Prelude.{◌≡◌, ◌≤◌, ◌<◌, ◌+◌, ◌^◌, ◌++◌, length, take, drop};
ghost use Rattle.seats.specs.Imports.{field, little_bytes, response_of};
ghost use Rattle.seats.specs.Tells.{errno_number as errno_by, ready_bits as bits_by, told_of as told_by, data_of as data_by, head_of};

use crate::serve_frames::numbers::{
    EAGAIN, EBADF, EBUSY, EINVAL, ENOMEM, ENOSPC, EOVERFLOW, ETIMEDOUT, NO_PLACE, REPLY_LEN,
};
use arrayvec::ArrayVec;
use byteorder::{ByteOrder, LittleEndian};
use dmx_calls::{Errno, PollError, Reply};

/// The first bytes of a reply.
pub type ReplyHead = ArrayVec<u8, 24>;

/// What is told in reply, without the bytes that were read.
#[derive(Clone, Copy, PartialEq, Eq, Drop)]
pub struct Tell {
    /// 0, or the number of an error of Linux.
    pub code: u32,
    /// The node of an open. Of a poll, and of a read that finds nothing: 1 where something is there to be read, 2 where an
    /// overflow is pending or 4 where a timeout is, and 8 where the stream has ended, together.
    pub value: u32,
    /// The place of the call in its node's history, or `NO_PLACE` where none was made.
    pub place: u64,
}

// The number of an error.
fn errno_number(errno: Errno) -> u32
    ensures { result ≡ errno_by errno }
{
    match errno {
        Errno::Ebadf => EBADF,
        Errno::Ebusy => EBUSY,
        Errno::Einval => EINVAL,
        Errno::Enospc => ENOSPC,
    }
}

// What a poll finds, bit by bit.
fn ready_bits(readable: bool, error: PollError, ended: bool) -> u32
    ensures value { result ≡ bits_by readable error ended }
{
    let pending = match error {
        PollError::Quiet => 0,
        PollError::Overflow => 2,
        PollError::TimedOut => 4,
    };
    let first = if readable { 1 } else { 0 };
    let last = if ended { 8 } else { 0 };
    first + pending + last
}

// Writes bytes behind the others, for which there is room.
fn put(head: &mut ReplyHead, bytes: &[u8])
    requires { length head.old.items + length bytes.now ≤ 24 }
    ensures { head.new.items ≡ head.old.items ++ bytes.now }
{
    match head.try_extend_from_slice(bytes) {
        Ok(()) => (),
        Err(_) => unreachable!(),
    }
}

impl Tell {
    /// A request is refused with this error, and no call was made.
    pub fn refused(code: u32) -> Tell
        ensures { result ≡ record { code = code; value = 0; place = NO_PLACE } }
    {
        Tell {
            code,
            value: 0,
            place: NO_PLACE,
        }
    }

    /// A node's reply to the call at this place of its history.
    pub fn of(reply: &Reply, place: u64) -> Tell
        ensures { result ≡ told_by (response_of reply.now) place }
    {
        let (code, value) = match reply {
            Reply::Done { .. } | Reply::Passed | Reply::Data(_) => (0, 0),
            Reply::Busy { .. } => (EBUSY, 0),
            Reply::Refused(errno) => (errno_number(*errno), 0),
            Reply::NoMemory => (ENOMEM, 0),
            Reply::Again { ended } => (EAGAIN, ready_bits(false, PollError::Quiet, *ended)),
            Reply::Overflow { .. } => (EOVERFLOW, 0),
            Reply::TimedOut { .. } => (ETIMEDOUT, 0),
            Reply::Ready {
                readable,
                error,
                ended,
                ..
            } => (0, ready_bits(*readable, *error, *ended)),
        };
        Tell { code, value, place }
    }

    /// The first 24 bytes of a reply that so many bytes follow: code, length, value and 0 in four bytes each, and the place in
    /// eight, the lowest first.
    pub fn head(&self, len: u32) -> ReplyHead
        ensures { result.items ≡ head_of self.now len }
    {
        let mut head = ReplyHead::new();
        put(&mut head, &self.code.to_le_bytes());
        put(&mut head, &len.to_le_bytes());
        put(&mut head, &self.value.to_le_bytes());
        put(&mut head, &0u32.to_le_bytes());
        put(&mut head, &self.place.to_le_bytes());
        head
    }

    /// What the first 24 bytes of a reply tell, and how many bytes follow.
    pub fn read(bytes: &[u8; REPLY_LEN]) -> (Tell, u32)
        ensures told { result.0 ≡ record {
          code = field 0 4 bytes.now;
          value = field 8 4 bytes.now;
          place = field 16 8 bytes.now;
        } }
        ensures len { result.1 ≡ field 4 4 bytes.now }
    {
        let told = Tell {
            code: LittleEndian::read_u32(&bytes[..]),
            value: LittleEndian::read_u32(&bytes[8..]),
            place: LittleEndian::read_u64(&bytes[16..]),
        };
        (told, LittleEndian::read_u32(&bytes[4..]))
    }
}

/// The bytes that were read, which follow the head of a reply.
pub fn data_of(reply: &Reply) -> &[u8]
    ensures value { result.now ≡ data_by (response_of reply.now) }
    ensures few { length result.now ≤ 65536 }
{
    match reply {
        Reply::Data(buf) => {
            // the count tells the contract that a reply has at most 65,536 bytes
            let _ = buf.count();
            buf.bytes()
        }
        _ => &[],
    }
}
