// The buffer of a read.

ghost use Rattle.std.specs.Prelude.{◌≡◌, ◌≤◌, ◌+◌, ◌++◌, [], length, IfOk};
ghost use Rattle.dmx_calls.specs.declared.limits.TheConstants.{LARGEST_READ};

use std::alloc::{AllocError as NoMemory, Global};
use std::marker::Model;

/// A buffer for one read: room for `count` bytes, and the bytes that fill its front.
#[derive(Drop)]
pub struct ByteBuf {
    bytes: Vec<u8>,
    count: u32,
}

impl Model for ByteBuf {
    ghost use Rattle.std.specs.Prelude.{◌≤◌, length, vec_capacity};
    ghost use Rattle.dmx_calls.specs.Buffer.{Buffer};
    ghost use Rattle.dmx_calls.specs.declared.limits.TheConstants.{LARGEST_READ};

    ghost Value = { Buffer };

    ghost view = { λ b. record { count = b.count; bytes = b.bytes.items } };

    ghost invariant = { λ b. (b.count ≤ LARGEST_READ) × (length b.bytes.items ≤ b.count)
        × (b.count ≤ vec_capacity b.bytes) };
}

impl ByteBuf {
    /// An empty buffer for `count` bytes, at most 65,536.
    pub fn new(alloc: Global, count: u32) -> Result<ByteBuf, NoMemory>
        requires { count ≤ LARGEST_READ }
        ensures { IfOk result (λ buf. buf ≡ record { count = count; bytes = [] }) }
    {
        Ok(ByteBuf {
            bytes: Vec::with_capacity(alloc, count as usize)?,
            count,
        })
    }

    /// How many bytes the buffer has room for.
    pub fn count(&self) -> u32
        ensures value { result ≡ self.now.count }
        ensures bound { result ≤ LARGEST_READ }
    {
        self.count
    }

    /// The bytes that fill its front.
    pub fn bytes(&self) -> &[u8]
        ensures value { result.now ≡ self.now.bytes }
        ensures bound { length result.now ≤ self.now.count }
    {
        &self.bytes
    }

    /// Empties the buffer. It keeps its room.
    pub fn clear(&mut self)
        ensures { self.new ≡ record { count = self.old.count; bytes = [] } }
    {
        self.bytes.clear();
    }

    /// Puts these bytes behind those that are there. Together they are at most `count`.
    pub fn append(&mut self, bytes: &[u8])
        requires { length self.old.bytes + length bytes.now ≤ self.old.count }
        ensures { self.new ≡ record { count = self.old.count; bytes = self.old.bytes ++ bytes.now } }
    {
        let _ = self.bytes.extend_from_slice(bytes);
    }

    /// A copy whose count is the number of its bytes.
    pub fn fitted(&self, alloc: Global) -> Result<ByteBuf, NoMemory>
        ensures { IfOk result (λ buf. buf ≡ record { count = length self.now.bytes; bytes = self.now.bytes }) }
    {
        let mut copy = ByteBuf::new(alloc, self.bytes.len() as u32)?;
        copy.append(&self.bytes);
        Ok(copy)
    }
}
