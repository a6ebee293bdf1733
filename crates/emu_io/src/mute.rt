// A source or a sink that tells no content.
ghost use Rattle.std.specs.Prelude.{◌≡◌, ◌<◌, ◌≤◌, length, None, IfOk};
ghost use Rattle.std.specs.Io.{ReadsAtMost};
ghost use Rattle.std.specs.Io.KnownBytes.{ReadConsumes, WriteAppends};
ghost use Rattle.emu_io.specs.Causes.{HasCause};

use crate::{Failed, Sink, Source};

/// A source or a sink whose content no contract sees, as it sees none of standard input's and output's. Each call is made of
/// the one inside, and its count of faults is the one's inside.
#[derive(Drop)]
pub struct Mute<T> {
    /// What is read or written.
    pub inner: T,
}

impl<T> Mute<T> {
    /// The same source or sink, which tells no content.
    pub fn new(inner: T) -> Mute<T>
        ensures { result.inner ≡ inner }
    {
        Mute { inner }
    }
}

impl<S: Source> Source for Mute<S> {
    ghost end = { λ m. record { left = None; faults = (S.end m.inner).faults } };

    fn read(&mut self, into: &mut [u8]) -> Result<usize, Failed>
        requires { 0 < length into.old }
        ensures bound { ReadsAtMost result into.new }
        ensures bytes { ReadConsumes None None result into.new }
        ensures cause { HasCause (S.end self.old.inner).faults (S.end self.new.inner).faults result }
    {
        self.inner.read(into)
    }
}

impl<K: Sink> Sink for Mute<K> {
    ghost end = { λ m. record { written = None; faults = (K.end m.inner).faults } };

    fn write(&mut self, piece: &[u8]) -> Result<usize, Failed>
        requires { 0 < length piece.now }
        ensures bound { IfOk result (λ n. (1 ≤ n) × (n ≤ length piece.now)) }
        ensures bytes { WriteAppends None None result piece.now }
        ensures cause { HasCause (K.end self.old.inner).faults (K.end self.new.inner).faults result }
    {
        self.inner.write(piece)
    }
}
