// A source that keeps the script of what is read through it.
ghost use Rattle.std.specs.Prelude.{◌≡◌, ◌<◌, length};
ghost use Rattle.std.specs.Io.{ReadsAtMost};
ghost use Rattle.std.specs.Io.KnownBytes.{ReadConsumes};
ghost use Rattle.emu_io.specs.Causes.{HasCause};

use client_script::{MOST_BYTES, ScriptPart};
use emu_io::{Failed, Source};
use std::alloc::Global;

/// A source that keeps the first bytes that are read through it, at most 1,048,576, up to the piece in which the line `stream`
/// becomes whole. Where memory for them is refused it keeps nothing from then on. What it reads is what the source inside reads.
#[derive(Drop)]
pub struct Keeping<S> {
    inner: S,
    kept: Option<ScriptPart>,
}

impl<S> Keeping<S> {
    /// The same source, through which nothing was read.
    pub fn new(alloc: Global, inner: S) -> Keeping<S>
        ensures { result.inner ≡ inner }
    {
        Keeping {
            inner,
            kept: Some(ScriptPart::new(alloc)),
        }
    }

    /// The bytes that were kept; None where memory for them was refused.
    pub fn kept(&self) -> Option<&[u8]> {
        match &self.kept {
            Some(part) => Some(part.bytes()),
            None => None,
        }
    }
}

// The bytes kept so far with the next ones behind them, as far as they are kept.
fn kept_with(kept: Option<ScriptPart>, piece: &[u8]) -> Option<ScriptPart> {
    let mut part = kept?;
    let len = part.bytes().len();
    if part.end().is_some() || len >= MOST_BYTES {
        return Some(part);
    }
    let piece = &piece[..piece.len().min(MOST_BYTES - len)];
    match part.add(piece) {
        Ok(()) => Some(part),
        Err(_) => None,
    }
}

impl<S: Source> Source for Keeping<S> {
    ghost end = { λ k. S.end k.inner };

    fn read(&mut self, into: &mut [u8]) -> Result<usize, Failed>
        requires { 0 < length into.old }
        ensures bound { ReadsAtMost result into.new }
        ensures bytes { ReadConsumes (S.end self.old.inner).left (S.end self.new.inner).left result into.new }
        ensures cause { HasCause (S.end self.old.inner).faults (S.end self.new.inner).faults result }
    {
        let count = self.inner.read(into)?;
        self.kept = kept_with(self.kept.take(), &into[..count]);
        Ok(count)
    }
}
