// What a line of a script says.
ghost use Rattle.std.specs.Prelude.{◌≡◌, ◌≤◌, Some, None, IfOk, IfSome, MatchOption};
ghost use Rattle.client_script.specs.Writes.{written_named as written_by_word, IsWritten};

use crate::line::Line;
use std::alloc::{AllocError as NoMemory, Global};
use std::marker::Model;
use text_forms::hex_bytes;

/// The most bytes of a write: those of 64 packets.
pub const MOST_WRITTEN: usize = 12_032;

/// The bytes of a write, as a word spells them. A contract sees the list of them.
#[derive(Drop)]
pub struct Written<'a> {
    word: &'a [u8],
}

impl<'a> Model for Written<'a> {
    ghost use Rattle.std.specs.Prelude.{List, ℕ, [], IsSome, unwrap_or};
    ghost use Rattle.client_script.specs.Writes.{written_named};

    ghost Value = { List ℕ };

    ghost view = { λ w. unwrap_or (written_named w.word.now) [] };

    ghost invariant = { λ w. IsSome (written_named w.word.now) };
}

/// What a line says: what it asks for, or what a client writes, which the script numbers.
#[derive(Drop)]
pub enum Said<'a> {
    /// It asks for this.
    Asks(Line),
    /// A client writes these bytes to the dvr device.
    Writes {
        /// The number of the line, from 1 on.
        line: u32,
        /// The client, 0 to 7.
        client: u32,
        /// The bytes.
        bytes: Written<'a>,
    },
}

/// The bytes of a write that a word spells: 1 to 12,032, in two lower-case hexadecimal digits each.
#[tactic(auto, unfolding(crate::specs::Writes::written_named))]
pub fn written_named(word: &[u8]) -> Option<Written<'_>>
    ensures { MatchOption result (written_by_word word.now ≡ None) (λ bytes. written_by_word word.now ≡ Some bytes) }
{
    if word.is_empty() {
        return None;
    }
    let _bytes = hex_bytes::<MOST_WRITTEN>(word)?;
    Some(Written { word })
}

impl<'a> Written<'a> {
    /// A copy of the bytes.
    #[tactic(auto, using(crate::proofs::Writing::spelled, crate::proofs::Writing::never_none, crate::proofs::Writing::written_is))]
    pub fn copied(&self, alloc: Global) -> Result<Vec<u8>, NoMemory>
        ensures value { IfOk result (λ bytes. bytes.items ≡ self.now) }
        ensures range { IfOk result (λ bytes. IsWritten bytes.items) }
    {
        let Some(bytes) = hex_bytes::<MOST_WRITTEN>(self.word) else {
            unreachable!();
        };
        let mut copy = Vec::new(alloc);
        copy.extend_from_slice(bytes.as_slice())?;
        Ok(copy)
    }
}
