// The words of a line, one after another.
ghost use Rattle.std.specs.Prelude.{◌≡◌, ◌<◌, ◌-◌, ◌^◌, ◌==◌, [], ◌∷◌, length, count_by, MatchOption, MatchResult};
ghost use Rattle.client_script.specs.Words.{words_of, word_in};

use crate::fault::FaultKind;
use crate::pieces::cut_at;
use crate::wanted::{WantedWord, WordFault};
use std::marker::Model;

// How many spaces there are.
fn spaces(bytes: &[u8]) -> usize
    ensures count { result ≡ count_by (λ byte. byte == 32) bytes.now }
    ensures bound { result < 2 ^ 64 - 2 }
{
    bytes.iter().filter(|byte| **byte == b' ').count()
}

/// The words of a line that are still to be read.
#[derive(Drop)]
pub struct Words<'a> {
    // The bytes from the next word on; None where no word is left.
    rest: Option<&'a [u8]>,
}

impl<'a> Model for Words<'a> {
    ghost use Rattle.std.specs.Prelude.{List, ℕ, []};
    ghost use Rattle.std.specs.Option.{option_map_or};
    ghost use Rattle.client_script.specs.Words.{words_of};

    ghost Value = { List (List ℕ) };

    ghost view = { λ w. option_map_or (λ rest. words_of rest.now) w.rest [] };
}

impl<'a> Words<'a> {
    /// All words of a line.
    pub fn of(line: &'a [u8]) -> Words<'a>
        ensures { result ≡ words_of line.now }
    {
        Words { rest: Some(line) }
    }

    /// The next word; None where no word is left.
    pub fn next(&mut self) -> Option<&'a [u8]>
        ensures { MatchOption result ((self.old ≡ []) × (self.new ≡ [])) (λ word. self.old ≡ word.now ∷ self.new) }
    {
        let (word, behind) = cut_at(b' ', self.rest?);
        self.rest = behind;
        Some(word)
    }

    /// The word in the next place, which asks for this.
    #[tactic(auto, unfolding(crate::specs::Words::word_in))]
    pub fn word(&mut self, wanted: WantedWord) -> Result<&'a [u8], WordFault>
        ensures { MatchResult result (λ word. word_in wanted self.old ≡ Ok (word.now, self.new))
            (λ fault. word_in wanted self.old ≡ Err (fault, self.new)) }
    {
        self.next().ok_or(wanted.fault(FaultKind::Count))
    }

    /// How many words are left.
    pub fn count(&self) -> usize
        ensures count { result ≡ length self.now }
        ensures bound { result < 2 ^ 64 - 1 }
    {
        match self.rest {
            None => 0,
            Some(rest) => spaces(rest) + 1,
        }
    }
}
