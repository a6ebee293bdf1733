// The first bytes of an input, searched for the end of its script part.
ghost use Rattle.std.specs.Prelude.{◌≡◌, ◌≤◌, ◌++◌, [], length, take, drop, true, false, Some, OnOk, OnErr, IfSome, MatchOption};
ghost use Rattle.client_script.specs.Script.{script_len, whole_lines};
ghost use Rattle.client_script.specs.Inside.Part.{FallsInto, HasNoFeed, Passes};

use crate::pieces::place_of;
use std::alloc::{AllocError as NoMemory, Global};
use std::marker::Model;
use text_forms::is_word;

/// The first bytes of an input, which come in pieces. It knows where the line `stream` ends as soon as that line is whole,
/// and has looked at each byte once. A contract sees it as the list of its bytes.
#[derive(Debug, Drop)]
pub struct ScriptPart {
    bytes: Vec<u8>,
    // Where the line begins that isn't whole yet.
    begun: usize,
    // How many bytes there are up to and with the line `stream`, once it is whole.
    end: Option<usize>,
}

impl Model for ScriptPart {
    ghost use Rattle.std.specs.Prelude.{List, ℕ};
    ghost use Rattle.client_script.specs.Inside.Part.{IsSearched};

    ghost Value = { List ℕ };

    ghost view = { λ s. s.bytes.items };

    ghost invariant = { λ s. IsSearched s.bytes.items s.begun s.end };
}

// The first whole line without its line feed, and the bytes behind it; None where there is no line feed. So many bytes from
// the front are known to have none.
fn first_line(bytes: &[u8], known: usize) -> Option<(&[u8], &[u8])>
    requires within { known ≤ length bytes.now }
    requires known { HasNoFeed (take known bytes.now) }
    ensures { MatchOption result (HasNoFeed bytes.now) (λ r. FallsInto bytes.now r.0.now r.1.now) }
{
    match place_of(b'\n', &bytes[known..]) {
        Some(place) => Some((&bytes[..known + place], &bytes[known + place + 1..])),
        None => None,
    }
}

// How many bytes of whole lines stand at the front, up to and with the line `stream`, and whether that line is there. So
// many bytes from the front are known to have no line feed.
fn pass_lines(bytes: &[u8], known: usize) -> (usize, bool)
    requires within { known ≤ length bytes.now }
    requires known { HasNoFeed (take known bytes.now) }
    ensures found { result.1 ≡ true → script_len (whole_lines bytes.now) ≡ Some result.0 }
    ensures passed { result.1 ≡ false → Passes result.0 bytes.now }
    ensures line { result.1 ≡ false → HasNoFeed (drop result.0 bytes.now) }
    ensures front { result.0 ≤ length bytes.now }
{
    let mut passed = 0;
    let mut rest = bytes;
    let mut known = known;
    'lines: while let Some((line, behind)) = first_line(rest, known) {
        passed += line.len() + 1;
        rest = behind;
        known = 0;
        if is_word(line, "stream") {
            return (passed, true);
        }
    }
    (passed, false)
}

impl ScriptPart {
    /// No bytes.
    pub fn new(alloc: Global) -> ScriptPart
        ensures { result ≡ [] }
    {
        ScriptPart {
            bytes: Vec::new(alloc),
            begun: 0,
            end: None,
        }
    }

    /// Adds the next bytes of the input.
    ///
    /// # Errors
    ///
    /// `NoMemory`; the bytes are then as they were.
    pub fn add(&mut self, piece: &[u8]) -> Result<(), NoMemory>
        ensures added { OnOk result (self.new ≡ self.old ++ piece.now) }
        ensures unchanged { OnErr result (self.new ≡ self.old) }
    {
        let known = self.bytes.len();
        self.bytes.extend_from_slice(piece)?;
        if self.end.is_none() {
            let begun = self.begun;
            let (passed, found) = pass_lines(&self.bytes[begun..], known - begun);
            self.begun = begun + passed;
            if found {
                self.end = Some(begun + passed);
            }
        }
        Ok(())
    }

    /// The bytes so far.
    pub fn bytes(&self) -> &[u8]
        ensures { result.now ≡ self.now }
    {
        self.bytes.as_slice()
    }

    /// How many bytes there are up to and with the first whole line `stream`; None while none of the bytes so far is that
    /// line.
    pub fn end(&self) -> Option<usize>
        ensures value { result ≡ script_len (whole_lines self.now) }
        ensures within { IfSome result (λ n. n ≤ length self.now) }
    {
        self.end
    }
}
