// The lines of a whole script.
ghost use Rattle.std.specs.Prelude.{◌≡◌, ◌+◌, ◌<◌, ◌≤◌, ◌∷◌, ◌++◌, [], length, IfOk, IfErr, IfSome, OnOk, MatchOption};
ghost use Rattle.std.specs.List.{All};
ghost use Rattle.client_script.specs.Words.{Reads};
ghost use Rattle.client_script.specs.Grammar.{whole_in, line_of as line_by_grammar, meaning as meaning_of, is_passed_over, IsInRange, IsPlain, IsSaidInRange};
ghost use Rattle.client_script.specs.Writes.{IsWritten};
ghost use Rattle.client_script.specs.Script.{whole_lines, grammar, most_bytes, clients_of, clients_in, plain, writes_of, written_by, with_said, with_write, IsScript, IsRead};

use crate::fault::{FaultKind, ScriptError, ScriptFault};
use crate::line::{Line, Target, Verb};
use crate::pieces::cut_at;
use crate::said::Said;
use crate::verbs::read_words;
use crate::wanted::{WantedWord, WordFault};
use crate::words::Words;
use crate::writes::ClientWrites;
use std::alloc::Global;
use std::marker::Model;
use text_forms::is_word;

/// How many bytes of an input are searched for the line `stream`.
pub const MOST_BYTES: usize = 1_048_576;

/// A script, up to its line `stream`. A contract sees it as what it says (`Scripted`).
#[derive(Debug, Drop)]
pub struct Script {
    lines: Vec<Line>,
    writes: [ClientWrites; 8],
}

impl Model for Script {
    ghost use Rattle.client_script.specs.Script.{IsScript, Scripted};

    ghost Value = { Scripted };

    ghost view = { λ s. record { lines = s.lines.items; writes = s.writes } };

    ghost invariant = { λ s. IsScript (record { lines = s.lines.items; writes = s.writes }) };
}

// Whether a line is empty or a comment.
fn passes_over(line: &[u8]) -> bool
    ensures { result ≡ is_passed_over line.now }
{
    match line {
        [] => true,
        [first, ..] => *first == b'#',
    }
}

// What all words of a line say.
fn read_whole<'a>(number: u32, words: &mut Words<'a>) -> Result<Said<'a>, WordFault>
    requires { (1 ≤ number) × (number ≤ 1048576) }
    ensures value { Reads result words.new (whole_in number words.old) }
    ensures range { IfOk result IsSaidInRange }
{
    let said = read_words(number, words)?;
    if words.count() == 0 {
        Ok(said)
    } else {
        Err(WantedWord::End.fault(FaultKind::Count))
    }
}

// What a line says.
#[tactic(auto, unfolding(crate::specs::Grammar::line_of))]
fn read_line(number: u32, line: &[u8]) -> Result<Said<'_>, ScriptFault>
    requires { (1 ≤ number) × (number ≤ 1048576) }
    ensures value { result ≡ line_by_grammar number line.now }
    ensures range { IfOk result IsSaidInRange }
{
    let mut words = Words::of(line);
    match read_whole(number, &mut words) {
        Ok(said) => Ok(said),
        Err(fault) => {
            let read = Words::of(line).count().saturating_sub(words.count());
            Err(fault.in_line(number, read))
        }
    }
}

// What a line means: nothing, or what it says.
#[tactic(auto, unfolding(crate::specs::Grammar::meaning))]
fn meaning(number: u32, line: &[u8]) -> Result<Option<Said<'_>>, ScriptFault>
    requires { (1 ≤ number) × (number ≤ 1048576) }
    ensures value { result ≡ meaning_of number line.now }
    ensures range { IfOk result (λ said. IfSome said IsSaidInRange) }
{
    if passes_over(line) {
        return Ok(None);
    }
    let said = read_line(number, line)?;
    Ok(Some(said))
}

// The first whole line without its line feed, and the bytes behind it; None where there is no line feed.
fn next_line(bytes: &[u8]) -> Option<(&[u8], &[u8])>
    ensures line { MatchOption result (whole_lines bytes.now ≡ []) (λ r. whole_lines bytes.now
        ≡ r.0.now ∷ whole_lines r.1.now) }
    ensures shorter { IfSome result (λ r. length r.0.now + length r.1.now + 1 ≡ length bytes.now) }
{
    let (line, behind) = cut_at(b'\n', bytes);
    Some((line, behind?))
}

// How many clients there are up to the one that a line names.
fn clients_named(line: &Line) -> u32
    requires { IsInRange line.now }
    ensures count { result ≡ clients_of line.now }
    ensures bound { result ≤ 8 }
{
    match line {
        Line::Command { client, .. } => *client + 1,
        _ => 0,
    }
}

impl Script {
    // Without a line. No memory is taken.
    #[tactic(auto, using(crate::proofs::Taking::script_none))]
    fn empty(alloc: Global) -> Script
        ensures { result ≡ plain [] }
    {
        Script {
            lines: Vec::new(alloc),
            writes: [
                ClientWrites::new(alloc),
                ClientWrites::new(alloc),
                ClientWrites::new(alloc),
                ClientWrites::new(alloc),
                ClientWrites::new(alloc),
                ClientWrites::new(alloc),
                ClientWrites::new(alloc),
                ClientWrites::new(alloc),
            ],
        }
    }

    // Takes a line that asks for something else than a write.
    #[tactic(auto, using(crate::proofs::Taking::script_line))]
    fn add_line(&mut self, line: Line) -> Result<(), ScriptError>
        requires few { length self.old.lines < most_bytes }
        requires range { IsInRange line }
        requires plain { IsPlain line }
        ensures added { OnOk result (self.new ≡ record self.old { lines = self.old.lines ++ line ∷ [] }) }
        ensures refused { IfErr result (λ error. error ≡ ScriptError.NoMemory) }
    {
        self.lines.push(line)?;
        Ok(())
    }

    // Takes a line that writes these bytes, which are the client's next write.
    #[tactic(auto, using(crate::proofs::Taking::script_write))]
    fn add_write(&mut self, line: u32, client: u32, bytes: Vec<u8>) -> Result<(), ScriptError>
        requires lines { length self.old.lines < most_bytes }
        requires writes { length (writes_of client self.old.writes) < most_bytes }
        requires number { (1 ≤ line) × (line ≤ 1048576) }
        requires client { client ≤ 7 }
        requires range { IsWritten bytes.items }
        ensures added { OnOk result (self.new ≡ with_write line client bytes.items self.old) }
        ensures refused { IfErr result (λ error. error ≡ ScriptError.NoMemory) }
    {
        self.lines.reserve(1)?;
        let writes = &mut self.writes[client as usize];
        let verb = Verb::Write(writes.len() as u32);
        writes.push(bytes)?;
        self.lines.push_reserved(Line::Command {
            line,
            client,
            target: Target::Dvr,
            verb,
        });
        Ok(())
    }

    // Takes what a line says.
    #[tactic(auto, using(crate::proofs::Taking::one_below))]
    fn add(&mut self, alloc: Global, said: Option<Said<'_>>) -> Result<(), ScriptError>
        requires lines { length self.old.lines < most_bytes }
        requires writes { All (λ writes. length writes < most_bytes) self.old.writes }
        requires range { IfSome said IsSaidInRange }
        ensures added { OnOk result (self.new ≡ with_said said.entry self.old) }
        ensures refused { IfErr result (λ error. error ≡ ScriptError.NoMemory) }
    {
        match said {
            None => Ok(()),
            Some(Said::Asks(line)) => self.add_line(line),
            Some(
                Said::Writes {
                    line,
                    client,
                    bytes,
                },
            ) => {
                let bytes = bytes.copied(alloc)?;
                self.add_write(line, client, bytes)
            }
        }
    }

    /// Reads a script: the bytes up to and with its line `stream`, or all bytes that were searched for that line.
    ///
    /// # Errors
    ///
    /// `Fault` exactly where the grammar names that fault, and `NoMemory`.
    pub fn read(alloc: Global, bytes: &[u8]) -> Result<Script, ScriptError>
        requires { length bytes.now ≤ most_bytes }
        ensures { IsRead result (grammar bytes.now) }
    {
        let mut script = Script::empty(alloc);
        let mut number: u32 = 1;
        let mut rest = bytes;
        'lines: while let Some((line, behind)) = next_line(rest) {
            if is_word(line, "stream") {
                return Ok(script);
            }
            match meaning(number, line) {
                Ok(said) => script.add(alloc, said)?,
                Err(fault) => return Err(ScriptError::Fault(fault)),
            }
            number += 1;
            rest = behind;
        }
        Err(ScriptError::Fault(ScriptFault {
            line: number,
            kind: FaultKind::NoStream,
            word: None,
        }))
    }

    /// How many writes a client makes.
    pub fn writes(&self, client: u32) -> u32
        ensures count { result ≡ length (writes_of client self.now.writes) }
        ensures bound { result ≤ most_bytes }
    {
        match self.writes.get(client as usize) {
            None => 0,
            Some(writes) => writes.len() as u32,
        }
    }

    /// The bytes of a write of a client, which makes more writes than this.
    pub fn written(&self, client: u32, write: u32) -> &[u8]
        requires { write < length (writes_of client self.now.writes) }
        ensures bytes { result.now ≡ written_by client self.now.writes write }
        ensures known { IsWritten result.now }
    {
        self.writes[client as usize].get(write as usize)
    }

    /// The lines, in their order.
    pub fn lines(&self) -> &[Line]
        ensures lines { result.now ≡ self.now.lines }
        ensures known { IsScript self.now }
    {
        self.lines.as_slice()
    }

    /// How many clients there are: 1 plus the highest that a line names, or 0.
    pub fn clients(&self) -> u32
        ensures count { result ≡ clients_in self.now }
        ensures bound { result ≤ 8 }
        ensures known { IsScript self.now }
    {
        let mut most = 0;
        'lines: for line in &self.lines {
            most = most.max(clients_named(line));
        }
        most
    }
}
