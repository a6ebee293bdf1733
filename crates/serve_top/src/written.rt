// A journal that writes lines.
ghost use Rattle.std.specs.Prelude.{◌≡◌, ◌++◌, [], true, IfOk, IsOk, OnOk};
ghost use Rattle.serve_top.specs.Imports.{Appends, text_of, told_entry, told_head};
ghost use Rattle.serve_top.specs.Lines.{call_line, fed_line, HasWritten};

use crate::server::NoReport;
use dmx_calls::limits::NODES;
use dmx_calls::{Entry, Fed, Outcome};
use emu_io::Sink;
use report_text::{add_end, add_entry, add_head, write_all};
use seats::{Journal, Made};
use std::alloc::{AllocError as NoMemory, Global};
use text_forms::{write_decimal, write_node};
use ts_batch::Batch;
use ts_watch::Head;
use workers::Batches;

/// A journal that writes a line for each call, or for each batch, as it is given them. Where a write fails, or memory for a line
/// is refused, it isn't whole any more; that it then writes nothing more is tested, and no clause.
#[derive(Drop)]
pub struct WrittenLines<K: Drop> {
    /// Where the lines go.
    pub sink: K,
    /// The line that was made last.
    pub line: Vec<u8>,
    /// All lines were written.
    pub whole: bool,
}

// The line of a call.
fn add_call(out: &mut Vec<u8>, entry: &Entry) -> Result<(), NoMemory>
    ensures { OnOk result (out.new.items ≡ out.old.items ++ call_line (told_entry entry.now)) }
{
    write_node(out, entry.node)?;
    out.extend_from_slice(b" ")?;
    add_entry(out, entry)
}

// The line of a batch.
fn add_fed(out: &mut Vec<u8>, fed: Fed) -> Result<(), NoMemory>
    ensures { OnOk result (out.new.items ≡ out.old.items ++ fed_line fed) }
{
    write_decimal(out, fed.first)?;
    out.extend_from_slice(b" ")?;
    write_decimal(out, fed.count as u64)?;
    out.extend_from_slice(b" ")?;
    write_decimal(out, fed.now)?;
    out.extend_from_slice(b"\n")
}

impl<K: Sink + Drop> WrittenLines<K> {
    /// A journal that has written nothing to this sink yet.
    pub fn new(alloc: Global, sink: K) -> WrittenLines<K>
        ensures { (result.sink ≡ sink) × (result.whole ≡ true) }
    {
        WrittenLines {
            sink,
            line: Vec::new(alloc),
            whole: true,
        }
    }

    // Writes the line that was made last, if it was made.
    fn write(&mut self, made: Result<(), NoMemory>)
        ensures { self.new.whole ≡ true → IsOk made × (self.old.whole ≡ true)
            × Appends (K.end self.old.sink).written (K.end self.new.sink).written self.old.line.items }
    {
        if self.whole {
            self.whole = made.is_ok() && write_all(&mut self.sink, &self.line).is_ok();
        }
    }

    // Writes the line of a call.
    fn put(&mut self, entry: &Entry)
        ensures { HasWritten K.end (call_line (told_entry entry.now)) self.old self.new }
    {
        self.line.clear();
        let made = add_call(&mut self.line, entry);
        self.write(made);
    }
}

impl<K: Sink + Drop> Journal for WrittenLines<K> {
    ghost use Rattle.std.specs.List.{flat_map};
    ghost use Rattle.serve_top.specs.Lines.{call_line, HasWritten};
    ghost use Rattle.serve_top.specs.Inside.Writing.{written_none, written_both};

    ghost took = { λ calls told a b. HasWritten K.end (flat_map call_line calls) a b };

    fn hear(&mut self, _calls: &[Made]) {}

    fn take(&mut self, calls: Vec<Entry>, _told: &[Outcome]) -> Result<(), Vec<Entry>> {
        'calls: for call in &calls {
            self.put(call);
        }
        Ok(())
    }

    fn last(&self) -> Option<&Entry> {
        None
    }

    fn miss(&mut self) {
        self.whole = false;
    }

    ghost took_none = { λ a. written_none K.end a };

    ghost took_both = { λ a b c xs ys os ps p q. written_both K.end call_line a b c xs ys p q };
}

impl<K: Sink + Drop> Batches for WrittenLines<K> {
    ghost use Rattle.std.specs.List.{flat_map};
    ghost use Rattle.serve_top.specs.Lines.{fed_line, HasWritten};
    ghost use Rattle.serve_top.specs.Inside.Writing.{written_none, written_both};

    ghost took = { λ feeding a b. HasWritten K.end (flat_map fed_line feeding) a b };

    fn begin(&mut self, _batch: &Batch) {}

    fn take(&mut self, fed: Fed, _places: &[u64; NODES as usize]) -> Result<(), NoMemory> {
        self.line.clear();
        let made = add_fed(&mut self.line, fed);
        self.write(made);
        Ok(())
    }

    fn finish(&mut self, _places: &[u64; NODES as usize]) {}

    ghost took_none = { λ a. written_none K.end a };

    ghost took_both = { λ a b c xs ys p q. written_both K.end fed_line a b c xs ys p q };
}

// The report that tells this of the stream, and no call.
fn head_text(alloc: Global, head: &Head) -> Result<Vec<u8>, NoMemory>
    ensures { IfOk result (λ text. text.items ≡ text_of (record { head = told_head head.now; outcomes = []; nodes = [] })) }
{
    let mut text = Vec::new(alloc);
    add_head(&mut text, head)?;
    add_end(&mut text, head.read_fault)?;
    Ok(text)
}

/// Writes the report that tells this of the stream, and no call.
///
/// # Errors
///
/// `NoMemory` where memory was refused, and nothing was written; `Failed` where a write failed.
pub fn write_head<K: Sink>(alloc: Global, sink: &mut K, head: &Head) -> Result<(), NoReport>
    ensures { OnOk result (Appends (K.end sink.old).written (K.end sink.new).written
        (text_of (record { head = told_head head.now; outcomes = []; nodes = [] }))) }
{
    let text = head_text(alloc, head)?;
    match write_all(sink, &text) {
        Ok(()) => Ok(()),
        Err(_) => Err(NoReport::Failed),
    }
}
