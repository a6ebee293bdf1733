// The line at which a text stops being a report, and what may stand there. Nothing is claimed of it.
use crate::expected::Expected;
use crate::fault::{Fault, ReportFaultKind};
use crate::forms::adds_part;
use report_read::{read_line, read_report};
use std::alloc::{AllocError as NoMemory, Global};
use text_forms::write_decimal;

// A report's first line; its first two, of a stream without packets; a call that may be first on any node; the two last lines.
const FIRST: &[u8] = b"dvbemu 1\n";

const HEAD: &[u8] = b"dvbemu 1\npackets=0 skipped=0 rest=0\n";

const CALL: &[u8] = b"0 c0 0 stop = EBADF\n";

const END: &[u8] = b"end\n";

const READ_FAULT: &[u8] = b"fault read\n";

// The forms of lines, and what may stand behind clients and nodes.
const ROW: &[u8] =
    b"pid P packets=N breaks=N duplicates=N errors=N, with ascending P up to 8191 and packets above 0";

const COMMAND: &[u8] =
    b"line L steps A..B OUTCOME: done, EMFILE, unbound, nostc or stc base=N value=N";

const NODE: &[u8] = b"node N, with ascending N up to 31, or dvr behind them";

const LAST: &[u8] = b", node .., end or fault read";

// What the line before tells.
#[derive(Clone, Copy, Debug, PartialEq, Eq, Drop)]
enum TextPart {
    Nothing,
    First,
    Stream,
    Clients,
    Node,
    End,
}

// Lines that begin a report, as far as the next one asks for it.
#[derive(Clone, Copy, Drop)]
struct FirstLines<'a> {
    part: TextPart,
    // The line of the last PID, or of the last node.
    last: &'a [u8],
    clients: u64,
    // How many entries the last node has, and whether a client made one of them.
    entries: u64,
    called: bool,
}

// Whether these, one behind another, are a report.
fn are_report(alloc: Global, parts: &[&[u8]]) -> Result<bool, NoMemory> {
    let mut text = Vec::new(alloc);
    'parts: for part in parts {
        text.extend_from_slice(part)?;
    }
    Ok(read_report(alloc, &text)?.is_some())
}

impl<'a> FirstLines<'a> {
    // No line.
    fn new() -> FirstLines<'a> {
        FirstLines {
            part: TextPart::Nothing,
            last: &[],
            clients: 0,
            entries: 0,
            called: false,
        }
    }

    fn takes_first(&mut self, line: &[u8]) -> bool {
        self.part = TextPart::First;
        line == FIRST
    }

    fn takes_tally(&mut self, alloc: Global, line: &[u8]) -> Result<bool, NoMemory> {
        self.part = TextPart::Stream;
        are_report(alloc, &[FIRST, line, END])
    }

    fn takes_row(&mut self, alloc: Global, line: &'a [u8]) -> Result<bool, NoMemory> {
        let before = self.last;
        self.last = line;
        Ok(self.part == TextPart::Stream && are_report(alloc, &[HEAD, before, line, END])?)
    }

    fn takes_client(&mut self, alloc: Global, line: &[u8]) -> Result<bool, NoMemory> {
        let mut next = Vec::new(alloc);
        next.extend_from_slice(b"client ")?;
        write_decimal(&mut next, self.clients)?;
        next.extend_from_slice(b"\n")?;
        let is_next = self.part != TextPart::Node && next.as_slice() == line;
        self.part = TextPart::Clients;
        self.clients = self.clients.saturating_add(1);
        Ok(is_next)
    }

    fn takes_command(&mut self, alloc: Global, line: &[u8]) -> Result<bool, NoMemory> {
        Ok(self.part == TextPart::Clients && are_report(alloc, &[HEAD, b"client 0\n", line, END])?)
    }

    fn takes_node(&mut self, alloc: Global, line: &'a [u8]) -> Result<bool, NoMemory> {
        let is_next = match self.part {
            TextPart::Node => {
                self.called && are_report(alloc, &[HEAD, self.last, CALL, line, CALL, END])?
            }
            _ => are_report(alloc, &[HEAD, line, CALL, END])?,
        };
        self.part = TextPart::Node;
        self.last = line;
        self.entries = 0;
        self.called = false;
        Ok(is_next)
    }

    fn takes_entry(&mut self, alloc: Global, line: &[u8]) -> Result<bool, NoMemory> {
        let Some(entry) = read_line(alloc, 0, line)? else {
            return Ok(false);
        };
        let is_next = self.part == TextPart::Node && entry.place == self.entries;
        self.entries = self.entries.saturating_add(1);
        self.called = self.called || entry.who > 0;
        Ok(is_next)
    }

    fn takes_end(&mut self) -> bool {
        let is_whole = self.part != TextPart::Node || self.called;
        self.part = TextPart::End;
        is_whole
    }

    // Goes past one line more, its line feed with it; false where no report begins so.
    fn takes(&mut self, alloc: Global, line: &'a [u8]) -> Result<bool, NoMemory> {
        match self.part {
            TextPart::Nothing => Ok(self.takes_first(line)),
            TextPart::First => self.takes_tally(alloc, line),
            TextPart::End => Ok(false),
            _ if line.starts_with(b"pid ") => self.takes_row(alloc, line),
            _ if line.starts_with(b"client ") => self.takes_client(alloc, line),
            _ if line.starts_with(b"line ") => self.takes_command(alloc, line),
            _ if line.starts_with(b"node ") => self.takes_node(alloc, line),
            _ if line == END || line == READ_FAULT => Ok(self.takes_end()),
            _ => self.takes_entry(alloc, line),
        }
    }

    // Puts what may stand in the line behind these, which is another one, behind these bytes.
    fn add_next(&self, alloc: Global, out: &mut Vec<u8>, line: &[u8]) -> Result<(), NoMemory> {
        match self.part {
            TextPart::Nothing => out.extend_from_slice(b"dvbemu 1"),
            TextPart::First => out.extend_from_slice(b"packets=N skipped=N rest=N"),
            TextPart::End => out.extend_from_slice(b"nothing behind the last line"),
            TextPart::Node => self.add_next_on_node(alloc, out, line),
            _ if line.starts_with(b"node ") => out.extend_from_slice(NODE),
            TextPart::Stream if line.starts_with(b"pid ") => out.extend_from_slice(ROW),
            TextPart::Clients if line.starts_with(b"line ") => out.extend_from_slice(COMMAND),
            TextPart::Stream => out.extend_from_slice(
                b"pid .., client 0, node .., end or fault read",
            ),
            TextPart::Clients => {
                out.extend_from_slice(b"line .., client ")?;
                write_decimal(out, self.clients)?;
                out.extend_from_slice(LAST)
            }
        }
    }

    // The same on a node: an entry, and where a client has called the node also the next node or the end.
    fn add_next_on_node(
        &self,
        alloc: Global,
        out: &mut Vec<u8>,
        line: &[u8],
    ) -> Result<(), NoMemory> {
        if self.called && line.starts_with(b"node ") {
            return out.extend_from_slice(NODE);
        }
        if adds_part(alloc, out, self.entries, line)? {
            return Ok(());
        }
        write_decimal(out, self.entries)?;
        out.extend_from_slice(b" WHO STEP ACT = REPLY")?;
        match line {
            [b'0'..=b'9', ..] => Ok(()),
            _ if self.called => out.extend_from_slice(LAST),
            _ => Ok(()),
        }
    }
}

/// What is wrong with a text that is no report: the first line with which no report begins, or the one in which the text ends.
pub fn fault_of_text(alloc: Global, text: &[u8]) -> Result<Fault, NoMemory> {
    let mut front = FirstLines::new();
    let mut line: u64 = 1;
    let mut rest = text;
    let mut next = Vec::new(alloc);
    'lines: while let Some(end) = rest.iter().position(|byte| *byte == b'\n') {
        let before = front;
        if !front.takes(alloc, &rest[..end + 1])? {
            before.add_next(alloc, &mut next, &rest[..end])?;
            return Ok(fault_at(line, &next));
        }
        line = line.saturating_add(1);
        rest = &rest[end + 1..];
    }
    if rest.is_empty() || front.part == TextPart::End {
        front.add_next(alloc, &mut next, rest)?;
    } else {
        next.extend_from_slice(b"a line feed at the end of the line")?;
    }
    Ok(fault_at(line, &next))
}

// What is wrong in a line, where this may stand there.
fn fault_at(line: u64, next: &[u8]) -> Fault {
    Fault {
        line,
        kind: ReportFaultKind::Text,
        expected: Some(Expected::of(next)),
    }
}
