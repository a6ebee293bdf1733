//! Reports that are read: what a report tells, or that a text is none.
//!
//! `read_report` reads a whole report, whoever wrote it, and `read_line` a line of a node. What was read is written again, line
//! by line, by `report_text`, and compared with the bytes: so nobody needs to believe how the code reads.
//!
//! What a contract sees: the bytes as a list of numbers, and what a report tells as a record of numbers and lists (`told_of`). A
//! text is a report (`IsReport`, `specs/Report.antt`) where it is the text of something that is in range (`specs/Ranges.antt`)
//! and in order: rows of PIDs that have a packet, and nodes that a client called, ascending; entries each with its index as its
//! place.
//!
//! What is proved: `read_report` answers what the bytes tell where they are a report, and None where they are none; `read_line`
//! the same of a line. Nothing is said where memory was refused. Laws: a report tells one thing at most
//! (`reports_tell_one_thing`), and so does a line (`lines_tell_one_entry`).
//!
//! What is only tested: that ample memory is enough (`tests_text`), and texts at the edges of what is a report, by the command
//! check (`examples/`). Whether a report is right for its session is asked in `report_check`. Limits: the time is linear in the
//! bytes; memory is taken for what it tells, the text in front of its nodes and a line. Reports are this project's own.
#![tactic(auto)]

mod acts;
mod bytes;
mod clients;
mod decoded;
mod entries;
mod nodes;
mod order;
mod parts;
mod replies;
mod sets;
mod spelled;
mod stream;
mod whole;

ghost use Rattle.report_read.specs.Laws.{LinesTellOneEntry, ReportsTellOneThing};

pub use entries::read_line;
pub use whole::{ReadReport, read_report};

/// The law of lines: a line of a node tells one entry at most. It has nothing to do.
#[tactic(auto, using(crate::proofs::Again::one_entry))]
pub fn lines_tell_one_entry()
    ensures { LinesTellOneEntry }
{}

/// The law of reports: a report tells one thing at most. It has nothing to do.
#[tactic(auto, using(crate::proofs::WholeAgain::one_thing))]
pub fn reports_tell_one_thing()
    ensures { ReportsTellOneThing }
{}
