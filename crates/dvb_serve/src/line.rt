// The line of a seat over named pipes: one program after another.
ghost use Rattle.std.specs.Prelude.{◌<◌, ◌≤◌, length, None, IfOk};
ghost use Rattle.std.specs.Io.{ReadsAtMost};
ghost use Rattle.std.specs.Io.KnownBytes.{ReadConsumes, WriteAppends};
ghost use Rattle.emu_io.specs.Causes.{HasCause};

use emu_io::{Failed, Sink, Source, read_again, write_again};
use seats::serve_frames::numbers::{LEAVE, REQUEST_LEN};
use std::fs::{File, OpenOptions};
use std::io;
use std::marker::Model;

// How often the next name at the door is read where the one before brought no program.
const TRIES: u64 = u64::MAX;

// How many bytes a name at the door has: digits, and zeros behind them.
const NAME: usize = 64;

// Reads until the buffer is full. False where the file has ended before, or fails.
fn fill(input: &mut File, into: &mut [u8; REQUEST_LEN]) -> bool {
    let mut done = 0;
    'pieces: while done < REQUEST_LEN {
        match read_again(input, &mut into[done..]) {
            Some(count) if count > 0 => done += count,
            _ => return false,
        }
    }
    true
}

// The request of a program that has gone: all its nodes are closed.
fn leaving() -> [u8; REQUEST_LEN] {
    let mut request = [0u8; REQUEST_LEN];
    request[0] = LEAVE as u8;
    request
}

// The two ends of a program.
#[derive(Drop)]
struct Program {
    from: File,
    to: File,
}

// How far a line is.
#[derive(Drop)]
enum At {
    // It waits at the door.
    Door,
    // It has a program.
    Program(Program),
    // Its program takes no reply any more.
    Gone,
}

// The programs of a seat, which come one after another.
#[derive(Drop)]
struct Programs {
    rt: HostRuntime,
    folder: String,
    door: File,
    at: At,
    // Its last request.
    request: [u8; REQUEST_LEN],
}

/// The line of a seat: requests come from one program after another, which tells its name at the door, and replies go to it.
///
/// A program makes two named pipes, `NAME.ask` and `NAME.tell` with digits for NAME, and writes NAME, with zeros up to 64 bytes,
/// to the pipe `door` of the same folder. Where it has gone the line gives the request that closes all its nodes, and what is
/// told to that goes nowhere. A request is given once it is whole. The line ends where the door does.
#[derive(Drop)]
pub struct PipeLine {
    programs: Programs,
    // How many bytes of the request were given.
    given: usize,
    faults: u64,
}

impl Model for PipeLine {
    ghost use Rattle.std.specs.Prelude.{ℕ, ◌≤◌};

    ghost Value = { ℕ };

    ghost view = { λ s. s.faults };

    ghost invariant = { λ s. s.given ≤ 76 };
}

// The name in these bytes, if it is one: digits, and zeros behind them.
fn name_in(bytes: &[u8; NAME]) -> Option<&str> {
    let end = bytes.iter().position(|b| *b == 0).unwrap_or(NAME);
    let name = bytes.get(..end)?;
    if name.is_empty() || !name.iter().all(|b| b.is_ascii_digit()) {
        return None;
    }
    match std::str::from_utf8(name) {
        Ok(name) => Some(name),
        Err(_) => None,
    }
}

// The file of this name and this ending in a folder.
fn path_of(rt: &HostRuntime, folder: &str, name: &str, ending: &str) -> io::Result<String> {
    let mut path = String::from_str(rt.alloc(), folder)?;
    path.push_str("/")?;
    path.push_str(name)?;
    path.push_str(ending)?;
    Ok(path)
}

// The pipe of this path, to be read or to be written. It is held at both of its ends while it is opened, so that this waits for
// nobody.
fn end_of(rt: &HostRuntime, path: &str, reads: bool) -> io::Result<File> {
    let _held = OpenOptions::new().read(true).write(true).open(rt, path)?;
    OpenOptions::new().read(reads).write(!reads).open(rt, path)
}

// The two ends of the program of this name.
fn program_of(rt: &HostRuntime, folder: &str, name: &str) -> io::Result<Program> {
    let ask = path_of(rt, folder, name, ".ask")?;
    let tell = path_of(rt, folder, name, ".tell")?;
    Ok(Program {
        from: end_of(rt, ask.as_str(), true)?,
        to: end_of(rt, tell.as_str(), false)?,
    })
}

impl Programs {
    // The next program at the door. What isn't a name there, or names no pipes, is passed over; None where the door has ended.
    fn next_program(&mut self) -> Option<Program> {
        'names: for _ in 0..TRIES {
            let mut name = [0u8; NAME];
            if read_again(&mut self.door, &mut name).unwrap_or(0) == 0 {
                return None;
            }
            let Some(name) = name_in(&name) else {
                continue;
            };
            if let Ok(program) = program_of(&self.rt, self.folder.as_str(), name) {
                return Some(program);
            }
        }
        None
    }

    // The next request, once it is whole. False where no further program comes.
    fn next_request(&mut self) -> bool {
        if let At::Door = self.at {
            let Some(program) = self.next_program() else {
                return false;
            };
            self.at = At::Program(program);
        }
        let has = match &mut self.at {
            At::Program(program) => fill(&mut program.from, &mut self.request),
            _ => false,
        };
        if !has {
            self.at = At::Door;
            self.request = leaving();
        }
        true
    }

    // Writes to the program at least one byte, and says how many. Where it takes none any more, all of them go nowhere.
    fn write(&mut self, piece: &[u8]) -> usize
        requires { 0 < length piece.now }
        ensures { (1 ≤ result) × (result ≤ length piece.now) }
    {
        let At::Program(program) = &mut self.at else {
            return piece.len();
        };
        if let Some(count) = write_again(&mut program.to, piece) {
            return count;
        }
        self.at = At::Gone;
        piece.len()
    }
}

impl PipeLine {
    /// The line at the door of this folder.
    pub fn new(rt: &HostRuntime, folder: &str) -> io::Result<PipeLine> {
        let path = path_of(rt, folder, "door", "")?;
        let programs = Programs {
            rt: *rt,
            folder: String::from_str(rt.alloc(), folder)?,
            door: end_of(rt, path.as_str(), true)?,
            at: At::Door,
            request: [0; REQUEST_LEN],
        };
        Ok(PipeLine {
            programs,
            given: REQUEST_LEN,
            faults: 0,
        })
    }
}

impl Source for PipeLine {
    ghost end = { λ s. record { left = None; faults = s } };

    /// No read fails: where a program has gone, or the door has, that is no fault of the line.
    fn read(&mut self, into: &mut [u8]) -> Result<usize, Failed>
        requires { 0 < length into.old }
        ensures bound { ReadsAtMost result into.new }
        ensures bytes { ReadConsumes None None result into.new }
        ensures cause { HasCause self.old self.new result }
    {
        if self.given == REQUEST_LEN {
            if !self.programs.next_request() {
                return Ok(0);
            }
            self.given = 0;
        }
        let given = self.given;
        let rest = &self.programs.request[given..];
        let count = rest.len().min(into.len());
        into[..count].copy_from_slice(&rest[..count]);
        self.given = given + count;
        Ok(count)
    }
}

impl Sink for PipeLine {
    ghost end = { λ s. record { written = None; faults = s } };

    /// No write fails: what a program that has gone is told goes nowhere.
    fn write(&mut self, piece: &[u8]) -> Result<usize, Failed>
        requires { 0 < length piece.now }
        ensures bound { IfOk result (λ n. (1 ≤ n) × (n ≤ length piece.now)) }
        ensures bytes { WriteAppends None None result piece.now }
        ensures cause { HasCause self.old self.new result }
    {
        Ok(self.programs.write(piece))
    }
}
