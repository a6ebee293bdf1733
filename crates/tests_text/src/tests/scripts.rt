// The first fault of a script, lines as they are printed, the longest script and the longest line, and a source that keeps its
// script, worked out by hand from the rules.

use super::NoMemory;
use client_script::{
    FaultKind, FaultyWord, MOST_BYTES, NumberName, Script, ScriptError, ScriptFault, ScriptPart,
    WantedWord, print,
};
use emu_io::{Failed, MemSource, Source};
use fault_hints::Keeping;
use std::alloc::Global;

// Scripts with a fault: its line and its kind, and the number of its word and what the word's place asks.
static FAULTS: [(&[u8], u32, FaultKind, usize, WantedWord); 4] = [
    (
        b"c0 open n0\nc0 close n0\nc0 strat n0\nstream\n",
        3,
        FaultKind::Command,
        2,
        WantedWord::Command,
    ),
    (
        b"feed 1\n#\n\nfeed\nstream\n",
        4,
        FaultKind::Count,
        2,
        WantedWord::Number {
            name: NumberName::N,
            least: 1,
            most: 4_294_967_295,
        },
    ),
    (
        b"c0 section n0 1 0 0 3=00/ff/00 3=01/ff/00 x\nstream\n",
        1,
        FaultKind::Bytes,
        8,
        WantedWord::Byte(4),
    ),
    (
        b"feed 1\nc1 ioctl h0 00006f29 - \nstream\n",
        2,
        FaultKind::Count,
        6,
        WantedWord::End,
    ),
];

// The first of these scripts, by its number, that hasn't its fault.
fn odd_fault(alloc: Global) -> Option<usize> {
    for (place, (bytes, line, kind, number, wanted)) in FAULTS.iter().enumerate() {
        let want = ScriptFault {
            line: *line,
            kind: *kind,
            word: Some(FaultyWord {
                number: *number,
                wanted: *wanted,
            }),
        };
        if !has_fault(alloc, bytes, want) {
            return Some(place);
        }
    }
    None
}

// Whether a script has this first fault.
fn has_fault(alloc: Global, bytes: &[u8], want: ScriptFault) -> bool {
    bytes.len() <= MOST_BYTES
        && matches!(Script::read(alloc, bytes), Err(ScriptError::Fault(fault)) if fault == want)
}

// Whether the most bytes of this kind, which have so many line feeds, are no script.
fn is_no_script(alloc: Global, byte: u8, line_feeds: u32) -> Result<bool, NoMemory> {
    let bytes = vec![in alloc; byte; MOST_BYTES]?;
    let want = ScriptFault {
        line: line_feeds.saturating_add(1),
        kind: FaultKind::NoStream,
        word: None,
    };
    Ok(has_fault(alloc, &bytes, want))
}

#[test]
fn the_first_fault_is_named_with_its_line(rt: HostRuntime) {
    assert_eq!(rt; odd_fault(rt.alloc()), None);
    assert_eq!(rt; is_no_script(rt.alloc(), b'#', 0), Ok(true));
    assert_eq!(rt; is_no_script(rt.alloc(), b'\n', 1_048_576), Ok(true));
}

// Scripts but for the line `stream`, and what their lines are printed as: lines that are spelled so already; and lines of
// requests, with other bytes in place of those that pad, places of zeros, and lines that ask for nothing.
static PRINTED: [(&[u8], &[u8]); 2] = [
    (SPELLED, SPELLED),
    (
        b"\
        c0 ioctl n0 00006f29 -\n\
        c1 ioctl h2 00006f2a -\n\
        c0 ioctl n0 00006f2d 00200000\n\
        c0 ioctl dvr 40026f33 ff1f\n\
        c0 ioctl n0 40026f34 0001\n\
        c0 ioctl n0 40146f2c 0001000000000000030000001400000000000000\n\
        c0 ioctl n0 40146f2c ffffffff01000000000000000400000004000000\n\
        c0 ioctl n0 403c6f2b 00104200000000000000000000000000000aff0000000000000000000000000000f00000000000000000000000000000009effffe803000005000000\n\
        c0 ioctl n0 c0106f32 00000000000000000000000000000000\n\
        c7 ioctl dvr c0106f32 ffffffff2c01000001020304050607ff\n\
        # a comment\n\
        c0 section n0 1 0 0 2=00/00/00 3=0a/ff/00\n\
        \n\
        feed 1\n\
    ",
        b"\
        c0 start n0\n\
        c1 stop h2\n\
        c0 size n0 8192\n\
        c0 add dvr 8191\n\
        c0 remove n0 256\n\
        c0 pes n0 256 frontend tsdemux_tap 20 0\n\
        c0 pes n0 65535 dvr decoder 4 4\n\
        c0 section n0 4096 1000 5 0=42/ff/00 15=0a/f0/9e\n\
        c0 ioctl n0 c0106f32 00000000000000000000000000000000\n\
        c7 ioctl dvr c0106f32 ffffffff000000000000000000000000\n\
        c0 section n0 1 0 0 3=0a/ff/00\n\
        feed 1\n\
    ",
    ),
];

const SPELLED: &[u8] = b"\
        feed 1\n\
        feed 4294967295\n\
        tick 0\n\
        tick 4294967295\n\
        c0 open n0\n\
        c1 open n31\n\
        c2 open h0\n\
        c3 close h31\n\
        c4 close dvr\n\
        c5 start n9\n\
        c6 stop h10\n\
        c7 poll dvr\n\
        c0 add n0 0\n\
        c0 add n0 65535\n\
        c0 remove n0 8192\n\
        c0 size n0 4294967295\n\
        c0 read n0 0\n\
        c0 read n0 65536\n\
        c0 readw h1 65536\n\
        c0 drain dvr 4096\n\
        c0 section n0 0 0 0\n\
        c0 section n0 65535 4294967295 7 0=42/ff/00 15=0a/f0/9e\n\
        c0 section n0 1 2 3 0=00/01/00 1=01/01/00 2=02/01/00 3=03/01/00 4=04/01/00 5=05/01/00 6=06/01/00 7=07/01/00 8=08/01/00 9=09/01/00 10=0a/01/00 11=0b/01/00 12=0c/01/00 13=0d/01/00 14=0e/01/00 15=0f/01/00\n\
        c0 pes n0 256 frontend tap 1 4\n\
        c0 pes n0 8192 dvr ts_tap 20 0\n\
        c0 pes n0 0 frontend tsdemux_tap 4294967295 4294967295\n\
        c0 pes n0 65535 frontend decoder 0 0\n\
        c0 section n0 1 0 0 3=0a/ff/00\n\
        c0 write dvr 01\n\
        c7 write dvr 02\n\
        feed 1\n\
        c0 write dvr 03ff\n\
    ";

// Appends the lines of a script as they are printed.
fn put_lines(alloc: Global, script: &Script, out: &mut Vec<u8>) -> Result<(), NoMemory> {
    for line in script.lines() {
        print(alloc, line, script, out)?;
    }
    Ok(())
}

// Whether these lines are printed so, behind what is there.
fn are_printed(alloc: Global, lines: &[u8], want: &[u8]) -> Result<bool, NoMemory> {
    let mut bytes = lines.to_vec(alloc)?;
    bytes.extend_from_slice(b"stream\n")?;
    if bytes.len() > MOST_BYTES {
        return Ok(false);
    }
    let Ok(script) = Script::read(alloc, &bytes) else {
        return Ok(false);
    };
    let mut out = b"tick 20\n".to_vec(alloc)?;
    put_lines(alloc, &script, &mut out)?;
    Ok(out.strip_prefix(b"tick 20\n".as_slice()) == Some(want))
}

// Whether a line by which a client writes the most bytes is printed as it is spelled.
fn is_longest_printed(alloc: Global) -> Result<bool, NoMemory> {
    let mut line = b"c3 write dvr ".to_vec(alloc)?;
    line.resize(13 + 24_064, b'7')?;
    line.push(b'\n')?;
    are_printed(alloc, &line, &line)
}

#[test]
fn lines_are_printed(rt: HostRuntime) {
    for (lines, want) in PRINTED.iter() {
        assert_eq!(rt; are_printed(rt.alloc(), lines, want), Ok(true));
    }
    assert_eq!(rt; is_longest_printed(rt.alloc()), Ok(true));
}

// Whether a script part ends with its line `stream`, in whatever pieces it comes.
fn ends_with_its_line(alloc: Global) -> Result<bool, NoMemory> {
    let mut part = ScriptPart::new(alloc);
    part.add(b"feed 1\nstr")?;
    part.add(b"eam")?;
    let is_begun = part.end().is_none();
    part.add(b"\nG\nstream\n")?;
    Ok(is_begun && part.end() == Some(14) && part.bytes().len() == 23)
}

// Reads all of a source in pieces, and tells how often a read failed.
fn failed_reads<S: Source>(source: &mut S) -> u32 {
    let mut failed = 0;
    let mut piece = [0u8; 7];
    for _read in 0..64u32 {
        if source.read(&mut piece) == Err(Failed) {
            failed = 1;
        }
    }
    failed
}

// Whether a source of which a read fails keeps its script, and no piece behind that.
fn is_kept(alloc: Global) -> Result<bool, NoMemory> {
    let bytes = b"c0 open n0\nstream\nGxxxxxxxxxxxxx".to_vec(alloc)?;
    let mut source = Keeping::new(alloc, MemSource::new(bytes, 5, [1u64].to_vec(alloc)?));
    Ok(
        failed_reads(&mut source) == 1
            && source.kept() == Some(b"c0 open n0\nstream\nGx".as_slice()),
    )
}

#[test]
fn a_script_part_is_found_and_kept(rt: HostRuntime) {
    assert_eq!(rt; ends_with_its_line(rt.alloc()), Ok(true));
    assert_eq!(rt; is_kept(rt.alloc()), Ok(true));
}
