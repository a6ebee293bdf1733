//! `serial` itself, which does a session on one thread.
ghost use Rattle.std.specs.Prelude.{◌≡◌, ◌∷◌, [], map, string_bytes, codes, IfOk};

use super::ends::{FIRST, SECOND, input_of};
use super::report_lines::text_of;
use emu_io::{MemSink, MemSource};
use emu_top::{Status, serial};
use std::alloc::{AllocError as NoMemory, Global};

fn steps_alone(alloc: Global) -> Result<Vec<String>, NoMemory>
    ensures { IfOk result (λ words. map string_bytes words.items ≡ codes "steps" ∷ []) }
{
    let mut words = Vec::new(alloc);
    words.push(String::from_str(alloc, "steps")?)?;
    Ok(words)
}

// The largest script that there may be: 1,048,576 bytes with its line `stream`.
const SCRIPT: &str = "c0 open n0\n\
    c0 pes n0 256 frontend tsdemux_tap 20 4\n\
    |tick 1\n*149785|\n\
    feed 2\n\
    c0 read n0 188\n\
    stream\n";

const REPORT: &str = "dvbemu 1\n\
    packets=2 skipped=0 rest=0\n\
    pid 256 packets=2 breaks=0 duplicates=0 errors=0\n\
    client 0\n\
    line 1 steps 0..1 done\n\
    line 2 steps 1..2 done\n\
    line 149790 steps 2..3 done\n\
    node 0\n\
    0 c0 0 open = done drop=0..0 tap=keep\n\
    1 c0 1 pes pid=256 input=frontend output=tsdemux_tap type=20 flags=4 at=0 = done drop=0..0 tap=keep\n\
    2 feed 0 pass input=frontend first=0 count=2 at=149785 = passed\n\
    3 c0 2 read 188 at=149785 = data 47010010|0*368|\n\
    4 feed 1 end = passed\n\
    end\n";

// Whether it writes this report of the session.
#[tactic(auto, using(crate::proofs::Alone::never_run))]
fn is_done(alloc: Global) -> Result<bool, NoMemory> {
    let words = steps_alone(alloc)?;
    let input = input_of(alloc, SCRIPT, &[FIRST, SECOND])?;
    let mut source = MemSource::new(input, 65536, Vec::new(alloc));
    let mut sink = MemSink::new(alloc, 1000, 1000, Vec::new(alloc))?;
    let status = serial(alloc, &words, &mut source, &mut sink);
    Ok(status == Status::Ok && sink.bytes() == text_of(alloc, REPORT)?.as_slice())
}

// A body that answers want of memory meets its clauses.
#[test]
fn a_session_is_done_on_one_thread(rt: HostRuntime) {
    assert_eq!(rt; is_done(rt.alloc()), Ok(true));
}
