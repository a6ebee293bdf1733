// The standard ends, which tell nothing of what they read and write.

use emu_io::{Clock, Sink, StdClock, StdSink, StdSource};

#[test]
fn standard_ends_are_there(rt: HostRuntime) {
    assert!(rt; StdClock::new(&rt).now() > 0);
    assert!(rt; StdSink::new(rt.stdout()).write(b"\n").is_ok());
    let _ = StdSource::new(rt.stdin());
}
