//! The sizes of what a history keeps, of a node's answer, and of a counter of steps.

use dmx_calls::{Answer, ByteBuf, Entry};
use machine::steps::Steps;
use std::alloc::{AllocError as NoMemory, Global};
use std::marker::Brand;
use std::mem::size_of;

// Whether the buffer of a read of so many bytes, at most 65,536, takes as many.
fn takes_all(alloc: Global, count: u32) -> Result<bool, NoMemory> {
    let mut buf = ByteBuf::new(alloc, count.min(65_536))?;
    let bytes = vec![in alloc; 0x47; count as usize]?;
    if bytes.len() <= buf.count() as usize {
        buf.append(&bytes);
    }
    Ok(buf.count() == count && buf.bytes() == bytes.as_slice())
}

#[test]
fn entries_and_answers_take_64_bytes_at_most_counters_none_and_reads_fit(rt: HostRuntime) {
    assert_eq!(rt; (size_of::<Entry>(), size_of::<Steps<Brand>>()), (64, 0));
    assert!(rt; size_of::<Answer>() <= 64);
    let seen = (takes_all(rt.alloc(), 0), takes_all(rt.alloc(), 65_536));
    assert_eq!(rt; seen, (Ok(true), Ok(true)));
}
