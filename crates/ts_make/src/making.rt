// A session from a number.
ghost use Rattle.std.specs.Prelude.{◌≡◌, IfOk};
ghost use Rattle.ts_make.specs.Made.{made};

use crate::counters::Counters;
use crate::kind::Kind;
use crate::packet::put_packet;
use crate::script::SCRIPT;
use rand_core::utils::NextWord;
use rand_pcg::Lcg64Xsh32;
use std::alloc::{AllocError as NoMemory, Global};
use ts_packet::PACKET_LEN;

// How many packets a session has.
const PACKETS: u32 = 65_536;

/// The session of a number: a script with its line `stream`, and 65,536 packets. The same number gives the same bytes.
pub fn session(alloc: Global, number: u64) -> Result<Vec<u8>, NoMemory>
    ensures { IfOk result (λ bytes. bytes.items ≡ made number) }
{
    let mut bytes = Vec::with_capacity(alloc, SCRIPT.len() + PACKETS as usize * PACKET_LEN)?;
    bytes.extend_from_slice(SCRIPT.as_bytes())?;
    let mut words = Lcg64Xsh32::new(number, 54);
    let mut counters = Counters::new();
    'packets: for place in 0..PACKETS {
        let word = words.next_word();
        let kind = Kind::of(word);
        let counter = counters.next(kind);
        put_packet(&mut bytes, kind, place as u16, word, counter)?;
    }
    Ok(bytes)
}
