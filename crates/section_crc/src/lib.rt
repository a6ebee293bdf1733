//! The CRC of a section, which its last four bytes make 0.
//!
//! Sections with section_syntax_indicator 1 end with CRC_32 (ISO/IEC 13818-1, 2.4.4.5), whose rule is the decoder model of Annex
//! A: a register of 32 bits, all ones at first, the polynomial 0x04C11DB7, the most significant bit of each byte first, and no
//! inversion at the end. Elsewhere it is called CRC-32/MPEG-2.
//!
//! What a contract sees: bytes as a list of numbers, and the CRC as a number below 2^32. `specs/Crc.antt` has the rule one bit at
//! a time.
//!
//! What is proved: `crc` gives just what the rule gives, for any bytes, and `Tables::crc` the same by tables that `Tables::new`
//! makes. `with_its_crc_is_zero`: over bytes with their own CRC behind them, the most significant byte first, it is 0. `crc` has
//! a table written out (`src/rows.rt`) and takes a byte at a time; the checker works out each of its 256 entries from the rule.
//!
//! What is only tested, in `tests_low`: that the rule is the one that other programs have, by the check value of CRC-32/MPEG-2
//! and by sections of ffmpeg; and that a flipped bit is seen. Limits: no memory is taken, and the time is linear in the bytes.
#![tactic(auto)]

mod bitwise;
mod rows;
mod tables;

ghost use Rattle.std.specs.Prelude.{◌≡◌, List, ℕ};
ghost use Rattle.section_crc.specs.Crc.{crc as crc_of, WithItsCrcIsZero};

use rows::ROWS;
pub use tables::Tables;
use tables::crc_by;

/// The CRC of these bytes (ISO/IEC 13818-1, Annex A). Over a whole undamaged section with its CRC_32 it is 0.
pub fn crc(bytes: &[u8]) -> u32
    ensures { result ≡ crc_of bytes.now }
{
    crc_by(&ROWS, bytes)
}

/// The law of the CRC: over any bytes with their own CRC behind them, as a section carries it, the CRC is 0. It has
/// nothing to do.
pub fn with_its_crc_is_zero()
    ensures { (bytes : List ℕ) → WithItsCrcIsZero bytes }
{}
