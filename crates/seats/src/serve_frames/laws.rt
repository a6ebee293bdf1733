// A law of the definitions.
ghost use Rattle.std.specs.Prelude.{◌≡◌, ◌<◌, ◌^◌};

use crate::serve_frames::tell::Tell;

// The numbers of what is told have the ranges of their types. It has nothing to do.
fn fits(told: Tell, len: u32)
    ensures { (told.code < 2 ^ 32) × (told.value < 2 ^ 32) × (told.place < 2 ^ 64) × (len < 2 ^ 32) }
{
    let _ = told;
    let _ = len;
}

/// Writes the head of a reply and reads it: it is the same again.
pub fn written_and_read(told: &Tell, len: u32) -> (Tell, u32)
    ensures { (result.0 ≡ told.now) × (result.1 ≡ len) }
{
    fits(*told, len);
    let written = told.head(len);
    let mut bytes = [0; 24];
    bytes.copy_from_slice(written.as_slice());
    Tell::read(&bytes)
}
