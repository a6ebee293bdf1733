// The sections of a section filter.
ghost use Rattle.std.specs.Prelude.{◌≡◌, ℕ, ◌≤◌, ◌<◌, List, [], ◌∷◌, length, true, filter, vec_capacity, MatchBool};
ghost use Rattle.section_parse.specs.Inside.Keeping.{all_given};
ghost use Rattle.item_select.specs.Items.{is_selected as selected};

use filter_match::Compiled;
use section_crc::crc;
use section_parse::Assembler;

// Whether a section is selected: it matches, and under `check` it has no CRC, its section_syntax_indicator being 0, or
// the CRC over the whole of it is 0.
#[tactic(auto, unfolding(crate::specs::Items::is_selected))]
fn is_selected(wanted: &Compiled, check: bool, section: &[u8]) -> bool
    requires { 3 ≤ length section.now }
    ensures { result ≡ selected wanted.now check section.now }
{
    wanted.selects(section) && (!check || section[1] & 0x80 == 0 || crc(section) == 0)
}

/// Takes all sections out of an assembler.
pub fn drain(assembler: &mut Assembler)
    ensures { assembler.new ≡ all_given assembler.old }
{
    'sections: while let Some(_) = assembler.next() {}
}

// Puts these bytes in the place of those that a buffer has. It has room for them.
fn replace(buffer: &mut Vec<u8>, bytes: &[u8])
    requires { length bytes.now ≤ vec_capacity buffer.old }
    ensures items { buffer.new.items ≡ bytes.now }
    ensures capacity { vec_capacity buffer.old ≤ vec_capacity buffer.new }
{
    buffer.clear();
    match buffer.extend_from_slice(bytes) {
        Ok(()) => {}
        Err(_) => unreachable!(),
    }
}

/// Takes sections out of an assembler up to the first that is selected, and copies that one. Answers false where there is none.
pub fn find(assembler: &mut Assembler, wanted: &Compiled, check: bool, found: &mut Vec<u8>) -> bool
    requires { 4096 ≤ vec_capacity found.old }
    ensures kept { all_given assembler.new ≡ all_given assembler.old }
    ensures found { MatchBool result
        (filter (selected wanted.now check) assembler.old.ready
        ≡ found.new.items ∷ filter (selected wanted.now check) assembler.new.ready)
        ((filter (selected wanted.now check) assembler.old.ready ≡ []) × (assembler.new.ready ≡ [])) }
    ensures some { result ≡ true → 0 < length found.new.items }
    ensures fits { result ≡ true → length found.new.items ≤ 4096 }
    ensures capacity { vec_capacity found.old ≤ vec_capacity found.new }
{
    'sections: while let Some(section) = assembler.next() {
        if is_selected(wanted, check, section) {
            replace(found, section);
            return true;
        }
    }
    false
}
