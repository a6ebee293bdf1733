// Numbers as words spell them.
ghost use Rattle.std.specs.Prelude.{◌≡◌, ◌≤◌, IfSome, OnErr, ◌+◌, ◌<◌};
ghost use Rattle.std.specs.Fmt.{decimal};
ghost use Rattle.text_forms.specs.Numbers.{number_between as number_in_word, has_leading_zero};
ghost use Rattle.text_forms.specs.Appended.{Appended};

use itoa::Buffer;
use std::alloc::AllocError as NoMemory;

/// Appends a number in decimal digits.
///
/// # Errors
///
/// `NoMemory`; `out` is then as it was.
pub fn write_decimal(out: &mut Vec<u8>, n: u64) -> Result<(), NoMemory>
    ensures appended { Appended 20 (decimal n) out.old out.new result }
    ensures unchanged { OnErr result (out.new.items ≡ out.old.items) }
{
    let mut digits = Buffer::new();
    out.extend_from_slice(digits.format(n).as_bytes())
}

// Whether a zero stands before other bytes.
fn begins_with_zero(word: &[u8]) -> bool
    ensures { result ≡ has_leading_zero word.now }
{
    word.len() > 1 && word[0] == b'0'
}

/// The number that a word spells in decimal digits, where it is one from `least` to `most`: at least one digit, no sign,
/// and no zero before other digits.
#[tactic(auto, unfolding(crate::specs::Numbers::value_after))]
pub fn number_between(least: u64, most: u64, word: &[u8]) -> Option<u64>
    ensures value { result ≡ number_in_word least most word.now }
    ensures bound { IfSome result (λ n. (least ≤ n) × (n ≤ most)) }
{
    if word.is_empty() {
        return None;
    }
    if begins_with_zero(word) {
        return None;
    }
    let mut n: u64 = 0;
    let mut rest = word;
    'digits: while let [digit, after @ ..] = rest {
        if !digit.is_ascii_digit() {
            return None;
        }
        let next = n as u128 * 10 + (*digit - b'0') as u128;
        if next > most as u128 {
            return None;
        }
        n = next as u64;
        rest = after;
    }
    if n < least {
        return None;
    }
    Some(n)
}
