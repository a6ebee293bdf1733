// Words as they are shown.
use std::alloc::AllocError as NoMemory;

// How many characters of a word are shown.
const MOST_SHOWN: usize = 40;

// A digit of a number below 16.
fn digit(n: u8) -> char {
    match n {
        0..=9 => (b'0' + n) as char,
        10..=15 => (b'a' + (n - 10)) as char,
        _ => '?',
    }
}

// Appends a byte: itself where it is a character that prints, else `\xHH`, and the characters that enclose a word or begin that
// too.
fn add_byte(text: &mut String, byte: u8) -> Result<(), NoMemory> {
    match byte {
        b'\'' | b'\\' | 0..=31 | 127..=255 => {
            text.push_str("\\x")?;
            text.push(digit(byte >> 4))?;
            text.push(digit(byte & 15))
        }
        _ => text.push(byte as char),
    }
}

// How many characters a byte is shown in.
fn width(byte: u8) -> usize {
    match byte {
        b'\'' | b'\\' | 0..=31 | 127..=255 => 4,
        _ => 1,
    }
}

/// Appends the characters of a word, cut at 40 of them; `...` tells that it is cut.
pub fn add_characters(text: &mut String, word: &[u8]) -> Result<(), NoMemory> {
    let mut room = MOST_SHOWN;
    'bytes: for byte in word {
        let width = width(*byte);
        if width > room {
            return text.push_str("...");
        }
        room -= width;
        add_byte(text, *byte)?;
    }
    Ok(())
}

/// Appends a word between two `'`, cut at 40 characters.
pub fn add_word(text: &mut String, word: &[u8]) -> Result<(), NoMemory> {
    text.push('\'')?;
    add_characters(text, word)?;
    text.push('\'')
}

/// Appends a number in decimal digits.
pub fn add_number(text: &mut String, n: u64) -> Result<(), NoMemory> {
    write!(text, "{n}")
}

/// Appends a number in eight hexadecimal digits.
pub fn add_eight_digits(text: &mut String, n: u32) -> Result<(), NoMemory> {
    'digits: for place in 0..8u32 {
        text.push(digit((n >> (28 - 4 * place) & 15) as u8))?;
    }
    Ok(())
}
