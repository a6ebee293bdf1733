//! What the lines of a report tell, and texts with pieces that stand often.
use std::alloc::{AllocError as NoMemory, Global};

/// The reply that a line `PLACE CALL = REPLY` tells to this call, which is written by its front: caller, step and word, as
/// `c0 3 read`.
pub fn reply_to<'a>(report: &'a str, call: &str) -> Option<&'a str> {
    for line in report.lines() {
        if let (Some((_, told)), Some((_, reply))) = (
            line.split_once(" "),
            line.split_once(" = "),
        ) {
            if told.starts_with(call) {
                return Some(reply);
            }
        }
    }
    None
}

/// The bytes of a text in which `|` parts pieces, and `0*368` is 368 times `0`.
pub fn text_of(alloc: Global, text: &str) -> Result<Vec<u8>, NoMemory> {
    let mut bytes = Vec::new(alloc);
    for piece in text.split("|") {
        let (word, count) = match piece.split_once("*") {
            Some((word, count)) => (word, count.parse::<usize>().unwrap_or(0)),
            None => (piece, 1),
        };
        for _ in 0..count {
            bytes.extend_from_slice(word.as_bytes())?;
        }
    }
    Ok(bytes)
}
