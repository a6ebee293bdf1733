// The pieces of bytes between the bytes that part them.
ghost use Rattle.std.specs.Prelude.{◌≡◌, ◌+◌, ◌<◌, ◌==◌, [], ◌∷◌, length, IfSome};
ghost use Rattle.client_script.specs.Imports.{option_map_or, position, slice_split};

/// Where the first `mark` stands.
pub fn place_of(mark: u8, bytes: &[u8]) -> Option<usize>
    ensures place { result ≡ position (λ byte. byte == mark) bytes.now }
    ensures within { IfSome result (λ place. place < length bytes.now) }
{
    bytes.iter().position(|byte| *byte == mark)
}

/// The bytes in front of the first `mark`, and those behind it; None where there is no `mark`.
pub fn cut_at(mark: u8, bytes: &[u8]) -> (&[u8], Option<&[u8]>)
    ensures pieces { slice_split (λ byte. byte == mark) bytes.now
        ≡ result.0.now ∷ option_map_or (λ behind. slice_split (λ byte. byte == mark) behind.now) result.1 [] }
    ensures shorter { IfSome result.1 (λ behind. length result.0.now + length behind.now + 1 ≡ length bytes.now) }
{
    match place_of(mark, bytes) {
        Some(place) => (&bytes[..place], Some(&bytes[place + 1..])),
        None => (bytes, None),
    }
}
