//! A text, cut at its first byte of a value.
ghost use Rattle.std.specs.Prelude.{◌≡◌, ◌+◌, ◌<◌, ◌==◌, ◌∷◌, [], drop, length, position, IfSome, MatchOption};
ghost use Rattle.std.specs.List.{slice_split};

use memchr::memchr;

fn place_of(text: &[u8], byte: u8) -> Option<usize>
    ensures { result ≡ position (λ b. b == byte) text.now }
{
    memchr(byte, text)
}

/// What follows a place.
fn after(text: &[u8], place: usize) -> &[u8]
    requires { place < length text.now }
    ensures { result.now ≡ drop (place + 1) text.now }
{
    &text[place + 1..]
}

/// What stands before the first such byte and what stands behind it, or nothing where there is none.
pub fn split(text: &[u8], byte: u8) -> Option<(&[u8], &[u8])>
    ensures parts { MatchOption result (slice_split (λ b. b == byte) text.now ≡ text.now ∷ [])
        (λ cut. slice_split (λ b. b == byte) text.now ≡
        cut.0.now ∷ slice_split (λ b. b == byte) cut.1.now) }
    ensures shorter { IfSome result (λ cut. length cut.1.now < length text.now) }
{
    match place_of(text, byte) {
        Some(place) => Some((&text[..place], after(text, place))),
        None => None,
    }
}
