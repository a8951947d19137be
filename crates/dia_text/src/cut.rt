//! The first piece of bytes.
ghost use Rattle.std.specs.Prelude.{◌≡◌, ℕ, ◌+◌, ◌<◌, ◌≤◌, List, [], ◌∷◌, ◌++◌, length, take, drop, IfSome, MatchOption};
ghost use Rattle.row_defs.specs.Pieces.{pieces_from};
ghost use Rattle.dia_text.specs.Unbroken.{IsUnbroken};

use memchr::memchr;

/// Where the first separator stands.
#[inline]
pub fn find_separator(separator: u8, bytes: &[u8]) -> Option<usize>
    ensures within { IfSome result (λ i. i < length bytes.now) }
    // The bytes before it, or all where there is none, go on with the piece that they come to.
    ensures unbroken { MatchOption result (IsUnbroken separator bytes.now) (λ i. IsUnbroken separator (take i bytes.now)) }
    ensures ends { IfSome result (λ i. take (i + 1) bytes.now ≡ take i bytes.now ++ separator ∷ []) }
{
    memchr(separator, bytes)
}

/// The first piece, and what stands behind its separator.
#[inline]
pub fn cut_off(separator: u8, bytes: &[u8]) -> (&[u8], &[u8])
    requires { 0 < length bytes.now }
    ensures pieces { pieces_from separator [] bytes.now ≡ result.0.now ∷ pieces_from separator [] result.1.now }
    ensures piece { length result.0.now ≤ length bytes.now }
    ensures shorter { length result.1.now < length bytes.now }
{
    match find_separator(separator, bytes) {
        Some(i) => {
            let (piece, _) = bytes.split_at(i);
            let (_, rest) = bytes.split_at(i + 1);
            (piece, rest)
        }
        None => (bytes, &[]),
    }
}
