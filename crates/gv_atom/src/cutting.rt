//! Cutting bytes in two. O(bytes), without memory.
ghost use Rattle.std.specs.Prelude.{◌≡◌, ◌+◌, ◌≤◌, ◌==◌, [], ◌∷◌, length, IfSome, MatchOption};
ghost use Rattle.std.specs.List.{slice_split};
ghost use Rattle.gv_base.specs.Cut.{ends_in, from_first, up_to_first, without_last};

use gv_base::until;

/// The bytes before the first such byte, and those from it on.
#[tactic(auto, using(crate::proofs::Ends::front_length, crate::proofs::Ends::front_within))]
pub(crate) fn cut(byte: u8, bytes: &[u8]) -> (&[u8], &[u8])
    ensures front { result.0.now ≡ up_to_first byte bytes.now }
    ensures rest { result.1.now ≡ from_first byte bytes.now }
    ensures lengths { length result.0.now + length result.1.now ≡ length bytes.now }
{
    bytes.split_at(until(bytes, byte).len())
}

/// The bytes before the first such byte, and those behind it, where there is one.
pub(crate) fn split_first(byte: u8, bytes: &[u8]) -> (&[u8], Option<&[u8]>)
    ensures texts { MatchOption result.1 (slice_split (λ b. b == byte) bytes.now ≡ result.0.now ∷ [])
        (λ behind. slice_split (λ b. b == byte) bytes.now ≡ result.0.now ∷ slice_split (λ b. b == byte) behind.now) }
    ensures lengths { IfSome result.1 (λ behind. length result.0.now + length behind.now + 1 ≡ length bytes.now) }
{
    let (front, rest) = cut(byte, bytes);
    match rest {
        [] => (front, None),
        [_, behind @ ..] => (front, Some(behind)),
    }
}

/// Whether the last byte is this one.
#[tactic(auto, using(crate::proofs::Ends::last_is))]
pub(crate) fn ends_in(byte: u8, bytes: &[u8]) -> bool
    ensures { result ≡ ends_in byte bytes.now }
{
    !bytes.is_empty() && bytes[bytes.len() - 1] == byte
}

/// What stands before the last byte.
pub(crate) fn without_last(bytes: &[u8]) -> &[u8]
    ensures { result.now ≡ without_last bytes.now }
{
    let (front, _) = bytes.split_at(bytes.len().saturating_sub(1));
    front
}
