//! The first byte of a text, in O(1).
ghost use Rattle.std.specs.Prelude.{◌≡◌, ◌∷◌, [], MatchOption};

/// The first byte and those behind it.
pub(crate) fn cut_first(bytes: &[u8]) -> Option<(u8, &[u8])>
    ensures { MatchOption result (bytes.now ≡ []) (λ p. bytes.now ≡ p.0 ∷ p.1.now) }
{
    match bytes.split_first() {
        None => None,
        Some((b, rest)) => Some((*b, rest)),
    }
}
