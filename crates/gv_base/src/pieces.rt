//! A text cut into pieces: lines, words, tokens or the parts of a path.
//!
//! `next_piece` costs the bytes of the piece that it takes off, so a text is cut in O(its bytes); nothing is copied. `until` costs the
//! bytes that it gives back, `after_prefix` those of the prefix.
ghost use Rattle.std.specs.Prelude.{◌≡◌, ◌≢◌, ◌==◌, ◌∷◌, ◌++◌, ◌≤◌, ℕ, List, [], None, Some, not, length, IfNone, MatchOption};
ghost use Rattle.std.specs.List.{position_or_len, prefix_len};
ghost use Rattle.gv_base.specs.Cut.{after_prefix, up_to_first};
ghost use Rattle.gv_base.specs.Pieces.{is_blank, separates, pieces, left};

/// What a text is cut by.
#[derive(Clone, Copy, Debug, PartialEq, Eq)]
pub enum Cut {
    /// Line feeds.
    Lines,
    /// Spaces, tabs and carriage returns, as between the words of a line.
    Words,
    /// Spaces, tabs, carriage returns and line feeds, as between the tokens of an expression.
    Tokens,
    /// Slashes.
    Parts,
}

/// Takes the first piece off, and answers `None` exactly where no piece is left. A text has one piece more than it has
/// separators, so an empty text has one, which is empty; behind the last piece `rest` is `None`.
pub fn next_piece<'a>(rest: &mut Option<&'a [u8]>, cut: Cut) -> Option<&'a [u8]>
    ensures taken { MatchOption result (left cut rest.old ≡ []) (λ piece. left cut rest.old ≡ piece.now ∷ left cut rest.new) }
    ensures end { IfNone result (left cut rest.new ≡ []) }
{
    match *rest {
        None => None,
        Some(bytes) => {
            let (piece, behind) = divide(bytes, cut);
            *rest = behind;
            Some(piece)
        }
    }
}

/// The bytes before the first such byte, or all where there is none.
pub fn until(bytes: &[u8], byte: u8) -> &[u8]
    ensures { result.now ≡ up_to_first byte bytes.now }
{
    &bytes[..first_place(bytes, byte)]
}

/// What follows the prefix, where the bytes begin with it.
pub fn after_prefix<'a>(prefix: &[u8], bytes: &'a [u8]) -> Option<&'a [u8]>
    ensures after { MatchOption result (after_prefix prefix.now bytes.now ≡ None) (λ rest. after_prefix prefix.now bytes.now ≡ Some rest.now) }
    ensures cut { MatchOption result ((rest : List ℕ) → bytes.now ≢ prefix.now ++ rest) (λ rest. bytes.now ≡ prefix.now ++ rest.now) }
{
    bytes.strip_prefix(prefix)
}

// Where the first such byte is, or the length.
fn first_place(bytes: &[u8], byte: u8) -> usize
    ensures place { result ≡ position_or_len (λ b. b == byte) bytes.now }
    ensures within { result ≤ length bytes.now }
{
    for (i, b) in bytes.iter().enumerate() {
        if *b == byte {
            return i;
        }
    }
    bytes.len()
}

// The first piece, and what is behind its separator.
#[tactic(auto, using(crate::proofs::PieceLemmas::cut_there, crate::proofs::PieceLemmas::all_one))]
fn divide<'a>(bytes: &'a [u8], cut: Cut) -> (&'a [u8], Option<&'a [u8]>)
    ensures { pieces cut bytes.now ≡ result.0.now ∷ left cut result.1 }
{
    let end = front_len(bytes, cut);
    if end < bytes.len() {
        (&bytes[..end], Some(&bytes[end + 1..]))
    } else {
        (&bytes[..end], None)
    }
}

// How many bytes stand before the first separator.
fn front_len(bytes: &[u8], cut: Cut) -> usize
    ensures within { result ≤ length bytes.now }
    ensures len { result ≡ prefix_len (λ b. not (separates cut b)) bytes.now }
{
    for (i, b) in bytes.iter().enumerate() {
        if separates(cut, *b) {
            return i;
        }
    }
    bytes.len()
}

fn is_blank(b: u8) -> bool
    ensures { result ≡ is_blank b }
{
    b == b' ' || b == b'\t' || b == b'\r'
}

fn separates(cut: Cut, b: u8) -> bool
    ensures { result ≡ separates cut b }
{
    match cut {
        Cut::Lines => b == b'\n',
        Cut::Words => is_blank(b),
        Cut::Tokens => is_blank(b) || b == b'\n',
        Cut::Parts => b == b'/',
    }
}
