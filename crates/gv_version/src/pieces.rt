//! The pieces of a version from the front: numeric components, letter, suffixes, revision.
//! Taking a piece off costs the bytes that it has, and no memory.
ghost use Rattle.std.specs.Prelude.{◌≡◌, ◌<◌, ◌≤◌, length, true, IfSome, option_map};
ghost use Rattle.std.specs.List.{prefix_len};
ghost use Rattle.gv_version.specs.Bytes.{is_small};
ghost use Rattle.gv_version.specs.PieceReading.{are_digits, next_piece, next_suffix, shown, shown_piece};
ghost use Rattle.gv_version.specs.Form.{kind_named};
ghost use Rattle.gv_version.specs.Order.{rank};

use crate::digits::split_run;

/// The kinds of suffixes; `Patch` is `_p`.
#[derive(Clone, Copy)]
pub(crate) enum Kind {
    Alpha,
    Beta,
    Pre,
    Rc,
    Patch,
}

impl Kind {
    /// Where the kind stands among the kinds.
    pub(crate) fn rank(self) -> u8
        ensures { result ≡ rank self }
    {
        match self {
            Kind::Alpha => 0,
            Kind::Beta => 1,
            Kind::Pre => 2,
            Kind::Rc => 3,
            Kind::Patch => 4,
        }
    }
}

/// A piece of a version, each number by its digits.
#[derive(Clone, Copy)]
pub(crate) enum Piece<'a> {
    First(&'a [u8]),
    Later(&'a [u8]),
    Letter(u8),
    Suffix(Kind, &'a [u8]),
    Revision(&'a [u8]),
}

/// Takes the first piece off the bytes, None where there is none.
pub(crate) fn next_piece(bytes: &[u8]) -> Option<(Piece<'_>, &[u8])>
    ensures piece { option_map shown result ≡ next_piece bytes.now }
    ensures digits { IfSome result (λ p. are_digits (shown_piece p.0) ≡ true) }
    ensures shorter { IfSome result (λ p. length p.1.now < length bytes.now) }
{
    read_piece(bytes)
}

fn kind_named(word: &[u8]) -> Option<Kind>
    ensures { result ≡ kind_named word.now }
{
    match word {
        b"alpha" => Some(Kind::Alpha),
        b"beta" => Some(Kind::Beta),
        b"pre" => Some(Kind::Pre),
        b"rc" => Some(Kind::Rc),
        b"p" => Some(Kind::Patch),
        _ => None,
    }
}

// How many small letters there are in front.
fn word_length(bytes: &[u8]) -> usize
    ensures length { result ≡ prefix_len is_small bytes.now }
    ensures within { result ≤ length bytes.now }
{
    for i in 0..bytes.len() {
        if !bytes[i].is_ascii_lowercase() {
            return i;
        }
    }
    bytes.len()
}

// What follows an underscore.
fn next_suffix(bytes: &[u8]) -> Option<(Piece<'_>, &[u8])>
    ensures { option_map shown result ≡ next_suffix bytes.now }
{
    let (word, rest) = bytes.split_at(word_length(bytes));
    match kind_named(word) {
        Some(kind) => {
            let (digits, rest) = split_run(rest);
            Some((Piece::Suffix(kind, digits), rest))
        }
        None => None,
    }
}

fn read_piece(bytes: &[u8]) -> Option<(Piece<'_>, &[u8])>
    ensures { option_map shown result ≡ next_piece bytes.now }
{
    match bytes {
        [b'0'..=b'9', ..] => {
            let (digits, rest) = split_run(bytes);
            Some((Piece::First(digits), rest))
        }
        [b'.', more @ ..] => {
            let (digits, rest) = split_run(more);
            Some((Piece::Later(digits), rest))
        }
        [b'a'..=b'z', more @ ..] => Some((Piece::Letter(bytes[0]), more)),
        [b'_', more @ ..] => next_suffix(more),
        [b'-', _, more @ ..] => {
            let (digits, rest) = split_run(more);
            Some((Piece::Revision(digits), rest))
        }
        _ => None,
    }
}
