//! The order of versions (PMS chapter 3), and the fronts by which `=V*` matches (PMS chapter 8).
//!
//! The two texts are read side by side, a piece at a time: each call costs O(bytes of both) at most,
//! stops at the first piece that decides, and takes no memory.
ghost use Rattle.std.specs.Prelude.{◌≡◌, true};
ghost use Rattle.gv_version.specs.Bytes.{front};
ghost use Rattle.gv_version.specs.PieceReading.{are_digits, cmp_piece, cmp_pieces, cmp_some, part_of, pieces_in, shown_piece};
ghost use Rattle.gv_version.specs.Form.{is_in_suffixes};
ghost use Rattle.gv_version.specs.Order.{compare, same_but_revision};
ghost use Rattle.gv_version.specs.Pieces.{agrees, begins, is_front};

use crate::digits::{compare_integers, compare_later};
use crate::pieces::{Kind, Piece, next_piece};
use crate::version::Version;
use std::cmp::Ordering;

/// Compares two versions: numeric components, letter, suffixes, revision; the first part that
/// differs decides.
#[tactic(auto, using(crate::proofs::OrderLaw::versions_cmp))]
pub fn compare(a: &Version, b: &Version) -> Ordering
    ensures { result ≡ compare a.now b.now }
{
    compare_texts(a.text(), b.text())
}

impl PartialEq for Version {
    ghost use Rattle.std.specs.Cmp.{partial_equiv_from_equiv};
    ghost use Rattle.std.specs.Ordering.{eq_by_cmp};
    ghost use Rattle.std.proofs.lemmas.Cmp.{eq_by_cmp_equiv};
    ghost use Rattle.gv_version.specs.Total.{version_total};
    ghost use Rattle.gv_version.specs.Order.{compare};

    ghost eq = { eq_by_cmp compare };

    ghost laws = { partial_equiv_from_equiv (eq_by_cmp_equiv version_total) };

    fn eq(&self, other: &Version) -> bool {
        matches!(compare(self, other), Ordering::Equal)
    }
}

impl Eq for Version {
    ghost use Rattle.std.proofs.lemmas.Cmp.{eq_by_cmp_equiv};
    ghost use Rattle.gv_version.specs.Total.{version_total};

    ghost laws = { eq_by_cmp_equiv version_total };
}

impl PartialOrd for Version {
    ghost use Rattle.std.specs.Cmp.{partial_order_from_total};
    ghost use Rattle.std.specs.Ordering.{as_partial_cmp};
    ghost use Rattle.gv_version.specs.Total.{version_total};
    ghost use Rattle.gv_version.specs.Order.{compare};

    ghost partial_cmp = { as_partial_cmp compare };

    ghost laws = { partial_order_from_total version_total };

    fn partial_cmp(&self, other: &Version) -> Option<Ordering> {
        Some(compare(self, other))
    }
}

impl Ord for Version {
    ghost use Rattle.std.specs.Cmp.Rules.{comparing};
    ghost use Rattle.std.proofs.Common.{rules};
    ghost use Rattle.gv_version.specs.Total.{version_total};
    ghost use Rattle.gv_version.specs.Order.{compare};

    ghost cmp = { compare };

    ghost total = { version_total };

    ghost matches_partial_cmp = { Prim.search (comparing, rules) };

    ghost matches_eq = { Prim.search (comparing, rules) };

    fn cmp(&self, other: &Version) -> Ordering {
        compare(self, other)
    }
}

/// Whether two versions are equal in the order when both revisions are left out.
#[tactic(auto, using(crate::proofs::RevisionLaw::versions_same))]
pub fn same_but_revision(a: &Version, b: &Version) -> bool
    ensures { result ≡ same_but_revision a.now b.now }
{
    compare_texts(without_revision(a.text()), without_revision(b.text())).is_eq()
}

/// Whether `=v*` matches the version w: the numeric components, the letter, the suffixes and the
/// revision that v has are those that w begins with, each equal in the order. A revision counts
/// only where it is written.
#[tactic(auto, using(crate::proofs::PartsLaw::versions_begin))]
pub fn begins(v: &Version, w: &Version) -> bool
    ensures { result ≡ begins v.now w.now }
{
    begins_texts(v.text(), w.text())
}

// A piece where the other version has none: a suffix other than `_p` makes a version less,
// and a revision counts against 0.
fn against_none(piece: Piece<'_>) -> Ordering
    requires { are_digits (shown_piece piece) ≡ true }
    ensures { result ≡ cmp_some (shown_piece piece.entry) }
{
    match piece {
        Piece::First(_) | Piece::Later(_) | Piece::Letter(_) => Ordering::Greater,
        Piece::Suffix(Kind::Patch, _) => Ordering::Greater,
        Piece::Suffix(_, _) => Ordering::Less,
        Piece::Revision(digits) => compare_integers(digits, &[]),
    }
}

fn part_of(piece: Piece<'_>) -> u8
    ensures { result ≡ part_of (shown_piece piece.entry) }
{
    match piece {
        Piece::First(_) => 0,
        Piece::Later(_) => 1,
        Piece::Letter(_) => 2,
        Piece::Suffix(_, _) => 3,
        Piece::Revision(_) => 4,
    }
}

fn compare_pieces(p: Piece<'_>, q: Piece<'_>) -> Ordering
    requires p { are_digits (shown_piece p) ≡ true }
    requires q { are_digits (shown_piece q) ≡ true }
    ensures { result ≡ cmp_piece (shown_piece p.entry) (shown_piece q.entry) }
{
    match (p, q) {
        (Piece::First(x), Piece::First(y)) => compare_integers(x, y),
        (Piece::Later(x), Piece::Later(y)) => compare_later(x, y),
        (Piece::Letter(a), Piece::Letter(b)) => a.cmp(&b),
        (Piece::Suffix(k, x), Piece::Suffix(l, y)) => {
            k.rank().cmp(&l.rank()).then(compare_integers(x, y))
        }
        (Piece::Revision(x), Piece::Revision(y)) => compare_integers(x, y),
        _ => {
            if part_of(p) < part_of(q) {
                against_none(p)
            } else {
                against_none(q).reverse()
            }
        }
    }
}

fn compare_texts(a: &[u8], b: &[u8]) -> Ordering
    ensures { result ≡ cmp_pieces (pieces_in a.now) (pieces_in b.now) }
{
    let (mut a_rest, mut b_rest) = (a, b);
    'pieces: loop {
        match (next_piece(a_rest), next_piece(b_rest)) {
            (None, None) => return Ordering::Equal,
            (None, Some((q, _))) => return against_none(q).reverse(),
            (Some((p, _)), None) => return against_none(p),
            (Some((p, a_more)), Some((q, b_more))) => match compare_pieces(p, q) {
                Ordering::Equal => {
                    a_rest = a_more;
                    b_rest = b_more;
                }
                unequal => return unequal,
            },
        }
    }
}

// What stands before the hyphen of the revision.
fn without_revision(text: &[u8]) -> &[u8]
    ensures { result.now ≡ front is_in_suffixes text.now }
{
    for i in 0..text.len() {
        if text[i] == b'-' {
            return &text[..i];
        }
    }
    text
}

// Whether the pieces are of the same kind and equal in the order.
fn agrees(p: Piece<'_>, q: Piece<'_>) -> bool
    requires p { are_digits (shown_piece p) ≡ true }
    requires q { are_digits (shown_piece q) ≡ true }
    ensures { result ≡ agrees (shown_piece p.entry) (shown_piece q.entry) }
{
    match (p, q) {
        (Piece::First(x), Piece::First(y)) => compare_integers(x, y).is_eq(),
        (Piece::Later(x), Piece::Later(y)) => compare_later(x, y).is_eq(),
        (Piece::Letter(a), Piece::Letter(b)) => a == b,
        (Piece::Suffix(k, x), Piece::Suffix(l, y)) => {
            k.rank().cmp(&l.rank()).then(compare_integers(x, y)).is_eq()
        }
        (Piece::Revision(x), Piece::Revision(y)) => compare_integers(x, y).is_eq(),
        _ => false,
    }
}

fn begins_texts(v: &[u8], w: &[u8]) -> bool
    ensures { result ≡ is_front (pieces_in v.now) (pieces_in w.now) }
{
    let (mut v_rest, mut w_rest) = (v, w);
    'pieces: loop {
        match (next_piece(v_rest), next_piece(w_rest)) {
            (None, _) => return true,
            (Some(_), None) => return false,
            (Some((p, v_more)), Some((q, w_more))) => {
                if !agrees(p, q) {
                    return false;
                }
                v_rest = v_more;
                w_rest = w_more;
            }
        }
    }
}
