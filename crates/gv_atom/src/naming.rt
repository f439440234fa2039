//! The name part of an atom: category, package name, version. O(bytes).
ghost use Rattle.std.specs.Prelude.{◌≡◌, ◌+◌, ◌<◌, ◌^◌, true, false, length, take, drop, None, IfOk, IfErr, IfSome, MatchOption};
ghost use Rattle.gv_atom.specs.Naming.{has_no_category, pf_fault, tail_fault, AreNames, IsPf, IsTail};
ghost use Rattle.gv_atom.specs.Reading.{after_slash, category_of, is_starred, name_fault, pf_part};
ghost use Rattle.gv_atom.specs.Parts.{end_place, shown, IsPartFault};

use crate::cutting::{cut, ends_in, without_last};
use crate::dividing::Division;
use crate::fault::bad;
use crate::{AtomFault, AtomKind, CompareOp};
use gv_base::{NoMemory, Text};
use gv_version::{Version, is_category, is_package, split_pf, split_pf_law};
use std::alloc::Global;

/// What the name part says.
#[derive(Drop)]
pub(crate) struct Names {
    pub(crate) category: Text,
    pub(crate) name: Text,
    pub(crate) version: Option<Version>,
    pub(crate) star: bool,
}

/// What stands behind the slash.
#[derive(Drop)]
pub(crate) struct Tail {
    pub(crate) name: Text,
    pub(crate) version: Option<Version>,
}

/// The category, the name and the version of the name part.
pub(crate) fn read_names(alloc: Global, division: &Division<'_>) -> Result<Names, AtomFault>
    requires { end_place (shown division.now) < 2 ^ 64 }
    ensures names { IfOk result (AreNames (shown division.now)) }
    ensures bad { IfErr result (IsPartFault (name_fault (shown division.now))) }
{
    match split_category(division.name_part) {
        Some((category, text)) => {
            let tail = read_tail(
                alloc,
                division.op,
                division.start + category.len() + 1,
                text,
            )?;
            let (_, star) = split_star(division.op, text);
            Ok(Names {
                category: Text::of(alloc, category)?,
                name: tail.name,
                version: tail.version,
                star,
            })
        }
        None => Err(bad(AtomKind::Category, division.start)),
    }
}

// The category and what follows its slash, where both are there.
fn split_category(part: &[u8]) -> Option<(&[u8], &[u8])>
    ensures parts { MatchOption result (has_no_category part.now ≡ true)
        (λ parts. (has_no_category part.now ≡ false) × (parts.0.now ≡ category_of part.now) × (parts.1.now ≡ after_slash part.now)) }
    ensures shorter { IfSome result (λ parts. length parts.0.now < length part.now) }
{
    let (category, rest) = cut(b'/', part);
    match rest {
        [_, text @ ..] if is_category(category) => Some((category, text)),
        _ => None,
    }
}

// With `=` one `*` at the end is no part of the version.
fn split_star(op: Option<CompareOp>, text: &[u8]) -> (&[u8], bool)
    ensures pf { result.0.now ≡ pf_part op text.now }
    ensures star { result.1 ≡ is_starred op text.now }
{
    match op {
        Some(CompareOp::Equal) if ends_in(b'*', text) => (without_last(text), true),
        _ => (text, false),
    }
}

// A name without a version.
fn read_name(alloc: Global, at: usize, text: &[u8]) -> Result<Tail, AtomFault>
    ensures tail { IfOk result (IsTail None at text.now) }
    ensures bad { IfErr result (IsPartFault (tail_fault None at text.now)) }
{
    if !is_package(text) {
        return Err(bad(AtomKind::Package, at));
    }
    Ok(Tail {
        name: Text::of(alloc, text)?,
        version: None,
    })
}

// What stands before and behind the hyphen.
fn split_hyphen(pf: &[u8], hyphen: usize) -> (&[u8], &[u8])
    requires { hyphen < length pf.now }
    ensures name { result.0.now ≡ take hyphen pf.now }
    ensures version { result.1.now ≡ drop (hyphen + 1) pf.now }
{
    let (name, _) = pf.split_at(hyphen);
    let (_, version) = pf.split_at(hyphen + 1);
    (name, version)
}

// A name, a hyphen and a version. The place of the hyphen has 32 bits.
fn read_pf(alloc: Global, at: usize, pf: &[u8]) -> Result<Tail, AtomFault>
    ensures tail { IfOk result (IsPf at pf.now) }
    ensures bad { IfErr result (IsPartFault (pf_fault at pf.now)) }
{
    split_pf_law();
    if u32::try_from(pf.len()).is_err() {
        return Err(AtomFault::NoMemory);
    }
    match split_pf(pf) {
        Some(hyphen) => {
            let (name, version) = split_hyphen(pf, hyphen as usize);
            Ok(Tail {
                name: Text::of(alloc, name)?,
                version: Some(Version::of(alloc, version)?),
            })
        }
        None => Err(bad(AtomKind::Version, at)),
    }
}

fn read_tail(
    alloc: Global,
    op: Option<CompareOp>,
    at: usize,
    text: &[u8],
) -> Result<Tail, AtomFault>
    ensures tail { IfOk result (IsTail op at text.now) }
    ensures bad { IfErr result (IsPartFault (tail_fault op at text.now)) }
{
    match op {
        Some(_) => {
            let (pf, _) = split_star(op, text);
            read_pf(alloc, at, pf)
        }
        None => read_name(alloc, at, text),
    }
}
