//! The slot part of an atom. O(bytes).
ghost use Rattle.std.specs.Prelude.{◌≡◌, ◌+◌, ◌==◌, ◌<◌, ◌^◌, length, None, Some, IfOk, IfErr};
ghost use Rattle.std.specs.List.{slice_split};
ghost use Rattle.std.specs.Str.{byte};
ghost use Rattle.gv_version.specs.Bytes.{begins_with};
ghost use Rattle.gv_atom.specs.Reading.{double_colon, need_of, slot_fault, slot_of, with_mark};
ghost use Rattle.gv_atom.specs.Parts.{end_place, shown, IsPartFault};

use crate::cutting::{ends_in, split_first, without_last};
use crate::dividing::Division;
use crate::fault::bad;
use crate::{AtomFault, AtomKind, SlotMark, SlotNeed};
use gv_base::{NoMemory, Text};
use gv_version::is_slot;
use std::alloc::Global;

/// The slot that the slot part asks for, and its mark. A repository behind `::` is refused first.
pub(crate) fn read_slot(
    alloc: Global,
    division: &Division<'_>,
) -> Result<(SlotNeed, SlotMark), AtomFault>
    requires { end_place (shown division.now) < 2 ^ 64 }
    ensures none { IfOk result (λ slot. slot_fault (shown division.now) ≡ None) }
    ensures slot { IfOk result (λ slot. slot_of division.now.slot_part.now ≡ Some slot) }
    ensures bad { IfErr result (IsPartFault (slot_fault (shown division.now))) }
{
    let at = division.start + division.name_part.len();
    if let Some(place) = double_colon(at, division.slot_part) {
        return Err(bad(AtomKind::Repo, place));
    }
    match slot_of(alloc, division.slot_part)? {
        Some(slot) => Ok(slot),
        None => Err(bad(AtomKind::Slot, at)),
    }
}

// The place of the first `::`, where the part begins at the place.
fn double_colon(at: usize, part: &[u8]) -> Option<usize>
    requires { at + length part.now < 2 ^ 64 }
    ensures { result ≡ double_colon at part.now }
{
    let end = at + part.len();
    let mut rest = part;
    while let [b, more @ ..] = rest {
        if *b == b':' && begins_with_colon(more) {
            return Some(end - rest.len());
        }
        rest = more;
    }
    None
}

fn begins_with_colon(bytes: &[u8]) -> bool
    ensures { result ≡ begins_with (λ c. c == byte ":") bytes.now }
{
    matches!(bytes, [b':', ..])
}

// A slot, or a slot, `/` and a sub-slot.
#[tactic(auto, using(crate::proofs::Splitting::no_slot))]
fn need_of(alloc: Global, text: &[u8]) -> Result<Option<SlotNeed>, NoMemory>
    ensures { IfOk result (λ need. need ≡ need_of (slice_split (λ b. b == byte "/") text.now)) }
{
    let (slot, behind) = split_first(b'/', text);
    if !is_slot(slot) {
        return Ok(None);
    }
    match behind {
        None => Ok(Some(SlotNeed::Slot {
            slot: Text::of(alloc, slot)?,
        })),
        Some(sub) if is_slot(sub) => Ok(Some(SlotNeed::Both {
            slot: Text::of(alloc, slot)?,
            sub: Text::of(alloc, sub)?,
        })),
        Some(_) => Ok(None),
    }
}

fn with_mark(mark: SlotMark, need: Option<SlotNeed>) -> Option<(SlotNeed, SlotMark)>
    ensures { result ≡ with_mark mark need }
{
    match need {
        Some(need) => Some((need, mark)),
        None => None,
    }
}

fn slot_of(alloc: Global, part: &[u8]) -> Result<Option<(SlotNeed, SlotMark)>, NoMemory>
    ensures { IfOk result (λ slot. slot ≡ slot_of part.now) }
{
    match part {
        [] => Ok(Some((SlotNeed::Any, SlotMark::Plain))),
        [_, b'*'] => Ok(Some((SlotNeed::Any, SlotMark::Star))),
        [_, b'='] => Ok(Some((SlotNeed::Any, SlotMark::Equals))),
        [_, text @ ..] => {
            if ends_in(b'=', text) {
                Ok(with_mark(SlotMark::Equals, need_of(alloc, without_last(text))?))
            } else {
                Ok(with_mark(SlotMark::Plain, need_of(alloc, text)?))
            }
        }
    }
}
