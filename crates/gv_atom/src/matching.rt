//! Which packages an atom matches. O(bytes), without memory.
ghost use Rattle.std.specs.Prelude.{◌≡◌};
ghost use Rattle.gv_atom.specs.Matching.{matches, matches_named, op_holds, slot_holds, version_holds};

use crate::{Atom, CompareOp, SlotNeed};
use gv_base::Text;
use gv_version::{Version, begins, compare, same_but_revision};

/// Whether the atom asks for a package of this category, name, version, slot and sub-slot (PMS chapter 8). Whether it
/// blocks, and its USE items, play no part.
pub fn matches(
    atom: &Atom,
    category: &Text,
    name: &Text,
    version: &Version,
    slot: &Text,
    sub: &Text,
) -> bool
    ensures { result ≡ matches atom.now category.now name.now version.now slot.now sub.now }
{
    atom.category == *category && atom.name == *name && matches_named(atom, version, slot, sub)
}

/// The same of a package that has the atom's category and name.
pub fn matches_named(atom: &Atom, version: &Version, slot: &Text, sub: &Text) -> bool
    ensures { result ≡ matches_named atom.now version.now slot.now sub.now }
{
    version_holds(atom, version) && slot_holds(&atom.slot, slot, sub)
}

fn op_holds(op: CompareOp, star: bool, wanted: &Version, version: &Version) -> bool
    ensures { result ≡ op_holds op star wanted.now version.now }
{
    match op {
        CompareOp::Less => compare(version, wanted).is_lt(),
        CompareOp::LessEqual => compare(version, wanted).is_le(),
        CompareOp::Equal => {
            if star {
                begins(wanted, version)
            } else {
                compare(version, wanted).is_eq()
            }
        }
        CompareOp::Same => same_but_revision(version, wanted),
        CompareOp::GreaterEqual => compare(version, wanted).is_ge(),
        CompareOp::Greater => compare(version, wanted).is_gt(),
    }
}

fn version_holds(atom: &Atom, version: &Version) -> bool
    ensures { result ≡ version_holds atom.now.op atom.now.version atom.now.star version.now }
{
    match (atom.op, &atom.version) {
        (Some(op), Some(wanted)) => op_holds(op, atom.star, wanted, version),
        _ => true,
    }
}

fn slot_holds(need: &SlotNeed, slot: &Text, sub: &Text) -> bool
    ensures { result ≡ slot_holds need.now slot.now sub.now }
{
    match need {
        SlotNeed::Any => true,
        SlotNeed::Slot { slot: wanted } => wanted == slot,
        SlotNeed::Both {
            slot: wanted,
            sub: wanted_sub,
        } => wanted == slot && wanted_sub == sub,
    }
}
