//! Packages of several repositories put together.
//!
//! Packages and expressions are moved, and sorted once: O(n log n) comparisons of categories, names and versions for n packages.
ghost use Rattle.std.specs.Prelude.{◌≡◌, ◌++◌, [], ◌∷◌, map, IfOk, OnOk};
ghost use Rattle.gv_overlay.specs.Combined.{AreCombined, body_of, entries_of, own_of, pkg_of};

use gv_base::NoMemory;
use gv_facts::Pkgs;
use gv_load::{Bodies, Member};
use gv_logic::Bits;
use std::alloc::Global;

/// A package with its expressions, and whether it is the overlay's own.
#[derive(Drop)]
pub(crate) struct Entry {
    pub(crate) member: Member,
    pub(crate) own: bool,
}

/// Packages, their expressions, and of each whether it is the overlay's own.
#[derive(Drop)]
pub(crate) struct Parts {
    pub(crate) pkgs: Pkgs,
    pub(crate) bodies: Bodies,
    pub(crate) own: Bits,
}

/// Adds packages with their expressions, which are given away.
pub(crate) fn add_entries(
    entries: &mut Vec<Entry>,
    pkgs: Pkgs,
    bodies: Bodies,
    own: bool,
) -> Result<(), NoMemory>
    ensures { OnOk result (entries.new.items ≡ entries.old.items ++ entries_of own pkgs bodies) }
{
    let mut bodies = bodies.into_items().into_iter();
    for pkg in pkgs.into_items() {
        let Some(body) = bodies.next() else {
            return Ok(());
        };
        add_entry(entries, Member { pkg, body }, own)?;
    }
    Ok(())
}

fn add_entry(entries: &mut Vec<Entry>, member: Member, own: bool) -> Result<(), NoMemory>
    ensures { OnOk result (entries.new.items ≡ entries.old.items ++ record { member = member; own = own } ∷ []) }
{
    entries.push(Entry { member, own })?;
    Ok(())
}

/// The packages in package order; those that are equal in it stay in their order.
pub(crate) fn in_package_order(mut entries: Vec<Entry>) -> Result<Vec<Entry>, NoMemory>
    ensures { IfOk result (λ sorted. AreCombined entries.items sorted.items) }
{
    entries.sort_by(|one, two| one.member.cmp(&two.member))?;
    Ok(entries)
}

/// The three lists.
pub(crate) fn apart(alloc: Global, entries: Vec<Entry>) -> Result<Parts, NoMemory>
    ensures pkgs { IfOk result (λ parts. parts.pkgs ≡ map pkg_of entries.items) }
    ensures bodies { IfOk result (λ parts. parts.bodies ≡ map body_of entries.items) }
    ensures own { IfOk result (λ parts. parts.own ≡ map own_of entries.items) }
{
    let mut parts = Parts {
        pkgs: Pkgs::new(alloc),
        bodies: Bodies::new(alloc),
        own: Bits::new(alloc),
    };
    for entry in entries {
        add(&mut parts, entry)?;
    }
    Ok(parts)
}

fn add(parts: &mut Parts, entry: Entry) -> Result<(), NoMemory>
    ensures pkgs { OnOk result (parts.new.pkgs ≡ parts.old.pkgs ++ pkg_of entry ∷ []) }
    ensures bodies { OnOk result (parts.new.bodies ≡ parts.old.bodies ++ body_of entry ∷ []) }
    ensures own { OnOk result (parts.new.own ≡ parts.old.own ++ own_of entry ∷ []) }
{
    let Entry { member, own } = entry;
    let Member { pkg, body } = member;
    parts.pkgs.add(pkg)?;
    parts.bodies.add(body)?;
    parts.own.add(own)
}
