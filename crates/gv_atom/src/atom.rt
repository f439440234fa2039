//! An atom, as it was written.
ghost use Rattle.std.specs.Prelude.{◌≡◌, true, IfOk};
ghost use Rattle.gv_atom.specs.Items.{is_blocker};

use crate::{UseItem, UseItems};
use gv_base::{NoMemory, Text};
use gv_version::Version;
use std::alloc::Global;

/// Whether the atom blocks.
#[derive(Clone, Copy, Debug, PartialEq, Eq)]
pub enum Block {
    /// Nothing is written: the atom asks for a package.
    No,
    /// `!`
    Weak,
    /// `!!`
    Strong,
}

/// An operator.
#[derive(Clone, Copy, Debug, PartialEq, Eq)]
pub enum CompareOp {
    /// `<`
    Less,
    /// `<=`
    LessEqual,
    /// `=`, with a star behind the version or without.
    Equal,
    /// `~`: equal, both revisions left out.
    Same,
    /// `>=`
    GreaterEqual,
    /// `>`
    Greater,
}

/// What a slot part asks for.
#[derive(Drop, PartialEq)]
pub enum SlotNeed {
    /// Any slot, also where no slot part is written.
    Any,
    /// A slot, with any sub-slot.
    Slot { slot: Text },
    /// A slot and its sub-slot.
    Both { slot: Text, sub: Text },
}

/// The mark of a slot part as it was written.
#[derive(Clone, Copy, Debug, PartialEq, Eq)]
pub enum SlotMark {
    /// None.
    Plain,
    /// `:*`
    Star,
    /// `=` at the end.
    Equals,
}

/// An atom (PMS chapter 8): which packages it asks for, or blocks, and what it asks of their flags. The signs stand side by side, since a
/// repository has hundreds of thousands of atoms and fields lie in the order of the source.
#[derive(Drop)]
pub struct Atom {
    /// The signs in front of all, which make it a blocker.
    pub block: Block,
    /// None where a package of any version is asked for.
    pub op: Option<CompareOp>,
    /// `*` behind the version.
    pub star: bool,
    /// The `*`, or the `=` at the end, of the slot part; no match depends on it.
    pub mark: SlotMark,
    /// The part before the slash.
    pub category: Text,
    /// The package's name, without a version.
    pub name: Text,
    /// There where the operator is.
    pub version: Option<Version>,
    /// Which slot, and which sub-slot, the slot part names.
    pub slot: SlotNeed,
    /// What stands in brackets behind all; no items where there are no brackets.
    pub items: UseItems,
}

impl SlotNeed {
    /// The same once more. O(bytes).
    pub fn copy(&self, alloc: Global) -> Result<SlotNeed, NoMemory>
        ensures { IfOk result (λ slot. slot ≡ self.now) }
    {
        match self {
            SlotNeed::Any => Ok(SlotNeed::Any),
            SlotNeed::Slot { slot } => Ok(SlotNeed::Slot {
                slot: slot.copy(alloc)?,
            }),
            SlotNeed::Both { slot, sub } => Ok(SlotNeed::Both {
                slot: slot.copy(alloc)?,
                sub: sub.copy(alloc)?,
            }),
        }
    }
}

fn copy_version(alloc: Global, version: &Option<Version>) -> Result<Option<Version>, NoMemory>
    ensures { IfOk result (λ copy. copy ≡ version.now) }
{
    match version {
        Some(version) => Ok(Some(version.copy(alloc)?)),
        None => Ok(None),
    }
}

impl Atom {
    /// Whether the atom blocks packages, and asks for none.
    pub fn is_blocker(&self) -> bool
        ensures { result ≡ is_blocker self.now.block }
    {
        match self.block {
            Block::No => false,
            Block::Weak | Block::Strong => true,
        }
    }

    /// Whether both are one and the same atom. O(bytes before the first that differs), without memory.
    pub fn is_same(&self, other: &Atom) -> bool
        ensures yes { result ≡ true → self.now ≡ other.now }
        ensures no { self.now ≡ other.now → result ≡ true }
    {
        same_parts(self, other)
            && same_signs(self, other)
            && same_items(self.items.items(), other.items.items())
    }

    /// The same atom once more. O(bytes).
    pub fn copy(&self, alloc: Global) -> Result<Atom, NoMemory>
        ensures { IfOk result (λ atom. atom ≡ self.now) }
    {
        Ok(Atom {
            block: self.block,
            op: self.op,
            category: self.category.copy(alloc)?,
            name: self.name.copy(alloc)?,
            version: copy_version(alloc, &self.version)?,
            star: self.star,
            slot: self.slot.copy(alloc)?,
            mark: self.mark,
            items: self.items.copy(alloc)?,
        })
    }
}

// What is written in words.
fn same_parts(a: &Atom, b: &Atom) -> bool
    ensures yes { result ≡ true → (a.now.name ≡ b.now.name) × (a.now.category ≡ b.now.category) × (a.now.version ≡ b.now.version) × (a.now.slot ≡ b.now.slot) }
    ensures no { a.now ≡ b.now → result ≡ true }
{
    a.name == b.name
        && a.category == b.category
        && same_version(&a.version, &b.version)
        && a.slot == b.slot
}

// And in signs.
fn same_signs(a: &Atom, b: &Atom) -> bool
    ensures yes { result ≡ true → (a.now.block ≡ b.now.block) × (a.now.op ≡ b.now.op) × (a.now.star ≡ b.now.star) × (a.now.mark ≡ b.now.mark) }
    ensures no { a.now ≡ b.now → result ≡ true }
{
    a.star == b.star && a.block == b.block && a.op == b.op && a.mark == b.mark
}

fn same_version(a: &Option<Version>, b: &Option<Version>) -> bool
    ensures yes { result ≡ true → a.now ≡ b.now }
    ensures no { a.now ≡ b.now → result ≡ true }
{
    match (a, b) {
        (None, None) => true,
        (Some(a), Some(b)) => a.text() == b.text(),
        _ => false,
    }
}

fn same_items(a: &[UseItem], b: &[UseItem]) -> bool
    ensures yes { result ≡ true → a.now ≡ b.now }
    ensures no { a.now ≡ b.now → result ≡ true }
{
    let mut rest = b;
    for item in a {
        let [first, more @ ..] = rest else {
            return false;
        };
        if !same_item(item, first) {
            return false;
        }
        rest = more;
    }
    rest.is_empty()
}

fn same_item(a: &UseItem, b: &UseItem) -> bool
    ensures yes { result ≡ true → a.now ≡ b.now }
    ensures no { a.now ≡ b.now → result ≡ true }
{
    a.flag == b.flag && a.ask == b.ask && a.missing == b.missing
}
