//! Why bytes are no atom.
ghost use Rattle.std.specs.Prelude.{Some};
ghost use Rattle.gv_atom.specs.Parts.{IsPartFault};

use gv_base::NoMemory;

/// The part of an atom that is bad.
#[derive(Clone, Copy, Debug)]
pub enum AtomKind {
    /// No slash, or no good category before it.
    Category,
    /// Without an operator: what follows the slash is no package name.
    Package,
    /// With an operator: what follows the slash is no PF.
    Version,
    /// A repository behind `::`.
    Repo,
    /// The slot part.
    Slot,
    /// A USE item, or the brackets around the items.
    Item,
}

/// Why bytes were not read as an atom.
#[derive(Clone, Copy, Debug)]
pub enum AtomFault {
    /// They are no atom: which part is bad, and the place in the bytes where that part begins, from 0.
    Bad { kind: AtomKind, at: u32 },
    /// No memory was found, or the place is past 32 bits.
    NoMemory,
}

impl From<NoMemory> for AtomFault {
    ghost use Rattle.std.specs.Prelude.{◌≡◌};
    ghost use Rattle.gv_atom.specs.declared.fault.AtomFault.TheVariants.{NoMemory};

    ghost from_gives = { λ _ fault. fault ≡ NoMemory };

    fn from(_refused: NoMemory) -> AtomFault {
        AtomFault::NoMemory
    }
}

/// The fault of a part that begins at this place. A place past 32 bits finds no memory.
pub(crate) fn bad(kind: AtomKind, at: usize) -> AtomFault
    ensures { IsPartFault (Some (kind, at)) result }
{
    match u32::try_from(at) {
        Ok(at) => AtomFault::Bad { kind, at },
        Err(_) => AtomFault::NoMemory,
    }
}
