//! Atoms of dependencies (PMS chapter 8): which packages a dependency asks for, and what it asks of their flags.
//!
//! Stands on `gv_base` and `gv_version`. Layers above use `read_atom` by which bytes it takes and by the place of a fault,
//! `print_atom` by the text that it gives back, `matches` by the packages, `atom_law` for what a text without a fault is,
//! and the fields of `Atom`.
#![tactic(auto)]

mod atom;
mod cutting;
mod dividing;
mod fault;
mod items;
mod items_reading;
mod laws;
mod matching;
mod naming;
mod printing;
mod reading;
mod shared_atom;
mod slots;

pub use atom::{Atom, Block, CompareOp, SlotMark, SlotNeed};
pub use fault::{AtomFault, AtomKind};
pub use items::{Ask, UseItem, UseItems};
pub use laws::atom_law;
pub use matching::{matches, matches_named};
pub use printing::print_atom;
pub use reading::read_atom;
pub use shared_atom::SharedAtom;
