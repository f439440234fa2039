//! Which packages a profile shows (PMS chapters 5 and 7), and the search for those that an atom asks for.
//!
//! Stands on the records and definitions of `gv_facts`. The layers above use that `visible` and `judged` equal the
//! definitions of these names there, and of `Candidates` what `next` finds. They have `AcceptedPkgs` make `VisiblePkgs` of all packages for
//! each profile, and candidates among these for each level.
//!
//! - `visibility`: keywords and masks. O(the package's keywords and the masks of its category and name), besides the
//!   look-up of these by hash; without memory.
//! - `named_pkgs`: packages by category and name, by the hash map that the list of packages keeps.
//! - `candidates`: packages beside a stored test that is known to answer which are visible. O(1) to make. `next` takes no memory and costs a look-up, a binary search among the packages of the atom's
//!   category and name, and then for each of those from the given number on, up to the one that it finds, O(bytes of the
//!   atom), and where it matches O(bytes of the package) and a call of the test.
//! - `mask_index`: the masks of a profile by category and name, in a hash map.
//! - `accepted`: what keywords accept of all packages, asked once for each arch.
//! - `visible_pkgs`: what a profile shows of all packages, asked once.
//! - `bit_list`: lists of bits, as which that is kept: 64 in a word.
#![tactic(auto)]

mod accepted;
mod bit_list;
mod candidates;
mod mask_index;
mod named_pkgs;
mod visibility;
mod visible_pkgs;

pub use accepted::AcceptedPkgs;
pub use bit_list::BitList;
pub use candidates::Candidates;
pub use mask_index::MaskIndex;
pub use named_pkgs::{matches_at, named, some_matches};
pub use visibility::{judged, visible};
pub use visible_pkgs::VisiblePkgs;
