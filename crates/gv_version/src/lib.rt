//! Versions and names of packages, as the Package Manager Specification (PMS, chapter 3) has them.
//!
//! Layers above use `Version` by its text, `compare`, `same_but_revision`
//! and `begins` by the version order, and the tests of names; nowhere else are a version's bytes read.
#![tactic(auto)]

mod digits;
mod form;
mod laws;
mod names;
mod order;
mod pieces;
mod version;

pub use laws::{begins_law, form_law, order_law, same_but_revision_law, split_pf_law};
pub use names::{is_category, is_flag, is_keyword, is_package, is_slot, split_pf};
pub use order::{begins, compare, same_but_revision};
pub use version::{Version, VersionFault, read_version};
