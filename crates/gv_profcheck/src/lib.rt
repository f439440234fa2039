//! Versions that a greater one makes needless, and lines of profile files that name no package.
//!
//! - `versions`: RedundantVersion.
//! - `names`: UnknownProfilePackage.
//!
//! The crate stands on `gv_load` for the repository and on `gv_usedefaults` for the files whose lines are looked at.
#![tactic(auto)]

mod names;
mod versions;

pub use names::unknown_packages;
pub use versions::redundant;
