//! Packages and profiles as plain records, and what makes a package visible and a flag on.
//!
//! Stands on `gv_base`, `gv_version` and `gv_atom`. The layers above are proved against its definitions of effective
//! flags, flag states, visible and judged packages and met atoms, which stand in `specs/` and speak of these records. What
//! computes here are the look-ups, and the two comparisons that several layers make.
//!
//! - `kinds`: EAPI, class, level, status, flag state; the keys of classes, and which an EAPI has.
//! - `pkg`, `profile`, `value_lists`, `masks`, `rules`: the records and their lists. Contracts see a list type as a list.
//! - `index`: what `Pkgs`, `Masks` and `Rules` keep beside their items, so that a look-up by name or flag goes through
//!   the items that it finds and no others.
//! - `preferred`: whether a package prefers a flag on.
//! - `visible`: whether an atom asks for a package, and whether keywords accept one.
//! - `laws`: what the test of an atom's USE items means, and at which level a profile judges.
#![tactic(auto)]

mod index;
mod kinds;
mod laws;
mod masks;
mod pkg;
mod preferred;
mod profile;
mod rules;
mod value_lists;
mod visible;

pub use kinds::{Class, Context, Eapi, FlagState, Level, Status, class_text, has_class};
pub use laws::{judged_law, meets_law};
pub use masks::{Mask, Masks};
pub use pkg::{Pkg, Pkgs};
pub use preferred::preferred_on;
pub use profile::{Profile, Profiles};
pub use rules::{Effect, Rule, Rules};
pub use value_lists::{ValueList, ValueLists};
pub use visible::{accepts, has_testing, is_testing, matches_named, matches_pkg};
