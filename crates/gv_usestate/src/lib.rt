//! What a profile makes of the flags of a package (PMS chapters 5 and 11).
//!
//! Stands on the records and definitions of `gv_facts`. The layers above use that `effective`, `state` and `state_of` equal
//! the definitions of these names there.
//!
//! - `sources`: whether a flag is effective, source by source, without a list of the effective flags.
//! - `flags`: that list.
//! - `restricted`: where stable restrictions apply.
//! - `named_pkgs`: the packages that atoms of rules name.
//! - `pkg_in_profile`: a package in a profile at a level, and which rules apply to it.
//! - `states`: the state of a flag, by the rules that name it and no others.
//! - `profile_sets`: hash sets of the flags that a profile makes effective and of the packages that its rules name, and its rules
//!   for every package.
//! - `profile_states`: a profile that is asked for states, with these sets for many packages and without them for few.
//! - `ruled`: what is known of a flag's state in every one of some profiles.
//!
//! A word is compared in O(bytes). `state` costs a look-up by hash of the rules that name the flag, O(the package's
//! flags and keywords), O(the words of IUSE_IMPLICIT), O(the names of USE_EXPAND and USE_EXPAND_UNPREFIXED), for each
//! implicit name among them that fits O(the names of variables and the values of that name), and O(the rules that name
//! the flag, each with its atom); it takes no memory. `effective` costs O(bytes of all sources) to copy them, and the
//! comparisons of a sort.
#![tactic(auto)]

mod flags;
mod named_pkgs;
mod pkg_in_profile;
mod profile_sets;
mod profile_states;
mod restricted;
mod ruled;
mod sources;
mod states;

pub use flags::effective;
pub use gv_facts::FlagState;
pub use pkg_in_profile::PkgInProfile;
pub use profile_states::ProfileStates;
pub use ruled::{FlagKind, RuledFlags, kind_law};
pub use states::{state, state_of};
