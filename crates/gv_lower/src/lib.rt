//! The queries of a package as gates: which assignments of its USE flags are allowed, and which are failing for a class.
//!
//! Stands on `gv_base`, `gv_version`, `gv_logic`, `gv_atom`, `gv_expr`, `gv_facts`, `gv_entry`, `gv_visible` and
//! `gv_usestate`. Layers above use `lower_allowed` and `lower_failing` by the gates, flags and items that the definitions of
//! `specs/` say, of these `lowering_law`, `value_law` and `size_law`, and keys by `key_law`.
//!
//! - `lower`, `lowering`, `query`: the calls, their steps, and what they answer.
//! - `flags`, `weigh`: a query's flags and its weight.
//! - `required`, `class`, `atoms`, `asks`: expressions, atoms and USE items, drawn as gates. `parent` has the literals of the
//!   parent's flags, `chains` the items of an atom by their flags, `groups` what a group makes of its members.
//! - `sketch`: gates in the making.
//! - `known`, `sites`: what the queries of a package ask about, and what is known of it in each profile, found once
//!   for the package.
//! - `keys`: from these, what tells whether two contexts of a package have one and the same query, without its gates.
//! - `laws`: laws of the definitions.
//!
//! A call is linear in the query's weight, besides the look-ups: for each flag a search in halves among the query's flags
//! and, where it is none of them, its state; for each atom two look-ups of its packages, and for each of these that is shown
//! the states of the flags that the atom's items name. It keeps nothing from query to query.
#![tactic(auto)]

mod asks;
mod atoms;
mod chains;
mod class;
mod flags;
mod groups;
mod keys;
mod known;
mod laws;
mod lower;
mod lowering;
mod parent;
mod query;
mod required;
mod sites;
mod sketch;
mod weigh;

pub use keys::{add_class_key, add_required_key, key_law};
pub use laws::{lowering_law, size_law, value_law};
pub use lower::{lower_allowed, lower_failing};
pub use query::{LowerFault, Query};
pub use sites::{ClassSites, RequiredFlags};
