//! Cache entries (PMS chapter 14, md5-dict), and when an assignment of USE flags is allowed, failing and least.
//!
//! Stands on `gv_base`, `gv_version`, `gv_atom`, `gv_expr` and `gv_facts`, and on `md5`, `hex` and `bstr`. Layers above
//! use `read_entry` by the entry that its bytes are, `digest_of` by the MD5, and are proved against the definitions of
//! `specs/`: when an expression holds, which assignments are allowed and failing, which flags a query has, which assignment is
//! the least, what a query weighs. The laws say what the bits of a query's flags decide.
//!
//! - `entry`: the records.
//! - `entry_values`, `digests`, `details`: the values of an entry's keys, digests and eclasses, the texts of its errors.
//! - `entry_read`: an entry, read.
//! - `queries`: the classes of a package's body.
//! - `laws`: laws of the definitions.
#![tactic(auto)]

mod details;
mod digests;
mod entry;
mod entry_read;
mod entry_values;
mod laws;
mod queries;

pub use digests::digest_of;
pub use entry::{Body, Eclass, Eclasses, Entry, EntryError, EntryErrors};
pub use entry_read::read_entry;
pub use laws::{
    allowed_law, bits_law, digest_law, failing_law, least_allowed_law, least_failing_law,
    least_law, mentions_law, value_law,
};
pub use queries::class_in;
