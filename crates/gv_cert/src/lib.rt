//! The certificate file: queries with answers that anybody can check again.
//!
//! - `known`, `index`: records of query bytes and answer bytes, in order, with an index of their numbers by query bytes in
//!   an ordered tree. `find` costs O(log n) comparisons of queries for n distinct ones, and a binary search among the
//!   records of that query.
//! - `file`: the bytes of a certificate file. Reading takes any bytes; both are linear in the bytes.
//! - `version`, `migrating`: files of the first version, whose records are turned into the second as they are read, each
//!   with memory for its own gates and answer beside what is kept.
//! - `claim`: the bytes of one answer. Both ways are linear in the bytes, and no memory is taken for what isn't there.
//! - `laws`: that a file has one list of records and bytes one answer, that a backed claim can be written, and that a file of
//!   the first version loses no backed record.
//!
//! Stands on the logs of `gv_refute` and on the lists and the gates of `gv_logic`. Nothing here says that an answer is right:
//! its log has to be checked. The layers above use what `read_known` and `read_answer` take for a file and an answer, and the
//! definition of a backed answer in bytes (`Backing` of `specs/`).
#![tactic(auto)]

mod claim;
mod file;
mod index;
mod known;
mod laws;
mod migrating;
mod reader;
mod version;
mod writing;

pub use claim::{Claim, read_answer, write_answer};
pub use file::{read_known, write_known};
pub use known::Known;
pub use laws::{answer_law, file_law, migration_law, naming_law, short_law};
