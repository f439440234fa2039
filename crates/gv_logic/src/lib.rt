//! Gates, their values and their canonical bytes; literals, clauses and bits.
//!
//! Here stand the definitions by which every answer about gates is judged: the value of gates, the
//! clauses of gates, which steps of a log follow, which logs are valid and what they prove, which
//! sets of inputs are kept sets, and when an answer is backed. The crates above use the types'
//! models: a literal is its number, a clause a list of numbers, clauses a `Formula`, bits a list of
//! truth values, and gates a `Circuit`. The crate knows nothing of packages and stands on `gv_base`
//! alone.
#![tactic(auto)]

mod bits;
mod bytes;
mod clause;
mod cursor;
mod encoding;
mod evaluate;
mod gates;
mod laws;
mod lit;
mod lit_lists;
mod nodes;
mod reading;

pub use bits::Bits;
pub use bytes::gate_bytes;
pub use clause::{Clause, Clauses};
pub use encoding::clause_count;
pub use evaluate::{value, values};
pub use gates::{GateList, Gates, Op};
pub use laws::circuit_law;
pub use lit::{Lit, Lits, is_on};
pub use nodes::Nodes;
pub use reading::read_gates;
