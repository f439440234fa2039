//! The checker of logs: what a doubter has to read.
//!
//! `check` says whether a log is valid over clauses, `proves_none` and `proves_least` what a log
//! claims. By `step_law` a valid log that proves none leaves no assignment that makes all clauses
//! true, and by `least_bits_law` one that proves bits least leaves no lesser ones. There is no
//! search here and no code of a solver. A check costs the length of the log and of the clauses that
//! its hints name; none of these calls takes memory.
#![tactic(auto)]

mod checker;
mod laws;
mod log;
mod marks;

pub use checker::{Verdict, check, proves_least, proves_none};
pub use laws::{least_bits_law, rule_law, step_law};
pub use log::{Hints, Log, Step};
pub use marks::Marks;
