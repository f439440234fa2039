//! A scan spread over parts, and the records of its parts merged into its report, by records alone. No part is trusted.
//!
//! Whoever has more hard queries than one machine answers in time lets `judge_part` answer those of one part on each, and asks `merge`
//! with his own copy of the repository and with whatever records came back. It has an answer only where the checker accepts a record of
//! each query; else it names the first query that lacks one, and its part.
//!
//! - `parts`: the queries of a part, judged. It costs what making a walk of `gv_checks` costs, O(queries) steps of it, and lowering and
//!   solving of the part's own queries alone.
//! - `merging`: records merged. It costs what `recall` of `gv_checks` costs.
//! - `laws`: that each query is of one part, and that records of all parts lack none.
//!
//! Stands on `gv_checks` alone for queries, answers and reports. The layer above uses the contracts of `judge_part`, `merge` and
//! `parts_law`, `merged_law`.
#![tactic(auto)]

mod laws;
mod merging;
mod parts;

pub use laws::{merged_law, parts_law};
pub use merging::{MergeFault, Merged, merge};
pub use parts::{Part, judge_part};
