//! The queries of a repository, their answers with certificates, and its reports.
//!
//! Stands on `gv_plain` for the reports that need no query and for what profiles show, `gv_lower` for the gates of a query,
//! `gv_query` for answers from records or the solver, and what these stand on. The layers above use `judge` by the reports and
//! certificates that it answers, `recall` where nothing is to be solved, `plain` and `plain_one` of `gv_plain` by their lists,
//! `queries`, `ask_one` and `known_one` for single queries by their names, `Walk` for a choice of queries, and of the laws what
//! an answer says of all assignments.
//!
//! - `names`: the names of queries. `spot`: where a query is judged.
//! - `lowering`, `judging`, `used`: a query lowered, judged, and its answer kept, one for each distinct gates.
//! - `alike`, `keys`, `shared`: by what contexts and classes of a package share a query.
//! - `chosen`: which queries are judged, and what answers them. `walk`, `walking`: a repository with the views of its profiles, and
//!   the walk over its queries, of which those that are chosen are judged.
//! - `whole`: a repository's reports and certificates. `recalled`: its reports by records alone.
//! - `reporting`: the report of a query, and its keyword.
//! - `finding`, `one`, `known`: one query by its name, answered or looked up.
//! - `laws`: what answers mean.
#![tactic(auto)]

mod alike;
mod chosen;
mod fault;
mod finding;
mod judging;
mod keys;
mod known;
mod laws;
mod lowering;
mod names;
mod one;
mod recalled;
mod reporting;
mod shared;
mod spot;
mod used;
mod walk;
mod walking;
mod whole;

pub use chosen::{Asking, Chosen, ClassSet};
pub use fault::JudgeFault;
pub use gv_plain::{class_order, noted, plain, plain_one, selected_of};
pub use known::known_one;
pub use laws::{
    answers_law, certs_law, gates_law, names_law, packages_law, parts_law, records_law, walk_law,
};
pub use names::{QueryName, QueryNames};
pub use one::{Found1, ask_one};
pub use recalled::{RecallFault, Recalled, recall};
pub use walk::Walk;
pub use walking::{Answers, Stopped, queries};
pub use whole::{Judged, judge};
