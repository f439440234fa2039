//! Reports: their order, the options that select them, their lines and their JSON.
//!
//! Stands on the texts of `gv_base`, the versions of `gv_version`, the classes and levels of `gv_facts`, and on
//! `serde_json`. The layers above make reports, put them in order by `ordered`, and write them by an `Emitter`.
//!
//! - `keyword`: the kinds of reports.
//! - `report`: a report, what it speaks of, and lists of them. Contracts see a report as a value; `telling` says so.
//! - `order`: the order of reports. A comparison costs O(bytes up to the first part that differs) and takes no memory.
//! - `distinct`: reports in order, equal ones once. O(n log n) comparisons of n reports.
//! - `options`, `selecting`: which reports are selected.
//! - `line`, `json`: the two texts of a report. O(bytes). `printable`: which texts stand in JSON as they are.
//! - `emitter`: the text of the reports that a stored test takes.
//! - `laws`: what the definitions of the order and of lines come to.
#![tactic(auto)]

mod distinct;
mod emitter;
mod json;
mod keyword;
mod laws;
mod line;
mod options;
mod order;
mod printable;
mod report;
mod selecting;
mod telling;

pub use distinct::ordered;
pub use emitter::Emitter;
pub use keyword::{Keyword, Keywords, Takers};
pub use laws::{line_law, object_law, order_law, ordered_law, selected_law};
pub use options::Options;
pub use report::{ContextName, Report, Reports, Subject};
pub use selecting::selected;
