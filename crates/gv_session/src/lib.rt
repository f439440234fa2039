//! A session: edits of a repository's files, and reports of the files with the edits so far.
//!
//! - `session`: `Session` with its edits and reports. `last`: what a report leaves for the next one. `fault`: why there is no report.
//! - `reporting`: the repository of the files of a tree with edits over them, and the text of reports. `small`: the edits since the
//!   last report, where all are of entries. `judging`: the reports, judged anew or renewed.
//!
//! A tool that holds a repository open puts and cuts files, none of which is written, and asks after each change. After edits of entries
//! alone a report reads these, judges their packages and the classes with an atom of their names, and takes all else over from the
//! last one; else it loads and judges all.
//!
//! The crate stands on `gv_edits` for the tree with edits over it, on `gv_views` for the path of the call that failed, on `gv_load` and
//! `gv_checks` for the repository and its reports, on `gv_renew` for those after edits of entries, and on `gv_report` for their text.
//! The layer above uses the contract of `Session::report`: the text is that of a scan of the edited files, and no more queries are
//! lowered than are due.
#![tactic(auto)]

mod fault;
mod judging;
mod last;
mod reporting;
mod session;
mod small;

pub use fault::SessionFault;
pub use last::Last;
pub use session::Session;
