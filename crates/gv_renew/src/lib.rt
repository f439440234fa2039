//! The reports of a repository in which entries were edited, from those of before.
//!
//! Stands on `gv_checks` for what a repository's reports are and for the walk over those of its queries that are due, on `gv_load`
//! for the repository and its edited entries, and on `gv_report` for reports. The layer above uses `renew`: the reports are those of
//! a scan, and no more queries are lowered than are due; and `Mentioned`, which it keeps from one report to the next.
//!
//! - `mentioned`: the names that packages' classes mention, by numbers. `touched`: what of each package rests on edited entries.
//! - `stale`, `lasting`: which reports of before are stale, and their places.
//! - `afresh`, `due`: what is told anew without a query, and the queries that are answered anew.
//! - `exchanging`: reports in order of which those at places are exchanged for others. Only what stands between the first and the
//!   last difference is moved. `merging`: a few more among reports that are in order. O(log n) comparisons for each of them.
//! - `laws`: that reports of which some are told anew are in order the reports of now.
//! - `renewing`: the reports of before without those that are stale, with those that are told anew.
#![tactic(auto)]

mod afresh;
mod due;
mod exchanging;
mod lasting;
mod laws;
mod mentioned;
mod merging;
mod renewing;
mod stale;
mod touched;

pub use laws::renewed_law;
pub use mentioned::Mentioned;
pub use renewing::renew;
