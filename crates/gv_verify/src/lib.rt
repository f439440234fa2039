//! A report held against certificates: whether it is the report of the repository, by records alone.
//!
//! Whoever gets a report and a certificate file from a machine that he doesn't trust asks `verify` with his own copy of the
//! repository: it says yes only where each query has a record whose log the checker accepts, and the report is the text of
//! a scan. Nothing is solved.
//!
//! - `verifying`: `verify`. It costs what `recall` of `gv_checks` costs, and O(the bytes of both texts).
//! - `differing`: the first byte at which two texts differ.
//! - `laws`: what a scan leaves is accepted.
//!
//! Stands on `gv_checks` for the reports by records, and on `gv_report` for their text. The layer above uses the contracts
//! of `verify` and `accepted_law`.
#![tactic(auto)]

mod differing;
mod laws;
mod verifying;

pub use laws::accepted_law;
pub use verifying::{VerifyFault, verify};
