//! What every command leaves, whichever it is: the outside of a run, why a run is refused, and what is said of that.
//!
//! - `refusal`, `telling`: why a run has no answer; its line and its status. O(the line).
//! - `output`: a whole text written, with the refusal of one that wasn't.
//! - `fetching`, `keeping`: files taken from the store, and the records of certificates in them; a file kept there.
//!
//! `specs/World` has the outside of a run: tree, store, input and output, before and after. `specs/Causes` has why it is refused, as a
//! record by what refuses; a step's causes are a choice of these. Stands on the outside of `gv_base`, the faults of `gv_reading` and the
//! records of `gv_cert`, and knows nothing of commands. The layer above uses the contracts of `tell`, `write`, `keep`, `given`,
//! `fetch_joined`, `fetch_known` and `fetch`.
#![tactic(auto)]

mod fetching;
mod keeping;
mod output;
mod refusal;
mod telling;

pub use fetching::{fetch, fetch_joined, fetch_known, given};
pub use keeping::keep;
pub use output::write;
pub use refusal::Refusal;
pub use telling::tell;
