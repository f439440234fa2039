//! From gates to clauses over their places.
//!
//! The clauses are true at the values of the gates and nowhere else, so a search among assignments
//! of all places is a search among bits of the inputs. The crates above use `encode`'s equation and
//! `encoding_law`. Stands on `gv_logic` alone.
#![tactic(auto)]

mod encoding;
mod laws;

pub use encoding::encode;
pub use laws::encoding_law;
