//! An overlay with its masters: repositories that lean on others beside them, loaded together and judged for themselves.
//!
//! - `faults`: why an overlay isn't loaded. `masters`: the masters that its layout names.
//! - `repositories`: a master, and the overlay over its masters, as repositories.
//! - `combining`, `overlay`: their packages together, and which of them are the overlay's own.
//! - `loading`: all of it, in its order. `judging`: the reports and certificates of the overlay's packages.
//! - `laws`: that there is one overlay of a name at most, and that it and a refusal exclude each other.
//!
//! Stands on `gv_views` for what a master and an overlay are seen as, on `gv_load` for repositories, and on `gv_checks` for the walk
//! over some packages among all. Layers above use `load_overlay` and `judge_own` by their contracts, and `overlay_law`.
#![tactic(auto)]

mod combining;
mod faults;
mod judging;
mod laws;
mod loading;
mod masters;
mod overlay;
mod repositories;

pub use faults::OverlayFault;
pub use judging::judge_own;
pub use laws::overlay_law;
pub use loading::load_overlay;
pub use overlay::Overlay;
