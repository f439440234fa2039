//! A combined repository, and which of its packages are the overlay's own.
use gv_load::Repo;
use gv_logic::Bits;
use gv_report::Reports;

/// A combined repository, and which of its packages are the overlay's own.
#[derive(Drop)]
pub struct Overlay {
    /// The packages of the masters and of the overlay, in package order, with the profiles and lines of the overlay's view. It has
    /// no notes.
    pub repo: Repo,
    /// Of each package whether it is the overlay's.
    pub own: Bits,
    /// What is told of the overlay's entries: errors of current ones, and PFs that are stale, orphans or missing.
    pub notes: Reports,
}
