//! What a report leaves for the next one.

use gv_load::Loaded;
use gv_renew::Mentioned;
use gv_report::Reports;

/// What a report leaves for the next one.
#[derive(Drop)]
pub struct Last {
    /// How many edits it saw.
    pub seen: usize,
    /// The repository of the files with these edits, their folders, and how many files a load of them finds at most. Of the notes
    /// some may be missing.
    pub loaded: Loaded,
    /// The reports of its scan, in order.
    pub reports: Reports,
    /// The names that the repository's packages mention.
    pub mentioned: Mentioned,
}
