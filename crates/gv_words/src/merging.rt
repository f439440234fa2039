//! What a merge is asked.
ghost use Rattle.std.specs.Prelude.{◌≤◌};

use gv_base::{Text, Texts};
use gv_report::Options;

/// Certificates of parts to be merged.
#[derive(Drop)]
pub struct Merging {
    /// The folder of the repository.
    pub root: Text,
    /// The file of the certificates that is written.
    pub certs: Text,
    /// The files whose certificates are taken.
    pub from: Texts,
    /// The number of parts.
    pub parts: u32,
    /// What is reported and how; the budget is the default one.
    pub options: Options,
    pub ghost some: { 1 ≤ parts },
}
