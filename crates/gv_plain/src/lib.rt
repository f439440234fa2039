//! The reports of a repository that need no query: what was noted in reading, atoms that match no package, flags that a class mentions and
//! that aren't effective, and live packages; with what each profile shows, and the contexts that judge a package.
//!
//! Stands on `gv_load` for the repository, `gv_visible` and `gv_usestate` for what a profile shows of packages and says of flags,
//! `gv_report` for reports, and what these stand on. The layer above uses `ViewedRepo` by what it tells of a package and by the view of each
//! profile, `plain` and `plain_one` by their lists, and of `told_law` that what is told are the selected reports.
//!
//! - `classes`: the classes in order. `context`: a package in a profile that judges it.
//! - `views`: what a profile shows and says of flags. `viewed`: a repository with the views of its profiles.
//! - `telling`: the subject and the context of a report, and whether it is selected.
//! - `nonexistent`, `unstated`, `plainly`: the reports.
//! - `laws`: what is told, by the options.
#![tactic(auto)]

mod classes;
mod context;
mod laws;
mod nonexistent;
mod plainly;
mod telling;
mod unstated;
mod viewed;
mod views;

pub use classes::{class_order, is_whole};
pub use context::{JudgedPkg, ListedPkg};
pub use laws::told_law;
pub use plainly::{noted, plain, plain_one, selected_of};
pub use telling::{context_of, is_told, subject_of};
pub use viewed::ViewedRepo;
pub use views::ProfileView;
