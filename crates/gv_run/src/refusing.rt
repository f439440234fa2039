//! The faults of the crates below as the one type that says why a run has no answer. O(1), and the text of a query's name.
ghost use Rattle.std.specs.Prelude.{◌≡◌};
ghost use Rattle.gv_run.specs.Refusing.{HandsJudge, HandsLoad, HandsOverlay};

use crate::naming::name_text;
use gv_checks::JudgeFault;
use gv_ending::Refusal;
use gv_load::{LoadFault, Repo};
use gv_overlay::OverlayFault;
use std::alloc::Global;

/// Why no repository was read.
pub(crate) fn load_refusal(fault: LoadFault) -> Refusal
    ensures { HandsLoad fault result }
{
    match fault {
        LoadFault::Tree { path } => Refusal::TreeFailed { path },
        LoadFault::NotARepository { path } => Refusal::NotARepository { path },
        LoadFault::Limit { place, number } => Refusal::Limit { place, number },
        LoadFault::NoMemory => Refusal::NoMemory,
    }
}

/// Why no overlay was read.
pub(crate) fn overlay_refusal(fault: OverlayFault) -> Refusal
    ensures { HandsOverlay fault result }
{
    match fault {
        OverlayFault::Tree { path } => Refusal::TreeFailed { path },
        OverlayFault::NotARepository { path } => Refusal::NotARepository { path },
        OverlayFault::Limit { place, number } => Refusal::Limit { place, number },
        OverlayFault::NoMemory => Refusal::NoMemory,
    }
}

/// Why the repository wasn't judged. A query is named as its text.
pub(crate) fn judge_refusal(alloc: Global, fault: JudgeFault, repo: &Repo) -> Refusal
    ensures { HandsJudge repo.now fault result }
{
    match fault {
        JudgeFault::Spent { name, sets: _ } => match name_text(alloc, repo, &name) {
            Ok(name) => Refusal::Spent { name },
            Err(_) => Refusal::NoMemory,
        },
        JudgeFault::Limit { place, number } => Refusal::Limit { place, number },
        JudgeFault::NoMemory => Refusal::NoMemory,
    }
}
