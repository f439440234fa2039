//! Why there is no report.
ghost use Rattle.std.specs.Prelude.{◌≡◌};
ghost use Rattle.gv_session.specs.Handing.{HandsJudge, HandsLoad, failed_at};

use gv_base::{NoMemory, Text};
use gv_checks::JudgeFault;
use gv_load::{LoadFault, Repo};

/// Why there is no report.
#[derive(Drop)]
pub enum SessionFault {
    /// The edited files weren't loaded. The fault is never `NoMemory`.
    Load { fault: LoadFault },
    /// Their repository wasn't judged. The fault is never `NoMemory`; the numbers in its names are those of the repository.
    Judge { fault: JudgeFault, repo: Repo },
    /// Memory was wanted and not given.
    NoMemory,
}

impl From<NoMemory> for SessionFault {
    ghost use Rattle.std.specs.Prelude.{◌≡◌};
    ghost use Rattle.gv_session.specs.declared.fault.SessionFault.TheVariants.{NoMemory};

    ghost from_gives = { λ _ fault. fault ≡ NoMemory };

    fn from(_refused: NoMemory) -> SessionFault {
        SessionFault::NoMemory
    }
}

/// The same fault. Where calls of the tree below failed it is told at the path of the last of them, else at its own.
pub(crate) fn failed_at(failed: Option<Text>, fault: LoadFault) -> LoadFault
    ensures { result ≡ failed_at failed fault }
{
    match fault {
        LoadFault::Tree { path } => LoadFault::Tree {
            path: failed.unwrap_or(path),
        },
        LoadFault::NotARepository { path } => LoadFault::NotARepository { path },
        LoadFault::Limit { place, number } => LoadFault::Limit { place, number },
        LoadFault::NoMemory => LoadFault::NoMemory,
    }
}

/// That the edited files weren't loaded.
pub(crate) fn load_fault(fault: LoadFault) -> SessionFault
    ensures { HandsLoad fault result }
{
    match fault {
        LoadFault::Tree { path } => SessionFault::Load {
            fault: LoadFault::Tree { path },
        },
        LoadFault::NotARepository { path } => SessionFault::Load {
            fault: LoadFault::NotARepository { path },
        },
        LoadFault::Limit { place, number } => SessionFault::Load {
            fault: LoadFault::Limit { place, number },
        },
        LoadFault::NoMemory => SessionFault::NoMemory,
    }
}

/// That their repository wasn't judged.
pub(crate) fn judge_fault(fault: JudgeFault, repo: Repo) -> SessionFault
    ensures { HandsJudge repo fault result }
{
    match fault {
        JudgeFault::Spent { name, sets } => SessionFault::Judge {
            fault: JudgeFault::Spent { name, sets },
            repo,
        },
        JudgeFault::Limit { place, number } => SessionFault::Judge {
            fault: JudgeFault::Limit { place, number },
            repo,
        },
        JudgeFault::NoMemory => SessionFault::NoMemory,
    }
}
