//! Why a run has no answer.
use gv_base::{NoMemory, Text};

/// Why a run has no answer.
#[derive(Drop)]
pub enum Refusal {
    /// The words aren't of the form of a command.
    BadWords,
    /// The tree failed at this path.
    TreeFailed { path: Text },
    /// The store failed at this path.
    StoreFailed { path: Text },
    /// What the run has to say couldn't be written.
    OutputFailed,
    /// The budget was spent at this query: CATEGORY/PF CLASS ARCH PATH LEVEL.
    Spent { name: Text },
    /// Memory was wanted and not given, anywhere in the run.
    NoMemory,
    /// The path has to be a file, and isn't.
    NotARepository { path: Text },
    /// A limit, with its number, is passed at a place.
    Limit { place: Text, number: u64 },
    /// The input failed.
    InputFailed,
    /// The command of this number, from 1, is bad.
    BadCommand { number: u32 },
    /// The query of this number, from 1, is the first without a backed record; it is of this part of so many.
    Lacks { part: u32, parts: u32, query: u32 },
}

impl From<NoMemory> for Refusal {
    ghost use Rattle.std.specs.Prelude.{◌≡◌};
    ghost use Rattle.gv_ending.specs.declared.refusal.Refusal.TheVariants.{NoMemory};

    ghost from_gives = { λ _ refusal. refusal ≡ NoMemory };

    fn from(_: NoMemory) -> Self {
        Refusal::NoMemory
    }
}
