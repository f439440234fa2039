//! Why a tree was not loaded.
ghost use Rattle.std.specs.Prelude.{◌≡◌};
ghost use Rattle.gv_reading.specs.Faults.{IsOrNoMemory};

use gv_base::{NoMemory, Text};
use std::alloc::Global;

/// Why a tree was not loaded.
#[derive(Drop)]
pub enum LoadFault {
    /// The tree failed at this path, and its count of faults rose.
    Tree { path: Text },
    /// The path has to be a file, and isn't.
    NotARepository { path: Text },
    /// A limit, with its number, is passed at a place.
    Limit { place: Text, number: u64 },
    /// Memory was wanted and not given.
    NoMemory,
}

impl From<NoMemory> for LoadFault {
    ghost use Rattle.std.specs.Prelude.{◌≡◌};
    ghost use Rattle.gv_reading.specs.declared.faults.LoadFault.TheVariants.{NoMemory};

    ghost from_gives = { λ _ fault. fault ≡ NoMemory };

    fn from(_refused: NoMemory) -> LoadFault {
        LoadFault::NoMemory
    }
}

/// That a limit is passed at a place.
pub(crate) fn limit(alloc: Global, place: &Text, number: u64) -> LoadFault
    ensures { IsOrNoMemory (LoadFault.Limit place.now number) result }
{
    match place.copy(alloc) {
        Ok(place) => LoadFault::Limit { place, number },
        Err(_) => LoadFault::NoMemory,
    }
}

/// That the tree failed at a path.
pub(crate) fn failed(alloc: Global, path: &Text) -> LoadFault
    ensures { IsOrNoMemory (LoadFault.Tree path.now) result }
{
    match path.copy(alloc) {
        Ok(path) => LoadFault::Tree { path },
        Err(_) => LoadFault::NoMemory,
    }
}

/// That a path is no file.
pub(crate) fn missing(alloc: Global, path: &Text) -> LoadFault
    ensures { IsOrNoMemory (LoadFault.NotARepository path.now) result }
{
    match path.copy(alloc) {
        Ok(path) => LoadFault::NotARepository { path },
        Err(_) => LoadFault::NoMemory,
    }
}
