//! Why an overlay isn't loaded.
ghost use Rattle.std.specs.Prelude.{◌≡◌};
ghost use Rattle.gv_overlay.specs.Overlays.{master_fault, own_fault};
ghost use Rattle.gv_overlay.specs.Refused.{Hands, IsTreeFault};

use gv_base::{NoMemory, Text};
use gv_load::LoadFault;
use gv_views::path_in;
use std::alloc::Global;

/// Why an overlay isn't loaded.
#[derive(Drop)]
pub enum OverlayFault {
    /// The call of the tree at this path failed, and its count of faults rose.
    Tree { path: Text },
    /// The layout, or a list of a master or of the overlay's view, is no file that is as it has to be.
    NotARepository { path: Text },
    /// A limit of the layout, or of loading a master or the overlay's view, was passed.
    Limit { place: Text, number: u64 },
    /// Memory was wanted and not given.
    NoMemory,
}

impl From<NoMemory> for OverlayFault {
    ghost use Rattle.std.specs.Prelude.{◌≡◌};
    ghost use Rattle.gv_overlay.specs.declared.faults.OverlayFault.TheVariants.{NoMemory};

    ghost from_gives = { λ _ fault. fault ≡ NoMemory };

    fn from(_refused: NoMemory) -> OverlayFault {
        OverlayFault::NoMemory
    }
}

/// The fault of a master, with its folder in front of its path.
pub(crate) fn master_fault(alloc: Global, folder: &Text, fault: LoadFault) -> OverlayFault
    ensures { Hands (master_fault folder.now) fault result }
{
    match fault {
        LoadFault::Tree { path } => match path_in(alloc, folder, &path) {
            Ok(path) => OverlayFault::Tree { path },
            Err(NoMemory) => OverlayFault::NoMemory,
        },
        LoadFault::NotARepository { path } => match path_in(alloc, folder, &path) {
            Ok(path) => OverlayFault::NotARepository { path },
            Err(NoMemory) => OverlayFault::NoMemory,
        },
        LoadFault::Limit { place, number } => match path_in(alloc, folder, &place) {
            Ok(place) => OverlayFault::Limit { place, number },
            Err(NoMemory) => OverlayFault::NoMemory,
        },
        LoadFault::NoMemory => OverlayFault::NoMemory,
    }
}

/// The fault of the overlay's view; that of the tree at the path in it, where that was noted.
pub(crate) fn own_fault(failed: Option<Text>, fault: LoadFault) -> OverlayFault
    ensures { Hands own_fault fault result }
{
    match fault {
        LoadFault::Tree { path } => tree_fault(failed, path),
        LoadFault::NotARepository { path } => OverlayFault::NotARepository { path },
        LoadFault::Limit { place, number } => OverlayFault::Limit { place, number },
        LoadFault::NoMemory => OverlayFault::NoMemory,
    }
}

fn tree_fault(failed: Option<Text>, path: Text) -> OverlayFault
    ensures { IsTreeFault result }
{
    match failed {
        Some(path) => OverlayFault::Tree { path },
        None => OverlayFault::Tree { path },
    }
}
