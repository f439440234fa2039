//! The path of a name in a folder. O(bytes).
ghost use Rattle.std.specs.Prelude.{◌≡◌, IfOk};
ghost use Rattle.gv_reading.specs.Paths.{within};

use gv_base::{NoMemory, Text};
use std::alloc::Global;

/// The path of a name in a folder.
pub fn within(alloc: Global, dir: &Text, name: &[u8]) -> Result<Text, NoMemory>
    ensures { IfOk result (λ path. path ≡ within dir.now name.now) }
{
    let mut path = dir.copy(alloc)?;
    path.append(b"/".as_slice())?;
    path.append(name)?;
    Ok(path)
}
