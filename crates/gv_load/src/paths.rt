//! The fixed paths of a repository (PMS chapters 4 and 14). Each costs O(its bytes).
ghost use Rattle.std.specs.Prelude.{◌≡◌, ◌++◌, IfOk};
ghost use Rattle.gv_load.specs.Paths.{categories_path, mask_path, cache_dir, entry_path, ebuild_end, ebuild_path, eclass_path};

use gv_base::{NoMemory, Text};
use gv_reading::within;
use std::alloc::Global;

/// The file that names the categories, one a line.
#[tactic(auto, unfolding(crate::specs::Paths::categories_path))]
pub(crate) fn categories_path(alloc: Global) -> Result<Text, NoMemory>
    ensures { IfOk result (λ path. path ≡ categories_path) }
{
    Text::of(alloc, b"profiles/categories")
}

/// The repository's own masks.
#[tactic(auto, unfolding(crate::specs::Paths::mask_path))]
pub fn mask_path(alloc: Global) -> Result<Text, NoMemory>
    ensures { IfOk result (λ path. path ≡ mask_path) }
{
    Text::of(alloc, b"profiles/package.mask")
}

/// The folder of a category's entries.
#[tactic(auto, unfolding(crate::specs::Paths::cache_dir))]
pub(crate) fn cache_dir(alloc: Global, category: &Text) -> Result<Text, NoMemory>
    ensures { IfOk result (λ path. path ≡ cache_dir category.now) }
{
    let cache = Text::of(alloc, b"metadata/md5-cache")?;
    within(alloc, &cache, category.bytes())
}

/// The entry of a PF.
pub(crate) fn entry_path(alloc: Global, category: &Text, pf: &Text) -> Result<Text, NoMemory>
    ensures { IfOk result (λ path. path ≡ entry_path category.now pf.now) }
{
    let folder = cache_dir(alloc, category)?;
    within(alloc, &folder, pf.bytes())
}

/// The ebuild of a PF with this name.
pub(crate) fn ebuild_path(
    alloc: Global,
    category: &Text,
    name: &[u8],
    pf: &Text,
) -> Result<Text, NoMemory>
    ensures { IfOk result (λ path. path ≡ ebuild_path category.now name.now pf.now) }
{
    let folder = within(alloc, category, name)?;
    let file = ebuild_name(alloc, pf)?;
    within(alloc, &folder, file.bytes())
}

#[tactic(auto, unfolding(crate::specs::Paths::eclass_path))]
pub(crate) fn eclass_path(alloc: Global, name: &Text) -> Result<Text, NoMemory>
    ensures { IfOk result (λ path. path ≡ eclass_path name.now) }
{
    let folder = Text::of(alloc, b"eclass")?;
    let mut file = name.copy(alloc)?;
    file.append(b".eclass".as_slice())?;
    within(alloc, &folder, file.bytes())
}

#[tactic(auto, unfolding(crate::specs::Paths::ebuild_end))]
fn ebuild_name(alloc: Global, pf: &Text) -> Result<Text, NoMemory>
    ensures { IfOk result (λ name. name ≡ pf.now ++ ebuild_end) }
{
    let mut name = pf.copy(alloc)?;
    name.append(b".ebuild".as_slice())?;
    Ok(name)
}
