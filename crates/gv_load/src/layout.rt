//! The fixed names in a profile directory (PMS chapter 5).
ghost use Rattle.std.specs.Prelude.{◌≡◌, IfOk};
ghost use Rattle.gv_load.specs.Layout.{layout};

use gv_base::{NoMemory, Text};
use std::alloc::Global;

/// The names of the files of a profile directory, in the order in which they are read.
#[derive(Drop)]
pub(crate) struct Layout {
    pub eapi: Text,
    pub parent: Text,
    pub defaults: Text,
    pub use_mask: Text,
    pub use_force: Text,
    pub use_stable_mask: Text,
    pub use_stable_force: Text,
    pub package_mask: Text,
    pub package_use_mask: Text,
    pub package_use_force: Text,
    pub package_use_stable_mask: Text,
    pub package_use_stable_force: Text,
}

/// The names as PMS spells them: `eapi`, `parent`, `make.defaults` and so on.
#[tactic(auto, unfolding(crate::specs::Layout::layout))]
pub(crate) fn dir_names(alloc: Global) -> Result<Layout, NoMemory>
    ensures { IfOk result (λ names. names ≡ layout) }
{
    let eapi = Text::of(alloc, b"eapi")?;
    let parent = Text::of(alloc, b"parent")?;
    let defaults = Text::of(alloc, b"make.defaults")?;
    let flags = flag_names(alloc)?;
    let package_mask = Text::of(alloc, b"package.mask")?;
    let packages = package_names(alloc)?;
    Ok(Layout {
        eapi,
        parent,
        defaults,
        use_mask: flags.mask,
        use_force: flags.force,
        use_stable_mask: flags.stable_mask,
        use_stable_force: flags.stable_force,
        package_mask,
        package_use_mask: packages.mask,
        package_use_force: packages.force,
        package_use_stable_mask: packages.stable_mask,
        package_use_stable_force: packages.stable_force,
    })
}

// Of files of one kind: those that mask and those that force, and the same for stable packages alone.
#[derive(Drop)]
struct KindNames {
    mask: Text,
    force: Text,
    stable_mask: Text,
    stable_force: Text,
}

#[tactic(auto, unfolding(crate::specs::Layout::layout))]
fn flag_names(alloc: Global) -> Result<KindNames, NoMemory>
    ensures { IfOk result (λ names. names ≡ record { mask = layout.use_mask; force = layout.use_force; stable_mask = layout.use_stable_mask; stable_force = layout.use_stable_force }) }
{
    Ok(KindNames {
        mask: Text::of(alloc, b"use.mask")?,
        force: Text::of(alloc, b"use.force")?,
        stable_mask: Text::of(alloc, b"use.stable.mask")?,
        stable_force: Text::of(alloc, b"use.stable.force")?,
    })
}

#[tactic(auto, unfolding(crate::specs::Layout::layout))]
fn package_names(alloc: Global) -> Result<KindNames, NoMemory>
    ensures { IfOk result (λ names. names ≡ record { mask = layout.package_use_mask; force = layout.package_use_force; stable_mask = layout.package_use_stable_mask; stable_force = layout.package_use_stable_force }) }
{
    Ok(KindNames {
        mask: Text::of(alloc, b"package.use.mask")?,
        force: Text::of(alloc, b"package.use.force")?,
        stable_mask: Text::of(alloc, b"package.use.stable.mask")?,
        stable_force: Text::of(alloc, b"package.use.stable.force")?,
    })
}
