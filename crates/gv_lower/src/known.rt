//! Flags of a package with what is known of their states whatever the profile. O(1) and the look-up of its kind for each.
ghost use Rattle.std.specs.Prelude.{◌≡◌, map, IfOk};
ghost use Rattle.gv_expr.specs.Mentions.{texts_of};
ghost use Rattle.gv_lower.specs.Sites.{known_items, known_of};

use gv_atom::UseItem;
use gv_base::NoMemory;
use gv_facts::Pkg;
use gv_usestate::{FlagKind, RuledFlags};
use std::alloc::Global;
use std::marker::Model;

/// A flag of a package.
#[derive(Drop)]
pub(crate) struct KnownFlag<'a> {
    pub(crate) flag: &'a [u8],
    pub(crate) kind: FlagKind,
}

impl<'a> Model for KnownFlag<'a> {
    ghost use Rattle.gv_lower.specs.Sites.{KnownFlag};

    ghost Value = { KnownFlag };

    ghost view = { λ k. record { flag = k.flag.now; kind = k.kind } };
}

/// These flags of the package.
pub(crate) fn known_flags<'a>(
    alloc: Global,
    ruled: &RuledFlags<'_>,
    pkg: &Pkg,
    flags: &[&'a [u8]],
) -> Result<Vec<KnownFlag<'a>>, NoMemory>
    ensures { IfOk result (λ known. known.items ≡ map (known_of ruled.now pkg.now) (texts_of flags.now)) }
{
    let mut these = Vec::with_capacity(alloc, flags.len())?;
    for flag in flags {
        these.push(known(ruled, pkg, flag))?;
    }
    Ok(these)
}

/// The flags of the package that the items name.
pub(crate) fn known_items<'a>(
    alloc: Global,
    ruled: &RuledFlags<'_>,
    pkg: &Pkg,
    items: &'a [UseItem],
) -> Result<Vec<KnownFlag<'a>>, NoMemory>
    ensures { IfOk result (λ known. known.items ≡ known_items ruled.now items.now pkg.now) }
{
    let mut these = Vec::with_capacity(alloc, items.len())?;
    for item in items {
        these.push(known(ruled, pkg, item.flag.bytes()))?;
    }
    Ok(these)
}

fn known<'a>(ruled: &RuledFlags<'_>, pkg: &Pkg, flag: &'a [u8]) -> KnownFlag<'a>
    ensures { result ≡ known_of ruled.now pkg.now flag.now }
{
    let kind = ruled.kind(pkg, flag);
    KnownFlag { flag, kind }
}
