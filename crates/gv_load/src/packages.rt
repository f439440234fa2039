//! The PFs of the categories, each with what it is. Costs what `entries`, `eclasses` and `freshness` say.
ghost use Rattle.std.specs.Prelude.{◌≡◌};
ghost use Rattle.gv_reading.specs.Causes.{Knows, Reads, view};
ghost use Rattle.gv_load.specs.Freshness.{all_kept};
ghost use Rattle.gv_load.specs.Order.{packages_steps};

use crate::eclasses::{eclass_names, read_eclasses};
use crate::entries::read_categories;
use crate::freshness::{PfsKept, judge_all};
use gv_base::{Texts, Tree};
use gv_reading::{LoadFault, Reader};
use std::alloc::Global;

/// Reads the PFs of these categories, then the eclasses that their entries name, and judges each PF by their digests.
pub(crate) fn read_packages<T: Tree>(
    alloc: Global,
    reader: &mut Reader,
    tree: &mut T,
    categories: &Texts,
) -> Result<PfsKept, LoadFault>
    requires knows { Knows (T.files tree.old) reader.old }
    ensures { Reads T.failed_at (view T.files T.faults T.entered T.lent) tree.old tree.new (λ look. packages_steps look categories.now) (λ look value. value ≡ all_kept look categories.now) reader.old reader.new result }
{
    let reads = read_categories(alloc, reader, tree, categories)?;
    let names = eclass_names(alloc, &reads)?;
    let digests = read_eclasses(alloc, reader, tree, &names)?;
    Ok(judge_all(alloc, &digests, reads)?)
}
