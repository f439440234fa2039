//! Which queries are answered anew: of each package the classes in which something rests on edited entries. O(packages).
ghost use Rattle.std.specs.Prelude.{◌≡◌, map, IfOk};
ghost use Rattle.gv_renew.specs.Due.{due_set};

use crate::touched::Touched;
use gv_base::NoMemory;
use gv_checks::ClassSet;
use std::alloc::Global;

/// The classes of each package whose queries are due.
pub(crate) fn due_sets(alloc: Global, touched: &[Touched<'_>]) -> Result<Vec<ClassSet>, NoMemory>
    ensures { IfOk result (λ sets. sets.items ≡ map due_set touched.now) }
{
    let mut sets = Vec::with_capacity(alloc, touched.len())?;
    for one in touched {
        sets.push(due_set(one))?;
    }
    Ok(sets)
}

/// Those of this package.
pub(crate) fn due_set(one: &Touched<'_>) -> ClassSet
    ensures { result ≡ due_set one.now }
{
    ClassSet {
        required: one.edited,
        depend: one.edited || one.depend,
        bdepend: one.edited || one.bdepend,
        rdepend: one.edited || one.rdepend,
        pdepend: one.edited || one.pdepend,
        idepend: one.edited || one.idepend,
    }
}
