//! The PFs whose entries are edited, read anew whatever is listed, with the eclasses that their entries name.
//!
//! Costs O(paths) for each category, and what `read_given` of `gv_load` costs.
ghost use Rattle.std.specs.Prelude.{◌≡◌, filter_map, length, IfOk};
ghost use Rattle.gv_load.specs.Repository.{AreClassless, AreInPackageOrder};
ghost use Rattle.gv_reading.specs.Causes.{Knows, Reads, view};
ghost use Rattle.gv_reload.specs.Rereading.{edited_steps, given_in, given_of, pf_in, read_of};

use crate::entry_paths::entry_parts;
use gv_base::{NoMemory, Text, Texts, Tree};
use gv_load::{Given, GivenRead, read_given};
use gv_reading::{LoadFault, Reader};
use std::alloc::Global;

/// Reads the edited PFs of these categories, then the eclasses that their entries name.
pub(crate) fn read_edited<T: Tree>(
    alloc: Global,
    reader: &mut Reader,
    tree: &mut T,
    categories: &Texts,
    paths: &[Text],
) -> Result<GivenRead, LoadFault>
    requires knows { Knows (T.files tree.old) reader.old }
    ensures reads { Reads T.failed_at (view T.files T.faults T.entered T.lent) tree.old tree.new (λ look. edited_steps look paths.now categories.now) (λ look value. value ≡ read_of look paths.now categories.now) reader.old reader.new result }
    ensures order { IfOk result (λ read. AreInPackageOrder read.pkgs) }
    ensures bodies { IfOk result (λ read. length read.bodies ≡ length read.pkgs) }
    ensures classless { IfOk result (λ read. AreClassless read.notes) }
{
    let given = given_of(alloc, categories, paths)?;
    match read_given(alloc, reader, tree, &given) {
        Ok(read) => Ok(read),
        Err(fault) => Err(fault),
    }
}

// The PF of an entry of this category.
fn pf_in(alloc: Global, category: &Text, path: &Text) -> Result<Option<Text>, NoMemory>
    ensures { IfOk result (λ pf. pf ≡ pf_in category.now path.now) }
{
    match entry_parts(path.bytes()) {
        Some((of, pf)) => {
            if of == category.bytes() {
                Ok(Some(Text::of(alloc, pf)?))
            } else {
                Ok(None)
            }
        }
        None => Ok(None),
    }
}

fn all_in(alloc: Global, paths: &[Text], category: &Text) -> Result<Texts, NoMemory>
    ensures { IfOk result (λ pfs. pfs ≡ filter_map (pf_in category.now) paths.now) }
{
    let mut pfs = Texts::new(alloc);
    for path in paths {
        match pf_in(alloc, category, path)? {
            Some(pf) => pfs.add(pf)?,
            None => {}
        }
    }
    Ok(pfs)
}

fn given_in(alloc: Global, paths: &[Text], category: &Text) -> Result<Given, NoMemory>
    ensures { IfOk result (λ given. given ≡ given_in paths.now category.now) }
{
    let all = all_in(alloc, paths, category)?;
    let names = all.in_order(alloc)?;
    let category = category.copy(alloc)?;
    Ok(Given { category, names })
}

// The names of edited entries, category by category.
fn given_of(alloc: Global, categories: &Texts, paths: &[Text]) -> Result<Vec<Given>, NoMemory>
    ensures { IfOk result (λ given. given.items ≡ given_of paths.now categories.now) }
{
    let mut given = Vec::new(alloc);
    for category in categories.items() {
        given.push(given_in(alloc, paths, category)?)?;
    }
    Ok(given)
}
