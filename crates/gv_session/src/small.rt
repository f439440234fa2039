//! The edits behind those that the last report saw, where they are all edits of entries. O(bytes of their paths), and each is held
//! against the categories.
ghost use Rattle.std.specs.Prelude.{◌≡◌, ◌∷◌, [], ◌++◌, true, false, not, drop, map, IfOk, OnOk};
ghost use Rattle.std.specs.List.{list_all, list_any};
ghost use Rattle.gv_reload.specs.EntryEdits.{is_in_metadata};
ghost use Rattle.gv_session.specs.Due.{is_small, new_paths};
ghost use Rattle.gv_session.specs.Small.{AreSmall};

use gv_base::{NoMemory, Text, Texts};
use gv_edits::Edits;
use gv_load::Folders;
use gv_reload::{EntryEdits, is_entry, is_in_metadata};
use std::alloc::Global;

/// The paths of the edits behind so many, where all of these are small.
#[tactic(auto, using(crate::proofs::SmallLemmas::none_yet, crate::proofs::SmallLemmas::one_more, crate::proofs::SmallLemmas::one_large, crate::proofs::SmallLemmas::all_small, crate::proofs::SmallLemmas::not_there))]
pub(crate) fn small_edits(
    alloc: Global,
    folders: &Folders,
    edits: &Edits,
    seen: usize,
) -> Result<Option<EntryEdits>, NoMemory>
    ensures { IfOk result (AreSmall folders.now (new_paths edits.now seen)) }
{
    let apart = !some_in_metadata(&folders.directories);
    let mut entries = EntryEdits::new(alloc);
    for place in seen..edits.len() {
        let Some(path) = edits.path(place) else {
            unreachable!()
        };
        if !is_small(folders, apart, path)? {
            return Ok(None);
        }
        entries.add(alloc, path)?;
    }
    Ok(Some(entries))
}

fn some_in_metadata(directories: &Texts) -> bool
    ensures { result ≡ list_any is_in_metadata directories.now }
{
    for directory in directories.items() {
        if is_in_metadata(directory) {
            return true;
        }
    }
    false
}

fn is_small(folders: &Folders, apart: bool, path: &Text) -> Result<bool, NoMemory>
    requires { apart ≡ not (list_any is_in_metadata folders.now.directories) }
    ensures { IfOk result (λ small. small ≡ is_small folders.now path.now) }
{
    Ok(is_entry(&folders.categories, path)? && apart)
}
