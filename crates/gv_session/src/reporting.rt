//! The repository of the files of a tree with edits over them, and the text of reports.
//!
//! Costs what `load_counted`, or `reread_entries`, over the edited tree costs, and O(the bytes of the text).
ghost use Rattle.std.specs.Prelude.{◌≡◌, ◌≤◌, true, length, IfOk, IfErr, OnOk};
ghost use Rattle.std.specs.List.{list_all};
ghost use Rattle.gv_edits.specs.Edits.{edited_told};
ghost use Rattle.gv_load.specs.Loading.{LoadCause};
ghost use Rattle.gv_load.specs.Repository.{AreClassless, AreInPackageOrder};
ghost use Rattle.gv_reload.specs.EntryEdits.{is_entry};
ghost use Rattle.gv_reload.specs.Rereading.{IsReread, RereadCause};
ghost use Rattle.gv_report.specs.Emitted.{emitted};
ghost use Rattle.gv_session.specs.Handing.{EditedCause};
ghost use Rattle.gv_session.specs.Session.{IsFound, IsLoaded};

use crate::fault::failed_at;
use gv_base::{NoMemory, Text, Tree};
use gv_edits::{EditedTree, Edits};
use gv_load::{LoadFault, Loaded, load_counted};
use gv_reload::{EntryEdits, Reread, reread_entries};
use gv_report::{Emitter, Options, Report, Reports, selected};
use gv_views::NotingTree;
use std::alloc::Global;

/// The repository that the tree's files with the edits load to. A fault of the tree is told at the call that failed.
#[tactic(auto, using(crate::proofs::CauseLemmas::edited_cause))]
pub(crate) fn load_edited<T: Tree>(
    alloc: Global,
    tree: &mut T,
    edits: &Edits,
) -> Result<Loaded, LoadFault>
    ensures repo { IfOk result (λ loaded. IsLoaded edits.now (T.files tree.old) loaded.repo) }
    ensures found { IfOk result (λ loaded. IsFound edits.now (T.files tree.old) loaded) }
    ensures bodies { IfOk result (λ loaded. length loaded.repo.bodies ≡ length loaded.repo.pkgs) }
    ensures order { IfOk result (λ loaded. AreInPackageOrder loaded.repo.pkgs) }
    ensures classless { IfOk result (λ loaded. AreClassless loaded.repo.notes) }
    ensures cause { IfErr result (EditedCause (edited_told (T.files tree.old) edits.now) (T.faults tree.old) (T.faults tree.new)) }
    ensures files { T.files tree.new ≡ T.files tree.old }
    ensures root { T.entered tree.new ≡ T.entered tree.old }
    ensures lent { T.lent tree.new ≡ T.lent tree.old }
    ensures later { T.faults tree.old ≤ T.faults tree.new }
    ensures calm { OnOk result (T.faults tree.new ≡ T.faults tree.old) }
{
    let mut failed = None;
    match load_noting(alloc, tree, edits, &mut failed) {
        Ok(loaded) => Ok(loaded),
        Err(fault) => Err(failed_at(failed, fault)),
    }
}

// The path of a call that failed is noted.
fn load_noting<T: Tree>(
    alloc: Global,
    tree: &mut T,
    edits: &Edits,
    failed: &mut Option<Text>,
) -> Result<Loaded, LoadFault>
    ensures repo { IfOk result (λ loaded. IsLoaded edits.now (T.files tree.old) loaded.repo) }
    ensures found { IfOk result (λ loaded. IsFound edits.now (T.files tree.old) loaded) }
    ensures bodies { IfOk result (λ loaded. length loaded.repo.bodies ≡ length loaded.repo.pkgs) }
    ensures order { IfOk result (λ loaded. AreInPackageOrder loaded.repo.pkgs) }
    ensures classless { IfOk result (λ loaded. AreClassless loaded.repo.notes) }
    ensures cause { IfErr result (LoadCause (edited_told (T.files tree.old) edits.now) (T.faults tree.old) (T.faults tree.new)) }
    ensures files { T.files tree.new ≡ T.files tree.old }
    ensures root { T.entered tree.new ≡ T.entered tree.old }
    ensures lent { T.lent tree.new ≡ T.lent tree.old }
    ensures later { T.faults tree.old ≤ T.faults tree.new }
    ensures calm { OnOk result (T.faults tree.new ≡ T.faults tree.old) }
{
    let mut noting = NotingTree { tree, failed };
    match load_over(alloc, &mut noting, edits) {
        Ok(loaded) => Ok(loaded),
        Err(fault) => Err(fault),
    }
}

fn load_over<T: Tree>(alloc: Global, tree: &mut T, edits: &Edits) -> Result<Loaded, LoadFault>
    ensures repo { IfOk result (λ loaded. IsLoaded edits.now (T.files tree.old) loaded.repo) }
    ensures found { IfOk result (λ loaded. IsFound edits.now (T.files tree.old) loaded) }
    ensures bodies { IfOk result (λ loaded. length loaded.repo.bodies ≡ length loaded.repo.pkgs) }
    ensures order { IfOk result (λ loaded. AreInPackageOrder loaded.repo.pkgs) }
    ensures classless { IfOk result (λ loaded. AreClassless loaded.repo.notes) }
    ensures cause { IfErr result (LoadCause (edited_told (T.files tree.old) edits.now) (T.faults tree.old) (T.faults tree.new)) }
    ensures files { T.files tree.new ≡ T.files tree.old }
    ensures root { T.entered tree.new ≡ T.entered tree.old }
    ensures lent { T.lent tree.new ≡ T.lent tree.old }
    ensures later { T.faults tree.old ≤ T.faults tree.new }
    ensures calm { OnOk result (T.faults tree.new ≡ T.faults tree.old) }
{
    let mut edited = EditedTree { tree, edits };
    load_counted(alloc, &mut edited)
}

/// The repository after edits of these entries, for which these alone are read of the tree's files with the edits. A fault of the tree
/// is told at the call that failed.
#[tactic(auto, using(crate::proofs::CauseLemmas::reread_still))]
pub(crate) fn reread_edited<T: Tree>(
    alloc: Global,
    tree: &mut T,
    edits: &Edits,
    old: Loaded,
    entries: &EntryEdits,
) -> Result<Reread, LoadFault>
    requires old_order { AreInPackageOrder old.repo.pkgs }
    requires entries { list_all (is_entry old.folders.categories) entries.now ≡ true }
    ensures reread { IfOk result (IsReread entries.now old (edited_told (T.files tree.old) edits.now)) }
    ensures cause { IfErr result (RereadCause (T.faults tree.old) (T.faults tree.new)) }
    ensures files { T.files tree.new ≡ T.files tree.old }
    ensures root { T.entered tree.new ≡ T.entered tree.old }
    ensures lent { T.lent tree.new ≡ T.lent tree.old }
    ensures later { T.faults tree.old ≤ T.faults tree.new }
    ensures calm { OnOk result (T.faults tree.new ≡ T.faults tree.old) }
{
    let mut failed = None;
    match reread_noting(alloc, tree, edits, old, entries, &mut failed) {
        Ok(reread) => Ok(reread),
        Err(fault) => Err(failed_at(failed, fault)),
    }
}

// The path of a call that failed is noted.
fn reread_noting<T: Tree>(
    alloc: Global,
    tree: &mut T,
    edits: &Edits,
    old: Loaded,
    entries: &EntryEdits,
    failed: &mut Option<Text>,
) -> Result<Reread, LoadFault>
    requires old_order { AreInPackageOrder old.repo.pkgs }
    requires entries { list_all (is_entry old.folders.categories) entries.now ≡ true }
    ensures reread { IfOk result (IsReread entries.now old (edited_told (T.files tree.old) edits.now)) }
    ensures cause { IfErr result (RereadCause (T.faults tree.old) (T.faults tree.new)) }
    ensures files { T.files tree.new ≡ T.files tree.old }
    ensures root { T.entered tree.new ≡ T.entered tree.old }
    ensures lent { T.lent tree.new ≡ T.lent tree.old }
    ensures later { T.faults tree.old ≤ T.faults tree.new }
    ensures calm { OnOk result (T.faults tree.new ≡ T.faults tree.old) }
{
    let mut noting = NotingTree { tree, failed };
    match reread_over(alloc, &mut noting, edits, old, entries) {
        Ok(reread) => Ok(reread),
        Err(fault) => Err(fault),
    }
}

fn reread_over<T: Tree>(
    alloc: Global,
    tree: &mut T,
    edits: &Edits,
    old: Loaded,
    entries: &EntryEdits,
) -> Result<Reread, LoadFault>
    requires old_order { AreInPackageOrder old.repo.pkgs }
    requires entries { list_all (is_entry old.folders.categories) entries.now ≡ true }
    ensures reread { IfOk result (IsReread entries.now old (edited_told (T.files tree.old) edits.now)) }
    ensures cause { IfErr result (RereadCause (T.faults tree.old) (T.faults tree.new)) }
    ensures files { T.files tree.new ≡ T.files tree.old }
    ensures root { T.entered tree.new ≡ T.entered tree.old }
    ensures lent { T.lent tree.new ≡ T.lent tree.old }
    ensures later { T.faults tree.old ≤ T.faults tree.new }
    ensures calm { OnOk result (T.faults tree.new ≡ T.faults tree.old) }
{
    let mut edited = EditedTree { tree, edits };
    reread_entries(alloc, &mut edited, old, entries)
}

/// The text of the reports that the options select.
pub(crate) fn text_of(alloc: Global, options: &Options, reports: &Reports) -> Result<Text, NoMemory>
    ensures { IfOk result (λ text. text ≡ emitted options.now reports.now) }
{
    let test = |report: &Report| selected(options, report);
    Emitter::new(options, test).emit(alloc, reports)
}
