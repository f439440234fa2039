//! Names of entries that are given, read whatever is listed, with the eclasses that these entries name.
//!
//! Costs O(log n) comparisons for each of n PFs, and the bytes of their entries, of their ebuilds and of these eclasses.
ghost use Rattle.std.specs.Prelude.{◌≡◌, ◌++◌, ◌+◌, length, IfOk, OnOk};
ghost use Rattle.gv_base.specs.Order.{in_order};
ghost use Rattle.gv_load.specs.DigestWords.{AllNamed};
ghost use Rattle.gv_load.specs.Given.{all_said, given_in, given_read, given_reads, given_steps, given_with, names_said, pf_steps, steps_in};
ghost use Rattle.gv_load.specs.Repository.{AreClassless, AreInPackageOrder};
ghost use Rattle.gv_reading.specs.Causes.{Knows, Reads, view};

use crate::categories::{pfs_among, set_of};
use crate::eclasses::{add_readable, read_eclasses};
use crate::entries::{PfRead, PfReads, read_pfs};
use crate::freshness::{PfsKept, judge_all};
use crate::members::{Bodies, packages_in};
use crate::notes::add_pfs;
use gv_base::{NoMemory, Text, Texts, Tree};
use gv_facts::Pkgs;
use gv_reading::{LoadFault, Reader};
use gv_report::Reports;
use std::alloc::Global;

/// Names of a category's entries.
#[derive(Drop)]
pub struct Given {
    pub category: Text,
    /// In the order in which they are read. A name that is no PF is passed over.
    pub names: Texts,
}

/// What the entries of these names say.
#[derive(Drop)]
pub struct GivenRead {
    /// The packages that current ones say, in package order.
    pub pkgs: Pkgs,
    /// Their expressions, one body for each package.
    pub bodies: Bodies,
    /// Errors of current ones, and PFs that are stale, orphans or missing.
    pub notes: Reports,
    /// How many paths were read at most.
    pub more: u64,
}

/// Reads the entry and the ebuild of each PF of these, then the eclasses that the entries name, and judges each PF by their digests.
pub fn read_given<T: Tree>(
    alloc: Global,
    reader: &mut Reader,
    tree: &mut T,
    given: &[Given],
) -> Result<GivenRead, LoadFault>
    requires { Knows (T.files tree.old) reader.old }
    ensures reads { Reads T.failed_at (view T.files T.faults T.entered T.lent) tree.old tree.new (λ look. given_steps look given.now) (λ look value. value ≡ given_read look given.now) reader.old reader.new result }
    ensures order { IfOk result (λ read. AreInPackageOrder read.pkgs) }
    ensures bodies { IfOk result (λ read. length read.bodies ≡ length read.pkgs) }
    ensures classless { IfOk result (λ read. AreClassless read.notes) }
{
    let reads = read_all(alloc, reader, tree, given)?;
    let said = all_said(alloc, &reads)?;
    let names = in_order(alloc, &said, &reads)?;
    let digests = read_eclasses(alloc, reader, tree, &names)?;
    let read = reads.items().len() as u64;
    let more = sum(read, said.items().len() as u64)?;
    let kepts = judge_all(alloc, &digests, reads)?;
    Ok(given_with(alloc, kepts, more)?)
}

#[tactic(auto, using(crate::specs::NoteClasses::of_pfs))]
fn given_with(alloc: Global, kepts: PfsKept, more: u64) -> Result<GivenRead, NoMemory>
    ensures value { IfOk result (λ read. read ≡ given_with kepts more) }
    ensures order { IfOk result (λ read. AreInPackageOrder read.pkgs) }
    ensures bodies { IfOk result (λ read. length read.bodies ≡ length read.pkgs) }
    ensures classless { IfOk result (λ read. AreClassless read.notes) }
{
    let mut notes = Reports::new(alloc);
    add_pfs(alloc, &mut notes, &kepts)?;
    let packages = packages_in(alloc, kepts)?;
    Ok(GivenRead {
        pkgs: packages.pkgs,
        bodies: packages.bodies,
        notes,
        more,
    })
}

// Twice the first, and the second.
fn sum(twice: u64, once: u64) -> Result<u64, NoMemory>
    ensures { IfOk result (λ sum. sum ≡ twice + (twice + once)) }
{
    match twice.checked_add(once) {
        Some(both) => match twice.checked_add(both) {
            Some(sum) => Ok(sum),
            None => Err(NoMemory),
        },
        None => Err(NoMemory),
    }
}

// Reads the PFs among names of a category, and adds what was read at the end.
fn read_category<T: Tree>(
    alloc: Global,
    reader: &mut Reader,
    tree: &mut T,
    given: &Given,
    reads: &mut PfReads,
) -> Result<(), LoadFault>
    requires { Knows (T.files tree.old) reader.old }
    ensures { Reads T.failed_at (view T.files T.faults T.entered T.lent) tree.old tree.new (λ look. steps_in given.now) (λ look _. reads.new ≡ reads.old ++ given_in look given.now) reader.old reader.new result }
{
    let pfs = pfs_among(alloc, &given.names)?;
    let listed = set_of(alloc, &pfs)?;
    read_pfs(alloc, reader, tree, &listed, &given.category, &pfs, reads)?;
    Ok(())
}

fn read_all<T: Tree>(
    alloc: Global,
    reader: &mut Reader,
    tree: &mut T,
    given: &[Given],
) -> Result<PfReads, LoadFault>
    requires { Knows (T.files tree.old) reader.old }
    ensures { Reads T.failed_at (view T.files T.faults T.entered T.lent) tree.old tree.new (λ look. pf_steps given.now) (λ look value. value ≡ given_reads look given.now) reader.old reader.new result }
{
    let mut reads = PfReads::new(alloc);
    for one in given {
        read_category(alloc, reader, tree, one, &mut reads)?;
    }
    Ok(reads)
}

fn add_said(alloc: Global, names: &mut Texts, read: &PfRead) -> Result<(), NoMemory>
    ensures { OnOk result (names.new ≡ names.old ++ names_said read.now) }
{
    match &read.entry {
        Some(entry) => add_readable(alloc, names, &entry.eclasses),
        None => Ok(()),
    }
}

// The eclasses that these entries name, with an ebuild or without.
fn all_said(alloc: Global, reads: &PfReads) -> Result<Texts, NoMemory>
    ensures { IfOk result (λ names. names ≡ all_said reads.now) }
{
    let mut names = Texts::new(alloc);
    for read in reads.items() {
        add_said(alloc, &mut names, read)?;
    }
    Ok(names)
}

// They in byte order, each once. All that entries with an ebuild name is among them.
#[tactic(auto, using(crate::proofs::GivenNames::all_are_named))]
fn in_order(alloc: Global, said: &Texts, reads: &PfReads) -> Result<Texts, NoMemory>
    requires said { said.now ≡ all_said reads.now }
    ensures value { IfOk result (λ names. names ≡ in_order said.now) }
    ensures named { IfOk result (λ names. AllNamed names reads.now) }
{
    said.in_order(alloc)
}
