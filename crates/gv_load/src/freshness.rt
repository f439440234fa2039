//! What a PF is: its entry is current, stale, an orphan or missing (PMS chapter 14). O(eclasses of the entry, each looked up).
ghost use Rattle.std.specs.Prelude.{◌≡◌, ◌∷◌, [], ◌++◌, ℕ, List, Some, None, map, IfOk, OnOk, OnErr};
ghost use Rattle.std.specs.FinMap as finite;
ghost use Rattle.gv_load.specs.DigestWords.{AllNamed, KeepsDigests};
ghost use Rattle.gv_load.specs.Entries.{eclass_digest};
ghost use Rattle.gv_reading.specs.Look.{Look};
ghost use Rattle.gv_load.specs.Freshness.{is_that, first_other, stale_eclasses, stale, kept_with, kept_as, pf_kept};

use crate::eclasses::EclassDigests;
use crate::entries::{PfRead, PfReads};
use gv_base::{NoMemory, Text};
use gv_entry::{Eclass, Eclasses, Entry};
use gv_report::Subject;
use std::alloc::Global;
use std::marker::Model;

/// Why an entry isn't current.
#[derive(Drop)]
pub enum Why {
    /// Its digest isn't that of the ebuild.
    Ebuild,
    /// Its list of eclasses can't be read.
    Eclasses,
    /// This eclass is the first that isn't there as it says.
    OneEclass { name: Text },
}

/// What a PF is.
#[derive(Drop)]
pub enum Kept {
    /// Neither entry nor ebuild.
    Nothing,
    /// An ebuild without an entry.
    Missing,
    /// An entry without an ebuild.
    Orphan,
    Stale { why: Why },
    Current { entry: Entry },
}

/// A PF, and what it is.
#[derive(Drop)]
pub struct PfKept {
    /// The package that the PF is of.
    pub subject: Subject,
    pub kept: Kept,
}

/// A list of them.
#[derive(Drop)]
pub(crate) struct PfsKept {
    items: Vec<PfKept>,
}

impl Model for PfsKept {
    ghost use Rattle.std.specs.Prelude.{List};
    ghost use Rattle.std.specs.Coded.{coded_list};
    ghost use Rattle.gv_load.specs.contracts.freshness.PfKept as one;
    ghost use Rattle.gv_load.specs.declared.freshness.PfKept.{PfKept};

    ghost Value = { List PfKept };

    ghost coded = { coded_list one.the_row.coded };

    ghost view = { λ l. l.items.items };
}

impl PfsKept {
    /// None.
    pub fn new(alloc: Global) -> Self
        ensures { result ≡ [] }
    {
        PfsKept {
            items: Vec::new(alloc),
        }
    }

    /// Adds one at the end. After an error the list is unchanged.
    pub fn add(&mut self, item: PfKept) -> Result<(), NoMemory>
        ensures ok { OnOk result (self.new ≡ self.old ++ item ∷ []) }
        ensures err { OnErr result (self.new ≡ self.old) }
    {
        self.items.push(item)?;
        Ok(())
    }

    /// All, in order.
    pub fn items(&self) -> &[PfKept]
        ensures { result.now ≡ self.now }
    {
        &self.items
    }

    /// The same, given away.
    pub fn into_items(self) -> Vec<PfKept>
        ensures { result.items ≡ self }
    {
        self.items
    }
}

/// What each PF is that was read, in order, by the digests of the eclasses that were read: where those that entries with an
/// ebuild name are among them, what it is in the tree.
pub(crate) fn judge_all(
    alloc: Global,
    digests: &EclassDigests,
    reads: PfReads,
) -> Result<PfsKept, NoMemory>
    ensures kept { IfOk result (λ kept. kept ≡ map (pf_kept (finite.get digests.now)) reads) }
    ensures there { (look : Look) (names : List (List ℕ)) → KeepsDigests look names digests.now → AllNamed names reads → IfOk result (λ kept. kept ≡ map (pf_kept (eclass_digest look)) reads) }
{
    match judge_each(alloc, digests, reads) {
        Ok(kept) => Ok(kept),
        Err(_) => Err(NoMemory),
    }
}

fn is_that(found: Option<[u8; 16]>, digest: &[u8; 16]) -> bool
    ensures { result ≡ is_that found digest.now }
{
    match found {
        Some(found) => found == *digest,
        None => false,
    }
}

fn first_other(
    alloc: Global,
    digests: &EclassDigests,
    eclasses: &Eclasses,
) -> Result<Option<Text>, NoMemory>
    ensures { IfOk result (λ name. name ≡ first_other (finite.get digests.now) eclasses.now) }
{
    for e in eclasses.items() {
        if !is_that(digests.get(e.name.bytes()), &e.digest) {
            return Ok(Some(e.name.copy(alloc)?));
        }
    }
    Ok(None)
}

fn stale_eclasses(
    alloc: Global,
    digests: &EclassDigests,
    eclasses: &Option<Eclasses>,
) -> Result<Option<Why>, NoMemory>
    ensures { IfOk result (λ why. why ≡ stale_eclasses (finite.get digests.now) eclasses.now) }
{
    match eclasses {
        Some(eclasses) => match first_other(alloc, digests, eclasses)? {
            Some(name) => Ok(Some(Why::OneEclass { name })),
            None => Ok(None),
        },
        None => Ok(Some(Why::Eclasses)),
    }
}

fn stale(
    alloc: Global,
    digests: &EclassDigests,
    entry: &Entry,
    ebuild: &[u8; 16],
) -> Result<Option<Why>, NoMemory>
    ensures { IfOk result (λ why. why ≡ stale (finite.get digests.now) entry.now ebuild.now) }
{
    if is_that(entry.digest, ebuild) {
        stale_eclasses(alloc, digests, &entry.eclasses)
    } else {
        Ok(Some(Why::Ebuild))
    }
}

fn kept_with(entry: Entry, why: Option<Why>) -> Kept
    ensures { result ≡ kept_with entry why }
{
    match why {
        Some(why) => {
            drop(entry);
            Kept::Stale { why }
        }
        None => Kept::Current { entry },
    }
}

fn judge(
    alloc: Global,
    digests: &EclassDigests,
    entry: Option<Entry>,
    ebuild: Option<[u8; 16]>,
) -> Result<Kept, NoMemory>
    ensures { IfOk result (λ kept. kept ≡ kept_as (finite.get digests.now) entry ebuild) }
{
    match (entry, ebuild) {
        (None, None) => Ok(Kept::Nothing),
        (None, Some(_)) => Ok(Kept::Missing),
        (Some(entry), None) => {
            drop(entry);
            Ok(Kept::Orphan)
        }
        (Some(entry), Some(ebuild)) => match stale(alloc, digests, &entry, &ebuild) {
            Ok(why) => Ok(kept_with(entry, why)),
            Err(refused) => {
                drop(entry);
                Err(refused)
            }
        },
    }
}

fn judge_one(alloc: Global, digests: &EclassDigests, read: PfRead) -> Result<PfKept, NoMemory>
    ensures { IfOk result (λ kept. kept ≡ pf_kept (finite.get digests.now) read) }
{
    let PfRead {
        subject,
        entry,
        ebuild,
    } = read;
    let kept = judge(alloc, digests, entry, ebuild)?;
    Ok(PfKept { subject, kept })
}

fn judge_each(alloc: Global, digests: &EclassDigests, reads: PfReads) -> Result<PfsKept, NoMemory>
    ensures { IfOk result (λ kept. kept ≡ map (pf_kept (finite.get digests.now)) reads) }
{
    let mut kept = PfsKept::new(alloc);
    for read in reads.into_items() {
        kept.add(judge_one(alloc, digests, read)?)?;
    }
    Ok(kept)
}
