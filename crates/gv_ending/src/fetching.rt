//! Files taken from the store, before anything of the tree is read.
//!
//! `fetch` costs the store's call; `fetch_known` besides that O(the file's bytes), which are let go as soon as the records
//! are copied; `fetch_joined` the same for each path, and each record is copied once more.
ghost use Rattle.std.specs.Prelude.{◌≡◌, ◌≤◌, true, false, IfOk, IfErr, OnOk, OnErr};
ghost use Rattle.gv_ending.specs.Fetching.{AreJoined, AreRecordsAt, IsFileAt, IsGiven};
ghost use Rattle.gv_ending.specs.Causes.{FailsAt, FailsAtOne, Why, of_store};

use crate::Refusal;
use gv_base::{Store, StoreFault, Text};
use gv_cert::{Known, read_known};
use std::alloc::Global;

/// The bytes of the file at the path; where none is there, no bytes.
pub fn fetch<K: Store>(alloc: Global, path: &Text, store: &mut K) -> Result<Text, Refusal>
    ensures bytes { IfOk result (IsFileAt (K.files store.old) path.now) }
    ensures cause { IfErr result (Why (of_store (FailsAt path.now (K.faults store.old) (K.faults store.new)))) }
    ensures files { K.files store.new ≡ K.files store.old }
    ensures later { K.faults store.old ≤ K.faults store.new }
    ensures calm { OnOk result (K.faults store.new ≡ K.faults store.old) }
{
    match store.fetch(alloc, path) {
        Ok(Some(bytes)) => Ok(bytes),
        Ok(None) => Ok(Text::of(alloc, b"")?),
        Err(StoreFault::Failed) => match path.copy(alloc) {
            Ok(path) => Err(Refusal::StoreFailed { path }),
            Err(_) => Err(Refusal::NoMemory),
        },
        Err(StoreFault::NoMemory) => Err(Refusal::NoMemory),
    }
}

/// The records of certificates that the file at the path has; where none is there, none.
pub fn fetch_known<K: Store>(alloc: Global, path: &Text, store: &mut K) -> Result<Known, Refusal>
    ensures known { IfOk result (AreRecordsAt (K.files store.old) path.now) }
    ensures cause { IfErr result (Why (of_store (FailsAt path.now (K.faults store.old) (K.faults store.new)))) }
    ensures files { K.files store.new ≡ K.files store.old }
    ensures later { K.faults store.old ≤ K.faults store.new }
    ensures calm { OnOk result (K.faults store.new ≡ K.faults store.old) }
{
    let bytes = fetch(alloc, path, store)?;
    Ok(read_known(alloc, bytes.bytes())?)
}

/// The records that are given by the file at the path. Where those of before are passed over, there are none, and the store isn't
/// touched.
pub fn given<K: Store>(
    alloc: Global,
    fresh: bool,
    path: &Text,
    store: &mut K,
) -> Result<Known, Refusal>
    ensures given { IfOk result (IsGiven fresh (K.files store.old) path.now) }
    ensures cause { IfErr result (Why (of_store (FailsAt path.now (K.faults store.old) (K.faults store.new)))) }
    ensures unfresh { OnErr result (fresh ≡ false) }
    ensures files { K.files store.new ≡ K.files store.old }
    ensures later { K.faults store.old ≤ K.faults store.new }
    ensures calm { OnOk result (K.faults store.new ≡ K.faults store.old) }
    ensures fresh { fresh ≡ true → store.new ≡ store.old }
{
    if fresh {
        return Ok(Known::new(alloc));
    }
    fetch_known(alloc, path, store)
}

/// The records of certificates that the files at the paths have, those of one behind those of another; a file that isn't there has none.
pub fn fetch_joined<K: Store>(
    alloc: Global,
    paths: &[Text],
    store: &mut K,
) -> Result<Known, Refusal>
    ensures known { IfOk result (AreJoined (K.files store.old) paths.now) }
    ensures cause { IfErr result (Why (of_store (FailsAtOne paths.now (K.faults store.old) (K.faults store.new)))) }
    ensures files { K.files store.new ≡ K.files store.old }
    ensures later { K.faults store.old ≤ K.faults store.new }
    ensures calm { OnOk result (K.faults store.new ≡ K.faults store.old) }
{
    let mut joined = Known::new(alloc);
    for path in paths {
        let known = match fetch_known(alloc, path, store) {
            Ok(known) => known,
            Err(refusal) => return Err(refusal),
        };
        joined.append(&known)?;
    }
    Ok(joined)
}
