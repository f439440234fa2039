//! A file kept in the store. Costs the store's call.
ghost use Rattle.std.specs.Prelude.{◌≡◌, ◌≤◌, IfErr, OnOk, OnErr};
ghost use Rattle.std.specs.FinMap as map;
ghost use Rattle.std.specs.Option.{option_map};
ghost use Rattle.gv_ending.specs.Causes.{FailsAt, Why, of_store};

use crate::Refusal;
use gv_base::{Store, StoreFault, Text};
use std::alloc::Global;

/// Makes the bytes the file at the path.
pub fn keep<K: Store>(alloc: Global, path: &Text, file: &Text, store: &mut K) -> Result<(), Refusal>
    ensures kept { OnOk result (K.files store.new ≡ option_map (λ files. map.insert files path.now file.now) (K.files store.old)) }
    ensures others { OnErr result (option_map (λ files. map.remove files path.now) (K.files store.new) ≡ option_map (λ files. map.remove files path.now) (K.files store.old)) }
    ensures cause { IfErr result (Why (of_store (FailsAt path.now (K.faults store.old) (K.faults store.new)))) }
    ensures later { K.faults store.old ≤ K.faults store.new }
    ensures calm { OnOk result (K.faults store.new ≡ K.faults store.old) }
{
    match store.replace(alloc, path, file) {
        Ok(()) => Ok(()),
        Err(StoreFault::Failed) => match path.copy(alloc) {
            Ok(path) => Err(Refusal::StoreFailed { path }),
            Err(_) => Err(Refusal::NoMemory),
        },
        Err(StoreFault::NoMemory) => Err(Refusal::NoMemory),
    }
}
