//! Texts in byte order.
//!
//! `has` goes through the list; `in_order` costs O(n log n) comparisons for n texts and copies each.
ghost use Rattle.std.specs.Prelude.{◌≡◌, IfOk};
ghost use Rattle.gv_base.specs.Order.{has_text, in_order, HaveSameTexts, IsAscending};

use crate::{NoMemory, Text, Texts};
use std::alloc::Global;
use std::collections::BTreeSet;

impl Texts {
    /// Whether one of the texts has these bytes.
    pub fn has(&self, bytes: &[u8]) -> bool
        ensures { result ≡ has_text self.now bytes.now }
    {
        for item in self.items() {
            if bytes == item.bytes() {
                return true;
            }
        }
        false
    }

    /// The texts in byte order, each once.
    pub fn in_order(&self, alloc: Global) -> Result<Texts, NoMemory>
        ensures value { IfOk result (λ texts. texts ≡ in_order self.now) }
        ensures ascends { IfOk result IsAscending }
        ensures members { IfOk result (HaveSameTexts self.now) }
    {
        self.sorted(alloc)
    }

    // The same, by its value alone.
    fn sorted(&self, alloc: Global) -> Result<Texts, NoMemory>
        ensures { IfOk result (λ texts. texts ≡ in_order self.now) }
    {
        let mut set = BTreeSet::new(alloc);
        for item in self.items() {
            set.insert(item.copy(alloc)?)?;
        }
        Texts::of_set(alloc, set)
    }

    // The texts of a set, in its order.
    pub(crate) fn of_set(alloc: Global, set: BTreeSet<Text>) -> Result<Texts, NoMemory>
        ensures { IfOk result (λ texts. texts ≡ set.keys) }
    {
        let mut texts = Texts::new(alloc);
        for item in set {
            texts.add(item)?;
        }
        Ok(texts)
    }
}
