//! The items of an atom by the flags that they name: for each item whether it is the first that names its flag, and where the
//! next one stands.
//!
//! `of` costs O(n log n) comparisons of flags for n items, `is_first` a look-up, `later` O(1).
ghost use Rattle.std.specs.Prelude.{◌≡◌, ◌+◌, ◌<◌, ℕ, List, length, drop, not, take, IfOk};
ghost use Rattle.std.specs.List.{list_any};
ghost use Rattle.std.specs.Str.{bytes_eq};
ghost use Rattle.gv_lower.specs.Chains.{HasFlag, next_naming};

use gv_atom::UseItem;
use gv_base::{NoMemory, Text, byte_order_law};
use std::alloc::Global;
use std::collections::BTreeMap;
use std::marker::Model;

#[derive(Drop)]
pub(crate) struct Chains<'a> {
    items: &'a [UseItem],
    // Of each flag the place of the first item that names it.
    first: BTreeMap<&'a [u8], usize>,
    // Of each item, the last one first, the place of the next one that names its flag.
    later: Vec<Option<usize>>,
}

impl<'a> Model for Chains<'a> {
    ghost use Rattle.std.specs.Prelude.{List};
    ghost use Rattle.gv_atom.specs.declared.items.UseItem.{UseItem};
    ghost use Rattle.gv_lower.specs.Chains.{AreChains};

    ghost Value = { List UseItem };

    ghost view = { λ c. c.items.now };

    ghost invariant = { λ c. AreChains c.first.entries c.later.items c.items.now };
}

impl<'a> Chains<'a> {
    pub(crate) fn of(alloc: Global, items: &'a [UseItem]) -> Result<Chains<'a>, NoMemory>
        ensures { IfOk result (λ chains. chains ≡ items.now) }
    {
        byte_order_law();
        let mut first = BTreeMap::new(alloc);
        let mut later = Vec::new(alloc);
        let mut at = items.len();
        while at > 0 {
            at -= 1;
            let next = first.insert(items[at].flag.bytes(), at)?;
            later.push(next)?;
        }
        Ok(Chains {
            items,
            first,
            later,
        })
    }

    pub(crate) fn items(&self) -> &'a [UseItem]
        ensures { result.now ≡ self.now }
    {
        self.items
    }

    // Whether no item before this one, which names the flag, does.
    pub(crate) fn is_first(&self, at: usize, flag: &'a Text) -> bool
        requires { HasFlag self.now at flag.now }
        ensures { result ≡ not (list_any (λ i. bytes_eq flag.now i.flag) (take at self.now)) }
    {
        let name = flag.bytes();
        match self.first.get(&name) {
            Some(first) => *first == at,
            None => false,
        }
    }

    // Where the next item that names this one's flag stands.
    pub(crate) fn later(&self, at: usize) -> Option<usize>
        requires { at < length self.now }
        ensures { (flag : List ℕ) → HasFlag self.now at flag → result ≡ next_naming (at + 1) flag (drop (at + 1) self.now) }
    {
        self.later[self.items.len() - 1 - at]
    }
}
