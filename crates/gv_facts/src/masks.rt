//! Masks of packages (PMS chapter 5). A copy costs O(bytes), the other calls what `index` says.
ghost use Rattle.std.specs.Prelude.{◌≡◌, [], ◌∷◌, ◌++◌, Some, filter, map, slice_get, IfOk, OnOk, OnErr};
ghost use Rattle.gv_facts.specs.Places.{is_mask_of, places_of};

use crate::index::{PairIndex, next_place};
use gv_atom::Atom;
use gv_base::{NoMemory, Text};
use std::alloc::Global;
use std::marker::Model;

/// A line of a `package.mask` file that is in force: the text of the line and its atom.
#[derive(Drop)]
pub struct Mask {
    /// The only word of the line: a later line with `-` and this text takes the mask away.
    pub text: Text,
    /// The packages that are masked are those that it matches.
    pub atom: Atom,
}

impl Mask {
    /// An equal mask.
    pub fn copy(&self, alloc: Global) -> Result<Mask, NoMemory>
        ensures { IfOk result (λ mask. mask ≡ self.now) }
    {
        Ok(Mask {
            text: self.text.copy(alloc)?,
            atom: self.atom.copy(alloc)?,
        })
    }
}

/// A list of masks, which knows the places of those of each category and name.
#[derive(Drop)]
pub struct Masks {
    items: Vec<Mask>,
    by_name: PairIndex,
}

impl Model for Masks {
    ghost use Rattle.std.specs.Prelude.{List};
    ghost use Rattle.gv_facts.specs.declared.masks.Mask.{Mask};
    ghost use Rattle.gv_facts.specs.Index.{HasMasks};

    ghost Value = { List Mask };

    ghost view = { λ l. l.items.items };

    ghost invariant = { λ l. HasMasks l.by_name l.items.items };
}

impl Masks {
    /// No masks.
    pub fn new(alloc: Global) -> Self
        ensures { result ≡ [] }
    {
        Masks {
            items: Vec::new(alloc),
            by_name: PairIndex::new(alloc),
        }
    }

    /// Adds a mask at the end. After an error the list is unchanged.
    pub fn add(&mut self, item: Mask) -> Result<(), NoMemory>
        ensures ok { OnOk result (self.new ≡ self.old ++ item ∷ []) }
        ensures err { OnErr result (self.new ≡ self.old) }
    {
        self.items.reserve(1)?;
        let place = next_place(self.items.len())?;
        self.by_name
            .add(item.atom.category.bytes(), item.atom.name.bytes(), place)?;
        self.items.push_reserved(item);
        Ok(())
    }

    /// The masks, in order.
    pub fn items(&self) -> &[Mask]
        ensures { result.now ≡ self.now }
    {
        &self.items
    }

    /// The places, from 0 and ascending, of the masks of this category and name. Takes no memory.
    pub fn places_of(&self, category: &[u8], name: &[u8]) -> &[u32]
        ensures places { result.now ≡ places_of (is_mask_of category.now name.now) self.now }
        // What stands at them is what was looked for.
        ensures items { map (slice_get self.now) result.now ≡ map Some (filter (is_mask_of category.now name.now) self.now) }
    {
        self.by_name.at(category, name)
    }

    /// An equal list.
    pub fn copy(&self, alloc: Global) -> Result<Self, NoMemory>
        ensures { IfOk result (λ masks. masks ≡ self.now) }
    {
        let mut masks = Masks::new(alloc);
        for item in self.items() {
            masks.add(item.copy(alloc)?)?;
        }
        Ok(masks)
    }
}
