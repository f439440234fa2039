//! The USE items of an atom.
ghost use Rattle.std.specs.Prelude.{◌≡◌, [], ◌∷◌, ◌++◌, IfOk, OnOk, OnErr};
ghost use Rattle.gv_atom.specs.Items.{asked, asks_parent};

use gv_base::{NoMemory, Text};
use std::alloc::Global;
use std::marker::Model;

/// What an item asks of a flag of the candidate. The last four look at the parent's flag: that of the same name of the
/// package that has the atom.
#[derive(Clone, Copy, Debug, PartialEq, Eq)]
pub enum Ask {
    /// `f`
    On,
    /// `-f`
    Off,
    /// `f=`: as the parent's flag is.
    Same,
    /// `!f=`: as the parent's flag is not.
    Opposite,
    /// `f?`: on where the parent's flag is on, else nothing.
    OnIf,
    /// `!f?`: off where the parent's flag is off, else nothing.
    OffIfNot,
}

/// One item of an atom's brackets.
#[derive(Drop)]
pub struct UseItem {
    /// The name alone, without signs and default.
    pub flag: Text,
    /// What the signs around the name say: `-` or `!` in front, `=` or `?` behind.
    pub ask: Ask,
    /// What counts where the candidate has no such flag: `(+)`, `(-)`, or nothing.
    pub missing: Option<bool>,
}

/// Items, in the order in which they stand. Most atoms have none, and take one word for that.
#[derive(Drop)]
pub struct UseItems {
    alloc: Global,
    items: Option<Box<Vec<UseItem>>>,
}

impl Model for UseItems {
    ghost use Rattle.std.specs.Prelude.{List};
    ghost use Rattle.gv_atom.specs.declared.items.UseItem.{UseItem};

    ghost Value = { List UseItem };

    ghost use Rattle.gv_atom.specs.ItemsKept.{items_in};

    ghost view = { λ u. items_in u.items };
}

impl Ask {
    /// Whether what is asked depends on the parent's flag.
    pub fn asks_parent(self) -> bool
        ensures { result ≡ asks_parent self }
    {
        match self {
            Ask::On | Ask::Off => false,
            Ask::Same | Ask::Opposite | Ask::OnIf | Ask::OffIfNot => true,
        }
    }

    /// What is asked of the candidate's flag, if anything, where the parent's flag is on or off.
    pub fn asked(self, parent: bool) -> Option<bool>
        ensures { result ≡ asked self parent }
    {
        match (self, parent) {
            (Ask::On, _) => Some(true),
            (Ask::Off, _) => Some(false),
            (Ask::Same, _) => Some(parent),
            (Ask::Opposite, _) => Some(!parent),
            (Ask::OnIf, true) => Some(true),
            (Ask::OnIf, false) => None,
            (Ask::OffIfNot, true) => None,
            (Ask::OffIfNot, false) => Some(false),
        }
    }
}

impl UseItem {
    /// The same item once more. O(bytes).
    pub fn copy(&self, alloc: Global) -> Result<UseItem, NoMemory>
        ensures { IfOk result (λ item. item ≡ self.now) }
    {
        Ok(UseItem {
            flag: self.flag.copy(alloc)?,
            ask: self.ask,
            missing: self.missing,
        })
    }
}

impl UseItems {
    /// No items.
    pub fn new(alloc: Global) -> Self
        ensures { result ≡ [] }
    {
        UseItems { alloc, items: None }
    }

    /// Adds an item at the end. After an error the list is unchanged.
    pub fn add(&mut self, item: UseItem) -> Result<(), NoMemory>
        ensures ok { OnOk result (self.new ≡ self.old ++ item ∷ []) }
        ensures err { OnErr result (self.new ≡ self.old) }
    {
        match &mut self.items {
            Some(items) => items.push(item)?,
            None => {
                let mut items = Vec::new(self.alloc);
                items.push(item)?;
                self.items = Some(Box::new(self.alloc, items)?);
            }
        }
        Ok(())
    }

    // Lets go of the room that no item takes.
    pub(crate) fn trim(&mut self)
        ensures { self.new ≡ self.old }
    {
        if let Some(items) = &mut self.items {
            items.shrink_to_fit();
        }
    }

    /// The items, in order.
    pub fn items(&self) -> &[UseItem]
        ensures { result.now ≡ self.now }
    {
        match &self.items {
            Some(items) => items,
            None => &[],
        }
    }

    /// The same items once more. O(bytes).
    pub fn copy(&self, alloc: Global) -> Result<UseItems, NoMemory>
        ensures { IfOk result (λ items. items ≡ self.now) }
    {
        let mut items = UseItems::new(alloc);
        for item in self.items() {
            items.add(item.copy(alloc)?)?;
        }
        Ok(items)
    }
}
