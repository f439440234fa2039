//! The values of USE_EXPAND variables. A copy costs O(bytes), the other calls O(1).
ghost use Rattle.std.specs.Prelude.{◌≡◌, [], ◌∷◌, ◌++◌, IfOk, OnOk, OnErr};

use gv_base::{NoMemory, Text, Texts};
use std::alloc::Global;
use std::marker::Model;

/// The words of the variable `USE_EXPAND_VALUES_` and the name.
#[derive(Drop)]
pub struct ValueList {
    /// What stands in the variable's name behind `USE_EXPAND_VALUES_`: a word of USE_EXPAND_IMPLICIT.
    pub name: Text,
    /// The words of its value in their order; none where the variable isn't assigned.
    pub words: Texts,
}

impl ValueList {
    /// An equal record.
    pub fn copy(&self, alloc: Global) -> Result<ValueList, NoMemory>
        ensures { IfOk result (λ list. list ≡ self.now) }
    {
        Ok(ValueList {
            name: self.name.copy(alloc)?,
            words: self.words.copy(alloc)?,
        })
    }
}

/// A list of the words of variables.
#[derive(Drop)]
pub struct ValueLists {
    items: Vec<ValueList>,
}

impl Model for ValueLists {
    ghost use Rattle.std.specs.Prelude.{List};
    ghost use Rattle.gv_facts.specs.declared.value_lists.ValueList.{ValueList};

    ghost Value = { List ValueList };

    ghost view = { λ l. l.items.items };
}

impl ValueLists {
    /// No variables.
    pub fn new(alloc: Global) -> Self
        ensures { result ≡ [] }
    {
        ValueLists {
            items: Vec::new(alloc),
        }
    }

    /// Adds the words of a variable at the end. After an error the list is unchanged.
    pub fn add(&mut self, item: ValueList) -> Result<(), NoMemory>
        ensures ok { OnOk result (self.new ≡ self.old ++ item ∷ []) }
        ensures err { OnErr result (self.new ≡ self.old) }
    {
        self.items.push(item)?;
        Ok(())
    }

    /// The variables, in order.
    pub fn items(&self) -> &[ValueList]
        ensures { result.now ≡ self.now }
    {
        &self.items
    }

    /// An equal list.
    pub fn copy(&self, alloc: Global) -> Result<Self, NoMemory>
        ensures { IfOk result (λ lists. lists ≡ self.now) }
    {
        let mut lists = ValueLists::new(alloc);
        for item in self.items() {
            lists.add(item.copy(alloc)?)?;
        }
        Ok(lists)
    }
}
