//! Variables by name.
//!
//! `words` costs O(log n) comparisons of names for n variables and O(the bytes of the value), `with` O(the bytes of its words),
//! `copy` O(all bytes).
ghost use Rattle.std.specs.Prelude.{◌≡◌, ◌++◌, true, IfOk, OnOk, OnErr};
ghost use Rattle.std.specs.FinMap as finite;
ghost use Rattle.std.specs.Option.{option_copied};
ghost use Rattle.gv_defaults.specs.Incremental.{is_incremental};
ghost use Rattle.gv_defaults.specs.Settings.{text_of, words_of};

use crate::room::append_within;
use gv_base::{NoMemory, Text, Texts, map_law, tokens_of};
use std::alloc::Global;
use std::collections::BTreeMap;
use std::marker::Model;

/// What a variable is set to.
#[derive(Drop)]
pub enum Setting {
    /// The words of an incremental variable, in order.
    Words { words: Texts },
    /// The value of another variable.
    Plain { text: Text },
}

/// A finite map from name to words, where the name is incremental, or to a text. It carries what is left of the room of the files
/// that are read one over the other.
#[derive(Drop)]
pub struct Vars {
    alloc: Global,
    map: BTreeMap<Vec<u8>, Setting>,
    room: usize,
}

impl Model for Vars {
    ghost use Rattle.gv_base.specs.ByteMap.{map_of};
    ghost use Rattle.gv_defaults.specs.Settings.{VarMap, coded_vars};

    ghost Value = { VarMap };

    ghost coded = { coded_vars };

    ghost view = { λ v. map_of v.map.entries };
}

impl Setting {
    fn size(&self) -> usize {
        match self {
            Setting::Words { words } => size_of(words.items()),
            Setting::Plain { text } => text.bytes().len(),
        }
    }

    fn copy(&self, alloc: Global) -> Result<Setting, NoMemory>
        ensures { IfOk result (λ setting. setting ≡ self.now) }
    {
        match self {
            Setting::Words { words } => {
                let words = words.copy(alloc)?;
                Ok(Setting::Words { words })
            }
            Setting::Plain { text } => {
                let text = text.copy(alloc)?;
                Ok(Setting::Plain { text })
            }
        }
    }
}

// The bytes of words, with a blank each.
fn size_of(words: &[Text]) -> usize {
    let mut size = 0_usize;
    for word in words {
        size = size.saturating_add(word.bytes().len()).saturating_add(1);
    }
    size
}

impl Vars {
    /// No variables.
    pub fn new(alloc: Global) -> Vars
        ensures { result ≡ finite.empty }
    {
        Vars::within(alloc, usize::MAX)
    }

    /// No variables, and room for so many bytes of the files that are read one over the other: each file takes the bytes of the values
    /// that it assigns and of all variables behind it. A file past the room is one for which there is no memory.
    pub fn within(alloc: Global, room: usize) -> Vars
        ensures { result ≡ finite.empty }
    {
        Vars {
            alloc,
            map: BTreeMap::new(alloc),
            room,
        }
    }

    /// The bytes that are left of the room.
    pub fn room(&self) -> usize {
        self.room
    }

    /// Takes what reading a file with values of so many bytes costs off the room.
    pub(crate) fn spend(&mut self, assigned: usize) -> Result<(), NoMemory>
        ensures { self.new ≡ self.old }
    {
        let spent = assigned.saturating_add(self.size());
        if spent > self.room {
            return Err(NoMemory);
        }
        self.room = self.room.saturating_sub(spent);
        Ok(())
    }

    // The bytes of names and values.
    fn size(&self) -> usize {
        let mut size = 0_usize;
        for (name, setting) in self.map.iter() {
            size = size
                .saturating_add(name.len())
                .saturating_add(setting.size());
        }
        size
    }

    /// Just this variable, an incremental one, with these words.
    pub fn with(alloc: Global, name: &[u8], words: &Texts) -> Result<Vars, NoMemory>
        requires { is_incremental name.now ≡ true }
        ensures { IfOk result (λ vars. vars ≡ finite.insert finite.empty name.now (Setting.Words words.now)) }
    {
        let mut vars = Vars::new(alloc);
        let name = Vec::from_slice(alloc, name)?;
        let words = words.copy(alloc)?;
        vars.put(name, Setting::Words { words })?;
        Ok(vars)
    }

    /// The words of a variable: those that an incremental one has, of another the parts of its value between spaces,
    /// tabs, carriage returns and line feeds; none of a name that isn't set.
    pub fn words(&self, alloc: Global, name: &[u8]) -> Result<Texts, NoMemory>
        ensures { IfOk result (λ words. words ≡ words_of (finite.get self.now name.now)) }
    {
        match self.get(name) {
            None => Ok(Texts::new(alloc)),
            Some(Setting::Words { words }) => words.copy(alloc),
            Some(Setting::Plain { text }) => tokens_of(alloc, text.bytes()),
        }
    }

    /// The same variables.
    pub fn copy(&self, alloc: Global) -> Result<Vars, NoMemory>
        ensures { IfOk result (λ vars. vars ≡ self.now) }
    {
        map_law::<Setting>();
        let mut vars = Vars::within(alloc, self.room);
        for (name, setting) in self.map.iter() {
            let name = Vec::from_slice(alloc, name)?;
            let setting = setting.copy(alloc)?;
            vars.put(name, setting)?;
        }
        Ok(vars)
    }

    pub(crate) fn get(&self, name: &[u8]) -> Option<&Setting>
        ensures { option_copied result ≡ finite.get self.now name.now }
    {
        map_law::<Setting>();
        match self.map.get(name) {
            Some(setting) => Some(setting),
            None => None,
        }
    }

    pub(crate) fn put(&mut self, name: Vec<u8>, setting: Setting) -> Result<(), NoMemory>
        ensures ok { OnOk result (self.new ≡ finite.insert self.old name.items setting) }
        ensures err { OnErr result (self.new ≡ self.old) }
    {
        map_law::<Setting>();
        self.map.insert(name, setting)?;
        Ok(())
    }

    /// Adds what the name stands for at the end of a text that has this room: the words of an incremental variable joined
    /// by one space, the value of another, nothing of a name that isn't set.
    pub(crate) fn append_text(
        &self,
        alloc: Global,
        name: &[u8],
        text: &mut Text,
        room: usize,
    ) -> Result<(), NoMemory>
        ensures { OnOk result (text.new ≡ text.old ++ text_of (finite.get self.now name.now)) }
    {
        match self.get(name) {
            None => Ok(()),
            Some(Setting::Words { words }) => {
                let joined = words.joined(alloc, b' ')?;
                append_within(text, joined.bytes(), room)
            }
            Some(Setting::Plain { text: value }) => append_within(text, value.bytes(), room),
        }
    }
}
