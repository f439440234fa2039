//! Places of items by their names, in hash maps.
//!
//! A look-up takes no memory and costs O(bytes) of a name, on average whatever the number of names; an addition costs as much,
//! and copies a name the first time that it comes.
ghost use Rattle.std.specs.Prelude.{◌≡◌, ◌++◌, ◌∷◌, [], ℕ, List, ◌&&◌, if◌then◌else◌, IfOk, OnOk, OnErr};
ghost use Rattle.std.specs.Str.{bytes_eq};
ghost use Rattle.gv_facts.specs.Index.{pair_places, places_at};

use gv_base::NoMemory;
use indexmap::IndexMap;
use std::alloc::Global;
use std::marker::Model;

/// The places of one name: numbers of items of a list, from 0, in the order in which they were added.
#[derive(Drop)]
pub struct Places {
    items: Vec<u32>,
}

impl Model for Places {
    ghost use Rattle.std.specs.Prelude.{List, ℕ};

    ghost Value = { List ℕ };

    ghost view = { λ p. p.items.items };
}

impl Places {
    fn new(alloc: Global) -> Places
        ensures { result ≡ [] }
    {
        Places {
            items: Vec::new(alloc),
        }
    }

    fn add(&mut self, place: u32) -> Result<(), NoMemory>
        ensures ok { OnOk result (self.new ≡ self.old ++ place ∷ []) }
        ensures err { OnErr result (self.new ≡ self.old) }
    {
        self.items.push(place)?;
        Ok(())
    }

    fn items(&self) -> &[u32]
        ensures { result.now ≡ self.now }
    {
        &self.items
    }
}

/// The place of the next item of a list with so many items. A list has room for fewer than 2^32 items.
pub fn next_place(len: usize) -> Result<u32, NoMemory>
    ensures { IfOk result (λ place. place ≡ len) }
{
    match u32::try_from(len) {
        Ok(place) => Ok(place),
        Err(_) => Err(NoMemory),
    }
}

/// Places by one name.
#[derive(Drop)]
pub struct Index {
    alloc: Global,
    map: IndexMap<Vec<u8>, Places>,
}

impl Index {
    /// An index without names.
    pub fn new(alloc: Global) -> Index
        ensures { (key : List ℕ) → places_at result key ≡ [] }
    {
        Index {
            alloc,
            map: IndexMap::new(alloc),
        }
    }

    /// The places at a name.
    pub fn at(&self, key: &[u8]) -> &[u32]
        ensures { result.now ≡ places_at self.now key.now }
    {
        match self.map.get(key) {
            Some(places) => places.items(),
            None => &[],
        }
    }

    /// Adds a place at a name. After an error the places are as before.
    pub fn add(&mut self, key: &[u8], place: u32) -> Result<(), NoMemory>
        ensures ok { OnOk result ((q : List ℕ) → places_at self.new q ≡ (if bytes_eq q key.now then places_at self.old q ++ place ∷ [] else places_at self.old q)) }
        ensures err { OnErr result ((q : List ℕ) → places_at self.new q ≡ places_at self.old q) }
    {
        match self.map.get_mut(key) {
            Some(places) => places.add(place)?,
            None => {
                let mut places = Places::new(self.alloc);
                places.add(place)?;
                let key = Vec::from_slice(self.alloc, key)?;
                self.map.insert(key, places)?;
            }
        }
        Ok(())
    }
}

/// Places by a category and a name in it.
#[derive(Drop)]
pub struct PairIndex {
    alloc: Global,
    map: IndexMap<Vec<u8>, Index>,
}

impl PairIndex {
    /// An index without categories.
    pub fn new(alloc: Global) -> PairIndex
        ensures { (category name : List ℕ) → pair_places result category name ≡ [] }
    {
        PairIndex {
            alloc,
            map: IndexMap::new(alloc),
        }
    }

    /// The places at a category and a name.
    pub fn at(&self, category: &[u8], name: &[u8]) -> &[u32]
        ensures { result.now ≡ pair_places self.now category.now name.now }
    {
        match self.map.get(category) {
            Some(names) => names.at(name),
            None => &[],
        }
    }

    /// Adds a place at a category and a name. After an error the places are as before.
    pub fn add(&mut self, category: &[u8], name: &[u8], place: u32) -> Result<(), NoMemory>
        ensures ok { OnOk result ((c n : List ℕ) → pair_places self.new c n ≡ (if bytes_eq c category.now && bytes_eq n name.now then pair_places self.old c n ++ place ∷ [] else pair_places self.old c n)) }
        ensures err { OnErr result ((c n : List ℕ) → pair_places self.new c n ≡ pair_places self.old c n) }
    {
        match self.map.get_mut(category) {
            Some(names) => names.add(name, place)?,
            None => {
                let mut names = Index::new(self.alloc);
                names.add(name, place)?;
                let key = Vec::from_slice(self.alloc, category)?;
                self.map.insert(key, names)?;
            }
        }
        Ok(())
    }
}
