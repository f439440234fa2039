//! Places of files by their directories, in an ordered tree.
//!
//! A look-up takes no memory and costs O(log n) comparisons of paths for n directories; an addition costs as much, and copies the path.
ghost use Rattle.std.specs.Prelude.{◌≡◌, ◌++◌, ◌∷◌, [], ℕ, List, false, if◌then◌else◌, OnOk};
ghost use Rattle.std.specs.FinMap as finite;
ghost use Rattle.std.specs.Str.{bytes_eq};
ghost use Rattle.gv_base.specs.ByteMap.{map_of};
ghost use Rattle.gv_usedefaults.specs.PlaceMaps.{places_at, places_in};

use gv_base::{NoMemory, map_law};
use std::alloc::Global;
use std::collections::BTreeMap;

/// The places of the files of each directory, in the order in which they were added.
#[derive(Drop)]
pub(crate) struct DirPlaces {
    alloc: Global,
    map: BTreeMap<Vec<u8>, Vec<u32>>,
}

impl DirPlaces {
    /// No places.
    pub fn new(alloc: Global) -> DirPlaces
        ensures { (dir : List ℕ) → places_at result dir ≡ [] }
    {
        DirPlaces {
            alloc,
            map: BTreeMap::new(alloc),
        }
    }

    /// The places of a directory.
    pub fn at(&self, dir: &[u8]) -> &[u32]
        ensures { result.now ≡ places_at self.now dir.now }
    {
        map_law::<Vec<u32>>();
        match self.map.get(dir) {
            Some(places) => places,
            None => &[],
        }
    }

    /// Adds a place of a directory.
    pub fn add(&mut self, dir: &[u8], place: u32) -> Result<(), NoMemory>
        ensures { OnOk result ((q : List ℕ) → places_at self.new q ≡ (if bytes_eq q dir.now then places_at self.old q ++ place ∷ [] else places_at self.old q)) }
    {
        let mut places = taken(self.alloc, &mut self.map, dir);
        places.push(place)?;
        put(self.alloc, &mut self.map, dir, places)?;
        Ok(())
    }
}

// The places of a directory, given away.
fn taken(alloc: Global, map: &mut BTreeMap<Vec<u8>, Vec<u32>>, dir: &[u8]) -> Vec<u32>
    ensures these { result.items ≡ places_in (map_of map.old.entries) dir.now }
    ensures others { (q : List ℕ) → bytes_eq q dir.now ≡ false → places_in (map_of map.new.entries) q ≡ places_in (map_of map.old.entries) q }
{
    map_law::<Vec<u32>>();
    match map.remove(dir) {
        Some(places) => places,
        None => Vec::new(alloc),
    }
}

fn put(
    alloc: Global,
    map: &mut BTreeMap<Vec<u8>, Vec<u32>>,
    dir: &[u8],
    places: Vec<u32>,
) -> Result<(), NoMemory>
    ensures { OnOk result (map_of map.new.entries ≡ finite.insert (map_of map.old.entries) dir.now places) }
{
    map_law::<Vec<u32>>();
    let key = Vec::from_slice(alloc, dir)?;
    map.insert(key, places)?;
    Ok(())
}
