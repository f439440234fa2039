//! Profile directories by path, in an ordered tree.
//!
//! `get` and `put` cost O(log n) comparisons of paths for n directories, `copy` O(all bytes).
ghost use Rattle.std.specs.Prelude.{◌≡◌, IfOk, OnOk, OnErr};
ghost use Rattle.std.specs.FinMap as finite;
ghost use Rattle.std.specs.Option.{option_copied};
ghost use Rattle.gv_base.specs.ByteMap.{map_of};

use crate::DirFiles;
use gv_base::{NoMemory, Text, map_law};
use std::alloc::Global;
use std::collections::BTreeMap;
use std::marker::Model;

/// A finite map from a directory's path to its files.
#[derive(Drop)]
pub struct Dirs {
    alloc: Global,
    map: BTreeMap<Vec<u8>, DirFiles>,
}

impl Model for Dirs {
    ghost use Rattle.gv_base.specs.ByteMap.{map_of};
    ghost use Rattle.gv_profile.specs.Dirs.{DirMap, coded_dirs};

    ghost Value = { DirMap };

    ghost coded = { coded_dirs };

    ghost view = { λ d. map_of d.map.entries };
}

impl Dirs {
    /// No directories.
    pub fn new(alloc: Global) -> Dirs
        ensures { result ≡ finite.empty }
    {
        Dirs {
            alloc,
            map: BTreeMap::new(alloc),
        }
    }

    /// Sets the files of a directory, whether it is there or not. After an error the map is unchanged.
    pub fn put(&mut self, dir: &Text, files: DirFiles) -> Result<(), NoMemory>
        ensures ok { OnOk result (self.new ≡ finite.insert self.old dir.now files) }
        ensures err { OnErr result (self.new ≡ self.old) }
    {
        put_at(self.alloc, &mut self.map, dir, files)?;
        Ok(())
    }

    /// The files of a directory, and `None` exactly where its path isn't in the map.
    pub fn get(&self, dir: &[u8]) -> Option<&DirFiles>
        ensures { option_copied result ≡ finite.get self.now dir.now }
    {
        map_law::<DirFiles>();
        match self.map.get(dir) {
            Some(files) => Some(files),
            None => None,
        }
    }

    /// The same directories.
    pub fn copy(&self, alloc: Global) -> Result<Dirs, NoMemory>
        ensures { IfOk result (λ dirs. dirs ≡ self.now) }
    {
        map_law::<DirFiles>();
        let mut dirs = Dirs::new(alloc);
        for (dir, files) in self.map.iter() {
            let dir = Text::of(alloc, dir)?;
            let files = files.copy(alloc)?;
            dirs.put(&dir, files)?;
        }
        Ok(dirs)
    }
}

/// Sets what an ordered tree has at a path. After an error the tree is unchanged.
pub(crate) fn put_at<V: Drop>(
    alloc: Global,
    map: &mut BTreeMap<Vec<u8>, V>,
    path: &Text,
    value: V,
) -> Result<(), NoMemory>
    ensures ok { OnOk result (map_of map.new.entries ≡ finite.insert (map_of map.old.entries) path.now value) }
    ensures err { OnErr result (map.new.entries ≡ map.old.entries) }
{
    map_law::<V>();
    let key = Vec::from_slice(alloc, path.bytes())?;
    map.insert(key, value)?;
    Ok(())
}
