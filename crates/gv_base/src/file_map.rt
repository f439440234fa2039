//! A finite map from path to bytes, in an ordered tree.
//!
//! `get`, `put` and `cut` cost O(log n) comparisons of paths for n files; `put` copies path and bytes once. The files
//! below a path are found without going through the others.
ghost use Rattle.std.specs.Prelude.{◌≡◌, map, IfOk, OnOk, OnErr};
ghost use Rattle.std.specs.FinMap as finite;
ghost use Rattle.std.specs.Option.{option_copied};
ghost use Rattle.gv_base.specs.ByteMap.{seen_entry};
ghost use Rattle.gv_base.specs.PrivateWords.{files_below};

use crate::{NoMemory, Text};
use std::alloc::Global;
use std::collections::BTreeMap;
use std::collections::btree_map::Range;
use std::marker::Model;

/// A finite map from path to bytes. A path is any bytes.
#[derive(Drop)]
pub struct Files {
    alloc: Global,
    map: BTreeMap<Vec<u8>, Text>,
}

impl Model for Files {
    ghost use Rattle.gv_base.specs.ByteMap.{map_of};
    ghost use Rattle.gv_base.specs.FileMap.{FileMap, coded_files};

    ghost Value = { FileMap };

    ghost coded = { coded_files };

    ghost view = { λ f. map_of f.map.entries };
}

impl Files {
    /// No files.
    pub fn new(alloc: Global) -> Files
        ensures { result ≡ finite.empty }
    {
        Files {
            alloc,
            map: BTreeMap::new(alloc),
        }
    }

    /// Sets one path, whether it is there or not. After an error the map is unchanged.
    pub fn put(&mut self, path: &[u8], bytes: &[u8]) -> Result<(), NoMemory>
        ensures ok { OnOk result (self.new ≡ finite.insert self.old path.now bytes.now) }
        ensures err { OnErr result (self.new ≡ self.old) }
    {
        let key = Vec::from_slice(self.alloc, path)?;
        let text = Text::of(self.alloc, bytes)?;
        self.map.insert(key, text)?;
        Ok(())
    }

    /// Removes one path. An absent path changes nothing.
    pub fn cut(&mut self, path: &[u8])
        ensures { self.new ≡ finite.remove self.old path.now }
    {
        let _ = self.map.remove(path);
    }

    /// The bytes at a path, and `None` exactly where the path isn't in the map.
    pub fn get(&self, path: &[u8]) -> Option<&[u8]>
        ensures { option_copied result ≡ finite.get self.now path.now }
    {
        match self.map.get(path) {
            Some(text) => Some(text.bytes()),
            None => None,
        }
    }

    /// The same files.
    pub fn copy(&self, alloc: Global) -> Result<Files, NoMemory>
        ensures { IfOk result (λ files. files ≡ self.now) }
    {
        let mut files = Files::new(alloc);
        for (path, text) in self.map.iter() {
            files.put(path, text.bytes())?;
        }
        Ok(files)
    }

    // The files below the path, in byte order of their paths: those from `path/` up to `path0`, since `0` is the byte
    // that follows the slash.
    pub(crate) fn below(&self, path: &[u8]) -> Result<Range<'_, Vec<u8>, Text>, NoMemory>
        ensures { IfOk result (λ range. map seen_entry range ≡ files_below self.now path.now) }
    {
        let mut from = Vec::from_slice(self.alloc, path)?;
        let mut to = Vec::from_slice(self.alloc, path)?;
        from.push(b'/')?;
        to.push(b'0')?;
        Ok(self.map.range(&from..&to))
    }
}
