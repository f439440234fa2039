//! Files with their paths, as they were read. `add` costs O(1) on average, a copy O(bytes).
ghost use Rattle.std.specs.Prelude.{◌≡◌, ◌++◌, ◌∷◌, [], IfOk, OnOk, OnErr};

use gv_base::{NoMemory, Text};
use std::alloc::Global;
use std::marker::Model;

/// A file with its path.
#[derive(Drop)]
pub struct NamedFile {
    /// From the top of the repository, as in `profiles/package.mask`.
    pub path: Text,
    /// All that the file holds, comments too.
    pub bytes: Text,
}

impl NamedFile {
    /// An equal file.
    pub fn copy(&self, alloc: Global) -> Result<NamedFile, NoMemory>
        ensures { IfOk result (λ file. file ≡ self.now) }
    {
        Ok(NamedFile {
            path: self.path.copy(alloc)?,
            bytes: self.bytes.copy(alloc)?,
        })
    }
}

/// A list of files with their paths.
#[derive(Drop)]
pub struct NamedFiles {
    items: Vec<NamedFile>,
}

impl Model for NamedFiles {
    ghost use Rattle.std.specs.Prelude.{List};
    ghost use Rattle.gv_reading.specs.declared.files.NamedFile.{NamedFile};

    ghost Value = { List NamedFile };

    ghost view = { λ l. l.items.items };
}

impl NamedFiles {
    /// No files.
    pub fn new(alloc: Global) -> Self
        ensures { result ≡ [] }
    {
        NamedFiles {
            items: Vec::new(alloc),
        }
    }

    /// Adds a file at the end. After an error the list is unchanged.
    pub fn add(&mut self, item: NamedFile) -> Result<(), NoMemory>
        ensures ok { OnOk result (self.new ≡ self.old ++ item ∷ []) }
        ensures err { OnErr result (self.new ≡ self.old) }
    {
        self.items.push(item)?;
        Ok(())
    }

    /// The files, in order, given away.
    pub fn into_items(self) -> Vec<NamedFile>
        ensures { result.items ≡ self }
    {
        self.items
    }

    /// The files, in order.
    pub fn items(&self) -> &[NamedFile]
        ensures { result.now ≡ self.now }
    {
        &self.items
    }

    /// An equal list.
    pub fn copy(&self, alloc: Global) -> Result<Self, NoMemory>
        ensures { IfOk result (λ files. files ≡ self.now) }
    {
        let mut files = NamedFiles::new(alloc);
        for item in self.items() {
            files.add(item.copy(alloc)?)?;
        }
        Ok(files)
    }
}
