//! Files and empty folders, of which nothing is told, as of those of a disk.
ghost use Rattle.std.specs.Prelude.{None, []};

use gv_base::{Files, Found, MAX_FILE_BYTES, NoMemory, Text, Texts, Tree, TreeFault};
use std::alloc::Global;

/// Files and empty folders.
#[derive(Drop)]
pub(crate) struct Disk {
    pub files: Files,
    pub folders: Files,
    root: Option<Text>,
}

impl Disk {
    pub(crate) fn new(alloc: Global) -> Disk {
        Disk {
            files: Files::new(alloc),
            folders: Files::new(alloc),
            root: None,
        }
    }
}

impl Tree for Disk {
    ghost files = { λ _. None };

    ghost faults = { λ _. 0 };

    ghost failed_at = { λ _ _. ⊥ };

    ghost entered = { λ d. d.root };

    ghost lent = { λ _. [] };

    fn enter(&mut self, alloc: Global, root: &Text) -> Result<(), NoMemory> {
        self.root = Some(root.copy(alloc)?);
        Ok(())
    }

    fn read(&mut self, alloc: Global, path: &Text) -> Result<Found, TreeFault> {
        if let Some(bytes) = self.files.get(path.bytes()) {
            if bytes.len() as u64 > MAX_FILE_BYTES {
                return Err(TreeFault::TooLarge);
            }
            return Ok(Found::File(Text::of(alloc, bytes)?));
        }
        if self.folders.get(path.bytes()).is_some()
            || self.files.is_folder(path.bytes())?
            || self.folders.is_folder(path.bytes())?
        {
            return Ok(Found::Dir);
        }
        Ok(Found::Absent)
    }

    fn list(&mut self, alloc: Global, path: &Text) -> Result<Texts, TreeFault> {
        let mut names = self.files.names_below(alloc, path.bytes())?;
        for name in self.folders.names_below(alloc, path.bytes())?.items() {
            names.add(name.copy(alloc)?)?;
        }
        Ok(names.in_order(alloc)?)
    }
}
