//! The files whose lines are looked at. `of` costs a look-up of its directory for each file, `in_dir` one.
ghost use Rattle.std.specs.Prelude.{◌≡◌, Some, filter, map, slice_get, IfOk};
ghost use Rattle.gv_usedefaults.specs.DirPlaces.{HasDirs};
ghost use Rattle.gv_usedefaults.specs.Stacks.{in_dir};

use crate::LineFile;
use crate::dir_places::DirPlaces;
use gv_base::NoMemory;
use std::alloc::Global;
use std::marker::Model;

/// Files in the order in which they were read, with the places of those of each directory.
#[derive(Drop)]
pub struct LineFiles {
    items: Vec<LineFile>,
    by_dir: DirPlaces,
}

impl Model for LineFiles {
    ghost use Rattle.std.specs.Prelude.{List};
    ghost use Rattle.gv_usedefaults.specs.declared.file_kinds.LineFile.{LineFile};
    ghost use Rattle.gv_usedefaults.specs.DirPlaces.{HasDirs};

    ghost Value = { List LineFile };

    ghost view = { λ l. l.items.items };

    ghost invariant = { λ l. HasDirs l.by_dir l.items.items };
}

impl LineFiles {
    /// These files.
    pub fn of(alloc: Global, items: Vec<LineFile>) -> Result<LineFiles, NoMemory>
        ensures { IfOk result (λ files. files ≡ items.items) }
    {
        let by_dir = index_of(alloc, &items)?;
        Ok(LineFiles { items, by_dir })
    }

    /// The files, in order.
    pub fn items(&self) -> &[LineFile]
        ensures { result.now ≡ self.now }
    {
        &self.items
    }

    /// The places, from 0 and ascending, of the files of a directory. Takes no memory.
    #[tactic(auto, using(crate::proofs::Places::at_places))]
    pub fn in_dir(&self, dir: &[u8]) -> &[u32]
        ensures { map (slice_get self.now) result.now ≡ map Some (filter (in_dir dir.now) self.now) }
    {
        self.by_dir.at(dir)
    }
}

fn index_of(alloc: Global, items: &[LineFile]) -> Result<DirPlaces, NoMemory>
    ensures { IfOk result (λ index. HasDirs index items.now) }
{
    let mut index = DirPlaces::new(alloc);
    for (i, file) in items.iter().enumerate() {
        let place = next_place(i)?;
        index.add(file.dir.bytes(), place)?;
    }
    Ok(index)
}

// The place of the next item of a list with so many items. A list has room for fewer than 2^32 items.
fn next_place(len: usize) -> Result<u32, NoMemory>
    ensures { IfOk result (λ place. place ≡ len) }
{
    match u32::try_from(len) {
        Ok(place) => Ok(place),
        Err(_) => Err(NoMemory),
    }
}
