//! Files of the system replaced so that a run that is ended in the middle leaves the old file or the new one: the bytes go
//! to a new file beside the old one, which is then renamed over it.
//!
//! A call costs the system's calls, and the bytes once.
use crate::beside::{folder_and_name, new_beside, remove_left};
use crate::links::end_of_links;
use crate::trouble::{Trouble, trouble_of};
use std::alloc::Global;
use std::fs;
use std::fs::{File, Metadata, OpenFile};
use std::io::Write;
use std::rt::Files;

/// Makes the bytes the file at the path. Links are followed; what is there and is no regular file is written in place.
pub(crate) fn replace_file<R: Files<File = File> + AllocGlobal + Clone + Drop>(
    rt: &R,
    alloc: Global,
    path: &str,
    bytes: &[u8],
) -> Result<(), Trouble> {
    for _ in 0..u64::MAX {
        match replace_once(rt, alloc, path, bytes) {
            Err(Trouble::Interrupted) => {}
            ended => return ended,
        }
    }
    Err(Trouble::Other)
}

fn replace_once<R: Files<File = File> + AllocGlobal + Clone + Drop>(
    rt: &R,
    alloc: Global,
    path: &str,
    bytes: &[u8],
) -> Result<(), Trouble> {
    match fs::metadata(rt, path) {
        Ok(metadata) if metadata.is_file() => {
            let real = fs::canonicalize(rt, path).map_err(|e| trouble_of(&e))?;
            replace_whole(rt, alloc, real.as_str(), bytes, &Some(metadata))
        }
        Ok(_) => write_in_place(rt, path, bytes),
        Err(e) => match trouble_of(&e) {
            Trouble::NotThere => {
                let real = end_of_links(rt, alloc, path)?;
                replace_whole(rt, alloc, &real, bytes, &None)
            }
            trouble => Err(trouble),
        },
    }
}

fn write_all<W: Write>(file: &mut W, bytes: &[u8]) -> Result<(), Trouble> {
    file.write_all(bytes).map_err(|e| trouble_of(&e))
}

// A device and a pipe are written where they are.
fn write_in_place<R: Files>(rt: &R, path: &str, bytes: &[u8]) -> Result<(), Trouble> {
    let mut file = fs::create(rt, path).map_err(|e| trouble_of(&e))?;
    write_all(&mut file, bytes)
}

// By a new file beside it, which is taken away where it doesn't take the path's place.
fn replace_whole<R: Files<File = File> + AllocGlobal + Clone + Drop>(
    rt: &R,
    alloc: Global,
    path: &str,
    bytes: &[u8],
    old: &Option<Metadata>,
) -> Result<(), Trouble> {
    remove_left(rt, path);
    let (mut file, new) = new_beside(rt, alloc, path)?;
    let mut done = fill(&mut file, bytes, old);
    if done.is_ok() {
        done = fs::rename(rt, &*new, path).map_err(|e| trouble_of(&e));
    }
    match done {
        Ok(()) => sync_folder(rt, path),
        Err(_) => {
            let _ = fs::remove_file(rt, &*new);
        }
    }
    done
}

// Fills a new file, which gets the old one's permissions and is on the disk afterwards.
fn fill(file: &mut File, bytes: &[u8], old: &Option<Metadata>) -> Result<(), Trouble> {
    if let Some(old) = old {
        OpenFile::set_permissions(file, old.permissions()).map_err(|e| trouble_of(&e))?;
    }
    write_all(file, bytes)?;
    OpenFile::sync_all(file).map_err(|e| trouble_of(&e))
}

// The folder's entry is on the disk afterwards, where the system can do that.
fn sync_folder<R: Files>(rt: &R, path: &str) {
    let (folder, _) = folder_and_name(path);
    if let Ok(folder) = fs::open(rt, folder) {
        let _ = folder.sync_all();
    }
}
