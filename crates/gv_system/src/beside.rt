//! The new file that is filled beside a file before it takes its place, and what ended runs left of such files.
//!
//! Who writes a new file holds it by the system's lock on files, up to its end, and takes one away only while holding it. So a
//! file that somebody still writes stays, and what was left goes with the next run. Where the system has no such locks,
//! nothing is taken away.
//!
//! A call costs a call of the system for each number that is taken, and for each name in the folder.
ghost use Rattle.std.specs.Prelude.{◌≡◌, ◌≢◌, ◌++◌, ℕ, List, IsTrue, MatchOption};
ghost use Rattle.gv_system.specs.Beside.{IsNewOf};

use crate::trouble::{Trouble, trouble_of};
use std::alloc::Global;
use std::fs;
use std::fs::{File, OpenFile, TryLockError};
use std::io::ErrorKind;
use std::os::unix::fs::MetadataExt;
use std::rt::Files;

/// So many new files may stand beside a file.
const MOST_NEW: u32 = 1000;

/// A new file, which this run holds, and its path.
pub(crate) fn new_beside<R: Files<File = File>>(
    rt: &R,
    alloc: Global,
    path: &str,
) -> Result<(File, String), Trouble> {
    for number in 0..MOST_NEW {
        let new = path_beside(alloc, path, number)?;
        match File::create_new(rt, &*new) {
            Ok(file) => match is_held(rt, &file, &new) {
                Ok(true) => return Ok((file, new)),
                Ok(false) => {}
                Err(trouble) => {
                    let _ = fs::remove_file(rt, &*new);
                    return Err(trouble);
                }
            },
            Err(e) if e.kind() == ErrorKind::AlreadyExists => {}
            Err(e) => return Err(trouble_of(&e)),
        }
    }
    Err(Trouble::Other)
}

/// Takes away the new files of ended runs beside the path, as far as the system lets it.
pub(crate) fn remove_left<R: Files<File = File> + AllocGlobal + Clone + Drop>(rt: &R, path: &str) {
    for _ in 0..u64::MAX {
        if remove_listed(rt, path) != Err(Trouble::Interrupted) {
            return;
        }
    }
}

/// The folder of a path, and its name there.
pub(crate) fn folder_and_name(path: &str) -> (&str, &str) {
    match path.rfind('/') {
        Some(0) => ("/", &path[1..]),
        Some(at) => (&path[..at], &path[at + 1..]),
        None => (".", path),
    }
}

// The path, `.new` and a number.
fn path_beside(alloc: Global, path: &str, number: u32) -> Result<String, Trouble> {
    format!(in alloc; "{path}.new{number}").map_err(|_| Trouble::NoMemory)
}

// Whether a name is that of a file, `.new` and a number below `MOST_NEW`.
fn is_new_of(file: &[u8], name: &[u8]) -> bool
    ensures { IsTrue result → IsNewOf file.now name.now }
{
    match behind(file, name) {
        Some(rest) => match behind(b".new", rest) {
            Some(number) => is_number(number),
            None => false,
        },
        None => false,
    }
}

// What stands behind a front, or nothing where the text has another one.
fn behind<'a>(front: &[u8], text: &'a [u8]) -> Option<&'a [u8]>
    ensures { MatchOption result ((rest : List ℕ) → text.now ≢ front.now ++ rest) (λ rest. text.now ≡ front.now ++ rest.now) }
{
    text.strip_prefix(front)
}

// One to three digits, none of them a zero in front of others.
fn is_number(text: &[u8]) -> bool {
    let is_short = text.len() == 1 || (1 < text.len() && text.len() <= 3 && text[0] != b'0');
    is_short && text.iter().all(|digit| digit.is_ascii_digit())
}

// The same up to an interruption. What can't be taken away otherwise is passed over.
fn remove_listed<R: Files<File = File> + AllocGlobal + Clone + Drop>(
    rt: &R,
    path: &str,
) -> Result<(), Trouble> {
    let (folder, name) = folder_and_name(path);
    for entry in fs::read_dir(rt, folder).map_err(|e| trouble_of(&e))? {
        match entry {
            Ok(entry) => {
                if is_new_of(name.as_bytes(), entry.file_name().as_bytes())
                    && remove_unheld(rt, entry.path().as_str()) == Err(Trouble::Interrupted)
                {
                    return Err(Trouble::Interrupted);
                }
            }
            Err(e) => {
                if e.kind() == ErrorKind::Interrupted {
                    return Err(Trouble::Interrupted);
                }
            }
        }
    }
    Ok(())
}

// Takes a file away that nobody holds.
fn remove_unheld<R: Files<File = File>>(rt: &R, path: &str) -> Result<(), Trouble> {
    let metadata = fs::symlink_metadata(rt, path).map_err(|e| trouble_of(&e))?;
    if !metadata.is_file() {
        return Ok(());
    }
    let file = fs::open(rt, path).map_err(|e| trouble_of(&e))?;
    if file.try_lock().is_ok() && is_at(rt, &file, path)? {
        fs::remove_file(rt, path).map_err(|e| trouble_of(&e))?;
    }
    Ok(())
}

// Holds a file that was made at the path, and answers whether nobody has taken it away before. Where there are no locks, nobody
// does.
fn is_held<R: Files<File = File>>(rt: &R, file: &File, path: &str) -> Result<bool, Trouble> {
    match file.try_lock() {
        Ok(()) => is_at(rt, file, path),
        Err(TryLockError::WouldBlock) => Ok(false),
        Err(TryLockError::Error(_)) => Ok(true),
    }
}

// Whether the path still names the file that was opened there.
fn is_at<R: Files<File = File>>(rt: &R, file: &File, path: &str) -> Result<bool, Trouble> {
    let opened = OpenFile::metadata(file).map_err(|e| trouble_of(&e))?;
    match fs::symlink_metadata(rt, path) {
        Ok(named) => Ok(opened.dev() == named.dev() && opened.ino() == named.ino()),
        Err(e) => match trouble_of(&e) {
            Trouble::NotThere => Ok(false),
            trouble => Err(trouble),
        },
    }
}
