//! What is read of files and folders of the system, by their paths.
//!
//! A call costs the system's calls, and the bytes that are read once.
ghost use Rattle.std.specs.Prelude.{◌≡◌, ◌≤◌, ◌<◌, ◌^◌, ◌⊎◌, length, IfOk};
ghost use Rattle.std.specs.Io.KnownBytes.{Consumes, IsAtEnd};
ghost use Rattle.gv_base.specs.Outside.{HasAtMost, most_file_bytes};

use crate::trouble::{Trouble, read_again, trouble_of};
use gv_base::{Found, MAX_FILE_BYTES, Text, Texts};
use std::alloc::Global;
use std::fs;
use std::io::Read;
use std::rt::Files;

/// The system is asked for so many bytes at a time.
const PART: usize = 4096;

/// A file that is kept may have so many bytes.
const MOST_STORED: u64 = 1 << 62;

/// What is at the path, with the bytes of a file.
pub(crate) fn look<R: Files>(rt: &R, alloc: Global, path: &str) -> Result<Found, Trouble>
    ensures { IfOk result (HasAtMost most_file_bytes) }
{
    for _ in 0..u64::MAX {
        match look_once(rt, alloc, path) {
            Err(Trouble::Interrupted) => {}
            ended => return ended,
        }
    }
    Err(Trouble::Other)
}

/// The bytes of a file, links followed. What is neither a file nor a folder, as a pipe or a device, counts as no file: it may
/// take certificates, and has none that reading would come to the end of.
pub(crate) fn stored<R: Files>(rt: &R, alloc: Global, path: &str) -> Result<Option<Text>, Trouble> {
    for _ in 0..u64::MAX {
        match stored_once(rt, alloc, path) {
            Err(Trouble::Interrupted) => {}
            ended => return ended,
        }
    }
    Err(Trouble::Other)
}

/// The names in a folder, in the system's order, but `.` and `..`.
pub(crate) fn names<R: Files + AllocGlobal + Clone + Drop>(
    rt: &R,
    alloc: Global,
    path: &str,
) -> Result<Texts, Trouble> {
    for _ in 0..u64::MAX {
        match names_once(rt, alloc, path) {
            Err(Trouble::Interrupted) => {}
            ended => return ended,
        }
    }
    Err(Trouble::Other)
}

fn look_once<R: Files>(rt: &R, alloc: Global, path: &str) -> Result<Found, Trouble>
    ensures { IfOk result (HasAtMost most_file_bytes) }
{
    let metadata = fs::metadata(rt, path).map_err(|e| trouble_of(&e))?;
    if metadata.is_dir() {
        return Ok(Found::Dir);
    }
    // Reading a pipe that nobody writes to never ends.
    if !metadata.is_file() {
        return Err(Trouble::Other);
    }
    let held = metadata.len();
    let mut file = fs::open(rt, path).map_err(|e| trouble_of(&e))?;
    Ok(Found::File(read_whole(&mut file, alloc, held, MAX_FILE_BYTES)?))
}

fn stored_once<R: Files>(rt: &R, alloc: Global, path: &str) -> Result<Option<Text>, Trouble> {
    let metadata = fs::metadata(rt, path).map_err(|e| trouble_of(&e))?;
    if metadata.is_dir() {
        return Err(Trouble::Other);
    }
    if !metadata.is_file() {
        return Ok(None);
    }
    let mut file = fs::open(rt, path).map_err(|e| trouble_of(&e))?;
    Ok(Some(read_whole(&mut file, alloc, metadata.len(), MOST_STORED)?))
}

fn names_once<R: Files + AllocGlobal + Clone + Drop>(
    rt: &R,
    alloc: Global,
    path: &str,
) -> Result<Texts, Trouble> {
    let mut names = Texts::new(alloc);
    for entry in fs::read_dir(rt, path).map_err(|e| trouble_of(&e))? {
        let entry = entry.map_err(|e| trouble_of(&e))?;
        let Ok(name) = Text::of(alloc, entry.file_name().as_bytes()) else {
            return Err(Trouble::NoMemory);
        };
        if names.add(name).is_err() {
            return Err(Trouble::NoMemory);
        }
    }
    Ok(names)
}

// All the bytes of a file, of which there may be no more than that. Where it held so many when it was looked at, the system isn't
// asked once more whether it ends there.
fn read_whole<F: Read>(file: &mut F, alloc: Global, held: u64, limit: u64) -> Result<Text, Trouble>
    requires { limit < 2 ^ 63 }
    ensures bound { IfOk result (λ text. length text ≤ limit) }

    // Of a file that tells its bytes these are the first ones, and either all or as many as it held.
    ensures bytes { IfOk result (Consumes (F.remaining file.old) (F.remaining file.new)) }
    ensures whole { IfOk result (λ text. IsAtEnd (F.remaining file.new) ⊎ (length text ≡ held)) }
{
    let Ok(mut text) = Text::of(alloc, &[]) else {
        return Err(Trouble::NoMemory);
    };
    let mut part = [0; PART];
    for _ in 0..u64::MAX {
        let count = match read_again(file, &mut part) {
            Ok(0) => return Ok(text),
            Ok(count) => count,
            Err(e) => return Err(trouble_of(&e)),
        };
        if (count as u64) > limit - text.bytes().len() as u64 {
            return Err(Trouble::TooLarge);
        }
        if text.append(&part[..count]).is_err() {
            return Err(Trouble::NoMemory);
        }
        if text.bytes().len() as u64 == held {
            return Ok(text);
        }
    }
    Err(Trouble::Other)
}
