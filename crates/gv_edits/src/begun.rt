//! The command that a line of a script is, but for the bytes of a put.
//!
//! Costs O(bytes of the line).
ghost use Rattle.std.specs.Prelude.{◌≡◌, ◌∷◌, [], IfOk, option_map};
ghost use Rattle.gv_edits.specs.Command.{begun_by, is_edit_path};
ghost use Rattle.gv_edits.specs.Line.{words_of_line};

use crate::MAX_PATH_BYTES;
use crate::length::length_of;
use crate::line::words_of_line;
use gv_base::{NoMemory, Text, is_path};
use std::alloc::Global;

/// A command, with the number of bytes of a put in place of these.
#[derive(Drop)]
pub(crate) enum Begun {
    /// Sets one path.
    Put {
        /// The second word of the line, which is a path.
        path: Text,
        /// How many bytes the file has.
        size: u32,
    },
    /// Removes one path.
    Cut {
        /// The second word of the line, which is a path.
        path: Text,
    },
    /// Writes the report.
    Report,
    /// Ends the session.
    End,
}

/// The command that a line begins, and `None` exactly where it begins none.
pub(crate) fn read_begun(alloc: Global, line: &[u8]) -> Result<Option<Begun>, NoMemory>
    ensures { IfOk result (λ begun. begun ≡ begun_by (words_of_line line.now)) }
{
    let words = words_of_line(alloc, line)?;
    begun_by(alloc, words.items())
}

fn begun_by(alloc: Global, words: &[Text]) -> Result<Option<Begun>, NoMemory>
    ensures { IfOk result (λ begun. begun ≡ begun_by words.now) }
{
    match words {
        [name] => Ok(alone(name.bytes())),
        [name, path] => cut_of(alloc, name.bytes(), path.bytes()),
        [name, path, size] => put_of(alloc, name.bytes(), path.bytes(), size.bytes()),
        _ => Ok(None),
    }
}

fn alone(name: &[u8]) -> Option<Begun>
    ensures { result ≡ begun_by (name.now ∷ []) }
{
    if name == b"report".as_slice() {
        Some(Begun::Report)
    } else if name == b"end".as_slice() {
        Some(Begun::End)
    } else {
        None
    }
}

fn is_edit_path(path: &[u8]) -> bool
    ensures { result ≡ is_edit_path path.now }
{
    is_path(path) && path.len() as u64 <= MAX_PATH_BYTES
}

fn cut_of(alloc: Global, name: &[u8], path: &[u8]) -> Result<Option<Begun>, NoMemory>
    ensures { IfOk result (λ begun. begun ≡ begun_by (name.now ∷ (path.now ∷ []))) }
{
    if name == b"cut".as_slice() && is_edit_path(path) {
        Ok(Some(Begun::Cut {
            path: Text::of(alloc, path)?,
        }))
    } else {
        Ok(None)
    }
}

fn put_of(alloc: Global, name: &[u8], path: &[u8], size: &[u8]) -> Result<Option<Begun>, NoMemory>
    ensures { IfOk result (λ begun. begun ≡ begun_by (name.now ∷ (path.now ∷ (size.now ∷ [])))) }
{
    if name == b"put".as_slice() && is_edit_path(path) {
        put_with(alloc, path, length_of(size))
    } else {
        Ok(None)
    }
}

fn put_with(alloc: Global, path: &[u8], size: Option<u32>) -> Result<Option<Begun>, NoMemory>
    ensures { IfOk result (λ begun. begun ≡ option_map (Begun.Put path.now) size) }
{
    match size {
        None => Ok(None),
        Some(size) => Ok(Some(Begun::Put {
            path: Text::of(alloc, path)?,
            size,
        })),
    }
}
