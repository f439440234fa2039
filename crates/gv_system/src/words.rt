//! The words that the program was called with.
//!
//! A call costs the bytes of the words, and a call of the system for each doubling of a word's room.
use gv_base::{NoMemory, Text, Texts};
use std::alloc::Global;
use std::env::{Env, FillError};

/// A word that is longer is asked for again.
const ROOM: usize = 256;

/// The words behind the program's name, in their order, whatever bytes they have.
pub fn words_given(rt: &impl Env, alloc: Global) -> Result<Texts, NoMemory> {
    let mut words = Texts::new(alloc);
    for at in 1..usize::MAX {
        match word(rt, alloc, at)? {
            Some(word) => words.add(word)?,
            None => break,
        }
    }
    Ok(words)
}

// The word at this place, or nothing behind the last one.
fn word(rt: &impl Env, alloc: Global, at: usize) -> Result<Option<Text>, NoMemory> {
    let mut room = ROOM;
    for _ in 0..usize::BITS {
        let mut bytes = Vec::new(alloc);
        bytes.resize(room, 0)?;
        match rt.arg(at, &mut bytes) {
            Ok(length) => return Ok(Some(Text::of(alloc, &bytes[..length])?)),
            Err(FillError::NotPresent) => return Ok(None),
            Err(FillError::TooLong) => room = room.saturating_add(room),
        }
    }
    Err(NoMemory)
}
