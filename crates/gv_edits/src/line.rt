//! The lines of the script of a session, and the words of a line.
//!
//! A line costs O(its bytes).
ghost use Rattle.std.specs.Prelude.{◌≡◌, ◌≤◌, ◌++◌, ◌∷◌, ℕ, List, [], IfNone, IfSome, IfOk, OnOk, IsErrOf, MatchOption, option_map};
ghost use Rattle.gv_base.specs.Causes.{Rose};
ghost use Rattle.gv_edits.specs.Line.{first_line, words_of_line};
ghost use Rattle.gv_edits.specs.Pending.{whole};
ghost use Rattle.gv_edits.specs.Reading.{Finds, FindsNone, and_rest, words_left};

use crate::pending::{Pending, ReadFault};
use gv_base::{NoMemory, Source, Text, Texts, until};
use std::alloc::Global;

// The most bytes of a line, without its line feed.
const MAX_LINE_BYTES: u32 = 4200;

/// The next line, and `None` exactly where no line feed is left, or more than 4,200 bytes stand before the first. It reads
/// no more bytes than it must to know that.
#[tactic(auto, using(crate::proofs::Heads::reads_nothing, crate::proofs::Heads::line_lacks))]
pub(crate) fn read_line<I: Source>(
    alloc: Global,
    pending: &mut Pending,
    input: &mut I,
) -> Result<Option<Text>, ReadFault>
    ensures line { IfOk result (λ line. option_map first_line (whole pending.old (I.left input.old)) ≡ option_map (and_rest line) (whole pending.new (I.left input.new))) }
    ensures finds { IfOk result (λ line. IfSome line (Finds (List ℕ) first_line pending.old (I.left input.old) pending.new (I.left input.new))) }
    ensures lacks { IsErrOf result ReadFault.Failed → FindsNone (List ℕ) first_line pending.old (I.left input.old) (I.left input.new) }
    ensures later { I.faults input.old ≤ I.faults input.new }
    ensures calm { OnOk result (I.faults input.new ≡ I.faults input.old) }
    ensures failed { IsErrOf result ReadFault.Failed → Rose (I.faults input.old) (I.faults input.new) }
{
    let mut line = Text::of(alloc, &[])?;
    for taken in 0..=MAX_LINE_BYTES {
        match pending.next_byte(input) {
            Ok(Some(b'\n')) => return Ok(Some(line)),
            Ok(Some(byte)) => line.append(&[byte])?,
            Ok(None) => return Ok(None),
            Err(_) => return Err(ReadFault::Failed),
        }
    }
    Ok(None)
}

/// The words of a line, which has one space between each two.
pub(crate) fn words_of_line(alloc: Global, line: &[u8]) -> Result<Texts, NoMemory>
    ensures { IfOk result (λ words. words ≡ words_of_line line.now) }
{
    let mut words = Texts::new(alloc);
    let mut rest = Some(line);
    while let Some(word) = next_word(&mut rest) {
        words.add(Text::of(alloc, word)?)?;
    }
    Ok(words)
}

// Takes the first word off, and answers `None` exactly where none is left.
fn next_word<'a>(rest: &mut Option<&'a [u8]>) -> Option<&'a [u8]>
    ensures taken { MatchOption result (words_left rest.old ≡ []) (λ word. words_left rest.old ≡ word.now ∷ words_left rest.new) }
    ensures end { IfNone result (words_left rest.new ≡ []) }
{
    match *rest {
        None => None,
        Some(bytes) => {
            let (word, behind) = divide(bytes);
            *rest = behind;
            Some(word)
        }
    }
}

// The word before the first space, and what is behind it.
#[tactic(auto, using(crate::proofs::Spaces::space_there, crate::proofs::Spaces::all_one))]
fn divide(bytes: &[u8]) -> (&[u8], Option<&[u8]>)
    ensures { words_of_line bytes.now ≡ result.0.now ∷ words_left result.1 }
{
    let word = until(bytes, b' ');
    if word.len() < bytes.len() {
        (word, Some(&bytes[word.len() + 1..]))
    } else {
        (word, None)
    }
}
