//! The masters that a repository's layout names (`metadata/layout.conf`, PMS leaves its form open).
//!
//! Costs O(bytes), and the comparison of each two of at most eight masters.
ghost use Rattle.std.specs.Prelude.{◌≡◌, not, IfOk, Option, List, ℕ};
ghost use Rattle.std.specs.List.{find, list_all};
ghost use Rattle.std.specs.Option.{option_copied};
ghost use Rattle.gv_base.specs.Order.{has_text};
ghost use Rattle.gv_base.specs.Paths.{is_part};
ghost use Rattle.gv_base.specs.Words.{lines_of};
ghost use Rattle.gv_profile.specs.Lines.{line_words};
ghost use Rattle.gv_views.specs.Layout.{Tells, are_distinct, are_masters, behind_equals, checked, is_masters_line, is_masters_word, key_of, masters_in};

use gv_base::{Cut, NoMemory, Text, Texts, is_part, next_piece, until, words_of};
use gv_profile::line_words;
use std::alloc::Global;

/// The most masters of a repository.
pub const MAX_MASTERS: u64 = 8;

/// Why a layout names no masters.
#[derive(Clone, Copy, Debug, PartialEq, Eq)]
pub enum LayoutFault {
    /// The masters line has more than `MAX_MASTERS` words.
    TooMany,
    /// There is no masters line, or it has no word, or a word that isn't one part of a path, stands twice or is the repository
    /// itself.
    Bad,
    /// Memory was wanted and not given.
    NoMemory,
}

impl From<NoMemory> for LayoutFault {
    ghost use Rattle.std.specs.Prelude.{◌≡◌};
    ghost use Rattle.gv_views.specs.declared.layout.LayoutFault.TheVariants.{NoMemory};

    ghost from_gives = { λ _ fault. fault ≡ NoMemory };

    fn from(_: NoMemory) -> Self {
        LayoutFault::NoMemory
    }
}

/// The folders of the masters of the repository of this name, in the order in which its layout names them: the words behind the
/// first `=` of the first line that has the one word `masters` before it, up to a word that begins with `#`.
pub fn masters_in(alloc: Global, name: &Text, bytes: &[u8]) -> Result<Texts, LayoutFault>
    ensures { Tells (masters_in name.now bytes.now) result }
{
    match masters_line(alloc, bytes)? {
        Some(line) => checked_line(alloc, name, line),
        None => Err(LayoutFault::Bad),
    }
}

fn checked_line(alloc: Global, name: &Text, line: &[u8]) -> Result<Texts, LayoutFault>
    ensures { Tells (checked name.now (line_words (behind_equals line.now))) result }
{
    let words = line_words(alloc, behind_equals(line))?;
    checked(name, words)
}

fn checked(name: &Text, masters: Texts) -> Result<Texts, LayoutFault>
    ensures { Tells (checked name.now masters) result }
{
    if masters.items().len() as u64 > MAX_MASTERS {
        return Err(LayoutFault::TooMany);
    }
    if are_masters(name, &masters) {
        Ok(masters)
    } else {
        Err(LayoutFault::Bad)
    }
}

// The first line that has the one word `masters` before its first `=`.
fn masters_line(alloc: Global, bytes: &[u8]) -> Result<Option<&[u8]>, NoMemory>
    ensures line { IfOk result (λ line. option_copied line ≡ find is_masters_line (lines_of bytes.now)) }
{
    let mut rest = Some(bytes);
    while let Some(line) = next_piece(&mut rest, Cut::Lines) {
        if is_masters_line(alloc, line)? {
            return Ok(Some(line));
        }
    }
    Ok(None)
}

fn is_masters_line(alloc: Global, line: &[u8]) -> Result<bool, NoMemory>
    ensures { IfOk result (λ is. is ≡ is_masters_line line.now) }
{
    let key = until(line, b'=');
    if key.len() == line.len() {
        return Ok(false);
    }
    let words = words_of(alloc, key)?;
    Ok(is_masters_word(words.items()))
}

fn is_masters_word(words: &[Text]) -> bool
    ensures { result ≡ is_masters_word words.now }
{
    match words {
        [word] => word.bytes() == b"masters".as_slice(),
        _ => false,
    }
}

#[tactic(auto, using(crate::proofs::Lists::nothing_behind))]
fn behind_equals(line: &[u8]) -> &[u8]
    ensures { result.now ≡ behind_equals line.now }
{
    let key = until(line, b'=');
    if key.len() < line.len() {
        &line[key.len() + 1..]
    } else {
        &[]
    }
}

fn are_masters(name: &Text, masters: &Texts) -> bool
    ensures { result ≡ are_masters name.now masters.now }
{
    let items = masters.items();
    !items.is_empty() && (are_parts(items) && (are_distinct(items) && !masters.has(name.bytes())))
}

fn are_parts(texts: &[Text]) -> bool
    ensures { result ≡ list_all is_part texts.now }
{
    for text in texts {
        if !is_part(text.bytes()) {
            return false;
        }
    }
    true
}

fn are_distinct(texts: &[Text]) -> bool
    ensures { result ≡ are_distinct texts.now }
{
    for (i, text) in texts.iter().enumerate() {
        if has_text(&texts[i + 1..], text) {
            return false;
        }
    }
    true
}

fn has_text(texts: &[Text], text: &Text) -> bool
    ensures { result ≡ has_text texts.now text.now }
{
    for other in texts {
        if text == other {
            return true;
        }
    }
    false
}
