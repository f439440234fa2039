//! The lines of files of flags: which are good, and what is bad about the others. Rules and notes are made of these answers. A line costs
//! O(its bytes).
ghost use Rattle.std.specs.Prelude.{◌≡◌, drop, IfOk};
ghost use Rattle.std.specs.List.{list_all};
ghost use Rattle.gv_profile.specs.FlagLines.{are_flag_words, atom_line, flag_line, flag_of, flag_words, is_flag_word, package_line, plain_line};

use crate::mask_lines::file_atom;
use crate::notes::Bad;
use gv_atom::Atom;
use gv_base::{NoMemory, Text};
use gv_version::is_flag;
use std::alloc::Global;

/// What a line of a file of flags is.
#[derive(Drop)]
pub(crate) enum FlagLine {
    /// It has no word.
    Blank,
    /// A good one, with its atom where the file names packages. Its flags are `flag_words`.
    Good { atom: Option<Atom> },
    /// Any other.
    Bad { bad: Bad },
}

/// What a line with these words is.
pub(crate) fn flag_line(
    alloc: Global,
    by_package: bool,
    words: &[Text],
) -> Result<FlagLine, NoMemory>
    ensures { IfOk result (λ line. line ≡ flag_line by_package words.now) }
{
    if by_package {
        package_line(alloc, words)
    } else {
        Ok(plain_line(words))
    }
}

/// The words of a good line that are its flags, each with a hyphen in front where its effect ends.
pub(crate) fn flag_words(by_package: bool, words: &[Text]) -> &[Text]
    ensures { result.now ≡ flag_words by_package words.now }
{
    if by_package {
        behind_first(words)
    } else {
        words
    }
}

/// The flag of a word.
pub(crate) fn flag_of(word: &[u8]) -> &[u8]
    ensures { result.now ≡ flag_of word.now }
{
    match word {
        [b'-', flag @ ..] => flag,
        _ => word,
    }
}

#[tactic(auto, using(crate::proofs::SliceRests::rest_of))]
fn behind_first(words: &[Text]) -> &[Text]
    ensures { result.now ≡ drop 1 words.now }
{
    match words {
        [] => words,
        [_, rest @ ..] => rest,
    }
}

fn is_flag_word(word: &[u8]) -> bool
    ensures { result ≡ is_flag_word word.now }
{
    is_flag(flag_of(word))
}

/// Whether there are one or more words, each a flag or a hyphen and a flag.
pub fn are_flag_words(words: &[Text]) -> bool
    ensures { result ≡ are_flag_words words.now }
{
    match words {
        [] => false,
        _ => all_flag_words(words),
    }
}

fn all_flag_words(words: &[Text]) -> bool
    ensures { result ≡ list_all is_flag_word words.now }
{
    for word in words {
        if !is_flag_word(word.bytes()) {
            return false;
        }
    }
    true
}

fn plain_line(words: &[Text]) -> FlagLine
    ensures { result ≡ plain_line words.now }
{
    match words {
        [] => FlagLine::Blank,
        [word] => {
            if is_flag_word(word.bytes()) {
                FlagLine::Good { atom: None }
            } else {
                FlagLine::Bad { bad: Bad::Flag }
            }
        }
        _ => FlagLine::Bad { bad: Bad::Flag },
    }
}

#[tactic(auto, using(crate::proofs::SliceRests::rest_of))]
fn package_line(alloc: Global, words: &[Text]) -> Result<FlagLine, NoMemory>
    ensures { IfOk result (λ line. line ≡ package_line words.now) }
{
    match words {
        [] => Ok(FlagLine::Blank),
        [text, words @ ..] => {
            let atom = file_atom(alloc, text.bytes())?;
            Ok(atom_line(atom, words))
        }
    }
}

fn atom_line(atom: Option<Atom>, words: &[Text]) -> FlagLine
    ensures { result ≡ atom_line atom words.now }
{
    match atom {
        Some(atom) => {
            if are_flag_words(words) {
                FlagLine::Good { atom: Some(atom) }
            } else {
                FlagLine::Bad { bad: Bad::Flag }
            }
        }
        None => FlagLine::Bad { bad: Bad::AtomText },
    }
}
