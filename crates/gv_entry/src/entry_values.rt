//! The values of an entry's keys, and what their words are.
//!
//! An entry is cut into lines once; the value of a key is looked for among them: O(bytes) for all keys, the memory of a
//! reference a line.
ghost use Rattle.std.specs.Prelude.{◌≡◌, [], ◌∷◌, ◌++◌, Some, None, codes, drop, map, filter, not, IfOk, MatchOption};
ghost use Rattle.std.specs.List.{position_from};
ghost use Rattle.gv_base.specs.Cut.{after_prefix};
ghost use Rattle.gv_facts.specs.Classes.{class_text};
ghost use Rattle.gv_entry.specs.EntryRead.{has_sign};
ghost use Rattle.gv_entry.specs.EntryValues.{eapi_of, is_iuse_word, is_keyword_word, slot_in, slot_of, unmarked, value_of};

use gv_base::{Cut, NoMemory, Text, Texts, after_prefix, next_piece};
use gv_facts::{Class, Eapi, class_text};
use gv_version::{is_flag, is_keyword, is_slot};
use std::alloc::Global;
use std::marker::Model;

/// The bytes of an entry, cut into lines.
#[derive(Drop)]
pub struct EntryText<'a> {
    bytes: &'a [u8],
    lines: Vec<&'a [u8]>,
}

impl<'a> Model for EntryText<'a> {
    ghost use Rattle.std.specs.Prelude.{◌≡◌, List, ℕ, map};
    ghost use Rattle.gv_base.specs.Words.{lines_of};

    ghost Value = { List ℕ };

    ghost view = { λ t. t.bytes.now };

    ghost invariant = { λ t. map (λ line. line.now) t.lines.items ≡ lines_of t.bytes.now };
}

impl<'a> EntryText<'a> {
    /// These bytes.
    pub fn new(alloc: Global, bytes: &'a [u8]) -> Result<EntryText<'a>, NoMemory>
        ensures { IfOk result (λ text. text ≡ bytes.now) }
    {
        let mut lines = Vec::new(alloc);
        let mut rest = Some(bytes);
        while let Some(line) = next_piece(&mut rest, Cut::Lines) {
            lines.push(line)?;
        }
        Ok(EntryText { bytes, lines })
    }

    /// The value of the key: what follows `KEY=` in the first line that begins so, empty where none does.
    pub fn value_of(&self, key: &[u8]) -> &'a [u8]
        ensures { result.now ≡ value_of key.now self.now }
    {
        for line in self.lines.iter() {
            if let Some(value) = value_in(key, line) {
                return value;
            }
        }
        b""
    }

    /// The value of the class's key.
    pub fn of_class(&self, class: Class) -> &'a [u8]
        ensures { result.now ≡ value_of (class_text class) self.now }
    {
        self.value_of(class_text(class))
    }
}

/// The EAPI of this name, if it is supported.
pub fn eapi_of(value: &[u8]) -> Option<Eapi>
    ensures { result ≡ eapi_of value.now }
{
    if value == b"5".as_slice() {
        Some(Eapi::Five)
    } else if value == b"6".as_slice() {
        Some(Eapi::Six)
    } else if value == b"7".as_slice() {
        Some(Eapi::Seven)
    } else if value == b"8".as_slice() {
        Some(Eapi::Eight)
    } else {
        None
    }
}

/// The slot and the sub-slot of a value of SLOT, if it has their form. Without a sub-slot the slot is that too.
pub fn slot_of(alloc: Global, value: &[u8]) -> Result<Option<(Text, Text)>, NoMemory>
    ensures { IfOk result (λ both. both ≡ slot_of value.now) }
{
    let mut rest = Some(value);
    let Some(slot) = next_piece(&mut rest, Cut::Parts) else {
        return Ok(None);
    };
    let Some(sub) = next_piece(&mut rest, Cut::Parts) else {
        return slot_alone(alloc, slot);
    };
    match next_piece(&mut rest, Cut::Parts) {
        None => slot_and_sub(alloc, slot, sub),
        Some(_) => Ok(None),
    }
}

/// The number, from 1, of the first word that isn't one of KEYWORDS.
pub fn bad_keyword(words: &Texts) -> Option<usize>
    ensures { result ≡ position_from (λ w. not (is_keyword_word w)) 1 words.now }
{
    for (i, word) in words.items().iter().enumerate() {
        if !is_keyword_word(word.bytes()) {
            return Some(i + 1);
        }
    }
    None
}

/// The number, from 1, of the first word that isn't one of IUSE.
pub fn bad_flag(words: &Texts) -> Option<usize>
    ensures { result ≡ position_from (λ w. not (is_iuse_word w)) 1 words.now }
{
    for (i, word) in words.items().iter().enumerate() {
        if !is_flag(flag_name(word.bytes())) {
            return Some(i + 1);
        }
    }
    None
}

/// The flags of the words of IUSE, in their order.
pub fn flags_of(alloc: Global, words: &Texts) -> Result<Texts, NoMemory>
    ensures { IfOk result (λ flags. flags ≡ map (unmarked (codes "+-")) words.now) }
{
    let mut flags = Texts::new(alloc);
    for word in words.items() {
        flags.add(Text::of(alloc, flag_name(word.bytes()))?)?;
    }
    Ok(flags)
}

/// The flags of those words of IUSE that begin with `+`, in their order.
pub fn plus_flags_of(alloc: Global, words: &Texts) -> Result<Texts, NoMemory>
    ensures { IfOk result (λ flags. flags ≡ map (drop 1) (filter (has_sign (codes "+")) words.now)) }
{
    let mut flags = Texts::new(alloc);
    for word in words.items() {
        if let [b'+', flag @ ..] = word.bytes() {
            flags.add(Text::of(alloc, flag)?)?;
        }
    }
    Ok(flags)
}

// What follows the key and `=` in the line.
#[tactic(auto, using(crate::proofs::KeyLines::other_key, crate::proofs::KeyLines::key_there))]
fn value_in<'a>(key: &[u8], line: &'a [u8]) -> Option<&'a [u8]>
    ensures { MatchOption result (after_prefix (key.now ++ codes "=") line.now ≡ None) (λ value. after_prefix (key.now ++ codes "=") line.now ≡ Some value.now) }
{
    match after_prefix(key, line) {
        Some(rest) => after_prefix(b"=", rest),
        None => None,
    }
}

// A slot that is its own sub-slot.
fn slot_alone(alloc: Global, slot: &[u8]) -> Result<Option<(Text, Text)>, NoMemory>
    ensures { IfOk result (λ both. both ≡ slot_in (slot.now ∷ [])) }
{
    if !is_slot(slot) {
        return Ok(None);
    }
    Ok(Some((Text::of(alloc, slot)?, Text::of(alloc, slot)?)))
}

fn slot_and_sub(alloc: Global, slot: &[u8], sub: &[u8]) -> Result<Option<(Text, Text)>, NoMemory>
    ensures { IfOk result (λ both. both ≡ slot_in (slot.now ∷ sub.now ∷ [])) }
{
    if !is_slot(slot) || !is_slot(sub) {
        return Ok(None);
    }
    Ok(Some((Text::of(alloc, slot)?, Text::of(alloc, sub)?)))
}

// The name of a keyword, without `~` or `-` in front.
fn keyword_name(word: &[u8]) -> &[u8]
    ensures { result.now ≡ unmarked (codes "~-") word.now }
{
    match word {
        [b'~' | b'-', name @ ..] => name,
        _ => word,
    }
}

// A flag without `+` or `-` in front.
fn flag_name(word: &[u8]) -> &[u8]
    ensures { result.now ≡ unmarked (codes "+-") word.now }
{
    match word {
        [b'+' | b'-', name @ ..] => name,
        _ => word,
    }
}

fn is_keyword_word(word: &[u8]) -> bool
    ensures { result ≡ is_keyword_word word.now }
{
    word == b"-*".as_slice() || is_keyword(keyword_name(word))
}
