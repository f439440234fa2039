//! Words taken in order over those of an incremental variable.
//!
//! From the last word on it is known of each whether a later one removes it; what lasts is then added from the first on,
//! with a set beside the list. So n words cost O(n log n) comparisons, and each that lasts is copied twice.
ghost use Rattle.std.specs.Prelude.{◌≡◌, ◌||◌, ◌&&◌, not, codes, if◌then◌else◌, List, ℕ, [], ◌∷◌, ◌++◌, filter, IfOk, OnOk};
ghost use Rattle.std.specs.Str.{bytes_eq};
ghost use Rattle.gv_base.specs.Order.{has_text};
ghost use Rattle.gv_defaults.specs.Incremental.{with_words};
ghost use Rattle.gv_defaults.specs.Lasting.{removes, adds, with_once, from_last};
ghost use Rattle.gv_defaults.specs.Passed.{takes, HasPassed};
ghost use Rattle.gv_defaults.specs.Indexed.{IsIndexed};

use crate::cut::cut_first;
use gv_base::{NoMemory, Text, Texts, add_key, has_key};
use std::alloc::Global;
use std::collections::BTreeSet;

/// What is known of the words from some place on.
#[derive(Drop)]
pub(crate) struct Behind {
    // Whether `-*` is among them.
    all: bool,
    // What `-x` removes.
    removed: BTreeSet<Text>,
    // The words that last, the last first.
    kept: Vec<Text>,
}

/// Words in their order, and as a set.
#[derive(Drop)]
pub(crate) struct Indexed {
    words: Texts,
    set: BTreeSet<Text>,
}

/// The words of an incremental variable after those of a value were taken in order: `-*` removes all, `-x` removes x,
/// another word is added at the end where it isn't there.
pub(crate) fn with_words(alloc: Global, before: &Texts, words: &Texts) -> Result<Texts, NoMemory>
    ensures { IfOk result (λ texts. texts ≡ with_words before.now words.now) }
{
    let behind = look_back(alloc, words.items())?;
    let left = not_removed(alloc, before.items(), &behind)?;
    let indexed = add_from_last(alloc, left, behind.kept)?;
    Ok(indexed.words)
}

// What is known of all words.
fn look_back(alloc: Global, words: &[Text]) -> Result<Behind, NoMemory>
    ensures { IfOk result (HasPassed words.now) }
{
    let mut behind = Behind {
        all: false,
        removed: BTreeSet::new(alloc),
        kept: Vec::new(alloc),
    };
    let mut i = words.len();
    while i > 0 {
        i -= 1;
        pass(alloc, &mut behind, &words[i])?;
    }
    Ok(behind)
}

// One word more, in front of those that were passed.
fn pass(alloc: Global, behind: &mut Behind, word: &Text) -> Result<(), NoMemory>
    ensures removed { OnOk result ((text : List ℕ) → takes behind.new text ≡ (removes text word.now || takes behind.old text)) }
    ensures kept { OnOk result (behind.new.kept.items ≡ (if adds word.now && not (takes behind.old word.now) then behind.old.kept.items ++ word.now ∷ [] else behind.old.kept.items)) }
{
    match cut_first(word.bytes()) {
        None => Ok(()),
        Some((b, rest)) => {
            if b == b'-' {
                pass_removal(alloc, behind, rest)
            } else {
                pass_addition(alloc, behind, word)
            }
        }
    }
}

// `-*`, or `-x`.
fn pass_removal(alloc: Global, behind: &mut Behind, removed: &[u8]) -> Result<(), NoMemory>
    ensures removed { OnOk result ((text : List ℕ) → takes behind.new text ≡ ((bytes_eq removed.now (codes "*") || bytes_eq text removed.now) || takes behind.old text)) }
    ensures kept { OnOk result (behind.new.kept.items ≡ behind.old.kept.items) }
{
    if removed == b"*".as_slice() {
        behind.all = true;
        return Ok(());
    }
    let text = Text::of(alloc, removed)?;
    add_key(&mut behind.removed, text)?;
    Ok(())
}

fn pass_addition(alloc: Global, behind: &mut Behind, word: &Text) -> Result<(), NoMemory>
    ensures removed { OnOk result ((text : List ℕ) → takes behind.new text ≡ takes behind.old text) }
    ensures kept { OnOk result (behind.new.kept.items ≡ (if not (takes behind.old word.now) then behind.old.kept.items ++ word.now ∷ [] else behind.old.kept.items)) }
{
    if !takes(behind, word) {
        let word = word.copy(alloc)?;
        behind.kept.push(word)?;
    }
    Ok(())
}

fn takes(behind: &Behind, word: &Text) -> bool
    ensures { result ≡ takes behind.now word.now }
{
    behind.all || has_key(&behind.removed, word)
}

// The words that none of those behind removes.
fn not_removed(alloc: Global, words: &[Text], behind: &Behind) -> Result<Indexed, NoMemory>
    ensures words { IfOk result (λ indexed. indexed.words ≡ filter (λ word. not (takes behind.now word)) words.now) }
    ensures indexed { IfOk result IsIndexed }
{
    let mut indexed = Indexed {
        words: Texts::new(alloc),
        set: BTreeSet::new(alloc),
    };
    for word in words {
        if !takes(behind, word) {
            indexed = with_word(alloc, indexed, word.copy(alloc)?)?;
        }
    }
    Ok(indexed)
}

fn with_word(alloc: Global, indexed: Indexed, word: Text) -> Result<Indexed, NoMemory>
    requires { IsIndexed indexed }
    ensures words { IfOk result (λ more. more.words ≡ indexed.words ++ word ∷ []) }
    ensures indexed { IfOk result IsIndexed }
{
    let Indexed { mut words, mut set } = indexed;
    add_key(&mut set, word.copy(alloc)?)?;
    words.add(word)?;
    Ok(Indexed { words, set })
}

fn with_once(alloc: Global, indexed: Indexed, word: Text) -> Result<Indexed, NoMemory>
    requires { IsIndexed indexed }
    ensures words { IfOk result (λ more. more.words ≡ with_once indexed.words word) }
    ensures indexed { IfOk result IsIndexed }
{
    if has_key(&indexed.set, &word) {
        return Ok(indexed);
    }
    with_word(alloc, indexed, word)
}

// The words added, from the last of them on, each where it isn't there.
fn add_from_last(alloc: Global, indexed: Indexed, mut words: Vec<Text>) -> Result<Indexed, NoMemory>
    requires { IsIndexed indexed }
    ensures { IfOk result (λ more. more.words ≡ from_last indexed.words words.items) }
{
    let mut more = indexed;
    while let Some(word) = words.pop() {
        more = with_once(alloc, more, word)?;
    }
    Ok(more)
}
