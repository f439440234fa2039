//! Words with a set of them, so that `has` costs O(log n) comparisons of words for n words. `of` costs O(n log n).
ghost use Rattle.std.specs.Prelude.{◌≡◌, List, ℕ, IfOk};
ghost use Rattle.gv_base.specs.Order.{has_text};
ghost use Rattle.gv_usedefaults.specs.WordSets.{HasWords};

use gv_base::{NoMemory, Text, Texts, add_key, has_key};
use std::alloc::Global;
use std::collections::BTreeSet;
use std::marker::Model;

/// Words in their order, of which it is known which there are.
#[derive(Drop)]
pub struct WordSet {
    words: Texts,
    set: BTreeSet<Text>,
}

impl Model for WordSet {
    ghost use Rattle.std.specs.Prelude.{List, ℕ};
    ghost use Rattle.gv_usedefaults.specs.WordSets.{HasWords};

    ghost Value = { List (List ℕ) };

    ghost view = { λ s. s.words };

    ghost invariant = { λ s. HasWords s.set.keys s.words };
}

impl WordSet {
    /// These words.
    pub fn of(alloc: Global, words: Texts) -> Result<WordSet, NoMemory>
        ensures { IfOk result (λ set. set ≡ words) }
    {
        let set = set_of(alloc, &words)?;
        Ok(WordSet { words, set })
    }

    /// The words, in their order.
    pub fn words(&self) -> &Texts
        ensures { result.now ≡ self.now }
    {
        &self.words
    }

    /// Whether the word is one of them.
    pub fn has(&self, word: &Text) -> bool
        ensures { result ≡ has_text self.now word.now }
    {
        has_key(&self.set, word)
    }
}

fn set_of(alloc: Global, words: &Texts) -> Result<BTreeSet<Text>, NoMemory>
    ensures { IfOk result (λ set. HasWords set.keys words.now) }
{
    let mut set = BTreeSet::new(alloc);
    for word in words.items() {
        add_key(&mut set, word.copy(alloc)?)?;
    }
    Ok(set)
}
