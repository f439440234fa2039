//! Texts that are found by two pieces which a slash joins.
//!
//! A look-up takes no memory. Among a few texts it compares the pieces with each; else it costs O(log n) comparisons of pieces for n
//! texts, and O(n) where the first piece has a slash, as no category has. A text that is added is cut at its first slash: that costs
//! O(its bytes) and O(log n) comparisons.
ghost use Rattle.std.specs.Prelude.{◌≡◌, ◌∷◌, [], ◌++◌, ◌&&◌, ◌||◌, ℕ, List, false, not, IfOk, OnOk, OnErr};
ghost use Rattle.std.specs.FinMap as finite;
ghost use Rattle.std.specs.Option.{option_copied};
ghost use Rattle.std.specs.Str.{bytes_eq};
ghost use Rattle.gv_base.specs.ByteMap.{map_of};
ghost use Rattle.gv_base.specs.Order.{has_text};
ghost use Rattle.gv_reading.specs.Paths.{within};
ghost use Rattle.gv_reload.specs.Joined.{has_pair, has_slash};

use crate::entry_paths::parts_behind;
use gv_base::{NoMemory, Text, Texts, add_key, after_prefix, has_key, map_law};
use std::alloc::Global;
use std::collections::{BTreeMap, BTreeSet};
use std::marker::Model;

const FEW: usize = 4;

/// Texts, in the order in which they were added.
#[derive(Drop)]
pub(crate) struct Joined {
    texts: Texts,
    firsts: BTreeMap<Vec<u8>, BTreeSet<Text>>,
}

impl Model for Joined {
    ghost use Rattle.std.specs.Prelude.{List, ℕ};
    ghost use Rattle.gv_base.specs.ByteMap.{map_of};
    ghost use Rattle.gv_reload.specs.Joined.{HasPairs};

    ghost Value = { List (List ℕ) };

    ghost view = { λ j. j.texts };

    ghost invariant = { λ j. HasPairs (map_of j.firsts.entries) j.texts };
}

impl Joined {
    /// No texts.
    pub fn new(alloc: Global) -> Joined
        ensures { result ≡ [] }
    {
        Joined {
            texts: Texts::new(alloc),
            firsts: BTreeMap::new(alloc),
        }
    }

    /// The texts, with one more at the end.
    #[tactic(auto, using(crate::proofs::JoinedLemmas::one_more))]
    pub fn with(self, alloc: Global, text: Text) -> Result<Joined, NoMemory>
        ensures { IfOk result (λ joined. joined ≡ self ++ text ∷ []) }
    {
        let Joined {
            mut texts,
            mut firsts,
        } = self;
        add_cut(alloc, &mut firsts, text.bytes())?;
        texts.add(text)?;
        Ok(Joined { texts, firsts })
    }

    /// The texts, as they were added.
    pub fn items(&self) -> &[Text]
        ensures { result.now ≡ self.now }
    {
        self.texts.items()
    }

    /// Whether these pieces, joined by a slash, are one of the texts.
    pub fn has(&self, first: &Text, second: &Text) -> bool
        ensures { result ≡ has_text self.now (within first.now second.now) }
    {
        let texts = self.texts.items();
        if texts.len() <= FEW || has_slash(first.bytes()) {
            any_joined(texts, first.bytes(), second.bytes())
        } else {
            has_pair(&self.firsts, first, second)
        }
    }
}

fn has_slash(text: &[u8]) -> bool
    ensures { result ≡ has_slash text.now }
{
    for byte in text {
        if *byte == b'/' {
            return true;
        }
    }
    false
}

fn any_joined(texts: &[Text], first: &[u8], second: &[u8]) -> bool
    ensures { result ≡ has_text texts.now (within first.now second.now) }
{
    for text in texts {
        if is_joined(text.bytes(), first, second) {
            return true;
        }
    }
    false
}

fn is_joined(text: &[u8], first: &[u8], second: &[u8]) -> bool
    ensures { result ≡ bytes_eq (within first.now second.now) text.now }
{
    if first.len() >= text.len() || text.len() - first.len() - 1 != second.len() {
        return false;
    }
    match after_prefix(first, text) {
        Some(rest) => is_behind_slash(rest, second),
        None => false,
    }
}

fn is_behind_slash(rest: &[u8], second: &[u8]) -> bool
    ensures { result ≡ bytes_eq (47 ∷ second.now) rest.now }
{
    match rest {
        [b'/', behind @ ..] => second == behind,
        _ => false,
    }
}

fn has_pair(map: &BTreeMap<Vec<u8>, BTreeSet<Text>>, first: &Text, second: &Text) -> bool
    ensures { result ≡ has_pair (map_of map.now.entries) first.now second.now }
{
    map_law::<BTreeSet<Text>>();
    match map.get(second.bytes()) {
        Some(firsts) => has_key(firsts, first),
        None => false,
    }
}

// Cuts a text at its first slash; one without a slash is none of two pieces.
fn add_cut(
    alloc: Global,
    map: &mut BTreeMap<Vec<u8>, BTreeSet<Text>>,
    text: &[u8],
) -> Result<(), NoMemory>
    ensures { OnOk result ((f s : List ℕ) → has_slash f ≡ false → has_pair (map_of map.new.entries) f s ≡ (bytes_eq (within f s) text.now || has_pair (map_of map.old.entries) f s)) }
{
    let (first, second) = parts_behind(text);
    if first.len() < text.len() {
        add_pair(alloc, map, first, second)?;
    }
    Ok(())
}

fn add_pair(
    alloc: Global,
    map: &mut BTreeMap<Vec<u8>, BTreeSet<Text>>,
    first: &[u8],
    second: &[u8],
) -> Result<(), NoMemory>
    ensures { OnOk result ((f s : List ℕ) → has_pair (map_of map.new.entries) f s ≡ ((bytes_eq f first.now && bytes_eq s second.now) || has_pair (map_of map.old.entries) f s)) }
{
    let mut firsts = taken(alloc, map, second);
    add_key(&mut firsts, Text::of(alloc, first)?)?;
    put(alloc, map, second, firsts)?;
    Ok(())
}

// The first pieces at a second one, given away.
fn taken(
    alloc: Global,
    map: &mut BTreeMap<Vec<u8>, BTreeSet<Text>>,
    second: &[u8],
) -> BTreeSet<Text>
    ensures these { (f : List ℕ) → has_text result.keys f ≡ has_pair (map_of map.old.entries) f second.now }
    ensures others { (f s : List ℕ) → bytes_eq s second.now ≡ false → has_pair (map_of map.new.entries) f s ≡ has_pair (map_of map.old.entries) f s }
{
    map_law::<BTreeSet<Text>>();
    match map.remove(second) {
        Some(firsts) => firsts,
        None => BTreeSet::new(alloc),
    }
}

fn put(
    alloc: Global,
    map: &mut BTreeMap<Vec<u8>, BTreeSet<Text>>,
    second: &[u8],
    firsts: BTreeSet<Text>,
) -> Result<(), NoMemory>
    ensures { OnOk result (map_of map.new.entries ≡ finite.insert (map_of map.old.entries) second.now firsts) }
{
    map_law::<BTreeSet<Text>>();
    let key = Vec::from_slice(alloc, second)?;
    map.insert(key, firsts)?;
    Ok(())
}
