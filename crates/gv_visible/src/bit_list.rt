//! Lists of bits, 64 in a word: what fits a near cache where a byte each doesn't.
//!
//! `push` costs O(1) on average, `get` O(1) without memory.
ghost use Rattle.std.specs.Prelude.{◌≡◌, ◌≢◌, ℕ, ◌*◌, ◌<◌, ◌≤◌, Bool, List, length, [], ◌∷◌, ◌++◌, if◌then◌else◌, slice_get, IfOk, OnErr, OnOk};
ghost use Rattle.std.specs.Int.{bit_at};
ghost use Rattle.gv_visible.specs.BitList.{is_on};

use gv_base::NoMemory;
use std::alloc::Global;
use std::marker::Model;

/// Bits in order. At most `2^32 - 1`.
#[derive(Drop)]
pub struct BitList {
    // The bit at a place is that at `place % 64`, from the lowest, of the word at `place / 64`.
    words: Vec<u64>,
    len: usize,
}

impl Model for BitList {
    ghost use Rattle.std.specs.Prelude.{◌*◌, ◌≤◌, Bool, List, length};
    ghost use Rattle.gv_visible.specs.BitList.{bits_of};

    ghost Value = { List Bool };

    ghost view = { λ b. bits_of b.words.items b.len };

    ghost invariant = { λ b. b.len ≤ 64 * length b.words.items };
}

impl BitList {
    /// The bit at the place, where the list has one there.
    pub fn get(&self, place: usize) -> Option<bool>
        ensures { result ≡ slice_get self.now place }
    {
        if place >= self.len {
            return None;
        }
        let word = self.words[place / 64];
        Some(word >> (place % 64) & 1 == 1)
    }

    /// No bits, with room for so many.
    pub fn with_capacity(alloc: Global, len: usize) -> Result<BitList, NoMemory>
        ensures { IfOk result (λ bits. bits ≡ []) }
    {
        Ok(BitList {
            words: Vec::with_capacity(alloc, len.div_ceil(64))?,
            len: 0,
        })
    }

    /// Adds a bit at the end. After an error the list is unchanged; a full list has no room either.
    pub fn push(&mut self, bit: bool) -> Result<(), NoMemory>
        ensures ok { OnOk result (self.new ≡ self.old ++ bit ∷ []) }
        ensures err { OnErr result (self.new ≡ self.old) }
    {
        if self.len >= u32::MAX as usize {
            return Err(NoMemory);
        }
        make_room(&mut self.words, self.len)?;
        put(&mut self.words, self.len, bit);
        self.len += 1;
        Ok(())
    }
}

// A word for the bit at the place, which is at most the next behind all words.
#[tactic(auto, using(crate::proofs::BitLists::with_empty))]
fn make_room(words: &mut Vec<u64>, place: usize) -> Result<(), NoMemory>
    requires { place ≤ 64 * length words.old.items }
    ensures room { OnOk result (place < 64 * length words.new.items) }
    ensures same { OnOk result ((i : ℕ) → is_on words.new.items i ≡ is_on words.old.items i) }
    ensures err { OnErr result (words.new.items ≡ words.old.items) }
{
    if place / 64 >= words.len() {
        words.push(0)?;
    }
    Ok(())
}

// Sets the bit at the place.
fn put(words: &mut [u64], place: usize, bit: bool)
    requires { place < 64 * length words.old }
    ensures length { length words.new ≡ length words.old }
    ensures here { is_on words.new place ≡ bit }
    ensures others { (i : ℕ) → i ≢ place → is_on words.new i ≡ is_on words.old i }
{
    let word = words[place / 64];
    words[place / 64] = with_bit(word, place % 64, bit);
}

fn with_bit(word: u64, place: usize, bit: bool) -> u64
    requires { place < 64 }
    ensures here { bit_at result place ≡ (if bit then 1 else 0) }
    ensures others { (i : ℕ) → i < 64 → i ≢ place → bit_at result i ≡ bit_at word i }
{
    if bit {
        word | 1u64 << place
    } else {
        word & !(1u64 << place)
    }
}
