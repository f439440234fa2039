//! Records of query bytes and answer bytes.
//!
//! `insert` copies both, and shares the query with the index; `find` costs O(bytes of the query),
//! O(log n) comparisons of numbers for n distinct queries, one of queries and O(log n) more among those of one hash, and a
//! binary search among the numbers of the query's records. The rest costs O(1), and `append` and a copy what is copied.
ghost use Rattle.std.specs.Prelude.{◌≡◌, ◌+◌, nat_lt, ◌<◌, ◌^◌, List, [], ◌∷◌, ◌++◌, length, filter, IfOk, OnOk, OnErr};
ghost use Rattle.gv_cert.specs.Index.{is_from};
ghost use Rattle.gv_cert.specs.Known.{record_at, answer_at, Finds};
ghost use Rattle.std.specs.List.Sorted.{IsPartitionedBy};

use crate::index::Index;
use gv_base::{NoMemory, Text};
use std::alloc::Global;
use std::marker::Model;
use std::rc::RcSlice;

// A record as it is kept.
#[derive(Drop)]
pub(crate) struct Kept {
    query: RcSlice<u8>,
    answer: Text,
}

impl Model for Kept {
    ghost use Rattle.gv_cert.specs.Known.{KnownRecord};
    ghost use Rattle.std.specs.Rc.{rc_slice_items};

    ghost Value = { KnownRecord };

    ghost view = { λ k. record { query = rc_slice_items k.query; answer = k.answer } };
}

/// Records of query bytes and answer bytes, in order, numbered from 0; at most `2^32 - 1`. A query may stand in several
/// records.
#[derive(Drop)]
pub struct Known {
    alloc: Global,
    records: Vec<Kept>,
    by_query: Index,
}

impl Model for Known {
    ghost use Rattle.std.specs.Prelude.{List};
    ghost use Rattle.gv_cert.specs.Known.{KnownRecord};
    ghost use Rattle.gv_cert.specs.Index.{IsIndexed};

    ghost Value = { List KnownRecord };

    ghost view = { λ k. k.records.items };

    ghost invariant = { λ k. IsIndexed k.by_query k.records.items };
}

impl Known {
    /// No records.
    pub fn new(alloc: Global) -> Known
        ensures { result ≡ [] }
    {
        Known {
            alloc,
            records: Vec::new(alloc),
            by_query: Index::new(alloc),
        }
    }

    /// Adds a record at the end. After an error the records are unchanged; a full list has no room either.
    pub fn insert(&mut self, query: &Text, answer: &Text) -> Result<(), NoMemory>
        ensures ok { OnOk result (self.new ≡ self.old ++ record { query = query.now; answer = answer.now } ∷ []) }
        ensures err { OnErr result (self.new ≡ self.old) }
    {
        self.take(query.bytes(), answer.bytes())
    }

    // `insert` for bytes.
    pub(crate) fn take(&mut self, query: &[u8], answer: &[u8]) -> Result<(), NoMemory>
        ensures ok { OnOk result (self.new ≡ self.old ++ record { query = query.now; answer = answer.now } ∷ []) }
        ensures err { OnErr result (self.new ≡ self.old) }
    {
        let answer = Text::of(self.alloc, answer)?;
        self.keep(query, answer)
    }

    // `insert` for an answer that is handed over.
    pub(crate) fn keep(&mut self, query: &[u8], answer: Text) -> Result<(), NoMemory>
        ensures ok { OnOk result (self.new ≡ self.old ++ record { query = query.now; answer = answer } ∷ []) }
        ensures err { OnErr result (self.new ≡ self.old) }
    {
        let shared = RcSlice::from_slice(self.alloc, query)?;
        self.records.reserve(1)?;
        let number = next_number(self.records.len())?;
        self.by_query.add(&shared, number)?;
        self.records.push_reserved(Kept {
            query: shared,
            answer,
        });
        Ok(())
    }

    /// How many records there are.
    pub fn count(&self) -> u32
        ensures count { result ≡ length self.now }
        ensures few { length self.now < 2 ^ 32 }
    {
        self.records.len() as u32
    }

    /// The least number from `from` on of a record with this query; None exactly where there is none. It takes no
    /// memory.
    pub fn find(&self, query: &[u8], from: u32) -> Option<u32>
        ensures finds { Finds query.now from self.now result }
        ensures few { length self.now < 2 ^ 32 }
    {
        match numbers_from(self.by_query.at(query), from) {
            [first, ..] => Some(*first),
            [] => None,
        }
    }

    /// The query of the record of this number.
    pub fn query(&self, number: u32) -> &[u8]
        requires { number < length self.now }
        ensures { result.now ≡ (record_at self.now number).query }
    {
        let kept = &self.records[number as usize];
        kept.query.as_slice()
    }

    /// The answer of the record of this number.
    pub fn answer(&self, number: u32) -> &[u8]
        requires { number < length self.now }
        ensures { result.now ≡ answer_at self.now number }
    {
        let kept = &self.records[number as usize];
        kept.answer.bytes()
    }

    /// Adds the records of another list at the end, in order. After an error some of them may stand there.
    pub fn append(&mut self, other: &Known) -> Result<(), NoMemory>
        ensures { OnOk result (self.new ≡ self.old ++ other.now) }
    {
        for number in 0..other.count() {
            self.take(other.query(number), other.answer(number))?;
        }
        Ok(())
    }

    /// The same records once more.
    pub fn copy(&self, alloc: Global) -> Result<Known, NoMemory>
        ensures { IfOk result (λ known. known ≡ self.now) }
    {
        let mut known = Known::new(alloc);
        known.append(self)?;
        Ok(known)
    }
}

// The number of the next record of a list with so many.
fn next_number(len: usize) -> Result<u32, NoMemory>
    ensures number { IfOk result (λ number. number ≡ len) }
    ensures room { IfOk result (λ number. number + 1 < 2 ^ 32) }
{
    if len >= u32::MAX as usize {
        return Err(NoMemory);
    }
    Ok(len as u32)
}

// The ascending numbers from `from` on.
fn numbers_from(numbers: &[u32], from: u32) -> &[u32]
    requires { IsPartitionedBy (λ n. nat_lt n from) numbers.now }
    ensures { result.now ≡ filter (is_from from) numbers.now }
{
    let first = numbers.partition_point(|number| *number < from);
    &numbers[first..]
}
