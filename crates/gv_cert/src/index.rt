//! The numbers of records by their queries, in ordered trees: one over hashes of queries, and one more for each hash that
//! several queries have, over the queries but the first of them.
//!
//! A look-up takes no memory and costs O(bytes of the query), O(log n) comparisons of numbers for n distinct queries, and one
//! comparison of queries where no other has the query's hash. An addition costs as much, and copies a query that isn't the first
//! of its hash the first time that it comes; the first is shared. Whoever writes a file picks its queries, and may pick such as have one hash, whose seed is fixed: then
//! O(log n) queries are compared.
ghost use Rattle.std.specs.Prelude.{◌≡◌, ◌++◌, ◌∷◌, [], ℕ, List, if◌then◌else◌, IfOk, OnOk, OnErr};
ghost use Rattle.std.specs.Rc.{rc_slice_items};
ghost use Rattle.std.specs.Str.{bytes_eq};
ghost use Rattle.gv_cert.specs.Index.{hash_of, numbers_among, numbers_at, numbers_in};

use gv_base::NoMemory;
use std::alloc::Global;
use std::collections::BTreeMap;
use std::hash::{FoldHasher, Hasher};
use std::marker::Model;
use std::rc::RcSlice;

/// Numbers of records, from 0.
#[derive(Drop)]
pub(crate) struct Numbers {
    items: Vec<u32>,
}

impl Model for Numbers {
    ghost use Rattle.std.specs.Prelude.{List, ℕ};

    ghost Value = { List ℕ };

    ghost view = { λ p. p.items.items };
}

impl Numbers {
    fn new(alloc: Global) -> Numbers
        ensures { result ≡ [] }
    {
        Numbers {
            items: Vec::new(alloc),
        }
    }

    fn add(&mut self, number: u32) -> Result<(), NoMemory>
        ensures ok { OnOk result (self.new ≡ self.old ++ number ∷ []) }
        ensures err { OnErr result (self.new ≡ self.old) }
    {
        self.items.push(number)?;
        Ok(())
    }

    fn items(&self) -> &[u32]
        ensures { result.now ≡ self.now }
    {
        &self.items
    }
}

/// The numbers of the records of each query, among queries of one hash but the first of them.
#[derive(Drop)]
pub(crate) struct Queries {
    alloc: Global,
    map: BTreeMap<Vec<u8>, Numbers>,
}

impl Queries {
    fn new(alloc: Global) -> Queries
        ensures { (query : List ℕ) → numbers_in result query ≡ [] }
    {
        Queries {
            alloc,
            map: BTreeMap::new(alloc),
        }
    }

    fn at(&self, query: &[u8]) -> &[u32]
        ensures { result.now ≡ numbers_in self.now query.now }
    {
        match self.map.get(query) {
            Some(numbers) => numbers.items(),
            None => &[],
        }
    }

    // Adds a number at a query. After an error the numbers are as before.
    fn add(&mut self, query: &[u8], number: u32) -> Result<(), NoMemory>
        ensures ok { OnOk result ((q : List ℕ) → numbers_in self.new q ≡ (if bytes_eq q query.now then numbers_in self.old q ++ number ∷ [] else numbers_in self.old q)) }
        ensures err { OnErr result ((q : List ℕ) → numbers_in self.new q ≡ numbers_in self.old q) }
    {
        match self.map.get_mut(query) {
            Some(numbers) => numbers.add(number)?,
            None => {
                let mut numbers = Numbers::new(self.alloc);
                numbers.add(number)?;
                let key = Vec::from_slice(self.alloc, query)?;
                self.map.insert(key, numbers)?;
            }
        }
        Ok(())
    }
}

/// The same of all queries of one hash. Most often there is one: it stands here and not in a tree, whose node has room for
/// many.
#[derive(Drop)]
pub(crate) struct Alike {
    query: RcSlice<u8>,
    numbers: Numbers,
    others: Queries,
}

impl Alike {
    fn new(alloc: Global, query: &RcSlice<u8>, number: u32) -> Result<Alike, NoMemory>
        ensures { IfOk result (λ alike. (q : List ℕ) → numbers_among alike q ≡ (if bytes_eq q (rc_slice_items query.now) then number ∷ [] else [])) }
    {
        let mut numbers = Numbers::new(alloc);
        numbers.add(number)?;
        Ok(Alike {
            query: query.clone()?,
            numbers,
            others: Queries::new(alloc),
        })
    }

    fn at(&self, query: &[u8]) -> &[u32]
        ensures { result.now ≡ numbers_among self.now query.now }
    {
        if query == self.query.as_slice() {
            self.numbers.items()
        } else {
            self.others.at(query)
        }
    }

    // Adds a number at a query. After an error the numbers are as before.
    fn add(&mut self, query: &[u8], number: u32) -> Result<(), NoMemory>
        ensures ok { OnOk result ((q : List ℕ) → numbers_among self.new q ≡ (if bytes_eq q query.now then numbers_among self.old q ++ number ∷ [] else numbers_among self.old q)) }
        ensures err { OnErr result ((q : List ℕ) → numbers_among self.new q ≡ numbers_among self.old q) }
    {
        if query == self.query.as_slice() {
            self.numbers.add(number)
        } else {
            self.others.add(query, number)
        }
    }
}

/// The numbers of the records of each query.
#[derive(Drop)]
pub(crate) struct Index {
    alloc: Global,
    by_hash: BTreeMap<u64, Alike>,
}

impl Index {
    pub(crate) fn new(alloc: Global) -> Index
        ensures { (query : List ℕ) → numbers_at result query ≡ [] }
    {
        Index {
            alloc,
            by_hash: BTreeMap::new(alloc),
        }
    }

    /// The numbers at a query.
    pub(crate) fn at(&self, query: &[u8]) -> &[u32]
        ensures { result.now ≡ numbers_at self.now query.now }
    {
        let hash = hash_of(query);
        match self.by_hash.get(&hash) {
            Some(alike) => alike.at(query),
            None => &[],
        }
    }

    /// Adds a number at a query. After an error the numbers are as before.
    pub(crate) fn add(&mut self, query: &RcSlice<u8>, number: u32) -> Result<(), NoMemory>
        ensures ok { OnOk result ((q : List ℕ) → numbers_at self.new q ≡ (if bytes_eq q (rc_slice_items query.now) then numbers_at self.old q ++ number ∷ [] else numbers_at self.old q)) }
        ensures err { OnErr result ((q : List ℕ) → numbers_at self.new q ≡ numbers_at self.old q) }
    {
        let bytes = query.as_slice();
        let hash = hash_of(bytes);
        match self.by_hash.get_mut(&hash) {
            Some(alike) => alike.add(bytes, number)?,
            None => {
                let alike = Alike::new(self.alloc, query, number)?;
                self.by_hash.insert(hash, alike)?;
            }
        }
        Ok(())
    }
}

fn hash_of(query: &[u8]) -> u64
    ensures { result ≡ hash_of query.now }
{
    let mut hasher = FoldHasher::default();
    hasher.write(query);
    hasher.finish()
}
