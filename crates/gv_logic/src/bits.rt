//! Lists of bits.

ghost use Rattle.std.specs.Prelude.{◌≡◌, ◌<◌, ◌^◌, List, Bool, [], ◌∷◌, ◌++◌, length, IfOk, OnOk, OnErr};

use gv_base::NoMemory;
use std::alloc::Global;
use std::marker::Model;

/// A list of bits, on or off: those of the inputs, or of all places. At most `2^32 - 1`.
#[derive(Drop)]
pub struct Bits {
    items: Vec<bool>,
}

impl Model for Bits {
    ghost Value = { List Bool };

    ghost view = { λ b. b.items.items };

    ghost invariant = { λ b. length b.items.items < 2 ^ 32 };
}

impl Bits {
    /// No bits.
    pub fn new(alloc: Global) -> Bits
        ensures { result ≡ [] }
    {
        Bits {
            items: Vec::new(alloc),
        }
    }

    /// These bits. There is no room for more than a list can have.
    pub fn of(alloc: Global, bits: &[bool]) -> Result<Bits, NoMemory>
        ensures { IfOk result (λ list. list ≡ bits.now) }
    {
        if bits.len() > u32::MAX as usize {
            return Err(NoMemory);
        }
        Ok(Bits {
            items: Vec::from_slice(alloc, bits)?,
        })
    }

    /// Adds a bit at the end. After an error the list is unchanged; a full list has no room either.
    pub fn add(&mut self, item: bool) -> Result<(), NoMemory>
        ensures ok { OnOk result (self.new ≡ self.old ++ item ∷ []) }
        ensures err { OnErr result (self.new ≡ self.old) }
    {
        if self.items.len() >= u32::MAX as usize {
            return Err(NoMemory);
        }
        self.items.push(item)?;
        Ok(())
    }

    /// The bits in order.
    pub fn items(&self) -> &[bool]
        ensures items { result.now ≡ self.now }
        ensures few { length self.now < 2 ^ 32 }
    {
        &self.items
    }

    /// The same bits once more. O(length).
    pub fn copy(&self, alloc: Global) -> Result<Bits, NoMemory>
        ensures { IfOk result (λ bits. bits ≡ self.now) }
    {
        Ok(Bits {
            items: Vec::from_slice(alloc, &self.items)?,
        })
    }
}
