//! Bytes that come in, one after another or many at once, however many a source gives in one call.
//!
//! Each byte costs O(1), besides the calls of the source.
ghost use Rattle.std.specs.Prelude.{◌≡◌, ◌≤◌, ◌<◌, ◌+◌, ◌++◌, ℕ, List, [], None, length, take, drop, min, IfOk, OnOk, OnErr, IfSome, IsErrOf};
ghost use Rattle.gv_base.specs.Causes.{Rose};
ghost use Rattle.gv_edits.specs.Pending.{whole};
ghost use Rattle.gv_edits.specs.Reading.{Reads, led, led_by};

use gv_base::{Failed, NoMemory, Source, Text};
use std::alloc::Global;
use std::marker::Model;

/// Why nothing was read.
#[derive(Clone, Copy, Debug, PartialEq, Eq)]
pub(crate) enum ReadFault {
    /// The source failed, and its count of faults rose.
    Failed,
    /// Memory was wanted and not given.
    NoMemory,
}

impl From<NoMemory> for ReadFault {
    ghost use Rattle.std.specs.Prelude.{◌≡◌};
    ghost use Rattle.gv_edits.specs.declared.pending.ReadFault.TheVariants.{NoMemory};

    ghost from_gives = { λ _ fault. fault ≡ NoMemory };

    fn from(_: NoMemory) -> Self {
        ReadFault::NoMemory
    }
}

impl From<Failed> for ReadFault {
    ghost use Rattle.std.specs.Prelude.{◌≡◌};
    ghost use Rattle.gv_edits.specs.declared.pending.ReadFault.TheVariants.{Failed};

    ghost from_gives = { λ _ fault. fault ≡ Failed };

    fn from(_: Failed) -> Self {
        ReadFault::Failed
    }
}

/// Bytes that were taken from a source and not read yet, seen as the list of them.
#[derive(Drop)]
pub(crate) struct Pending {
    room: Vec<u8>,
    from: usize,
    to: usize,
}

impl Model for Pending {
    ghost use Rattle.std.specs.Prelude.{◌≡◌, ◌≤◌, ◌-◌, List, ℕ, take, drop, length};

    ghost Value = { List ℕ };

    ghost view = { λ p. drop p.from (take p.to p.room.items) };

    ghost invariant = { λ p. (p.from ≤ p.to) × (p.to ≤ length p.room.items) × (length p.room.items ≡ 4096) };
}

impl Pending {
    /// No bytes were taken yet.
    pub(crate) fn new(alloc: Global) -> Result<Pending, NoMemory>
        ensures { IfOk result (λ pending. pending ≡ []) }
    {
        let room = Vec::from_slice(alloc, &[0u8; 4096])?;
        Ok(Pending {
            room,
            from: 0,
            to: 0,
        })
    }

    /// No more bytes are there than one call of a source gives. Does nothing.
    #[tactic(auto, using(crate::proofs::Heads::few_taken))]
    pub(crate) fn are_few(&self)
        ensures { length self.now ≤ 4096 }
    {
        let _ = &self.room;
    }

    /// The next byte of the source, and `None` exactly where none is left. After an error none are there.
    #[tactic(auto, using(crate::proofs::Heads::reads_led))]
    pub(crate) fn next_byte<I: Source>(&mut self, input: &mut I) -> Result<Option<u8>, Failed>
        ensures byte { IfOk result (λ byte. whole self.old (I.left input.old) ≡ led_by byte (whole self.new (I.left input.new))) }
        ensures end { IfOk result (λ byte. byte ≡ None → IfSome (whole self.new (I.left input.new)) (λ bytes. bytes ≡ [])) }
        ensures reads { IfOk result (λ byte. Reads self.old (I.left input.old) (led byte []) self.new (I.left input.new)) }
        ensures err { OnErr result (whole self.new (I.left input.new) ≡ whole self.old (I.left input.old)) }
        ensures err_taken { OnErr result (self.old ≡ []) }
        ensures err_left { OnErr result (I.left input.new ≡ I.left input.old) }
        ensures later { I.faults input.old ≤ I.faults input.new }
        ensures calm { OnOk result (I.faults input.new ≡ I.faults input.old) }
        ensures failed { OnErr result (Rose (I.faults input.old) (I.faults input.new)) }
    {
        self.refill(input)?;
        Ok(self.take_byte())
    }

    /// Moves bytes of the source to the end of a text, at most so many, and answers how many: none exactly where none are
    /// left.
    #[tactic(auto, using(crate::proofs::Heads::moves))]
    pub(crate) fn move_bytes<I: Source>(
        &mut self,
        input: &mut I,
        most: usize,
        text: &mut Text,
    ) -> Result<usize, ReadFault>
        requires { 0 < most }
        ensures moved { OnOk result (whole text.old (whole self.old (I.left input.old)) ≡ whole text.new (whole self.new (I.left input.new))) }
        ensures reads { OnOk result ((bytes : List ℕ) × (text.new ≡ text.old ++ bytes) × Reads self.old (I.left input.old) bytes self.new (I.left input.new)) }
        ensures err_taken { IsErrOf result ReadFault.Failed → self.old ≡ [] }
        ensures err_left { IsErrOf result ReadFault.Failed → I.left input.new ≡ I.left input.old }
        ensures err_text { IsErrOf result ReadFault.Failed → text.new ≡ text.old }
        ensures count { IfOk result (λ n. length text.new ≡ length text.old + n) }
        ensures most { IfOk result (λ n. n ≤ most) }
        ensures end { IfOk result (λ n. n ≡ 0 → IfSome (whole self.new (I.left input.new)) (λ bytes. bytes ≡ [])) }
        ensures later { I.faults input.old ≤ I.faults input.new }
        ensures calm { OnOk result (I.faults input.new ≡ I.faults input.old) }
        ensures failed { IsErrOf result ReadFault.Failed → Rose (I.faults input.old) (I.faults input.new) }
    {
        self.refill(input)?;
        let n = self.hand_over(most, text)?;
        Ok(n)
    }

    // Takes more bytes where none are left that were taken, so that afterwards some are there unless the source has none.
    #[tactic(auto, using(crate::proofs::Heads::reads_nothing, crate::proofs::Heads::fills))]
    fn refill<I: Source>(&mut self, input: &mut I) -> Result<(), Failed>
        ensures same { whole self.new (I.left input.new) ≡ whole self.old (I.left input.old) }
        ensures reads { OnOk result (Reads self.old (I.left input.old) [] self.new (I.left input.new)) }
        ensures err_taken { OnErr result (self.old ≡ []) }
        ensures err_left { OnErr result (I.left input.new ≡ I.left input.old) }
        ensures end { OnOk result (self.new ≡ [] → IfSome (I.left input.new) (λ bytes. bytes ≡ [])) }
        ensures later { I.faults input.old ≤ I.faults input.new }
        ensures calm { OnOk result (I.faults input.new ≡ I.faults input.old) }
        ensures failed { OnErr result (Rose (I.faults input.old) (I.faults input.new)) }
    {
        if self.from != self.to {
            return Ok(());
        }
        self.fill(input)?;
        Ok(())
    }

    fn fill<I: Source>(&mut self, input: &mut I) -> Result<(), Failed>
        requires { self.old ≡ [] }
        ensures same { whole self.new (I.left input.new) ≡ whole self.old (I.left input.old) }
        ensures err_left { OnErr result (I.left input.new ≡ I.left input.old) }
        ensures end { OnOk result (self.new ≡ [] → IfSome (I.left input.new) (λ bytes. bytes ≡ [])) }
        ensures later { I.faults input.old ≤ I.faults input.new }
        ensures calm { OnOk result (I.faults input.new ≡ I.faults input.old) }
        ensures failed { OnErr result (Rose (I.faults input.old) (I.faults input.new)) }
    {
        self.from = 0;
        self.to = 0;
        let n = input.next(self.room.as_mut_slice())?;
        self.to = n;
        Ok(())
    }

    // The first byte of those that were taken.
    fn take_byte(&mut self) -> Option<u8>
        ensures byte { self.old ≡ led result self.new }
        ensures end { result ≡ None → self.new ≡ [] }
    {
        if self.from == self.to {
            return None;
        }
        let byte = self.room[self.from];
        self.from += 1;
        Some(byte)
    }

    // Moves as many of the bytes that were taken to the end of a text as are there and as are allowed.
    fn hand_over(&mut self, most: usize, text: &mut Text) -> Result<usize, NoMemory>
        ensures count { IfOk result (λ n. n ≡ min most (length self.old)) }
        ensures text { IfOk result (λ n. text.new ≡ text.old ++ take n self.old) }
        ensures left { IfOk result (λ n. self.new ≡ drop n self.old) }
    {
        let n = most.min(self.to - self.from);
        text.append(&self.room[self.from..self.from + n])?;
        self.from += n;
        Ok(n)
    }
}
