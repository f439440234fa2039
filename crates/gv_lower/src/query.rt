//! Queries.
ghost use Rattle.std.specs.Prelude.{◌≡◌, ◌<◌, ◌≤◌, length, IfOk};
ghost use Rattle.gv_base.specs.Order.{IsAscending};
ghost use Rattle.gv_facts.specs.Preferred.{preferred};
ghost use Rattle.gv_lower.specs.Lowering.{FewFlags};
ghost use Rattle.gv_lower.specs.Weigh.{capped};

use crate::parent::Inputs;
use gv_base::{NoMemory, Texts};
use gv_facts::{Pkg, preferred_on};
use gv_logic::{Bits, Gates, Lits};
use std::alloc::Global;

/// A query has at most so many flags.
const MOST_FLAGS: usize = 4096;

/// A query as gates.
#[derive(Drop)]
pub struct Query {
    /// The inputs are the flags. One that is on says that the flag hasn't its preferred value.
    pub gates: Gates,
    /// The free flags of the package that REQUIRED_USE or the class mentions, in byte order, each once.
    pub flags: Texts,
    /// The literal of each top item of the class, in order. None where only REQUIRED_USE is asked about.
    pub items: Lits,
    /// Of each flag, in order, whether the package prefers it on.
    pub preferred: Bits,
}

impl Query {
    /// The same query once more. O(its gates and bytes).
    pub fn copy(&self, alloc: Global) -> Result<Query, NoMemory>
        ensures { IfOk result (λ query. query ≡ self.now) }
    {
        Ok(Query {
            gates: self.gates.copy(alloc)?,
            flags: self.flags.copy(alloc)?,
            items: self.items.copy(alloc)?,
            preferred: self.preferred.copy(alloc)?,
        })
    }
}

/// Why a query wasn't lowered.
#[derive(Clone, Copy, Debug)]
pub enum LowerFault {
    /// It has more than 4,096 flags: so many.
    Flags { count: u32 },
    /// It weighs more than 2,000,000: so much, or the last number of 64 bits where it weighs more than that.
    Weight { count: u64 },
    /// Memory for its flags or gates was wanted and not given.
    NoMemory,
}

impl From<NoMemory> for LowerFault {
    ghost use Rattle.std.specs.Prelude.{◌≡◌};
    ghost use Rattle.gv_lower.specs.declared.query.LowerFault.TheVariants.{NoMemory};

    ghost from_gives = { λ _ fault. fault ≡ NoMemory };

    fn from(_refused: NoMemory) -> LowerFault {
        LowerFault::NoMemory
    }
}

// Of each flag whether the package prefers it on.
pub(crate) fn preferred_values(alloc: Global, pkg: &Pkg, flags: &Texts) -> Result<Bits, NoMemory>
    ensures { IfOk result (λ bits. bits ≡ preferred pkg.now flags.now) }
{
    let mut bits = Bits::new(alloc);
    for flag in flags.items() {
        bits.add(preferred_on(pkg, flag))?;
    }
    Ok(bits)
}

// The flags as inputs, where they aren't too many. A list has room for fewer than 2^32 of them.
pub(crate) fn inputs_of(flags: Texts) -> Result<Inputs, LowerFault>
    requires { IsAscending flags }
    ensures { FewFlags flags result }
{
    let count = flags.items().len();
    if count <= MOST_FLAGS {
        return Ok(Inputs { flags });
    }
    match u32::try_from(count) {
        Ok(count) => Err(LowerFault::Flags { count }),
        Err(_) => Err(LowerFault::NoMemory),
    }
}
