//! What a make.defaults makes of the variables.
//!
//! `read_defaults` costs O(the bytes of the file, of its values and of the variables before it), and O(log n) comparisons
//! for each name or word among n. Bytes that a value takes from the values of names count as often as they stand there.
ghost use Rattle.std.specs.Prelude.{◌≡◌, List, Option, ℕ, IfOk};
ghost use Rattle.std.specs.FinMap as finite;
ghost use Rattle.gv_base.specs.ByteMap.{map_of};
ghost use Rattle.gv_defaults.specs.Assignments.{file_of};
ghost use Rattle.gv_defaults.specs.Defaults.{set_to, setting_after, vars_after};
ghost use Rattle.gv_defaults.specs.Incremental.{is_incremental};
ghost use Rattle.gv_defaults.specs.Layout.{IsFile, Part};
ghost use Rattle.gv_defaults.specs.PartValues.{setting_by, vars_by};
ghost use Rattle.gv_defaults.specs.Settings.{set_over};

use crate::assigning::read_file;
use crate::folding::with_words;
use crate::room::MAX_BYTES;
use crate::{Setting, Vars};
use gv_base::{NoMemory, Text, in_order_law, map_law, tokens_of};
use std::alloc::Global;
use std::collections::BTreeMap;

/// What was read of a make.defaults.
#[derive(Drop)]
pub struct DefaultsRead {
    /// The variables behind the file.
    pub vars: Vars,
    /// The line, from 1, on which the first assignment begins that isn't of the form; nothing from there on counts.
    pub bad: Option<u32>,
}

impl DefaultsRead {
    /// The same once more.
    pub fn copy(&self, alloc: Global) -> Result<DefaultsRead, NoMemory>
        ensures { IfOk result (λ read. read ≡ self.now) }
    {
        Ok(DefaultsRead {
            vars: self.vars.copy(alloc)?,
            bad: self.bad,
        })
    }
}

/// Reads the bytes of a make.defaults over the variables that were set before it (PMS chapter 5). The assignments before
/// the first one that isn't of the form count, and nothing from there on does. Within the file the last assignment of a
/// name counts; then each assigned name is folded, in byte order of names: the words of an incremental variable are taken
/// in order over those before, the value of another one replaces what it was.
///
/// Want of memory is answered too where the values of the file would have more than 2^28 bytes together, each assignment
/// counted, where the room of `before` is spent, and where a line's number has no room.
pub fn read_defaults(alloc: Global, bytes: &[u8], before: &Vars) -> Result<DefaultsRead, NoMemory>
    // Where the file is these parts, blanks, comments and assignments, up to its end or to the line of its fault.
    ensures vars_by { (parts : List Part) (bad : Option ℕ) → IsFile bytes.now parts bad → IfOk result (λ read. read.vars ≡ vars_by before.now parts) }
    ensures each_by { (parts : List Part) (bad : Option ℕ) → IsFile bytes.now parts bad
        → IfOk result (λ read. (name : List ℕ) → finite.get read.vars name ≡ setting_by (finite.get before.now) parts name) }
    ensures bad_by { (parts : List Part) (bad : Option ℕ) → IsFile bytes.now parts bad → IfOk result (λ read. read.bad ≡ bad) }

    // The same, computed from the bytes.
    ensures vars { IfOk result (λ read. read.vars ≡ vars_after before.now bytes.now) }
    ensures each { IfOk result (λ read. (name : List ℕ) → finite.get read.vars name ≡ setting_after (finite.get before.now) bytes.now name) }
    ensures bad { IfOk result (λ read. read.bad ≡ (file_of bytes.now).bad) }
{
    in_order_law();
    let reading = read_file(alloc, bytes, before)?;
    let mut vars = fold_values(alloc, before, reading.values)?;
    vars.spend(MAX_BYTES.saturating_sub(reading.room))?;
    Ok(DefaultsRead {
        vars,
        bad: reading.bad,
    })
}

// The variables with each value set over what its name was set to before.
fn fold_values(
    alloc: Global,
    before: &Vars,
    values: BTreeMap<Vec<u8>, Text>,
) -> Result<Vars, NoMemory>
    ensures { IfOk result (λ vars. (name : List ℕ) → finite.get vars name ≡ set_to name (finite.get (map_of values.entries) name) (finite.get before.now name)) }
{
    map_law::<Text>();
    let mut vars = before.copy(alloc)?;
    for (name, value) in values {
        let setting = set_over(alloc, before, &name, value)?;
        vars.put(name, setting)?;
    }
    Ok(vars)
}

fn set_over(alloc: Global, before: &Vars, name: &[u8], value: Text) -> Result<Setting, NoMemory>
    ensures { IfOk result (λ setting. setting ≡ set_over name.now value (finite.get before.now name.now)) }
{
    if !is_incremental(name) {
        return Ok(Setting::Plain { text: value });
    }
    let left = before.words(alloc, name)?;
    let added = tokens_of(alloc, value.bytes())?;
    let words = with_words(alloc, &left, &added)?;
    Ok(Setting::Words { words })
}

// Whether the words of a variable are folded into those before them.
#[tactic(auto, unfolding(crate::specs::Incremental::is_incremental, crate::specs::Incremental::incremental_names))]
fn is_incremental(name: &[u8]) -> bool
    ensures { result ≡ is_incremental name.now }
{
    name == b"USE".as_slice()
        || name == b"USE_EXPAND".as_slice()
        || name == b"USE_EXPAND_HIDDEN".as_slice()
        || name == b"CONFIG_PROTECT".as_slice()
        || name == b"CONFIG_PROTECT_MASK".as_slice()
        || name == b"IUSE_IMPLICIT".as_slice()
        || name == b"USE_EXPAND_IMPLICIT".as_slice()
        || name == b"USE_EXPAND_UNPREFIXED".as_slice()
        || name == b"ENV_UNSET".as_slice()
        || name == b"ACCEPT_KEYWORDS".as_slice()
}
