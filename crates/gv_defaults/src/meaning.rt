//! What a value stands for.
//!
//! `meaning` costs O(the bytes of the text and of what it stands for), and a look-up for each name in it.
ghost use Rattle.std.specs.Prelude.{◌≡◌, ◌++◌, IfOk, OnOk};
ghost use Rattle.std.specs.FinMap as finite;
ghost use Rattle.std.specs.Option.{option_copied};
ghost use Rattle.gv_base.specs.ByteMap.{map_of};
ghost use Rattle.gv_defaults.specs.Meaning.{meaning_of};
ghost use Rattle.gv_defaults.specs.Reads.{stands_for};
ghost use Rattle.gv_defaults.specs.Steps.{meant_by};

use crate::Vars;
use crate::quotes::Quotes;
use crate::room::append_within;
use crate::steps::{Meant, first_step};
use gv_base::{NoMemory, Text, map_law};
use std::alloc::Global;
use std::collections::BTreeMap;

/// What the text of a value stands for, where names stand for the values earlier in the file, else for those before it. A
/// value past the room, in bytes, is one for which there is no memory.
pub(crate) fn meaning(
    alloc: Global,
    text: &[u8],
    values: &BTreeMap<Vec<u8>, Text>,
    before: &Vars,
    room: usize,
) -> Result<Text, NoMemory>
    ensures { IfOk result (λ value. value ≡ meaning_of (stands_for (map_of values.now.entries) before.now) text.now) }
{
    let mut value = Text::of(alloc, &[])?;
    let mut quotes = Quotes::Bare;
    let mut rest = text;
    while let Some(step) = first_step(quotes, rest) {
        append_meant(alloc, &mut value, step.meant, values, before, room)?;
        quotes = step.quotes;
        rest = &rest[step.len..];
    }
    Ok(value)
}

fn append_meant(
    alloc: Global,
    value: &mut Text,
    meant: Meant<'_>,
    values: &BTreeMap<Vec<u8>, Text>,
    before: &Vars,
    room: usize,
) -> Result<(), NoMemory>
    ensures { OnOk result (value.new ≡ value.old ++ meant_by (stands_for (map_of values.now.entries) before.now) meant.entry) }
{
    match meant {
        Meant::Nothing => Ok(()),
        Meant::Byte { byte } => append_within(value, &[byte], room),
        Meant::Backslash { byte } => append_within(value, &[b'\\', byte], room),
        Meant::Value { name } => append_value(alloc, value, name, values, before, room),
    }
}

// What a name stands for.
fn append_value(
    alloc: Global,
    value: &mut Text,
    name: &[u8],
    values: &BTreeMap<Vec<u8>, Text>,
    before: &Vars,
    room: usize,
) -> Result<(), NoMemory>
    ensures { OnOk result (value.new ≡ value.old ++ stands_for (map_of values.now.entries) before.now name.now) }
{
    match value_in(values, name) {
        Some(bytes) => append_within(value, bytes, room),
        None => before.append_text(alloc, name, value, room),
    }
}

// The value earlier in the file.
fn value_in<'a>(values: &'a BTreeMap<Vec<u8>, Text>, name: &[u8]) -> Option<&'a [u8]>
    ensures { option_copied result ≡ finite.get (map_of values.now.entries) name.now }
{
    map_law::<Text>();
    match values.get(name) {
        Some(text) => Some(text.bytes()),
        None => None,
    }
}
