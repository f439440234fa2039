//! The values of a file, in its order, up to the first line that isn't of the form.
//!
//! `read_file` costs O(the bytes of the file and of its values), and a look-up for each name that is assigned or used.
ghost use Rattle.std.specs.Prelude.{◌≡◌, IfOk, OnOk};
ghost use Rattle.std.specs.FinMap as finite;
ghost use Rattle.gv_base.specs.ByteMap.{map_of};
ghost use Rattle.gv_defaults.specs.Assignments.{line_after};
ghost use Rattle.gv_defaults.specs.Items.{lines_after, IsItem};
ghost use Rattle.gv_defaults.specs.Reads.{item_len, with_item, IsReading};

use crate::Vars;
use crate::items::{Item, first_item};
use crate::meaning::meaning;
use crate::room::MAX_BYTES;
use gv_base::{NoMemory, Text, map_law, next_number};
use std::alloc::Global;
use std::collections::BTreeMap;

/// What was read of a file.
#[derive(Drop)]
pub(crate) struct Reading {
    /// The values of the names that are assigned.
    pub(crate) values: BTreeMap<Vec<u8>, Text>,
    /// The line of the first assignment that isn't of the form.
    pub(crate) bad: Option<u32>,
    /// What is left of `MAX_BYTES`.
    pub(crate) room: usize,
}

/// Reads a file up to its first fault. A file with more lines than a number of a line can say, or whose values have more
/// than `MAX_BYTES` bytes together, is one for which there is no memory.
pub(crate) fn read_file(alloc: Global, bytes: &[u8], before: &Vars) -> Result<Reading, NoMemory>
    ensures { IfOk result (λ reading. IsReading before.now bytes.now (map_of reading.values.entries) reading.bad) }
{
    let mut values = BTreeMap::new(alloc);
    let mut room = MAX_BYTES;
    let mut rest = bytes;
    let mut line = 1;
    while let Some(item) = first_item(rest) {
        match assign(alloc, &mut values, &mut room, before, rest, item)? {
            None => {
                return Ok(Reading {
                    values,
                    bad: Some(line),
                    room,
                });
            }
            Some(len) => {
                let (passed, behind) = rest.split_at(len);
                line = lines_after(line, passed)?;
                rest = behind;
            }
        }
    }
    Ok(Reading {
        values,
        bad: None,
        room,
    })
}

// Sets the value of an assignment, whose bytes are taken off the room. How many bytes the item at the front of the rest
// has, and none of a fault.
fn assign(
    alloc: Global,
    values: &mut BTreeMap<Vec<u8>, Text>,
    room: &mut usize,
    before: &Vars,
    rest: &[u8],
    item: Item<'_>,
) -> Result<Option<usize>, NoMemory>
    requires { IsItem rest.now item }
    ensures len { IfOk result (λ len. len ≡ item_len item.entry) }
    ensures values { OnOk result (map_of values.new.entries ≡ with_item before.now (map_of values.old.entries) item.entry) }
{
    match item {
        Item::Fault => Ok(None),
        Item::Gap { len } => Ok(Some(len)),
        Item::Assignment { assigned } => {
            let value = meaning(alloc, assigned.text, values, before, *room)?;
            *room = room.saturating_sub(value.bytes().len());
            set_value(alloc, values, assigned.name, value)?;
            Ok(Some(assigned.name.len() + 1 + assigned.text.len()))
        }
    }
}

// Sets the value of a name, whether it has one or not.
fn set_value(
    alloc: Global,
    values: &mut BTreeMap<Vec<u8>, Text>,
    name: &[u8],
    value: Text,
) -> Result<(), NoMemory>
    ensures { OnOk result (map_of values.new.entries ≡ finite.insert (map_of values.old.entries) name.now value) }
{
    map_law::<Text>();
    let name = Vec::from_slice(alloc, name)?;
    values.insert(name, value)?;
    Ok(())
}

// The line behind these bytes.
fn lines_after(line: u32, bytes: &[u8]) -> Result<u32, NoMemory>
    ensures { IfOk result (λ after. after ≡ lines_after line bytes.now) }
{
    let mut after = line;
    for b in bytes {
        after = line_after(after, *b)?;
    }
    Ok(after)
}

fn line_after(line: u32, b: u8) -> Result<u32, NoMemory>
    ensures { IfOk result (λ after. after ≡ line_after line b) }
{
    if b != b'\n' {
        return Ok(line);
    }
    next_number(line)
}
