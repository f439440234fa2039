//! Gates from their canonical bytes. Linear in the bytes.

ghost use Rattle.std.specs.Prelude.{IfOk};
ghost use Rattle.gv_logic.specs.Reading.{Reads};

use crate::cursor::Reader;
use crate::{Gates, Lit};
use gv_base::NoMemory;
use std::alloc::Global;

const MOST: u32 = 1 << 30;

/// The gates that have these canonical bytes; None exactly where no gates have them.
pub fn read_gates(alloc: Global, bytes: &[u8]) -> Result<Option<Gates>, NoMemory>
    ensures { IfOk result (Reads bytes.now) }
{
    let mut reader = Reader::new(bytes);
    let Some(inputs) = reader.number() else {
        return Ok(None);
    };
    let Some(count) = reader.number() else {
        return Ok(None);
    };
    if inputs > MOST {
        return Ok(None);
    }
    if count > MOST - inputs {
        return Ok(None);
    }
    let Some(list) = reader.gates(alloc, inputs, count)? else {
        return Ok(None);
    };
    let Some(root) = reader.number() else {
        return Ok(None);
    };
    if root >= 2 * (inputs + count) {
        return Ok(None);
    }
    if !reader.is_empty() {
        return Ok(None);
    }
    Ok(Some(list.finish(Lit(root))))
}
