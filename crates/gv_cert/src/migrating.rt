//! Records of the first version as records of the second. Linear in the bytes of the record; what is made to read it is let
//! go with it.

ghost use Rattle.std.specs.Prelude.{IfOk};
ghost use Rattle.gv_cert.specs.Reader.{Turns};

use crate::claim::{read_form, write_answer};
use crate::version::FileVersion;
use gv_base::{NoMemory, Text};
use gv_logic::{clause_count, read_gates};
use std::alloc::Global;

/// The answer as it is written in the second version; None exactly where the query is no gates, or the answer has not the
/// first version's form for them, or a hint names neither a clause nor an earlier step.
pub(crate) fn turned(alloc: Global, query: &[u8], answer: &[u8]) -> Result<Option<Text>, NoMemory>
    ensures { IfOk result (Turns query.now answer.now) }
{
    let Some(gates) = read_gates(alloc, query)? else {
        return Ok(None);
    };
    let clauses = clause_count(&gates);
    let Some(claim) = read_form(alloc, FileVersion::First, gates.inputs(), clauses, answer)? else {
        return Ok(None);
    };
    let text = write_answer(alloc, clauses, &claim)?;
    Ok(Some(text))
}
