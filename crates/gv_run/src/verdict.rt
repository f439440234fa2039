//! What a report is found to be, and the line that says so.
ghost use Rattle.std.specs.Prelude.{◌≡◌, ◌++◌, IfOk, decimal};
ghost use Rattle.gv_run.specs.Verify.{is_refused, verdict_text};

use gv_base::{NoMemory, Text};
use std::alloc::Global;

/// What a report that was held against certificates is found to be.
#[derive(Drop)]
pub enum Verdict {
    /// It is the text of a scan, and each of so many queries has a backed record.
    Accepted { queries: u32 },
    /// The query of this number, from 1, is the first without a backed record.
    NotBacked { query: u32 },
    /// Each query has one, and the report first differs from the text of a scan at this byte, from 0.
    OtherText { offset: u64 },
}

/// The line that says so.
pub(crate) fn verdict_text(alloc: Global, verdict: &Verdict) -> Result<Text, NoMemory>
    ensures { IfOk result (λ text. text ≡ verdict_text verdict.now) }
{
    match verdict {
        Verdict::Accepted { queries } => with_number(alloc, b"accepted ", *queries as u64, b"\n"),
        Verdict::NotBacked { query } => with_number(
            alloc,
            b"refused: query ",
            *query as u64,
            b" has no backing\n",
        ),
        Verdict::OtherText { offset } => {
            with_number(alloc, b"refused: text differs at byte ", *offset, b"\n")
        }
    }
}

pub(crate) fn is_refused(verdict: &Verdict) -> bool
    ensures { result ≡ is_refused verdict.now }
{
    match verdict {
        Verdict::Accepted { .. } => false,
        Verdict::NotBacked { .. } => true,
        Verdict::OtherText { .. } => true,
    }
}

fn with_number(alloc: Global, head: &[u8], number: u64, end: &[u8]) -> Result<Text, NoMemory>
    ensures { IfOk result (λ text. text ≡ head.now ++ (decimal number ++ end.now)) }
{
    let digits = number.to_string(alloc)?;
    let mut text = Text::of(alloc, head)?;
    text.append(digits.as_bytes())?;
    text.append(end)?;
    Ok(text)
}
