//! The line and the status of a run's end.
ghost use Rattle.std.specs.Prelude.{◌≡◌, ◌≤◌, ◌++◌, codes, decimal, IfOk, IfErr, OnOk};
ghost use Rattle.gv_ending.specs.Endings.{told, well_status, refusal_status, refusal_line, refusal_text, SaysNothing, TellsRefusal};

use crate::Refusal;
use crate::output::put_all;
use gv_base::{NoMemory, Sink, SinkFault, Text};
use std::alloc::Global;

/// The status of an ending. A refusal's line is written; an end without one takes no memory and makes no call.
pub fn tell<E: Sink>(alloc: Global, ending: &Result<bool, Refusal>, err: &mut E) -> u8
    ensures well { IfOk ending.now (λ some. (result ≡ well_status some) × SaysNothing (told (E.held err.old) (E.held err.new) (E.faults err.old) (E.faults err.new))) }
    ensures refused { IfErr ending.now (λ refusal. TellsRefusal (told (E.held err.old) (E.held err.new) (E.faults err.old) (E.faults err.new)) refusal result) }
    ensures later { E.faults err.old ≤ E.faults err.new }
{
    match ending {
        Ok(false) => 0,
        Ok(true) => 1,
        Err(refusal) => tell_refusal(alloc, refusal, err),
    }
}

// Writes the line of a refusal, and answers its status.
fn tell_refusal<E: Sink>(alloc: Global, refusal: &Refusal, err: &mut E) -> u8
    ensures told { TellsRefusal (told (E.held err.old) (E.held err.new) (E.faults err.old) (E.faults err.new)) refusal.now result }
    ensures later { E.faults err.old ≤ E.faults err.new }
{
    let Ok(line) = line(alloc, refusal) else {
        return 5;
    };
    let outcome = put_all(err, line.bytes());
    drop(line);
    match outcome {
        Ok(()) => status(refusal),
        Err(SinkFault::Failed) => status(refusal),
        Err(SinkFault::NoMemory) => 5,
    }
}

fn status(refusal: &Refusal) -> u8
    ensures { result ≡ refusal_status refusal.now }
{
    match refusal {
        Refusal::BadWords => 2,
        Refusal::TreeFailed { .. } => 3,
        Refusal::StoreFailed { .. } => 3,
        Refusal::OutputFailed => 3,
        Refusal::Spent { .. } => 4,
        Refusal::NoMemory => 5,
        Refusal::NotARepository { .. } => 6,
        Refusal::Limit { .. } => 7,
        Refusal::InputFailed => 3,
        Refusal::BadCommand { .. } => 8,
        Refusal::Lacks { .. } => 10,
    }
}

fn line(alloc: Global, refusal: &Refusal) -> Result<Text, NoMemory>
    ensures { IfOk result (λ line. line ≡ refusal_line refusal.now) }
{
    let mut line = Text::of(alloc, &[])?;
    append_refusal(alloc, &mut line, refusal)?;
    line.append(b"\n")?;
    Ok(line)
}

fn append_refusal(alloc: Global, line: &mut Text, refusal: &Refusal) -> Result<(), NoMemory>
    ensures { OnOk result (line.new ≡ line.old ++ refusal_text refusal.now) }
{
    match refusal {
        Refusal::BadWords => line.append(b"gvis: bad command line"),
        Refusal::TreeFailed { path } => append_place(line, b"gvis: fault: tree ", path),
        Refusal::StoreFailed { path } => append_place(line, b"gvis: fault: store ", path),
        Refusal::OutputFailed => line.append(b"gvis: fault: output"),
        Refusal::Spent { name } => append_place(line, b"gvis: budget spent: ", name),
        Refusal::NoMemory => line.append(b"gvis: out of memory"),
        Refusal::NotARepository { path } => append_place(line, b"gvis: not a repository: ", path),
        Refusal::Limit { place, number } => append_limit(alloc, line, place, *number),
        Refusal::InputFailed => line.append(b"gvis: fault: input"),
        Refusal::BadCommand { number } => append_number(
            alloc,
            line,
            b"gvis: bad script: command ",
            *number,
        ),
        Refusal::Lacks { part, parts, query } => append_lack(alloc, line, *part, *parts, *query),
    }
}

fn append_place(line: &mut Text, head: &[u8], place: &Text) -> Result<(), NoMemory>
    ensures { OnOk result (line.new ≡ line.old ++ (head.now ++ place.now)) }
{
    line.append(head)?;
    line.append(place.bytes())
}

// The place of a limit, and its number.
fn with_number(alloc: Global, place: &Text, number: u64) -> Result<Text, NoMemory>
    ensures { IfOk result (λ text. text ≡ place.now ++ (codes " " ++ decimal number)) }
{
    let digits = number.to_string(alloc)?;
    let mut text = place.copy(alloc)?;
    text.append(b" ")?;
    text.append(digits.as_bytes())?;
    Ok(text)
}

fn append_limit(alloc: Global, line: &mut Text, place: &Text, number: u64) -> Result<(), NoMemory>
    ensures { OnOk result (line.new ≡ line.old ++ (codes "gvis: limit: " ++ (place.now ++ (codes " " ++ decimal number)))) }
{
    let numbered = with_number(alloc, place, number)?;
    append_place(line, b"gvis: limit: ", &numbered)
}

fn append_number(alloc: Global, line: &mut Text, head: &[u8], number: u32) -> Result<(), NoMemory>
    ensures { OnOk result (line.new ≡ line.old ++ (head.now ++ decimal number)) }
{
    let digits = Text::of(alloc, number.to_string(alloc)?.as_bytes())?;
    append_place(line, head, &digits)
}

fn append_lack(
    alloc: Global,
    line: &mut Text,
    part: u32,
    parts: u32,
    query: u32,
) -> Result<(), NoMemory>
    ensures { OnOk result (line.new ≡ line.old ++ (codes "gvis: part " ++ (decimal part ++ (codes "/" ++ (decimal parts ++ (codes " lacks query " ++ decimal query)))))) }
{
    append_number(alloc, line, b"gvis: part ", part)?;
    append_number(alloc, line, b"/", parts)?;
    append_number(alloc, line, b" lacks query ", query)
}
