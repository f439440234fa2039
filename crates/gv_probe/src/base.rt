//! Calls of `gv_base`.
use crate::given::Given;
use crate::outside::calls_of;
use crate::written::Telling;
use gv_base::{
    Cut, Failed, MemSink, MemSource, NoMemory, Sink, Source, Texts, has_plain_bytes, is_part,
    is_path, next_piece, tokens_of, until, words_of,
};
use std::alloc::Global;

/// Tells the answer to a call of this library, if it is one.
pub(crate) fn answer(alloc: Global, call: &str, given: &Given, told: &mut Telling) -> bool {
    let bytes = given.bytes(0);
    match call {
        "tokens" => told.texts(tokens_of(alloc, bytes), b'|'),
        "words-between" => told.texts(words_of(alloc, bytes), b'|'),
        "lines" => pieces(bytes, Cut::Lines, told),
        "path-parts" => pieces(bytes, Cut::Parts, told),
        "texts-in-order" => told.texts(in_order(alloc, given), b'|'),
        "path" => told.yes_no(is_path(bytes)),
        "path-part" => told.yes_no(is_part(bytes)),
        "plain" => told.yes_no(has_plain_bytes(bytes)),
        "until" => up_to(given, told),
        "source" => source(alloc, given, told),
        "sink" => sink(alloc, given, told),
        _ => return false,
    }
    true
}

// The pieces, each with a dot behind it.
fn pieces(bytes: &[u8], cut: Cut, told: &mut Telling) {
    let mut rest = Some(bytes);
    for _ in 0..=bytes.len() {
        if let Some(piece) = next_piece(&mut rest, cut) {
            told.add(piece);
            told.add(b".");
        }
    }
}

fn in_order(alloc: Global, given: &Given) -> Result<Texts, NoMemory> {
    given.copy_from(alloc, 0)?.in_order(alloc)
}

// The bytes in front of the first that is the one byte of the second part.
fn up_to(given: &Given, told: &mut Telling) {
    match given.bytes(1) {
        [byte] => told.add(until(given.bytes(0), *byte)),
        _ => told.say("no byte"),
    }
}

/// The source of the third part, which gives so many bytes in a call, and of which the call with a number fails.
pub(crate) fn source_of(alloc: Global, given: &Given) -> Result<MemSource, NoMemory> {
    let calls = calls_of(alloc, given.small_number(1))?;
    Ok(MemSource::new(given.part(2).copy(alloc)?, given.budget(0), calls))
}

fn source(alloc: Global, given: &Given, told: &mut Telling) {
    match source_of(alloc, given) {
        Ok(source) => read(alloc, source, told),
        Err(NoMemory) => told.lack(),
    }
}

// How many bytes each call of a source gives into a room of four, and how the room is left.
fn read(alloc: Global, source: MemSource, told: &mut Telling) {
    let mut source = source;
    let mut room = [0u8; 4];
    for _ in 0..5 {
        match source.next(&mut room) {
            Ok(n) => told.formatted(format!(in alloc; "{n},")),
            Err(Failed) => told.say("failed,"),
        }
    }
    told.add(&room);
}

// How many bytes each call of a sink takes of its piece, and what the sink holds.
fn sink(alloc: Global, given: &Given, told: &mut Telling) {
    let Ok(calls) = calls_of(alloc, given.small_number(1)) else {
        return told.lack();
    };
    let mut sink = MemSink::new(alloc, given.budget(0), calls);
    for piece in given.from(2) {
        match sink.put(piece.bytes()) {
            Ok(n) => told.formatted(format!(in alloc; "{n},")),
            Err(fault) => told.formatted(format!(in alloc; "{fault},")),
        }
    }
    told.add(sink.held());
}
