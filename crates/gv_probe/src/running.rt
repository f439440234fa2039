//! The top call over the outside in memory.
ghost use Rattle.std.specs.Prelude.{◌≡◌};

use crate::outside::Outside;
use crate::written::Telling;
use gv_base::{Ledger, MemSink, MemSource, MemStore, MemTree, NoMemory, Steps, Text, Texts};
use gv_run::run;
use std::alloc::Global;
use std::marker::Brand;
use std::sync::ledger::Blank;

// The pieces between spaces, empty ones among them; no word where there is none.
fn pieces(alloc: Global, line: &str) -> Result<Texts, NoMemory> {
    let mut words = Texts::new(alloc);
    if !line.is_empty() {
        for word in line.split(' ') {
            words.add(Text::of(alloc, word.as_bytes())?)?;
        }
    }
    Ok(words)
}

fn counted<L: Ledger>(
    alloc: Global,
    blank: Blank,
    words: &Texts,
    tree: &mut MemTree,
    store: &mut MemStore,
    input: &mut MemSource,
    out: &mut MemSink,
    err: &mut MemSink,
) -> u8
    requires name { blank.name ≡ L.name }
    requires parts { blank.parts ≡ L.parts }
    requires two { blank.parts ≡ 2 }
{
    let mut steps = Steps::<L>::open(blank);
    run(alloc, words, tree, store, input, out, err, &mut steps)
}

/// Tells the answer to a run with these words. What the store has then is kept.
pub(crate) fn ran(alloc: Global, words: &str, outside: &mut Outside, told: &mut Telling) {
    match pieces(alloc, words) {
        Ok(words) => over_store(alloc, &words, outside, told),
        Err(NoMemory) => told.lack(),
    }
    outside.forget(alloc);
}

fn over_store(alloc: Global, words: &Texts, outside: &mut Outside, told: &mut Telling) {
    let Ok(mut store) = outside.store(alloc) else {
        return told.lack();
    };
    told.done(outside.begin_run(alloc, &store));
    over_tree(alloc, words, &mut store, outside, told);
    told.done(outside.end_run(alloc, &store));
}

fn over_tree(
    alloc: Global,
    words: &Texts,
    store: &mut MemStore,
    outside: &Outside,
    told: &mut Telling,
) {
    let Ok(mut tree) = outside.tree(alloc) else {
        return told.lack();
    };
    match outside.input(alloc) {
        Ok(input) => over_sinks(alloc, words, &mut tree, store, input, outside, told),
        Err(NoMemory) => told.lack(),
    }
}

// The status, the lines of err behind `!` and those of out behind `>`; `~` at the end of a line says that it has no line feed.
fn over_sinks(
    alloc: Global,
    words: &Texts,
    tree: &mut MemTree,
    store: &mut MemStore,
    input: MemSource,
    outside: &Outside,
    told: &mut Telling,
) {
    let Ok(mut out) = outside.sink(alloc, b"out") else {
        return told.lack();
    };
    let Ok(mut err) = outside.sink(alloc, b"err") else {
        return told.lack();
    };
    let mut input = input;
    let status = counted::<Brand>(
        alloc,
        Blank::new(2),
        words,
        tree,
        store,
        &mut input,
        &mut out,
        &mut err,
    );
    told.say("= ");
    told.number(u64::from(status));
    told.add(b"\n");
    mark(b"! ", err.held(), told);
    mark(b"> ", out.held(), told);
}

// Adds each line behind a mark.
fn mark(mark: &[u8], lines: &[u8], told: &mut Telling) {
    told.behind(mark, lines);
    match lines.last() {
        None | Some(b'\n') => {}
        Some(_) => told.add(b"~\n"),
    }
}
