//! Calls of `gv_edits`.
use crate::base::source_of;
use crate::disk::Disk;
use crate::given::Given;
use crate::written::Telling;
use gv_base::{Found, MemSource, NoMemory, Text, Tree};
use gv_edits::{Command, EditFault, EditedTree, Edits, ScriptFault, ScriptReader};
use std::alloc::Global;

/// Tells the answer to a call of this library, if it is one.
pub(crate) fn answer(alloc: Global, call: &str, given: &Given, told: &mut Telling) -> bool {
    match call {
        "script" => script(alloc, given, true, told),
        "script-end" => script(alloc, given, false, told),
        "edited" => edited(alloc, given, told),
        _ => return false,
    }
    true
}

// The commands of a script in pieces of so many bytes, of which the call with a number fails, and how it ends; or the end
// alone, and the number of what was read.
fn script(alloc: Global, given: &Given, is_whole: bool, told: &mut Telling) {
    match source_of(alloc, given) {
        Ok(source) => commands(alloc, source, is_whole, told),
        Err(NoMemory) => told.lack(),
    }
}

fn commands(alloc: Global, source: MemSource, is_whole: bool, told: &mut Telling) {
    let Ok(mut reader) = ScriptReader::new(alloc) else {
        return told.lack();
    };
    let mut source = source;
    for n in 0..1_000_001u32 {
        if tell_next(alloc, &mut source, &mut reader, n, is_whole, told) {
            return;
        }
    }
}

// Tells the next command, and answers whether it is the last.
fn tell_next(
    alloc: Global,
    source: &mut MemSource,
    reader: &mut ScriptReader,
    n: u32,
    is_whole: bool,
    told: &mut Telling,
) -> bool {
    let answer = reader.next_command(source);
    let is_over = matches!(&answer, Ok(Command::End) | Err(_));
    if is_over && !is_whole {
        told.number(u64::from(n));
        told.say(", ");
    }
    if is_over || is_whole {
        command(alloc, &answer, told);
    }
    is_over
}

fn command(alloc: Global, answer: &Result<Command, ScriptFault>, told: &mut Telling) {
    match answer {
        Ok(Command::Put { path, bytes }) => {
            told.say("put ");
            told.add(path.bytes());
            told.add(b"=");
            told.add(bytes.bytes());
            told.add(b",");
        }
        Ok(Command::Cut { path }) => {
            told.say("cut ");
            told.add(path.bytes());
            told.add(b",");
        }
        Ok(Command::Report) => told.say("report,"),
        Ok(Command::End) => told.say("end"),
        Err(fault) => told.formatted(format!(in alloc; "{fault}")),
    }
}

// Each part is a path: behind `@` of a file below the edits, behind `/` of an empty folder, behind `+` of what is put, behind
// `-` of what is cut; and alone one at which is told what is seen.
fn edited(alloc: Global, given: &Given, told: &mut Telling) {
    let mut disk = Disk::new(alloc);
    let mut edits = Edits::new(alloc);
    for step in given.from(0) {
        perform(alloc, step.bytes(), &mut disk, &mut edits, told);
    }
}

fn perform(alloc: Global, step: &[u8], disk: &mut Disk, edits: &mut Edits, told: &mut Telling) {
    match step.split_first() {
        Some((b'@', path)) => told.done(disk.files.put(path, b"old")),
        Some((b'/', path)) => told.done(disk.folders.put(path, b"")),
        Some((b'+', path)) => fault(alloc, edits.put(path, b"new"), told),
        Some((b'-', path)) => fault(alloc, edits.cut(path), told),
        _ => seen(alloc, step, disk, edits, told),
    }
}

fn fault(alloc: Global, done: Result<(), EditFault>, told: &mut Telling) {
    match done {
        Ok(()) => {}
        Err(fault) => told.formatted(format!(in alloc; "{fault:?},")),
    }
}

fn seen(alloc: Global, path: &[u8], disk: &mut Disk, edits: &mut Edits, told: &mut Telling) {
    let Ok(path) = Text::of(alloc, path) else {
        return told.lack();
    };
    let mut tree = EditedTree { tree: disk, edits };
    read(alloc, &mut tree, &path, told);
    told.add(b" ");
    listed(alloc, &mut tree, &path, told);
    told.add(b",");
}

// The bytes of a file, `/` for a folder, `-` for nothing.
fn read<T: Tree>(alloc: Global, tree: &mut T, path: &Text, told: &mut Telling) {
    match tree.read(alloc, path) {
        Ok(Found::File(bytes)) => told.add(bytes.bytes()),
        Ok(Found::Dir) => told.add(b"/"),
        Ok(Found::Absent) => told.add(b"-"),
        Err(fault) => told.formatted(format!(in alloc; "{fault:?}")),
    }
}

// The names below a folder.
fn listed<T: Tree>(alloc: Global, tree: &mut T, path: &Text, told: &mut Telling) {
    match tree.list(alloc, path) {
        Ok(names) => told.joined(&names, b'|'),
        Err(fault) => told.formatted(format!(in alloc; "{fault:?}")),
    }
}
