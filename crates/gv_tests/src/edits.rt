//! What no line of text can say of edits: paths and files at their limits, and random edits beside a map of files.
ghost use Rattle.std.specs.Prelude.{◌≡◌, ◌≤◌};

use gv_base::{Calls, Files, Found, MemTree, Text, Tree};
use gv_edits::{EditFault, EditedTree, Edits};
use std::alloc::Global;
use std::process::Abort;

fn text<R: Abort>(rt: &R, alloc: Global, bytes: &[u8]) -> Text {
    Text::of(alloc, bytes).expect(rt, "memory")
}

// What a tree shows at a path: the bytes of a file, `/` for a folder, `-` for nothing; then the names below it.
fn shown<R: Abort, T: Tree>(rt: &R, alloc: Global, tree: &mut T, path: &str) -> Text {
    let path = text(rt, alloc, path.as_bytes());
    let mut shown = match tree.read(alloc, &path) {
        Ok(Found::File(bytes)) => bytes,
        Ok(Found::Dir) => text(rt, alloc, b"/"),
        Ok(Found::Absent) => text(rt, alloc, b"-"),
        Err(_) => text(rt, alloc, b"fault"),
    };
    let names = match tree.list(alloc, &path) {
        Ok(names) => names.joined(alloc, b'|').expect(rt, "memory"),
        Err(_) => text(rt, alloc, b"fault"),
    };
    shown.append(b" ").expect(rt, "memory");
    shown.append(names.bytes()).expect(rt, "memory");
    shown
}

fn seen<R: Abort, T: Tree>(
    rt: &R,
    alloc: Global,
    tree: &mut T,
    edits: &Edits,
    path: &str,
    want: &str,
) -> bool {
    let mut edited = EditedTree { tree, edits };
    shown(rt, alloc, &mut edited, path).bytes() == want.as_bytes()
}

// Whether neither a put nor a cut of the path is taken, for this cause, and the edits are as before.
fn are_refused(edits: &mut Edits, path: &[u8], bytes: &[u8], cause: EditFault) -> bool {
    let before = edits.len();
    edits.put(path, bytes) == Err(cause) && edits.cut(path) == Err(cause) && edits.len() == before
}

// One edit, which puts `1` at `a/b`.
fn one_edit<R: Abort>(rt: &R, alloc: Global) -> Edits {
    let mut edits = Edits::new(alloc);
    edits.put(b"a/b", b"1").expect(rt, "memory");
    edits
}

/// A file has at most so many bytes, and a path so many.
const LARGEST: usize = 16_777_216;

const LONGEST: usize = 4096;

fn many<R: Abort>(rt: &R, alloc: Global, byte: u8, count: usize) -> Vec<u8> {
    vec![in alloc; byte; count].expect(rt, "memory")
}

// Whether the edits are still the one, and a tree with them shows its file.
fn is_one<R: Abort>(rt: &R, alloc: Global, edits: &Edits) -> bool {
    let mut tree = MemTree::new(Files::new(alloc), Calls::new(alloc));
    let is_there = matches!(edits.path(0), Some(path) if path.bytes() == b"a/b".as_slice());
    is_there
        && seen(rt, alloc, &mut tree, edits, "a/b", "1 ")
        && seen(rt, alloc, &mut tree, edits, "a", "/ b")
}

#[test]
fn bad_paths_are_refused_and_change_nothing(rt: HostRuntime) {
    let alloc = rt.alloc();
    let mut edits = one_edit(&rt, alloc);
    let large = many(&rt, alloc, 0, LARGEST + 1);
    for path in "#/a/b#a/b/#a//b#a/./b#..#../a/b#a b#a\tb#a/\u{7f}#a/\u{e9}#a/b\n".split('#') {
        assert!(rt; are_refused(&mut edits, path.as_bytes(), b"2", EditFault::BadPath));
        assert!(rt; are_refused(&mut edits, path.as_bytes(), &large, EditFault::BadPath));
    }
    assert!(rt; edits.len() == 1 && is_one(&rt, alloc, &edits));
}

#[test]
fn edits_past_a_limit_are_refused_and_change_nothing(rt: HostRuntime) {
    let alloc = rt.alloc();
    let mut edits = one_edit(&rt, alloc);
    let large = many(&rt, alloc, 0, LARGEST + 1);
    let long = many(&rt, alloc, b'a', LONGEST + 1);
    assert!(rt; are_refused(&mut edits, &long, b"2", EditFault::Limit));
    assert!(rt; are_refused(&mut edits, &long, &large, EditFault::Limit));
    assert!(rt; edits.put(b"a/b", &large) == Err(EditFault::Limit));
    assert!(rt; edits.len() == 1 && is_one(&rt, alloc, &edits));
}

#[test]
fn edits_at_the_limits_are_taken(rt: HostRuntime) {
    let alloc = rt.alloc();
    let mut edits = one_edit(&rt, alloc);
    let long = many(&rt, alloc, b'a', LONGEST);
    assert!(rt; edits.put(&long, &many(&rt, alloc, 0, LARGEST)).is_ok());
    assert!(rt; edits.cut(&long).is_ok());
    assert!(rt; edits.len() == 3 && edits.path(3).is_none());
    assert!(rt; is_one(&rt, alloc, &edits));
}

fn drawn(seed: &mut u32, below: u32) -> u32
    requires { 1 ≤ below }
{
    *seed = seed.wrapping_mul(1_103_515_245).wrapping_add(12_345);
    (*seed / 65_536) % below
}

fn drawn_path(seed: &mut u32) -> &'static str {
    match drawn(seed, 12) {
        0 => "a",
        1 => "a/a",
        2 => "a/b",
        3 => "a/b/a",
        4 => "a/b/b",
        5 => "a/b/b/a",
        6 => "ab",
        7 => "b",
        8 => "b/a/a",
        9 => "b/a/b",
        10 => "b/b",
        _ => "c/a/b/b/a/c",
    }
}

// The same edit of a map and of a list of edits.
fn edit_both<R: Abort>(rt: &R, seed: &mut u32, files: &mut Files, edits: &mut Edits) {
    let path = drawn_path(seed);
    let bytes: &[u8] = if drawn(seed, 2) == 0 { b"1" } else { b"2" };
    if drawn(seed, 2) == 0 {
        files.put(path.as_bytes(), bytes).expect(rt, "memory");
        edits.put(path.as_bytes(), bytes).expect(rt, "memory");
    } else {
        files.cut(path.as_bytes());
        edits.cut(path.as_bytes()).expect(rt, "memory");
    }
}

// Whether a tree of the files shows at each path and its folders what the tree with the edits shows.
fn are_same<R: Abort>(
    rt: &R,
    alloc: Global,
    files: &Files,
    tree: &mut MemTree,
    edits: &Edits,
) -> bool {
    let copy = files.copy(alloc).expect(rt, "memory");
    let mut plain = MemTree::new(copy, Calls::new(alloc));
    let mut edited = EditedTree { tree, edits };
    let paths = "a a/a a/b a/b/a a/b/b a/b/b/a ab b b/a b/a/a b/b c c/a/b c/a/b/b/a/c";
    for path in paths.split(' ') {
        let want = shown(rt, alloc, &mut plain, path);
        if shown(rt, alloc, &mut edited, path) != want {
            return false;
        }
    }
    true
}

#[test]
fn random_edits_show_the_edited_files(rt: HostRuntime) {
    let alloc = rt.alloc();
    for first in 0..40u32 {
        let mut seed = first;
        let mut files = Files::new(alloc);
        for _ in 0..6 {
            files
                .put(drawn_path(&mut seed).as_bytes(), b"0")
                .expect(&rt, "memory");
        }
        let copy = files.copy(alloc).expect(&rt, "memory");
        let mut tree = MemTree::new(copy, Calls::new(alloc));
        let mut edits = Edits::new(alloc);
        for _ in 0..20 {
            edit_both(&rt, &mut seed, &mut files, &mut edits);
            assert!(rt; are_same(&rt, alloc, &files, &mut tree, &edits));
        }
    }
}
