//! The public calls on their happy paths, and a failing call in the middle of a run of calls for each object in memory.
ghost use Rattle.std.specs.Prelude.{◌≡◌};

use gv_base::{
    Calls, Files, Found, Kind, Ledger, MemStore, MemTree, SinkFault, Steps, Store, StoreFault,
    Text, Texts, Tree, TreeFault, byte_order_law, in_order_law, map_law,
};
use std::alloc::Global;
use std::marker::Brand;
use std::mem::size_of;
use std::process::Abort;
use std::sync::ledger::Blank;

fn same<R: Abort>(rt: &R, got: &[u8], want: &[u8]) {
    assert_eq!(rt; got, want);
}

fn text<R: Abort>(rt: &R, alloc: Global, bytes: &[u8]) -> Text {
    Text::of(alloc, bytes).expect(rt, "memory")
}

fn texts<R: Abort>(rt: &R, alloc: Global, items: &[&[u8]]) -> Texts {
    let mut texts = Texts::new(alloc);
    for item in items {
        texts.add(text(rt, alloc, item)).expect(rt, "memory");
    }
    texts.copy(alloc).expect(rt, "memory")
}

fn one_call<R: Abort>(rt: &R, alloc: Global, number: u32) -> Calls {
    let mut calls = Calls::new(alloc);
    calls.add(number).expect(rt, "memory");
    calls.copy(alloc).expect(rt, "memory")
}

// Three files below `a`, and one beside it whose path has `a` as its front.
fn some_files<R: Abort>(rt: &R, alloc: Global) -> Files {
    let mut files = Files::new(alloc);
    let cases: [(&[u8], &[u8]); 4] = [
        (b"a/b-1", b"one"),
        (b"a/b/c", b"two"),
        (b"a/b/d", b"three"),
        (b"ab", b"four"),
    ];
    for (path, bytes) in cases {
        files.put(path, bytes).expect(rt, "memory");
    }
    files.copy(alloc).expect(rt, "memory")
}

// Checks the texts, joined by bars.
fn same_texts<R: Abort>(rt: &R, alloc: Global, got: &Texts, want: &[u8]) {
    same(
        rt,
        got.joined(alloc, b'|').expect(rt, "memory").bytes(),
        want,
    );
}

#[test]
fn texts_keep_bytes_and_stand_in_order(rt: HostRuntime) {
    let alloc = rt.alloc();
    let front = text(&rt, alloc, b"ab");
    let mut longer = front.copy(alloc).expect(&rt, "memory");
    longer.append(b"\xff").expect(&rt, "memory");
    longer.tell();
    same(&rt, longer.bytes(), b"ab\xff");
    assert!(rt; front < longer && front != longer);
    byte_order_law();
    in_order_law();
    map_law::<Text>();
    let list = texts(&rt, alloc, &[b"b", b"a/", b"", b"b", b"a"]);
    list.tell();
    assert!(rt; list.has(b"a/") && !list.has(b"a/b"));
    same_texts(&rt, alloc, &list, b"b|a/||b|a");
    same_texts(
        &rt,
        alloc,
        &list.in_order(alloc).expect(&rt, "memory"),
        b"|a|a/|b",
    );
}

fn same_found<R: Abort>(rt: &R, got: Option<&[u8]>, want: &[u8]) {
    same(rt, got.unwrap_or(b"-"), want);
}

#[test]
fn files_are_put_cut_and_found(rt: HostRuntime) {
    let mut files = some_files(&rt, rt.alloc());
    files.put(b"ab", b"five").expect(&rt, "memory");
    files.cut(b"a/b/c");
    files.cut(b"a/b");
    same_found(&rt, files.get(b"ab"), b"five");
    same_found(&rt, files.get(b"a/b/c"), b"-");
    same_found(&rt, files.get(b"a/b/d"), b"three");
    same_found(&rt, files.get(b"a/b"), b"-");
    let cases: [(&str, bool); 4] = [("a", true), ("a/b", true), ("ab", false), ("", false)];
    for (path, want) in cases {
        let found = files.is_folder(path.as_bytes()).expect(&rt, path);
        assert!(rt; found == want, "{path}");
    }
    let names = files.names_below(rt.alloc(), b"a").expect(&rt, "memory");
    same_texts(&rt, rt.alloc(), &names, b"b|b-1");
}

// What was found, in one text.
fn shown<R: Abort>(rt: &R, alloc: Global, found: Result<Found, TreeFault>) -> Text {
    match found {
        Ok(Found::File(bytes)) => bytes,
        Ok(Found::Dir) => text(rt, alloc, b"/"),
        Ok(Found::Absent) => text(rt, alloc, b"-"),
        Err(TreeFault::Failed) => text(rt, alloc, b"failed"),
        Err(_) => text(rt, alloc, b"other"),
    }
}

#[test]
fn tree_fails_at_the_listed_call_alone(rt: HostRuntime) {
    let alloc = rt.alloc();
    let mut tree = MemTree::new(some_files(&rt, alloc), one_call(&rt, alloc, 3));
    tree.enter(alloc, &text(&rt, alloc, b"root"))
        .expect(&rt, "memory");
    let reads: [(u32, &[u8], &[u8]); 7] = [
        (1, b"ab", b"four"),
        (2, b"a", b"/"),
        (3, b"ab", b"failed"),
        (4, b"ab", b"four"),
        (5, b"a/b", b"/"),
        (6, b"a/b-1", b"one"),
        (7, b"a/", b"-"),
    ];
    for (call, path, want) in reads {
        let found = tree.read(alloc, &text(&rt, alloc, path));
        let got = shown(&rt, alloc, found);
        assert_eq!(rt; got.bytes(), want, "call {call} of the tree");
    }
    let names = tree
        .list(alloc, &text(&rt, alloc, b"a"))
        .expect(&rt, "a listing");
    same_texts(
        &rt,
        alloc,
        &names.in_order(alloc).expect(&rt, "memory"),
        b"b|b-1",
    );
    assert!(rt; names.items().len() == 2);
}

// Whether a file of so many bytes is read, and isn't too large.
fn is_read<R: Abort>(rt: &R, alloc: Global, len: usize) -> bool {
    let bytes = vec![in alloc; b'x'; len].expect(rt, "memory");
    let mut files = Files::new(alloc);
    files.put(b"file", &bytes).expect(rt, "memory");
    let mut tree = MemTree::new(files, Calls::new(alloc));
    match tree.read(alloc, &text(rt, alloc, b"file")) {
        Ok(Found::File(read)) => read.bytes().len() == len,
        Err(TreeFault::TooLarge) => false,
        _ => panic!(rt; "a file is there"),
    }
}

#[test]
fn the_limit_of_a_file_is_read_and_one_more_byte_is_not(rt: HostRuntime) {
    assert!(rt; is_read(&rt, rt.alloc(), 16_777_216));
    assert!(rt; !is_read(&rt, rt.alloc(), 16_777_217));
}

#[test]
fn store_fails_at_the_listed_call_alone(rt: HostRuntime) {
    let alloc = rt.alloc();
    let mut store = MemStore::new(Files::new(alloc), one_call(&rt, alloc, 2));
    let path = text(&rt, alloc, b"certs");
    assert!(rt; store.replace(alloc, &path, &text(&rt, alloc, b"old")) == Ok(()));
    let refused = store.replace(alloc, &path, &text(&rt, alloc, b"new"));
    assert!(rt; refused == Err(StoreFault::Failed));
    same_found(&rt, store.files().get(b"certs"), b"old");
    let kept = store.fetch(alloc, &path).expect(&rt, "an answer");
    same(&rt, kept.expect(&rt, "a file").bytes(), b"old");
    let absent = store.fetch(alloc, &text(&rt, alloc, b"cert"));
    assert!(rt; matches!(&absent, Ok(None)));
}

// Counts, and answers how many bytes the counts take.
fn counted<L: Ledger>(blank: Blank) -> usize
    requires name { blank.name ≡ L.name }
    requires parts { blank.parts ≡ L.parts }
    requires two { blank.parts ≡ 2 }
{
    let mut steps = Steps::<L>::open(blank);
    steps.tick(Kind::Solve);
    steps.tick(Kind::Lower);
    size_of::<Steps<L>>()
}

#[test]
fn counts_take_no_bytes_and_faults_have_texts(rt: HostRuntime) {
    assert!(rt; counted::<Brand>(Blank::new(2)) == 0);
    let shown = format!(in rt.alloc();
        "{}; {}; {}",
        TreeFault::TooLarge,
        StoreFault::Failed,
        SinkFault::NoMemory
    );
    same(
        &rt,
        shown.expect(&rt, "memory").as_bytes(),
        b"a file is too large; the store failed; out of memory",
    );
}
