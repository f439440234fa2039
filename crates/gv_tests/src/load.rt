//! Loads of so many files that they would hold up the lines of `gv_probe`.
use gv_base::{Calls, Files, MemTree, Text};
use gv_load::{LoadFault, load};
use std::alloc::Global;
use std::process::Abort;

fn put<R: Abort>(rt: &R, files: &mut Files, path: &[u8], bytes: &[u8]) {
    files.put(path, bytes).expect(rt, "memory");
}

// The place and the number of the limit that is passed, or nothing.
fn limit_of<R: Abort>(rt: &R, alloc: Global, files: Files) -> Text {
    let mut tree = MemTree::new(files, Calls::new(alloc));
    let told = match load(alloc, &mut tree) {
        Ok(_) => return Text::of(alloc, b"").expect(rt, "memory"),
        Err(LoadFault::Limit { place, number }) => {
            let place = std::str::from_utf8(place.bytes()).unwrap_or("");
            format!(in alloc; "{place} {number}").expect(rt, "memory")
        }
        Err(_) => rt.abort(),
    };
    Text::of(alloc, told.as_bytes()).expect(rt, "memory")
}

#[test]
fn a_chain_of_directories_may_be_long(rt: HostRuntime) {
    let alloc = rt.alloc();
    let mut files = Files::new(alloc);
    put(
        &rt,
        &mut files,
        b"profiles/profiles.desc",
        b"amd64 d0 stable\n",
    );
    put(&rt, &mut files, b"profiles/categories", b"app\n");
    for number in 0..100_000u32 {
        let next = number.saturating_add(1);
        let path = format!(in alloc; "profiles/d{number}/parent").expect(&rt, "memory");
        let parent = format!(in alloc; "../d{next}\n").expect(&rt, "memory");
        put(&rt, &mut files, path.as_bytes(), parent.as_bytes());
    }
    put(&rt, &mut files, b"profiles/d100000/parent", b"");
    let limit = limit_of(&rt, alloc, files);
    assert_eq!(rt; limit.bytes(), b"profiles/d0 4096".as_slice());
}

#[test]
fn a_load_finds_at_most_400000_files(rt: HostRuntime) {
    let alloc = rt.alloc();
    let mut files = Files::new(alloc);
    put(&rt, &mut files, b"profiles/profiles.desc", b"");
    put(&rt, &mut files, b"profiles/categories", b"app\n");
    for number in 100_000..499_998u32 {
        let path = format!(in alloc; "profiles/package.mask/{number}").expect(&rt, "memory");
        put(&rt, &mut files, path.as_bytes(), b"");
    }
    let copy = files.copy(alloc).expect(&rt, "memory");
    assert!(rt; limit_of(&rt, alloc, copy).bytes().is_empty());
    put(&rt, &mut files, b"profiles/package.mask/z", b"");
    let limit = limit_of(&rt, alloc, files);
    assert_eq!(rt; limit.bytes(), b"profiles/package.mask/z 400000".as_slice());
}
