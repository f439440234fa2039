//! Calls of `gv_demo`.
use crate::given::Given;
use crate::written::Telling;
use gv_base::Files;
use gv_demo::demo_files;
use std::alloc::Global;

/// Tells the answer to a call of this library, if it is one.
pub(crate) fn answer(alloc: Global, call: &str, given: &Given, told: &mut Telling) -> bool {
    if !matches!(call, "demo" | "demo-sum") {
        return false;
    }
    match demo_files(alloc, given.number(0)) {
        Ok(files) => of_files(alloc, call, &files, given.bytes(1), told),
        Err(_) => told.lack(),
    }
    true
}

fn of_files(alloc: Global, call: &str, files: &Files, path: &[u8], told: &mut Telling) {
    if call == "demo-sum" {
        return sum(alloc, files, told);
    }
    match files.get(path) {
        Some(bytes) => told.add(bytes),
        None => told.say("none"),
    }
}

// The checksum of the entries of all packages in order: 31 times what was, and the byte.
fn sum(alloc: Global, files: &Files, told: &mut Telling) {
    let mut sum: u64 = 0;
    for number in 0..1000u32 {
        match format!(in alloc; "metadata/md5-cache/x/p{number:03}-1") {
            Ok(path) => sum = sum_with(sum, files.get(path.as_bytes()).unwrap_or(&[])),
            Err(_) => told.lack(),
        }
    }
    told.number(sum);
}

fn sum_with(before: u64, bytes: &[u8]) -> u64 {
    let mut sum = before;
    for b in bytes {
        sum = sum.wrapping_mul(31).wrapping_add(u64::from(*b));
    }
    sum
}
