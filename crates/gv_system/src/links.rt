//! Where links lead to that end at nothing.
use crate::trouble::{Trouble, trouble_of};
use std::alloc::Global;
use std::fs;
use std::io::ErrorKind;
use std::rt::Files;

/// So many links may lead from one to the next.
const MOST_LINKS: u32 = 40;

/// Where the links from the path end: the path itself where it is none. A link that can't be read is a fault, and never taken
/// for something else.
pub(crate) fn end_of_links<R: Files + AllocGlobal>(
    rt: &R,
    alloc: Global,
    path: &str,
) -> Result<String, Trouble> {
    let mut end = linked_path(alloc, "", path)?;
    for _ in 0..MOST_LINKS {
        match target_of(rt, alloc, &end)? {
            Some(next) => end = next,
            None => return Ok(end),
        }
    }
    Err(Trouble::Other)
}

// The path that the link at the path leads to, or nothing where there is no link.
fn target_of<R: Files + AllocGlobal>(
    rt: &R,
    alloc: Global,
    path: &str,
) -> Result<Option<String>, Trouble> {
    match fs::read_link(rt, path) {
        Ok(target) => Ok(Some(linked_path(alloc, path, target.as_str())?)),
        // What is there is no link.
        Err(e) if e.kind() == ErrorKind::InvalidInput => Ok(None),
        Err(e) => match trouble_of(&e) {
            Trouble::NotThere => Ok(None),
            trouble => Err(trouble),
        },
    }
}

// Where a link at the path with this text leads to.
fn linked_path(alloc: Global, path: &str, target: &str) -> Result<String, Trouble> {
    let linked = match path.rfind('/') {
        Some(at) if !target.starts_with('/') => {
            let folder = &path[..at];
            format!(in alloc; "{folder}/{target}")
        }
        _ => format!(in alloc; "{target}"),
    };
    linked.map_err(|_| Trouble::NoMemory)
}
