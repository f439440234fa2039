//! Paths of entries: the category and the PF of one, whether a path is that of an entry, and whether one lies among entries. O(bytes of
//! the path), and of the categories' names.
ghost use Rattle.std.specs.Prelude.{◌≡◌, ◌≢◌, ◌++◌, ℕ, List, None, Some, IfOk, MatchOption};
ghost use Rattle.gv_base.specs.Cut.{after_prefix};
ghost use Rattle.gv_reload.specs.EntryEdits.{entry_parts, is_entry, is_in_metadata, parts_behind};

use gv_base::{NoMemory, Text, Texts, after_prefix, until};
use gv_load::is_pf;

/// Whether a path is that of an entry of one of the categories: `metadata/md5-cache/CATEGORY/PF`.
pub fn is_entry(categories: &Texts, path: &Text) -> Result<bool, NoMemory>
    ensures { IfOk result (λ is. is ≡ is_entry categories.now path.now) }
{
    match entry_parts(path.bytes()) {
        Some((category, pf)) => {
            if !categories.has(category) {
                return Ok(false);
            }
            is_pf(pf)
        }
        None => Ok(false),
    }
}

/// Whether a path is `metadata` or lies below it.
pub fn is_in_metadata(path: &Text) -> bool
    ensures { result ≡ is_in_metadata path.now }
{
    path.bytes() == b"metadata".as_slice()
        || path.bytes().strip_prefix(b"metadata/".as_slice()).is_some()
}

/// The category and the PF of an entry's path.
#[tactic(auto, unfolding(crate::specs::EntryEdits::entry_parts))]
pub(crate) fn entry_parts(path: &[u8]) -> Option<(&[u8], &[u8])>
    ensures { MatchOption result (entry_parts path.now ≡ None) (λ parts. entry_parts path.now ≡ Some (parts.0.now, parts.1.now)) }
{
    match after_prefix(b"metadata/md5-cache/", path) {
        Some(rest) => Some(parts_behind(rest)),
        None => None,
    }
}

/// What stands in front of the first slash, and what behind it.
pub(crate) fn parts_behind(rest: &[u8]) -> (&[u8], &[u8])
    ensures first { result.0.now ≡ (parts_behind rest.now).0 }
    ensures second { result.1.now ≡ (parts_behind rest.now).1 }
{
    let first = until(rest, b'/');
    if first.len() < rest.len() {
        (first, &rest[first.len() + 1..])
    } else {
        (first, &rest[rest.len()..])
    }
}
