//! A make.defaults read from its front: spaces and comments, assignments, and what is neither.
//!
//! `first_item` costs O(the bytes that it takes).
ghost use Rattle.std.specs.Prelude.{◌≡◌, ◌≤◌, ◌∷◌, ◌==◌, false, List, ℕ, [], length, take, MatchOption};
ghost use Rattle.std.specs.Str.{byte};
ghost use Rattle.gv_defaults.specs.Quotes.{is_space, value_len};
ghost use Rattle.gv_defaults.specs.Assignments.{assignment_at, comment_len};
ghost use Rattle.gv_defaults.specs.Items.{IsItem, IsAssigned};

use crate::cut::cut_first;
use crate::names::name_len;
use crate::quotes::{is_space, value_len};
use gv_base::until;

// An assignment as it stands in the file: its name, and the text of its value with the quotes.
#[derive(Clone, Copy, Drop)]
pub(crate) struct Assigned<'a> {
    pub(crate) name: &'a [u8],
    pub(crate) text: &'a [u8],
}

// What stands at the front of what is left of a file.
#[derive(Clone, Copy, Drop)]
pub(crate) enum Item<'a> {
    // A space, tab, carriage return, line feed or comment of so many bytes.
    Gap { len: usize },
    Assignment { assigned: Assigned<'a> },
    // Bytes that begin no assignment, or an unclosed quote.
    Fault,
}

/// The first item; `None` exactly where nothing is left.
pub(crate) fn first_item(bytes: &[u8]) -> Option<Item<'_>>
    ensures { MatchOption result (bytes.now ≡ []) (IsItem bytes.now) }
{
    match cut_first(bytes) {
        None => None,
        Some((byte, behind)) => {
            if is_space(byte) {
                Some(Item::Gap { len: 1 })
            } else if byte == b'#' {
                let len = comment_len(behind);
                Some(Item::Gap { len: len + 1 })
            } else {
                Some(assignment_or_fault(bytes))
            }
        }
    }
}

// How many bytes a comment has up to the line feed.
fn comment_len(bytes: &[u8]) -> usize
    ensures within { result ≤ length bytes.now }
    ensures len { result ≡ comment_len bytes.now }
{
    until(bytes, b'\n').len()
}

fn assignment_or_fault(bytes: &[u8]) -> Item<'_>
    ensures { (b : ℕ) (behind : List ℕ) → bytes.now ≡ b ∷ behind → is_space b ≡ false → (b == byte "#") ≡ false → IsItem bytes.now result }
{
    match assignment(bytes) {
        None => Item::Fault,
        Some(assigned) => Item::Assignment { assigned },
    }
}

// A name, `=` and a value.
fn assignment(bytes: &[u8]) -> Option<Assigned<'_>>
    ensures { MatchOption result (assignment_at bytes.now ≡ None) (IsAssigned bytes.now) }
{
    let end = name_len(bytes);
    if end > 0 && end < bytes.len() && bytes[end] == b'=' {
        valued(&bytes[..end], &bytes[end + 1..])
    } else {
        None
    }
}

// A name, and the value at the front of what follows `=`.
fn valued<'a>(name: &'a [u8], behind: &'a [u8]) -> Option<Assigned<'a>>
    ensures { MatchOption result (value_len behind.now ≡ None)
        (λ assigned. (assigned.name.now ≡ name.now) × (value_len behind.now ≡ Some (length assigned.text.now)) × (assigned.text.now ≡ take (length assigned.text.now) behind.now)) }
{
    match value_len(behind) {
        None => None,
        Some(len) => Some(Assigned {
            name,
            text: &behind[..len],
        }),
    }
}
