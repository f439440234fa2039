//! Names of variables: letters, digits and underscores, with no digit in front.
//!
//! Each call costs O(the bytes of the name).
ghost use Rattle.std.specs.Prelude.{◌≡◌, ◌+◌, ◌≤◌, length, MatchOption};
ghost use Rattle.std.specs.List.{prefix_len};
ghost use Rattle.gv_defaults.specs.Names.{is_digit, is_name_byte, name_len, name_behind, braced_at, plain_at};
ghost use Rattle.gv_defaults.specs.Found.{named, IsNamed};

use crate::cut::cut_first;

// A name behind a dollar sign.
#[derive(Clone, Copy, Drop)]
pub(crate) struct Reference<'a> {
    pub(crate) name: &'a [u8],
    // How many bytes it takes behind the dollar sign: braces count.
    pub(crate) len: usize,
}

/// How many bytes the longest name at the front has; 0 where there is none.
pub(crate) fn name_len(bytes: &[u8]) -> usize
    ensures within { result ≤ length bytes.now }
    ensures len { result ≡ name_len bytes.now }
{
    match bytes.first() {
        None => 0,
        Some(b) if is_digit(*b) => 0,
        Some(_) => run_len(bytes),
    }
}

/// The longest name behind a dollar sign, or one in braces; `None` exactly where none is there.
pub(crate) fn name_behind(bytes: &[u8]) -> Option<Reference<'_>>
    ensures { MatchOption result (name_behind bytes.now ≡ None) (IsNamed bytes.now) }
{
    match cut_first(bytes) {
        None => None,
        Some((b, inner)) => {
            if b == b'{' {
                braced(inner)
            } else {
                plain(bytes)
            }
        }
    }
}

fn is_digit(b: u8) -> bool
    ensures { result ≡ is_digit b }
{
    b'0' <= b && b <= b'9'
}

fn is_name_byte(b: u8) -> bool
    ensures { result ≡ is_name_byte b }
{
    is_digit(b) || (b'A' <= b && b <= b'Z') || (b'a' <= b && b <= b'z') || b == b'_'
}

// How many bytes of a name stand at the front, be there a digit first or not.
fn run_len(bytes: &[u8]) -> usize
    ensures within { result ≤ length bytes.now }
    ensures len { result ≡ prefix_len is_name_byte bytes.now }
{
    for (i, b) in bytes.iter().enumerate() {
        if !is_name_byte(*b) {
            return i;
        }
    }
    bytes.len()
}

// A name and the brace that closes it.
#[tactic(auto, using(crate::proofs::NameLemmas::closed, crate::proofs::NameLemmas::not_closed))]
fn braced(inner: &[u8]) -> Option<Reference<'_>>
    ensures { MatchOption result (braced_at inner.now ≡ None) (λ found. (braced_at inner.now ≡ Some (named found)) × (found.len ≤ length inner.now + 1)) }
{
    let end = name_len(inner);
    if end > 0 && end < inner.len() && inner[end] == b'}' {
        Some(Reference {
            name: &inner[..end],
            len: end + 2,
        })
    } else {
        None
    }
}

fn plain(bytes: &[u8]) -> Option<Reference<'_>>
    ensures { MatchOption result (plain_at bytes.now ≡ None) (λ found. (plain_at bytes.now ≡ Some (named found)) × (found.len ≤ length bytes.now)) }
{
    let end = name_len(bytes);
    if end > 0 {
        Some(Reference {
            name: &bytes[..end],
            len: end,
        })
    } else {
        None
    }
}
