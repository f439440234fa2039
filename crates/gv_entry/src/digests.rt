//! Digests and the eclasses of an entry. O(bytes); `digest_of` and `digest_in` take no memory.
ghost use Rattle.std.specs.Prelude.{◌≡◌, [], ◌∷◌, IfOk, MatchOption};
ghost use Rattle.gv_entry.specs.Digests.{between_tabs, digest_in, eclasses_in, eclasses_of};
ghost use Rattle.gv_entry.specs.PrivateWords.{fields_left};
ghost use Rattle.md5.specs.Md5.{md5};

use crate::{Eclass, Eclasses};
use bstr::ByteSlice;
use gv_base::{NoMemory, Text, is_part};
use hex::FromHex;
use md5::{Digest, Md5};
use std::alloc::Global;

/// The MD5 of the bytes (RFC 1321).
pub fn digest_of(bytes: &[u8]) -> [u8; 16]
    ensures { result ≡ md5 bytes.now }
{
    Md5::digest(bytes)
}

/// The digest that 32 hexadecimal digits of either case are.
pub fn digest_in(text: &[u8]) -> Option<[u8; 16]>
    ensures { result ≡ digest_in text.now }
{
    <[u8; 16] as FromHex>::from_hex(text).ok()
}

/// The eclasses of a value of `_eclasses_`, which is empty or pairs of a name, one part of a path, and 32 hexadecimal
/// digits, separated by tabs.
pub fn eclasses_of(alloc: Global, value: &[u8]) -> Result<Option<Eclasses>, NoMemory>
    ensures { IfOk result (λ eclasses. eclasses ≡ eclasses_of value.now) }
{
    if value.is_empty() {
        return Ok(Some(Eclasses::new(alloc)));
    }
    read_pairs(alloc, value)
}

// The text before the first tab, and what is behind the tab.
fn divide<'a>(bytes: &'a [u8]) -> (&'a [u8], Option<&'a [u8]>)
    ensures { between_tabs bytes.now ≡ result.0.now ∷ fields_left result.1 }
{
    match bytes.find_byte(b'\t') {
        Some(at) => (&bytes[..at], Some(&bytes[at + 1..])),
        None => (bytes, None),
    }
}

// Takes the first text off.
fn next_field<'a>(rest: &mut Option<&'a [u8]>) -> Option<&'a [u8]>
    ensures { MatchOption result (fields_left rest.old ≡ []) (λ field. fields_left rest.old ≡ field.now ∷ fields_left rest.new) }
{
    match *rest {
        None => None,
        Some(bytes) => {
            let (field, behind) = divide(bytes);
            *rest = behind;
            Some(field)
        }
    }
}

// The pairs that are left, behind those that were read.
fn read_pairs(alloc: Global, value: &[u8]) -> Result<Option<Eclasses>, NoMemory>
    ensures { IfOk result (λ eclasses. eclasses ≡ eclasses_in (between_tabs value.now)) }
{
    let mut eclasses = Eclasses::new(alloc);
    let mut rest = Some(value);
    while let Some(name) = next_field(&mut rest) {
        let Some(text) = next_field(&mut rest) else {
            return Ok(None);
        };
        let Some(digest) = digest_in(text) else {
            return Ok(None);
        };
        if !is_part(name) {
            return Ok(None);
        }
        let name = Text::of(alloc, name)?;
        eclasses.add(Eclass { name, digest })?;
    }
    Ok(Some(eclasses))
}
