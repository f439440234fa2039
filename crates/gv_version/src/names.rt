//! The forms of names (PMS chapter 3). Each call costs O(bytes) and takes no memory.
ghost use Rattle.std.specs.Prelude.{◌≡◌, ◌<◌, ◌^◌, [], length, IfSome};
ghost use Rattle.std.specs.List.{list_all};
ghost use Rattle.gv_version.specs.Bytes.{is_letter_or_digit};
ghost use Rattle.gv_version.specs.Names.{ends_in_version, hyphen_from, is_category, is_category_byte, is_flag, is_flag_byte, is_keyword, is_keyword_byte, is_package, is_package_byte, is_slot, split_pf};

use crate::form::{has_form, long_run};

/// Whether the bytes are a category: letters, digits and `+_.-`, of which `-`, `.` and `+` don't come first.
pub fn is_category(bytes: &[u8]) -> bool
    ensures { result ≡ is_category bytes.now }
{
    match bytes {
        [] => false,
        [first, ..] => { !matches!(*first, b'-' | b'.' | b'+') && has_category_bytes(bytes) }
    }
}

/// Whether the bytes are a slot's name: the form of a category.
pub fn is_slot(bytes: &[u8]) -> bool
    ensures { result ≡ is_slot bytes.now }
{
    is_category(bytes)
}

/// Whether the bytes are a USE flag: letters, digits and `+_@-`, of which a letter or a digit comes first.
pub fn is_flag(bytes: &[u8]) -> bool
    ensures { result ≡ is_flag bytes.now }
{
    match bytes {
        [] => false,
        [first, ..] => is_letter_or_digit(*first) && has_flag_bytes(bytes),
    }
}

/// Whether the bytes are a keyword's name: letters, digits and `_-`, of which `-` doesn't come first.
pub fn is_keyword(bytes: &[u8]) -> bool
    ensures { result ≡ is_keyword bytes.now }
{
    match bytes {
        [] => false,
        [first, ..] => *first != b'-' && has_keyword_bytes(bytes),
    }
}

/// Whether the bytes are a package name: letters, digits and `+_-`, of which `-` and `+` don't come
/// first, and no hyphen is followed by a text of version form, whatever the length of its runs of digits.
pub fn is_package(bytes: &[u8]) -> bool
    ensures { result ≡ is_package bytes.now }
{
    match bytes {
        [] => false,
        [first, ..] => {
            !matches!(*first, b'-' | b'+') && has_package_bytes(bytes) && !ends_in_version(bytes)
        }
    }
}

/// The place of the hyphen by which the bytes are a package name, a hyphen and a version (a PF).
/// None where there is no such hyphen, where a run of digits behind it is longer than 18, and where
/// the place is past the room of lists, 2^32 bytes.
pub fn split_pf(bytes: &[u8]) -> Option<u32>
    ensures place { length bytes.now < 2 ^ 32 → result ≡ split_pf bytes.now }
    ensures some { IfSome result (λ at. split_pf bytes.now ≡ Some at) }
{
    match hyphen_place(bytes) {
        Some(at) => match long_run(&bytes[at + 1..]) {
            Some(_) => None,
            None => u32::try_from(at).ok(),
        },
        None => None,
    }
}

fn is_letter_or_digit(b: u8) -> bool
    ensures { result ≡ is_letter_or_digit b }
{
    matches!(b, b'0'..=b'9' | b'a'..=b'z' | b'A'..=b'Z')
}

fn is_category_byte(b: u8) -> bool
    ensures { result ≡ is_category_byte b }
{
    is_letter_or_digit(b) || matches!(b, b'+' | b'_' | b'.' | b'-')
}

fn has_category_bytes(bytes: &[u8]) -> bool
    ensures { result ≡ list_all is_category_byte bytes.now }
{
    bytes.iter().all(|b| is_category_byte(*b))
}

fn is_flag_byte(b: u8) -> bool
    ensures { result ≡ is_flag_byte b }
{
    is_letter_or_digit(b) || matches!(b, b'+' | b'_' | b'@' | b'-')
}

fn has_flag_bytes(bytes: &[u8]) -> bool
    ensures { result ≡ list_all is_flag_byte bytes.now }
{
    bytes.iter().all(|b| is_flag_byte(*b))
}

fn is_keyword_byte(b: u8) -> bool
    ensures { result ≡ is_keyword_byte b }
{
    is_letter_or_digit(b) || matches!(b, b'_' | b'-')
}

fn has_keyword_bytes(bytes: &[u8]) -> bool
    ensures { result ≡ list_all is_keyword_byte bytes.now }
{
    bytes.iter().all(|b| is_keyword_byte(*b))
}

fn is_package_byte(b: u8) -> bool
    ensures { result ≡ is_package_byte b }
{
    is_letter_or_digit(b) || matches!(b, b'+' | b'_' | b'-')
}

fn has_package_bytes(bytes: &[u8]) -> bool
    ensures { result ≡ list_all is_package_byte bytes.now }
{
    bytes.iter().all(|b| is_package_byte(*b))
}

// Whether a hyphen is followed by a text of version form. A version has one hyphen at most, so that
// the reading behind a hyphen ends at the second hyphen after it: each byte is read three times at most.
fn ends_in_version(bytes: &[u8]) -> bool
    ensures { result ≡ ends_in_version bytes.now }
{
    for (i, b) in bytes.iter().enumerate() {
        if *b == b'-' && has_form(&bytes[i + 1..]) {
            return true;
        }
    }
    false
}

// The hyphen between a package name and a text of version form. Only one hyphen has that form behind it,
// so the name is looked at once.
fn hyphen_place(bytes: &[u8]) -> Option<usize>
    ensures place { result ≡ hyphen_from [] bytes.now }
    ensures within { IfSome result (λ at. at < length bytes.now) }
{
    for (i, b) in bytes.iter().enumerate() {
        if *b == b'-' && has_form(&bytes[i + 1..]) && is_package(&bytes[..i]) {
            return Some(i);
        }
    }
    None
}
