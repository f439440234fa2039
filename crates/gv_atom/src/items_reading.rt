//! The item part of an atom. O(bytes).
ghost use Rattle.std.specs.Prelude.{◌≡◌, ◌+◌, ◌==◌, ◌<◌, ◌^◌, filter_map, length, None, Some, IfOk, IfErr, MatchOption};
ghost use Rattle.std.specs.List.{list_any, slice_split};
ghost use Rattle.std.specs.Str.{byte};
ghost use Rattle.gv_atom.specs.Reading.{bad_item, bad_items, default_of, is_bracket, item_fault, item_of, items_of, named, placed};
ghost use Rattle.gv_atom.specs.Parts.{end_place, shown, IsPartFault};

use crate::cutting::{cut, ends_in, split_first, without_last};
use crate::dividing::Division;
use crate::fault::bad;
use crate::{Ask, AtomFault, AtomKind, UseItem, UseItems};
use gv_base::{NoMemory, Text};
use gv_version::is_flag;
use std::alloc::Global;

/// The items between the brackets.
pub(crate) fn read_items(alloc: Global, division: &Division<'_>) -> Result<UseItems, AtomFault>
    requires { end_place (shown division.now) < 2 ^ 64 }
    ensures none { IfOk result (λ items. item_fault (shown division.now) ≡ None) }
    ensures items { IfOk result (λ items. items ≡ items_of division.now.item_part.now) }
    ensures bad { IfErr result (IsPartFault (item_fault (shown division.now))) }
{
    let at = division.start + division.name_part.len() + division.slot_part.len();
    read_part(alloc, at, division.item_part)
}

// `(+)`, `(-)` or nothing.
fn default_of(text: &[u8]) -> Option<Option<bool>>
    ensures { result ≡ default_of text.now }
{
    match text {
        b"" => Some(None),
        b"(+)" => Some(Some(true)),
        b"(-)" => Some(Some(false)),
        _ => None,
    }
}

// A flag and its default.
fn named(alloc: Global, ask: Ask, text: &[u8]) -> Result<Option<UseItem>, NoMemory>
    ensures { IfOk result (λ item. item ≡ named ask text.now) }
{
    let (flag, default) = cut(b'(', text);
    match default_of(default) {
        Some(missing) if is_flag(flag) => Ok(Some(UseItem {
            flag: Text::of(alloc, flag)?,
            ask,
            missing,
        })),
        _ => Ok(None),
    }
}

// What is asked, and the text without its signs.
fn split_ask(text: &[u8]) -> Option<(Ask, &[u8])>
    ensures { MatchOption result (item_of text.now ≡ None) (λ asked. item_of text.now ≡ named asked.0 asked.1.now) }
{
    match text {
        [b'-', rest @ ..] => Some((Ask::Off, rest)),
        [b'!', rest @ ..] => {
            if ends_in(b'=', text) {
                Some((Ask::Opposite, without_last(rest)))
            } else if ends_in(b'?', text) {
                Some((Ask::OffIfNot, without_last(rest)))
            } else {
                None
            }
        }
        _ => {
            if ends_in(b'=', text) {
                Some((Ask::Same, without_last(text)))
            } else if ends_in(b'?', text) {
                Some((Ask::OnIf, without_last(text)))
            } else {
                Some((Ask::On, text))
            }
        }
    }
}

fn item_of(alloc: Global, text: &[u8]) -> Result<Option<UseItem>, NoMemory>
    ensures { IfOk result (λ item. item ≡ item_of text.now) }
{
    match split_ask(text) {
        Some((ask, rest)) => named(alloc, ask, rest),
        None => Ok(None),
    }
}

fn has_bracket(bytes: &[u8]) -> bool
    ensures { result ≡ list_any is_bracket bytes.now }
{
    bytes.iter().any(|b| *b == b'[' || *b == b']')
}

// The items between commas, where the texts begin at the place.
fn read_texts(alloc: Global, at: usize, inner: &[u8]) -> Result<UseItems, AtomFault>
    requires { at + length inner.now < 2 ^ 64 }
    ensures none { IfOk result (λ items. bad_item at (slice_split (λ b. b == byte ",") inner.now) ≡ None) }
    ensures items { IfOk result (λ items. items ≡ filter_map item_of (slice_split (λ b. b == byte ",") inner.now)) }
    ensures bad { IfErr result (IsPartFault (placed AtomKind.Item (bad_item at (slice_split (λ b. b == byte ",") inner.now)))) }
{
    let end = at + inner.len();
    let mut items = UseItems::new(alloc);
    let mut rest = inner;
    'texts: loop {
        let (text, behind) = split_first(b',', rest);
        match item_of(alloc, text)? {
            Some(item) => items.add(item)?,
            None => return Err(bad(AtomKind::Item, end - rest.len())),
        }
        match behind {
            Some(behind) => rest = behind,
            None => {
                items.trim();
                return Ok(items);
            }
        }
    }
}

fn read_part(alloc: Global, at: usize, part: &[u8]) -> Result<UseItems, AtomFault>
    requires { at + length part.now < 2 ^ 64 }
    ensures none { IfOk result (λ items. bad_items at part.now ≡ None) }
    ensures items { IfOk result (λ items. items ≡ items_of part.now) }
    ensures bad { IfErr result (IsPartFault (placed AtomKind.Item (bad_items at part.now))) }
{
    match part {
        [] => Ok(UseItems::new(alloc)),
        [_, behind @ ..] => {
            let inner = without_last(behind);
            if ends_in(b']', part) && !has_bracket(inner) {
                read_texts(alloc, at + 1, inner)
            } else {
                Err(bad(AtomKind::Item, at))
            }
        }
    }
}
