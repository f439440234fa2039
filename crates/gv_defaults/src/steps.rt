//! A value read from its front: what the first byte, with those that belong to it, stands for.
//!
//! `first_step` costs O(the bytes that it takes).
ghost use Rattle.std.specs.Prelude.{◌≡◌, ◌∷◌, [], List, ℕ, MatchOption};
ghost use Rattle.gv_defaults.specs.Meaning.{escaped, itself, is_dollar};
ghost use Rattle.gv_defaults.specs.Quotes.{quotes_after};
ghost use Rattle.gv_defaults.specs.Steps.{meant_by, IsStep, IsDollar};

use crate::cut::cut_first;
use crate::names::{Reference, name_behind};
use crate::quotes::{Quotes, escapes, quotes_after};

// What a step stands for.
#[derive(Clone, Copy, Drop)]
pub(crate) enum Meant<'a> {
    Nothing,
    Byte { byte: u8 },
    // A backslash that stays, and the byte behind it.
    Backslash { byte: u8 },
    // The value of this name.
    Value { name: &'a [u8] },
}

// One byte of a value, with those that belong to it: what a backslash takes along, the name behind a dollar sign.
#[derive(Clone, Copy, Drop)]
pub(crate) struct Step<'a> {
    pub(crate) meant: Meant<'a>,
    // In bytes.
    pub(crate) len: usize,
    // The quotes behind it.
    pub(crate) quotes: Quotes,
}

/// The first step of what is left of a value in these quotes; `None` exactly where nothing is left.
pub(crate) fn first_step(quotes: Quotes, bytes: &[u8]) -> Option<Step<'_>>
    ensures { MatchOption result (bytes.now ≡ []) (IsStep quotes bytes.now) }
{
    match cut_first(bytes) {
        None => None,
        Some((byte, behind)) => Some(step_at(quotes, byte, behind)),
    }
}

#[tactic(auto, using(crate::proofs::StepLemmas::last_byte))]
fn step_at(quotes: Quotes, byte: u8, behind: &[u8]) -> Step<'_>
    ensures { IsStep quotes (byte ∷ behind.now) result }
{
    match cut_first(behind) {
        None => byte_step(quotes, byte),
        Some((next, _)) => {
            if escapes(quotes, byte) {
                Step {
                    meant: escaped(quotes, next),
                    len: 2,
                    quotes,
                }
            } else if is_dollar(quotes, byte) {
                dollar_step(quotes, behind)
            } else {
                byte_step(quotes, byte)
            }
        }
    }
}

// A byte that is itself, or a quote.
fn byte_step<'a>(quotes: Quotes, byte: u8) -> Step<'a>
    ensures meant { (look : List ℕ → List ℕ) → meant_by look result.meant ≡ itself quotes byte }
    ensures len { result.len ≡ 1 }
    ensures quotes { result.quotes ≡ quotes_after quotes byte }
{
    Step {
        meant: itself(quotes, byte),
        len: 1,
        quotes: quotes_after(quotes, byte),
    }
}

// A dollar sign, with the name behind it where one is there.
fn dollar_step(quotes: Quotes, behind: &[u8]) -> Step<'_>
    ensures { IsDollar quotes behind.now result }
{
    match name_behind(behind) {
        None => Step {
            meant: Meant::Byte { byte: b'$' },
            len: 1,
            quotes,
        },
        Some(Reference { name, len }) => Step {
            meant: Meant::Value { name },
            len: len + 1,
            quotes,
        },
    }
}

fn escaped<'a>(quotes: Quotes, byte: u8) -> Meant<'a>
    ensures { (look : List ℕ → List ℕ) → meant_by look result ≡ escaped quotes byte }
{
    match quotes {
        Quotes::Bare => match byte {
            b'\n' => Meant::Nothing,
            _ => Meant::Byte { byte },
        },
        Quotes::Double => match byte {
            b'\n' => Meant::Nothing,
            b'"' | b'\\' | b'$' => Meant::Byte { byte },
            _ => Meant::Backslash { byte },
        },
        Quotes::Single => Meant::Backslash { byte },
    }
}

fn itself<'a>(quotes: Quotes, byte: u8) -> Meant<'a>
    ensures { (look : List ℕ → List ℕ) → meant_by look result ≡ itself quotes byte }
{
    match quotes {
        Quotes::Bare => match byte {
            b'"' | b'\'' => Meant::Nothing,
            _ => Meant::Byte { byte },
        },
        Quotes::Double => match byte {
            b'"' => Meant::Nothing,
            _ => Meant::Byte { byte },
        },
        Quotes::Single => match byte {
            b'\'' => Meant::Nothing,
            _ => Meant::Byte { byte },
        },
    }
}

fn is_dollar(quotes: Quotes, byte: u8) -> bool
    ensures { result ≡ is_dollar quotes byte }
{
    match quotes {
        Quotes::Bare => byte == b'$',
        Quotes::Double => byte == b'$',
        Quotes::Single => false,
    }
}
