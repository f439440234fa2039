//! The form of a version (PMS chapter 3), read byte by byte without memory.
//!
//! `longest_form` stops at the first byte with which no version can go on, so it reads at most one
//! byte more than the longest front of the bytes that some version begins with; `long_run` is O(bytes).
ghost use Rattle.std.specs.Prelude.{◌≡◌, ◌≤◌, length};
ghost use Rattle.gv_version.specs.FormReading.{is_whole, next, digit_only, after_number, after_part, after_suffix, after_underscore, only};
ghost use Rattle.gv_version.specs.Form.{has_form, long_run, longest_form};

use crate::digits::run_length;

/// The longest run of digits that a version may have, so that each number fits 64 bits.
pub(crate) const MAX_DIGITS: usize = 18;

/// What was read so far of a version.
#[derive(Clone, Copy)]
pub(crate) enum State {
    Start,
    Number,
    Dot,
    Letter,
    Underscore,
    A,
    Al,
    Alp,
    Alph,
    B,
    Be,
    Bet,
    P,
    Pr,
    R,
    Suffix,
    SuffixNumber,
    Hyphen,
    HyphenR,
    Revision,
    Nothing,
}

impl State {
    fn next(self, byte: u8) -> State
        ensures { result ≡ next self byte }
    {
        match self {
            State::Start | State::Dot => digit_only(State::Number, byte),
            State::Number => after_number(byte),
            State::Letter => after_part(byte),
            State::Underscore => after_underscore(byte),
            State::A => only(b'l', State::Al, byte),
            State::Al => only(b'p', State::Alp, byte),
            State::Alp => only(b'h', State::Alph, byte),
            State::Alph => only(b'a', State::Suffix, byte),
            State::B => only(b'e', State::Be, byte),
            State::Be => only(b't', State::Bet, byte),
            State::Bet => only(b'a', State::Suffix, byte),
            State::P if byte == b'r' => State::Pr,
            State::Pr => only(b'e', State::Suffix, byte),
            State::R => only(b'c', State::Suffix, byte),
            State::P | State::Suffix | State::SuffixNumber => after_suffix(byte),
            State::Hyphen => only(b'r', State::HyphenR, byte),
            State::HyphenR | State::Revision => digit_only(State::Revision, byte),
            State::Nothing => State::Nothing,
        }
    }

    // Whether what was read is a version.
    fn is_whole(self) -> bool
        ensures { result ≡ is_whole self }
    {
        matches!(
            self,
            State::Number
                | State::Letter
                | State::P
                | State::Suffix
                | State::SuffixNumber
                | State::Revision
        )
    }
}

/// The length of the longest front of the bytes that has the form of a version, 0 where none has.
pub(crate) fn longest_form(bytes: &[u8]) -> usize
    ensures longest { result ≡ longest_form bytes.now }
    ensures within { result ≤ length bytes.now }
{
    let mut state = State::Start;
    let mut longest = 0;
    for (i, byte) in bytes.iter().enumerate() {
        state = state.next(*byte);
        if let State::Nothing = state {
            return longest;
        }
        if state.is_whole() {
            longest = i + 1;
        }
    }
    longest
}

/// Whether the bytes have the form of a version, whatever the length of their runs of digits.
#[tactic(auto, using(crate::proofs::LongestForm::form_whole))]
pub(crate) fn has_form(bytes: &[u8]) -> bool
    ensures { result ≡ has_form bytes.now }
{
    match bytes {
        [] => false,
        [_, ..] => longest_form(bytes) == bytes.len(),
    }
}

/// The place of the first run of more than 18 digits.
#[tactic(auto, using(crate::proofs::LongRuns::long_here))]
pub(crate) fn long_run(bytes: &[u8]) -> Option<usize>
    ensures { result ≡ long_run bytes.now }
{
    let mut at = 0;
    while at < bytes.len() {
        let run = run_length(&bytes[at..]);
        if run > MAX_DIGITS {
            return Some(at);
        }
        at += run + 1;
    }
    None
}

fn only(wanted: u8, state: State, byte: u8) -> State
    ensures { result ≡ only wanted state byte }
{
    if byte == wanted {
        state
    } else {
        State::Nothing
    }
}

fn digit_only(state: State, byte: u8) -> State
    ensures { result ≡ digit_only state byte }
{
    if byte.is_ascii_digit() {
        state
    } else {
        State::Nothing
    }
}

// A suffix or a revision begins.
fn after_part(byte: u8) -> State
    ensures { result ≡ after_part byte }
{
    match byte {
        b'_' => State::Underscore,
        b'-' => State::Hyphen,
        _ => State::Nothing,
    }
}

fn after_number(byte: u8) -> State
    ensures { result ≡ after_number byte }
{
    match byte {
        b'0'..=b'9' => State::Number,
        b'.' => State::Dot,
        b'a'..=b'z' => State::Letter,
        _ => after_part(byte),
    }
}

fn after_underscore(byte: u8) -> State
    ensures { result ≡ after_underscore byte }
{
    match byte {
        b'a' => State::A,
        b'b' => State::B,
        b'p' => State::P,
        b'r' => State::R,
        _ => State::Nothing,
    }
}

fn after_suffix(byte: u8) -> State
    ensures { result ≡ after_suffix byte }
{
    match byte {
        b'0'..=b'9' => State::SuffixNumber,
        _ => after_part(byte),
    }
}
