//! What a call is given: bytes, as they are written in a line.
//!
//! Parts are separated by `;`. Behind a backslash `n`, `t`, `\` and `s` stand for a line feed, a tab, a backslash and `;`,
//! `x` and two small digits for any byte, and a number in braces has what is behind it, up to the next one, so many times,
//! with the number of the time, from 0, where `#` stands behind a backslash.
ghost use Rattle.std.specs.Prelude.{◌≤◌};

use crate::written::Telling;
use gv_base::{NoMemory, Text, Texts, until};
use std::alloc::Global;

/// The parts of a line.
#[derive(Drop)]
pub(crate) struct Given {
    parts: Texts,
    none: Text,
}

impl Given {
    /// A part, from 0, and an empty one where it isn't there.
    pub(crate) fn part(&self, n: usize) -> &Text {
        match self.parts.items().get(n) {
            Some(part) => part,
            None => &self.none,
        }
    }

    /// The bytes of a part.
    pub(crate) fn bytes(&self, n: usize) -> &[u8] {
        self.part(n).bytes()
    }

    /// The number that a part is, and 0 where it isn't there.
    pub(crate) fn number(&self, n: usize) -> u64 {
        number_in(self.bytes(n))
    }

    /// The same, at most a million.
    pub(crate) fn small_number(&self, n: usize) -> u32 {
        self.number(n).min(1_000_000) as u32
    }

    /// The same, and at least 1.
    pub(crate) fn budget(&self, n: usize) -> u32
        ensures some { 1 ≤ result }
        ensures most { result ≤ 1000000 }
    {
        self.number(n).clamp(1, 1_000_000) as u32
    }

    /// A part as words, and none where it has other bytes than those of words.
    pub(crate) fn words(&self, n: usize) -> &str {
        words_in(self.bytes(n))
    }

    /// A copy of the parts from this one on.
    pub(crate) fn copy_from(&self, alloc: Global, n: usize) -> Result<Texts, NoMemory> {
        let mut parts = Texts::new(alloc);
        for part in self.from(n) {
            parts.add(part.copy(alloc)?)?;
        }
        Ok(parts)
    }

    /// The parts from this one on.
    pub(crate) fn from(&self, n: usize) -> &[Text] {
        self.parts.items().get(n..).unwrap_or(&[])
    }
}

/// Bytes as words, and none where they are other bytes than those of words.
pub(crate) fn words_in(bytes: &[u8]) -> &str {
    std::str::from_utf8(bytes).unwrap_or("")
}

/// The bytes in front of the first one of these, and those behind it.
pub(crate) fn cut_at(bytes: &[u8], byte: u8) -> (&[u8], &[u8]) {
    let front = until(bytes, byte);
    let behind = bytes.get(front.len().saturating_add(1)..);
    (front, behind.unwrap_or(&[]))
}

/// The number that digits are; other bytes are passed over.
pub(crate) fn number_in(digits: &[u8]) -> u64 {
    let mut number: u64 = 0;
    for b in digits {
        if b.is_ascii_digit() {
            number = number
                .saturating_mul(10)
                .saturating_add(u64::from(b.saturating_sub(b'0')));
        }
    }
    number
}

/// The parts of a line behind its call.
pub(crate) fn given_in(alloc: Global, parts: &str) -> Result<Given, NoMemory> {
    let none = Text::of(alloc, b"")?;
    let parts = parts_in(alloc, parts)?;
    Ok(Given { parts, none })
}

fn parts_in(alloc: Global, line: &str) -> Result<Texts, NoMemory> {
    let mut parts = Texts::new(alloc);
    for part in line.split(';') {
        parts.add(read_part(alloc, part.as_bytes())?)?;
    }
    Ok(parts)
}

// What the next byte is read as.
#[derive(Clone, Copy)]
enum Next {
    Plain,
    Behind,
    High,
    Low(u8),
    Times,
}

// A part that is being read: what is done, and what comes so many times behind it.
#[derive(Drop)]
struct Reading {
    done: Telling,
    piece: Telling,
    times: u32,
    next: Next,
}

/// The bytes that are written so.
pub(crate) fn read_part(alloc: Global, part: &[u8]) -> Result<Text, NoMemory> {
    let mut reading = Reading {
        done: Telling::new(alloc),
        piece: Telling::new(alloc),
        times: 1,
        next: Next::Plain,
    };
    for b in part {
        reading.take(*b);
    }
    reading.end_piece();
    Text::of(alloc, reading.done.bytes()?)
}

fn digit(b: u8) -> u8 {
    if b < b'a' {
        b.saturating_sub(b'0')
    } else {
        b.saturating_sub(b'a').saturating_add(10)
    }
}

impl Reading {
    fn take(&mut self, b: u8) {
        match self.next {
            Next::Plain if b == b'\\' => self.next = Next::Behind,
            Next::Plain => self.piece.add(&[b]),
            Next::Behind => self.take_behind(b),
            Next::High => self.next = Next::Low(digit(b)),
            Next::Low(high) => {
                self.next = Next::Plain;
                let byte = high.saturating_mul(16).saturating_add(digit(b));
                self.piece.add(&[byte]);
            }
            Next::Times if b == b'}' => self.next = Next::Plain,
            Next::Times => {
                self.times = self
                    .times
                    .saturating_mul(10)
                    .saturating_add(u32::from(digit(b)));
            }
        }
    }

    fn take_behind(&mut self, b: u8) {
        self.next = Next::Plain;
        match b {
            b'n' => self.piece.add(b"\n"),
            b't' => self.piece.add(b"\t"),
            b's' => self.piece.add(b";"),
            b'#' => self.piece.add(&[NUMBER]),
            b'x' => self.next = Next::High,
            b'{' => self.begin_times(),
            _ => self.piece.add(&[b]),
        }
    }

    fn begin_times(&mut self) {
        self.end_piece();
        self.piece.clear();
        self.times = 0;
        self.next = Next::Times;
    }

    fn end_piece(&mut self) {
        let Ok(piece) = self.piece.bytes() else {
            self.done.lack();
            return;
        };
        if self.times == 1 {
            self.done.add(piece);
            return;
        }
        for n in 0..self.times {
            add_numbered(&mut self.done, piece, n);
        }
    }
}

// The byte that stands for the number of the time in what comes more than once.
const NUMBER: u8 = 1;

// Adds a piece, with this number where one is asked for.
fn add_numbered(done: &mut Telling, piece: &[u8], n: u32) {
    for b in piece {
        match *b {
            NUMBER => done.number(u64::from(n)),
            _ => done.add(&[*b]),
        }
    }
}
