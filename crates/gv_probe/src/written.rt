//! Answers as they are told, and as they are written in a line.
use gv_base::{NoMemory, Text, Texts};
use std::alloc::{AllocError, Global};

/// An answer that is being told. Where memory is wanted, the rest is passed over, and `bytes` says so at the end: who tells
/// something has no way out at each word then, with the drops of all that it holds, and each of them would be proved.
#[derive(Drop)]
pub(crate) struct Telling {
    alloc: Global,
    told: Vec<u8>,
    is_short: bool,
}

impl Telling {
    pub(crate) fn new(alloc: Global) -> Telling {
        Telling {
            alloc,
            told: Vec::new(alloc),
            is_short: false,
        }
    }

    /// These pieces.
    pub(crate) fn of(alloc: Global, pieces: &[&[u8]]) -> Telling {
        let mut told = Telling::new(alloc);
        for piece in pieces {
            told.add(piece);
        }
        told
    }

    /// All that was told.
    pub(crate) fn bytes(&self) -> Result<&[u8], NoMemory> {
        if self.is_short {
            return Err(NoMemory);
        }
        Ok(self.told.as_slice())
    }

    /// Whether nothing was told.
    pub(crate) fn is_empty(&self) -> bool {
        self.told.is_empty()
    }

    /// Forgets what was told.
    pub(crate) fn clear(&mut self) {
        self.told.clear();
    }

    /// Notes that memory is wanted.
    pub(crate) fn lack(&mut self) {
        self.is_short = true;
    }

    /// Notes that memory is wanted, where it was for this.
    pub(crate) fn done(&mut self, done: Result<(), NoMemory>) {
        if done.is_err() {
            self.lack();
        }
    }

    pub(crate) fn add(&mut self, bytes: &[u8]) {
        if self.told.extend_from_slice(bytes).is_err() {
            self.lack();
        }
    }

    pub(crate) fn say(&mut self, words: &str) {
        self.add(words.as_bytes());
    }

    pub(crate) fn yes_no(&mut self, yes: bool) {
        self.say(if yes { "yes" } else { "no" });
    }

    /// Adds what was made by `format!`.
    pub(crate) fn formatted(&mut self, made: Result<String, AllocError>) {
        match made {
            Ok(words) => self.add(words.as_bytes()),
            Err(_) => self.lack(),
        }
    }

    pub(crate) fn number(&mut self, number: u64) {
        let made = format!(in self.alloc; "{number}");
        self.formatted(made);
    }

    /// Adds what a call gave.
    pub(crate) fn text(&mut self, text: Result<Text, NoMemory>) {
        match text {
            Ok(text) => self.add(text.bytes()),
            Err(NoMemory) => self.lack(),
        }
    }

    /// Adds what a call gave, with a byte between.
    pub(crate) fn texts(&mut self, texts: Result<Texts, NoMemory>, between: u8) {
        match texts {
            Ok(texts) => self.joined(&texts, between),
            Err(NoMemory) => self.lack(),
        }
    }

    /// Adds texts with a byte between.
    pub(crate) fn joined(&mut self, texts: &Texts, between: u8) {
        self.text(texts.joined(self.alloc, between));
    }

    /// Adds another answer.
    pub(crate) fn all_of(&mut self, other: &Telling) {
        if other.is_short {
            self.lack();
        }
        self.add(other.told.as_slice());
    }

    /// Whether another answer is the same.
    pub(crate) fn is(&self, other: &Telling) -> bool {
        self.told.as_slice() == other.told.as_slice()
    }

    /// Adds another answer behind `; `, unless it is the one that was told.
    pub(crate) fn also(&mut self, other: &Telling) {
        if !self.is(other) {
            self.add(b"; ");
            self.all_of(other);
        }
    }

    /// Adds lines, each behind a mark.
    pub(crate) fn behind(&mut self, mark: &[u8], lines: &[u8]) {
        let mut begins = true;
        for b in lines {
            if begins {
                self.add(mark);
            }
            self.add(&[*b]);
            begins = *b == b'\n';
        }
    }

    /// Adds bytes as they are written: printable ones as they are, `\n`, `\t` and `\\`, and others as `\x` and two digits.
    pub(crate) fn written(&mut self, bytes: &[u8]) {
        for b in bytes {
            match *b {
                b'\n' => self.add(b"\\n"),
                b'\t' => self.add(b"\\t"),
                b'\\' => self.add(b"\\\\"),
                b' '..=b'~' => self.add(&[*b]),
                _ => self.digits("\\x", *b),
            }
        }
    }

    /// Adds two digits of a byte behind a mark.
    pub(crate) fn digits(&mut self, mark: &str, b: u8) {
        let made = format!(in self.alloc; "{mark}{b:02x}");
        self.formatted(made);
    }
}
