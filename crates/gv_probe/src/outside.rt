//! The files, the store and the input over which a run goes, as lines say them.
//!
//! `@PATH` begins a file, each `|` behind it is a line of it, and each `.` adds bytes without a line feed, as `*` does with
//! bytes that are written as in a call; `%CATEGORY NAME VERSION` begins an entry with the digest of
//! its ebuild, which is empty; `-PATH` takes a file away, `new` all of them. `many FIRST;COUNT;PATH;BYTES` puts files whose
//! numbers stand for each `#` in the path and the bytes, and the next number for each `+`. `keep` leaves the store as the last
//! run left it, and `store PATH` begins a file of it. `&` begins a report to emit. `< LINE` is a line of the input, without a line feed where `~` ends it, and `set NAME NUMBER` a number: `out`, `err`, `tree`, `store` and `input` of the call
//! that fails, `most` of the bytes that a sink takes in a call, `pieces` of those that the input gives.
use crate::given::{Given, given_in, number_in, read_part};
use crate::written::Telling;
use gv_base::{
    Calls, Files, MemSink, MemSource, MemStore, MemTree, NoMemory, Text, Texts, words_of,
};
use std::alloc::Global;

/// What a run goes over. What is of one run alone is forgotten behind it.
#[derive(Drop)]
pub(crate) struct Outside {
    files: Files,
    path: Telling,
    in_store: bool,
    reports: Texts,
    store: Files,
    before: Files,
    numbers: Files,
    keeps: bool,
    input: Telling,
}

/// The call of this number.
pub(crate) fn calls_of(alloc: Global, number: u32) -> Result<Calls, NoMemory> {
    let mut calls = Calls::new(alloc);
    calls.add(number)?;
    Ok(calls)
}

fn append(alloc: Global, files: &mut Files, path: &[u8], more: &Telling, told: &mut Telling) {
    let mut bytes = Telling::new(alloc);
    bytes.add(files.get(path).unwrap_or(&[]));
    bytes.all_of(more);
    put(files, path, &bytes, told);
}

fn put(files: &mut Files, path: &[u8], bytes: &Telling, told: &mut Telling) {
    match bytes.bytes() {
        Ok(bytes) => told.done(files.put(path, bytes)),
        Err(NoMemory) => told.lack(),
    }
}

// The bytes with a number in place of each `#`, and the next one in place of each `+`.
fn numbered(alloc: Global, bytes: &[u8], number: u64) -> Telling {
    let mut found = Telling::new(alloc);
    for b in bytes {
        match *b {
            b'#' => found.number(number),
            b'+' => found.number(number.saturating_add(1)),
            _ => found.add(&[*b]),
        }
    }
    found
}

impl Outside {
    pub(crate) fn new(alloc: Global) -> Outside {
        Outside {
            files: Files::new(alloc),
            path: Telling::new(alloc),
            in_store: false,
            reports: Texts::new(alloc),
            store: Files::new(alloc),
            before: Files::new(alloc),
            numbers: Files::new(alloc),
            keeps: false,
            input: Telling::new(alloc),
        }
    }

    /// Takes a line, and answers whether it was one of the outside. What wants memory is told.
    pub(crate) fn takes(&mut self, alloc: Global, line: &[u8], told: &mut Telling) -> bool {
        match line.split_first() {
            None => false,
            Some((b'<', more)) => self.takes_input(alloc, more, told),
            Some((mark, more)) => {
                self.takes_marked(alloc, *mark, more, told)
                    || self.takes_words(alloc, std::str::from_utf8(line).unwrap_or(""), told)
            }
        }
    }

    fn takes_marked(&mut self, alloc: Global, mark: u8, more: &[u8], told: &mut Telling) -> bool {
        match mark {
            b'@' => self.begin(more, told),
            b'|' => self.add(alloc, more, b"\n", told),
            b'.' => self.add(alloc, more, b"", told),
            b'*' => self.add_written(alloc, more, told),
            b'&' => self.add_report(alloc, more, told),
            b'%' => self.begin_entry(alloc, more, told),
            b'-' => self.files.cut(more),
            _ => return false,
        }
        true
    }

    fn add_report(&mut self, alloc: Global, line: &[u8], told: &mut Telling) {
        match Text::of(alloc, line) {
            Ok(line) => told.done(self.reports.add(line)),
            Err(NoMemory) => told.lack(),
        }
    }

    // What stands behind the mark of the input.
    fn takes_input(&mut self, alloc: Global, line: &[u8], told: &mut Telling) -> bool {
        match line.split_first() {
            Some((b'*', more)) => self.take_written(alloc, more, told),
            Some((b' ', more)) => self.take_line(more),
            _ => return false,
        }
        true
    }

    fn take_written(&mut self, alloc: Global, part: &[u8], told: &mut Telling) {
        match read_part(alloc, part) {
            Ok(bytes) => self.input.add(bytes.bytes()),
            Err(NoMemory) => told.lack(),
        }
    }

    fn take_line(&mut self, line: &[u8]) {
        match line.split_last() {
            Some((b'~', more)) => self.input.add(more),
            _ => {
                self.input.add(line);
                self.input.add(b"\n");
            }
        }
    }

    fn takes_words(&mut self, alloc: Global, line: &str, told: &mut Telling) -> bool {
        let (word, more) = line.split_once(' ').unwrap_or((line, ""));
        match word {
            "new" => *self = Outside::new(alloc),
            "keep" => self.keeps = true,
            "set" => self.set(more, told),
            "many" => self.put_many(alloc, more, told),
            "store" => self.begin_stored(alloc, more.as_bytes(), told),
            _ => return false,
        }
        true
    }

    fn begin(&mut self, path: &[u8], told: &mut Telling) {
        self.path.clear();
        self.path.add(path);
        self.in_store = false;
        told.done(self.files.put(path, b""));
    }

    // The store is empty but for what is put into it, unless it is kept.
    fn begin_stored(&mut self, alloc: Global, path: &[u8], told: &mut Telling) {
        if !self.keeps {
            self.store = Files::new(alloc);
            self.keeps = true;
        }
        self.path.clear();
        self.path.add(path);
        self.in_store = true;
        told.done(self.store.put(path, b""));
    }

    fn add(&mut self, alloc: Global, more: &[u8], end: &[u8], told: &mut Telling) {
        let mut bytes = Telling::new(alloc);
        bytes.add(more);
        bytes.add(end);
        match self.path.bytes() {
            Ok(path) if self.in_store => append(alloc, &mut self.store, path, &bytes, told),
            Ok(path) => append(alloc, &mut self.files, path, &bytes, told),
            Err(NoMemory) => told.lack(),
        }
    }

    fn add_written(&mut self, alloc: Global, more: &[u8], told: &mut Telling) {
        match read_part(alloc, more) {
            Ok(bytes) => self.add(alloc, bytes.bytes(), b"", told),
            Err(NoMemory) => told.lack(),
        }
    }

    fn put_many(&mut self, alloc: Global, parts: &str, told: &mut Telling) {
        let Ok(given) = given_in(alloc, parts) else {
            return told.lack();
        };
        let first = given.number(0);
        for number in first..first.saturating_add(given.number(1)) {
            self.put_numbered(alloc, &given, number, told);
        }
    }

    fn put_numbered(&mut self, alloc: Global, given: &Given, number: u64, told: &mut Telling) {
        let path = numbered(alloc, given.bytes(2), number);
        let bytes = numbered(alloc, given.bytes(3), number);
        match path.bytes() {
            Ok(path) => put(&mut self.files, path, &bytes, told),
            Err(NoMemory) => told.lack(),
        }
    }

    fn begin_entry(&mut self, alloc: Global, words: &[u8], told: &mut Telling) {
        let Ok(words) = words_of(alloc, words) else {
            return told.lack();
        };
        if let [category, name, version] = words.items() {
            self.put_ebuild(alloc, category.bytes(), name.bytes(), version.bytes(), told);
            self.begin_cached(alloc, category.bytes(), name.bytes(), version.bytes(), told);
            self.add(
                alloc,
                b"_md5_=d41d8cd98f00b204e9800998ecf8427e",
                b"\n",
                told,
            );
        }
    }

    fn put_ebuild(
        &mut self,
        alloc: Global,
        category: &[u8],
        name: &[u8],
        version: &[u8],
        told: &mut Telling,
    ) {
        let path = Telling::of(
            alloc,
            &[category, b"/", name, b"/", name, b"-", version, b".ebuild"],
        );
        match path.bytes() {
            Ok(path) => told.done(self.files.put(path, b"")),
            Err(NoMemory) => told.lack(),
        }
    }

    fn begin_cached(
        &mut self,
        alloc: Global,
        category: &[u8],
        name: &[u8],
        version: &[u8],
        told: &mut Telling,
    ) {
        let path = Telling::of(
            alloc,
            &[b"metadata/md5-cache/", category, b"/", name, b"-", version],
        );
        match path.bytes() {
            Ok(path) => self.begin(path, told),
            Err(NoMemory) => told.lack(),
        }
    }

    fn set(&mut self, words: &str, told: &mut Telling) {
        let (name, number) = words.split_once(' ').unwrap_or((words, ""));
        told.done(self.numbers.put(name.as_bytes(), number.as_bytes()));
    }

    // The number of a name, and another one where it isn't set.
    fn number(&self, name: &[u8], unset: u32) -> u32 {
        match self.numbers.get(name) {
            Some(digits) => number_in(digits).min(1_000_000) as u32,
            None => unset,
        }
    }

    /// Tells the answer to a call about the store behind the last run, if it is one.
    pub(crate) fn answer(&self, call: &str, given: &Given, told: &mut Telling) -> bool {
        let path = given.bytes(0);
        match call {
            "stored" => self.stored(path, told),
            "left" => told.say(self.left(path)),
            "same" => told.yes_no(self.store.get(path) == self.store.get(given.bytes(1))),
            _ => return false,
        }
        true
    }

    // Whether a file of the store is there behind the last run, and the same as before it.
    fn left(&self, path: &[u8]) -> &'static str {
        match (self.before.get(path), self.store.get(path)) {
            (_, None) => "none",
            (None, Some(_)) => "new",
            (Some(before), Some(after)) if before == after => "same",
            _ => "other",
        }
    }

    // How many bytes a file of the store has behind the last run.
    fn stored(&self, path: &[u8], told: &mut Telling) {
        match self.store.get(path) {
            Some(bytes) => told.number(bytes.len() as u64),
            None => told.say("none"),
        }
    }

    /// Keeps what the store has before a run.
    pub(crate) fn begin_run(&mut self, alloc: Global, store: &MemStore) -> Result<(), NoMemory> {
        self.before = store.files().copy(alloc)?;
        Ok(())
    }

    /// Keeps what it has behind it.
    pub(crate) fn end_run(&mut self, alloc: Global, store: &MemStore) -> Result<(), NoMemory> {
        self.store = store.files().copy(alloc)?;
        Ok(())
    }

    /// Forgets what is of one run alone.
    pub(crate) fn forget(&mut self, alloc: Global) {
        self.numbers = Files::new(alloc);
        self.keeps = false;
        self.input.clear();
    }

    pub(crate) fn reports(&self) -> &Texts {
        &self.reports
    }

    /// The tree once these bytes are put at a path.
    pub(crate) fn edited(
        &self,
        alloc: Global,
        path: &[u8],
        bytes: &[u8],
    ) -> Result<MemTree, NoMemory> {
        let mut files = self.files.copy(alloc)?;
        files.put(path, bytes)?;
        Ok(MemTree::new(files, Calls::new(alloc)))
    }

    pub(crate) fn tree(&self, alloc: Global) -> Result<MemTree, NoMemory> {
        let calls = self.calls(alloc, b"tree")?;
        Ok(MemTree::new(self.files.copy(alloc)?, calls))
    }

    pub(crate) fn store(&self, alloc: Global) -> Result<MemStore, NoMemory> {
        let calls = self.calls(alloc, b"store")?;
        Ok(MemStore::new(self.kept(alloc)?, calls))
    }

    /// What the store has at a path behind the last run.
    pub(crate) fn kept_at(&self, path: &[u8]) -> &[u8] {
        self.store.get(path).unwrap_or(&[])
    }

    fn kept(&self, alloc: Global) -> Result<Files, NoMemory> {
        if self.keeps {
            self.store.copy(alloc)
        } else {
            Ok(Files::new(alloc))
        }
    }

    pub(crate) fn input(&self, alloc: Global) -> Result<MemSource, NoMemory> {
        let calls = self.calls(alloc, b"input")?;
        let input = Text::of(alloc, self.input.bytes()?)?;
        Ok(MemSource::new(input, self.number(b"pieces", 4096).max(1), calls))
    }

    /// The sink with this name.
    pub(crate) fn sink(&self, alloc: Global, name: &[u8]) -> Result<MemSink, NoMemory> {
        let calls = self.calls(alloc, name)?;
        Ok(MemSink::new(alloc, self.number(b"most", 4096).max(1), calls))
    }

    // The call of an object with this name that fails.
    fn calls(&self, alloc: Global, name: &[u8]) -> Result<Calls, NoMemory> {
        calls_of(alloc, self.number(name, 0))
    }
}
