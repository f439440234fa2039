//! Standard input and standard output.
//!
//! A call costs a call of the system, and no copy.
ghost use Rattle.std.specs.Prelude.{◌≡◌, ◌≤◌, ◌<◌, length, take, None, IfOk, OnOk, OnErr, IsErrOf};
ghost use Rattle.std.specs.Io.KnownBytes.{Appends, Consumes, IsAtEnd, Keeps};
ghost use Rattle.gv_base.specs.Causes.{Rose};
ghost use Rattle.gv_base.specs.Outside.{Takes, gains, loses};

use crate::trouble::{read_again, write_again};
use gv_base::{Failed, Sink, SinkFault, Source};
use std::io::{ErrorKind, Read, Write};

/// A reader of bytes, as the standard input.
#[derive(Drop)]
pub struct StdSource<R: Read + Drop> {
    reader: R,
    faults: u64,
}

/// A writer of bytes, as the standard output.
#[derive(Drop)]
pub struct StdSink<W: Write + Drop> {
    writer: W,
    faults: u64,
}

impl<R: Read + Drop> StdSource<R> {
    /// The reader, which has not failed yet.
    pub fn new(reader: R) -> Self
        ensures reader { result.reader ≡ reader }
        ensures faults { result.faults ≡ 0 }
    {
        StdSource { reader, faults: 0 }
    }

    // Counts a fault.
    fn failed(&mut self) -> Failed
        ensures rose { Rose self.old.faults self.new.faults }
        ensures later { self.old.faults ≤ self.new.faults }
        ensures reader { self.new.reader ≡ self.old.reader }
    {
        self.faults = self.faults.saturating_add(1);
        Failed
    }
}

impl<W: Write + Drop> StdSink<W> {
    /// The writer, which has not failed yet.
    pub fn new(writer: W) -> Self
        ensures writer { result.writer ≡ writer }
        ensures faults { result.faults ≡ 0 }
    {
        StdSink { writer, faults: 0 }
    }

    // Counts a fault.
    fn refused(&mut self) -> SinkFault
        ensures fault { result ≡ SinkFault.Failed }
        ensures rose { Rose self.old.faults self.new.faults }
        ensures later { self.old.faults ≤ self.new.faults }
        ensures writer { self.new.writer ≡ self.old.writer }
    {
        self.faults = self.faults.saturating_add(1);
        SinkFault::Failed
    }
}

impl<R: Read + Drop> Source for StdSource<R> {
    ghost left = { λ _. None };

    ghost faults = { λ s. s.faults };

    fn next(&mut self, room: &mut [u8]) -> Result<usize, Failed>
        ensures bound { IfOk result (λ n. n ≤ length room.new) }
        ensures later { self.old.faults ≤ self.new.faults }
        ensures calm { OnOk result (self.new.faults ≡ self.old.faults) }
        ensures failed { OnErr result (Rose self.old.faults self.new.faults) }

        // Of a reader that tells its bytes exactly those were taken that are answered, and none only where none are left.
        ensures bytes { IfOk result (λ n. Consumes (R.remaining self.old.reader) (R.remaining self.new.reader) (take n room.new)) }
        ensures end { IfOk result (λ n. n ≡ 0 → 0 < length room.old → IsAtEnd (R.remaining self.new.reader)) }
        ensures kept { OnErr result (Keeps (R.remaining self.old.reader) (R.remaining self.new.reader)) }
    {
        match read_again(&mut self.reader, room) {
            Ok(n) => Ok(n),
            Err(_) => Err(self.failed()),
        }
    }
}

impl<W: Write + Drop> Sink for StdSink<W> {
    ghost held = { λ _. None };

    ghost faults = { λ s. s.faults };

    fn put(&mut self, piece: &[u8]) -> Result<usize, SinkFault>
        ensures bound { IfOk result (λ n. n ≤ length piece.now) }
        ensures later { self.old.faults ≤ self.new.faults }
        ensures calm { IfOk result (λ n. 0 < n → self.new.faults ≡ self.old.faults) }
        ensures calm_empty { IfOk result (λ n. length piece.now ≡ 0 → self.new.faults ≡ self.old.faults) }
        ensures failed { IsErrOf result SinkFault.Failed → Rose self.old.faults self.new.faults }
        ensures none { IfOk result (λ n. n ≡ 0 → 0 < length piece.now → Rose self.old.faults self.new.faults) }

        // A writer that tells its bytes has gained exactly those that are answered.
        ensures bytes { IfOk result (λ n. Appends (W.contents self.old.writer) (W.contents self.new.writer) (take n piece.now)) }
        ensures kept { OnErr result (Keeps (W.contents self.old.writer) (W.contents self.new.writer)) }
    {
        match write_again(&mut self.writer, piece) {
            Ok(0) => {
                if !piece.is_empty() {
                    let _ = self.refused();
                }
                Ok(0)
            }
            Ok(n) => Ok(n),
            Err(e) if e.kind() == ErrorKind::OutOfMemory => Err(SinkFault::NoMemory),
            Err(_) => Err(self.refused()),
        }
    }
}
