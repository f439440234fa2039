//! How a call of the system failed, and calls that are made again where a signal interrupts them.
ghost use Rattle.std.specs.Prelude.{◌≡◌, ◌<◌, length, take, IfOk, OnErr};
ghost use Rattle.std.specs.Io.{ReadsAtMost, WritesAtMost};
ghost use Rattle.std.specs.Io.KnownBytes.{Appends, Consumes, IsAtEnd, Keeps};

use std::io;
use std::io::{ErrorKind, Read, Write};

/// How a call of the system failed.
#[derive(Clone, Copy, PartialEq, Eq)]
pub(crate) enum Trouble {
    /// Nothing is at the path.
    NotThere,
    /// A file has more bytes than it may have.
    TooLarge,
    /// Memory was wanted and not given, by the program or the system.
    NoMemory,
    /// A signal came in between: the call is to be made again.
    Interrupted,
    /// Otherwise.
    Other,
}

/// What an error of the system means.
pub(crate) fn trouble_of(e: &io::Error) -> Trouble {
    match e.kind() {
        ErrorKind::NotFound | ErrorKind::NotADirectory => Trouble::NotThere,
        ErrorKind::OutOfMemory => Trouble::NoMemory,
        ErrorKind::Interrupted => Trouble::Interrupted,
        _ => Trouble::Other,
    }
}

/// One read that isn't interrupted.
pub(crate) fn read_again<R: Read>(reader: &mut R, room: &mut [u8]) -> io::Result<usize>
    ensures bound { ReadsAtMost result room.new }
    ensures taken { IfOk result (λ n. Consumes (R.remaining reader.old) (R.remaining reader.new) (take n room.new)) }
    ensures end { IfOk result (λ n. n ≡ 0 → 0 < length room.old → IsAtEnd (R.remaining reader.new)) }
    ensures err { OnErr result (Keeps (R.remaining reader.old) (R.remaining reader.new)) }
    ensures length { length room.new ≡ length room.old }
{
    for _ in 0..u64::MAX {
        match reader.read(room) {
            Err(e) if e.kind() == ErrorKind::Interrupted => {}
            ended => return ended,
        }
    }
    Err(io::Error::from(ErrorKind::TimedOut))
}

/// One write that isn't interrupted.
pub(crate) fn write_again<W: Write>(writer: &mut W, piece: &[u8]) -> io::Result<usize>
    ensures bound { WritesAtMost result piece.now }
    ensures given { IfOk result (λ n. Appends (W.contents writer.old) (W.contents writer.new) (take n piece.now)) }
    ensures err { OnErr result (Keeps (W.contents writer.old) (W.contents writer.new)) }
{
    for _ in 0..u64::MAX {
        match writer.write(piece) {
            Err(e) if e.kind() == ErrorKind::Interrupted => {}
            ended => return ended,
        }
    }
    Err(io::Error::from(ErrorKind::TimedOut))
}
