//! Bytes that stand in the value itself where they are few.
//!
//! `of` costs O(bytes), `append` O(the bytes that it adds) on average, `bytes` O(1).
ghost use Rattle.std.specs.Prelude.{◌≡◌, true, ◌+◌, ◌≤◌, [], ◌++◌, length, IfOk, OnOk, OnErr};
ghost use Rattle.gv_base.specs.Held.{bytes_of, bytes_in};

use crate::NoMemory;
use std::alloc::Global;
use std::mem::size_of;

/// So many bytes stand in the value itself, which has three words: most names of packages, versions and flags have no more.
const FEW: usize = 22;

const _: () = prove!(size_of::<Held>() == 24);

/// Room for few bytes, of which the first `len` are there.
#[derive(Drop)]
pub(crate) struct Room {
    len: u8,
    bytes: [u8; FEW],
}

/// Bytes in their order.
#[derive(Drop)]
pub(crate) enum Held {
    Few(Room),
    Many(Box<Vec<u8>>),
}

impl Held {
    /// No bytes.
    pub(crate) fn empty() -> Held
        ensures { bytes_of result ≡ [] }
    {
        Held::Few(Room {
            len: 0,
            bytes: [0; FEW],
        })
    }

    /// These bytes.
    pub(crate) fn of(alloc: Global, bytes: &[u8]) -> Result<Held, NoMemory>
        ensures { IfOk result (λ all. bytes_of all ≡ bytes.now) }
    {
        if bytes.len() <= FEW {
            return Ok(Held::Few(few(bytes)));
        }
        let bytes = Vec::from_slice(alloc, bytes)?;
        Ok(Held::Many(Box::new(alloc, bytes)?))
    }

    /// All of them.
    pub(crate) fn bytes(&self) -> &[u8]
        ensures { result.now ≡ bytes_of self.now }
    {
        match self {
            Held::Few(room) => bytes_in(room),
            Held::Many(bytes) => bytes,
        }
    }

    /// Adds these at the end. After an error all is unchanged.
    pub(crate) fn append(&mut self, alloc: Global, more: &[u8]) -> Result<(), NoMemory>
        ensures ok { OnOk result (bytes_of self.new ≡ bytes_of self.old ++ more.now) }
        ensures err { OnErr result (bytes_of self.new ≡ bytes_of self.old) }
    {
        match self {
            Held::Few(room) => {
                if has_room(room, more) {
                    put_behind(room, more);
                    return Ok(());
                }
            }
            Held::Many(bytes) => {
                bytes.extend_from_slice(more)?;
                return Ok(());
            }
        }
        *self = joined(alloc, self.bytes(), more)?;
        Ok(())
    }
}

fn bytes_in(room: &Room) -> &[u8]
    ensures { result.now ≡ bytes_in room.now }
{
    match room.bytes.get(..room.len as usize) {
        Some(front) => front,
        None => &room.bytes,
    }
}

fn few(bytes: &[u8]) -> Room
    requires { length bytes.now ≤ 22 }
    ensures { bytes_in result ≡ bytes.now }
{
    let mut room = [0; FEW];
    room[..bytes.len()].copy_from_slice(bytes);
    Room {
        len: bytes.len() as u8,
        bytes: room,
    }
}

fn has_room(room: &Room, more: &[u8]) -> bool
    ensures { result ≡ true → room.now.len + length more.now ≤ 22 }
{
    room.len as usize + more.len() <= FEW
}

fn put_behind(room: &mut Room, more: &[u8])
    requires { room.old.len + length more.now ≤ 22 }
    ensures { bytes_in room.new ≡ bytes_in room.old ++ more.now }
{
    let from = room.len as usize;
    let count = from + more.len();
    room.bytes[from..count].copy_from_slice(more);
    room.len = count as u8;
}

// Both in a list, the second behind the first.
fn joined(alloc: Global, first: &[u8], second: &[u8]) -> Result<Held, NoMemory>
    ensures { IfOk result (λ all. bytes_of all ≡ first.now ++ second.now) }
{
    let mut bytes = Vec::with_capacity(alloc, first.len() + second.len())?;
    bytes.extend_from_slice(first)?;
    bytes.extend_from_slice(second)?;
    Ok(Held::Many(Box::new(alloc, bytes)?))
}
