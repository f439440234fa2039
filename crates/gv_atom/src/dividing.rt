//! The parts of an atom's bytes. O(bytes), without memory.
ghost use Rattle.std.specs.Prelude.{◌≡◌, ◌+◌, drop, length};
ghost use Rattle.gv_atom.specs.Reading.{block_length, block_of, divided, op_length, op_of};
ghost use Rattle.gv_atom.specs.Parts.{end_place, shown};

use crate::cutting::cut;
use crate::{Block, CompareOp};

/// The parts of an atom's bytes: a slot part begins with `:`, an item part with `[`, and each is empty where there is none.
#[derive(Clone, Copy)]
pub(crate) struct Division<'a> {
    pub(crate) block: Block,
    pub(crate) op: Option<CompareOp>,
    /// Where the name part begins.
    pub(crate) start: usize,
    pub(crate) name_part: &'a [u8],
    pub(crate) slot_part: &'a [u8],
    pub(crate) item_part: &'a [u8],
}

/// Divides the bytes.
pub(crate) fn divide(bytes: &[u8]) -> Division<'_>
    ensures parts { shown result ≡ divided bytes.now }
    ensures end { end_place (divided bytes.now) ≡ length bytes.now }
{
    let (block, behind_block) = split_block(bytes);
    let (op, rest) = split_op(behind_block);
    let (front, item_part) = cut(b'[', rest);
    let (name_part, slot_part) = cut(b':', front);
    Division {
        block,
        op,
        start: bytes.len() - rest.len(),
        name_part,
        slot_part,
        item_part,
    }
}

fn split_block(bytes: &[u8]) -> (Block, &[u8])
    ensures block { result.0 ≡ block_of bytes.now }
    ensures rest { result.1.now ≡ drop (block_length (block_of bytes.now)) bytes.now }
    ensures length { block_length (block_of bytes.now) + length result.1.now ≡ length bytes.now }
{
    match bytes {
        [b'!', b'!', rest @ ..] => (Block::Strong, rest),
        [b'!', rest @ ..] => (Block::Weak, rest),
        _ => (Block::No, bytes),
    }
}

// The longest operator that the bytes begin with, and what follows it.
fn split_op(bytes: &[u8]) -> (Option<CompareOp>, &[u8])
    ensures op { result.0 ≡ op_of bytes.now }
    ensures rest { result.1.now ≡ drop (op_length (op_of bytes.now)) bytes.now }
    ensures length { op_length (op_of bytes.now) + length result.1.now ≡ length bytes.now }
{
    match bytes {
        [b'<', b'=', rest @ ..] => (Some(CompareOp::LessEqual), rest),
        [b'>', b'=', rest @ ..] => (Some(CompareOp::GreaterEqual), rest),
        [b'<', rest @ ..] => (Some(CompareOp::Less), rest),
        [b'=', rest @ ..] => (Some(CompareOp::Equal), rest),
        [b'~', rest @ ..] => (Some(CompareOp::Same), rest),
        [b'>', rest @ ..] => (Some(CompareOp::Greater), rest),
        _ => (None, bytes),
    }
}
