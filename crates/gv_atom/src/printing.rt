//! The text of an atom. O(bytes).
ghost use Rattle.std.specs.Prelude.{◌≡◌, ◌++◌, IfOk, OnOk};
ghost use Rattle.gv_atom.specs.Printing.{end_text, more_items_text, sign_text};
ghost use Rattle.gv_atom.specs.Grammar.{atom_text, block_text, default_text, item_text, items_text, mark_text, op_text, slot_text, version_part};

use crate::{Ask, Atom, Block, CompareOp, SlotMark, SlotNeed, UseItem};
use gv_base::{NoMemory, Text};
use gv_version::Version;
use std::alloc::Global;

/// The text of the atom, from which it is read.
pub fn print_atom(alloc: Global, atom: &Atom) -> Result<Text, NoMemory>
    ensures { IfOk result (λ text. text ≡ atom_text atom.now) }
{
    let mut text = Text::of(alloc, block_text(atom.block))?;
    text.append(op_text(atom.op))?;
    text.append(atom.category.bytes())?;
    text.append(b"/")?;
    text.append(atom.name.bytes())?;
    append_version(&mut text, &atom.version, atom.star)?;
    append_slot(&mut text, &atom.slot, atom.mark)?;
    append_items(&mut text, atom.items.items())?;
    Ok(text)
}

fn block_text(block: Block) -> &'static [u8]
    ensures { result.now ≡ block_text block }
{
    match block {
        Block::No => b"",
        Block::Weak => b"!",
        Block::Strong => b"!!",
    }
}

fn op_text(op: Option<CompareOp>) -> &'static [u8]
    ensures { result.now ≡ op_text op }
{
    match op {
        None => b"",
        Some(CompareOp::Less) => b"<",
        Some(CompareOp::LessEqual) => b"<=",
        Some(CompareOp::Equal) => b"=",
        Some(CompareOp::Same) => b"~",
        Some(CompareOp::GreaterEqual) => b">=",
        Some(CompareOp::Greater) => b">",
    }
}

fn mark_text(mark: SlotMark) -> &'static [u8]
    ensures { result.now ≡ mark_text mark }
{
    match mark {
        SlotMark::Plain => b"",
        SlotMark::Star => b"*",
        SlotMark::Equals => b"=",
    }
}

fn default_text(missing: Option<bool>) -> &'static [u8]
    ensures { result.now ≡ default_text missing }
{
    match missing {
        None => b"",
        Some(true) => b"(+)",
        Some(false) => b"(-)",
    }
}

fn sign_text(ask: Ask) -> &'static [u8]
    ensures { result.now ≡ sign_text ask }
{
    match ask {
        Ask::On | Ask::Same | Ask::OnIf => b"",
        Ask::Off => b"-",
        Ask::Opposite | Ask::OffIfNot => b"!",
    }
}

fn end_text(ask: Ask) -> &'static [u8]
    ensures { result.now ≡ end_text ask }
{
    match ask {
        Ask::On | Ask::Off => b"",
        Ask::Same | Ask::Opposite => b"=",
        Ask::OnIf | Ask::OffIfNot => b"?",
    }
}

fn append_version(text: &mut Text, version: &Option<Version>, star: bool) -> Result<(), NoMemory>
    ensures { OnOk result (text.new ≡ text.old ++ version_part version.now star) }
{
    match version {
        Some(version) => {
            text.append(b"-")?;
            text.append(version.text())?;
            text.append(if star { b"*" } else { b"" })?;
            Ok(())
        }
        None => Ok(()),
    }
}

fn append_slot(text: &mut Text, slot: &SlotNeed, mark: SlotMark) -> Result<(), NoMemory>
    ensures { OnOk result (text.new ≡ text.old ++ slot_text slot.now mark) }
{
    match slot {
        SlotNeed::Any => {
            text.append(match mark {
                SlotMark::Plain => b"",
                SlotMark::Star => b":*",
                SlotMark::Equals => b":=",
            })?;
            Ok(())
        }
        SlotNeed::Slot { slot } => {
            text.append(b":")?;
            text.append(slot.bytes())?;
            text.append(mark_text(mark))?;
            Ok(())
        }
        SlotNeed::Both { slot, sub } => {
            text.append(b":")?;
            text.append(slot.bytes())?;
            text.append(b"/")?;
            text.append(sub.bytes())?;
            text.append(mark_text(mark))?;
            Ok(())
        }
    }
}

#[tactic(auto, using(crate::proofs::PrintedItems::asked_parts))]
fn append_item(text: &mut Text, item: &UseItem) -> Result<(), NoMemory>
    ensures { OnOk result (text.new ≡ text.old ++ item_text item.now) }
{
    text.append(sign_text(item.ask))?;
    text.append(item.flag.bytes())?;
    text.append(default_text(item.missing))?;
    text.append(end_text(item.ask))?;
    Ok(())
}

// Items, each behind a comma.
fn append_more(text: &mut Text, items: &[UseItem]) -> Result<(), NoMemory>
    ensures { OnOk result (text.new ≡ text.old ++ more_items_text items.now) }
{
    for item in items {
        text.append(b",")?;
        append_item(text, item)?;
    }
    Ok(())
}

#[tactic(auto, using(crate::proofs::PrintedItems::joined_items))]
fn append_items(text: &mut Text, items: &[UseItem]) -> Result<(), NoMemory>
    ensures { OnOk result (text.new ≡ text.old ++ items_text items.now) }
{
    match items {
        [] => Ok(()),
        [first, more @ ..] => {
            text.append(b"[")?;
            append_item(text, first)?;
            append_more(text, more)?;
            text.append(b"]")?;
            Ok(())
        }
    }
}
