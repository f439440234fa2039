//! The details of an entry's errors. O(bytes of the detail).
ghost use Rattle.std.specs.Prelude.{◌≡◌, ◌++◌, ◌∷◌, [], decimal, IfOk, OnOk};
ghost use Rattle.gv_entry.specs.Details.{errors_of, kind_text, slot_details, token_detail, word_details};

use crate::{EntryError, EntryErrors};
use gv_base::{NoMemory, Text};
use gv_expr::ExprKind;
use gv_facts::{Class, class_text};
use std::alloc::Global;

/// Adds an error with this text as its detail.
pub fn note_text(alloc: Global, text: &[u8], errors: &mut EntryErrors) -> Result<(), NoMemory>
    ensures { OnOk result (errors.new ≡ errors.old ++ errors_of (text.now ∷ [])) }
{
    note(errors, Text::of(alloc, text)?)?;
    Ok(())
}

/// Notes a value of SLOT that hasn't the form.
pub fn note_slot(alloc: Global, has_slot: bool, errors: &mut EntryErrors) -> Result<(), NoMemory>
    ensures { OnOk result (errors.new ≡ errors.old ++ errors_of (slot_details has_slot)) }
{
    if has_slot {
        return Ok(());
    }
    note_text(alloc, b"SLOT: bad", errors)?;
    Ok(())
}

/// Notes the first bad word of a key, if there is one.
pub fn note_word(
    alloc: Global,
    key: &[u8],
    bad: Option<usize>,
    errors: &mut EntryErrors,
) -> Result<(), NoMemory>
    ensures { OnOk result (errors.new ≡ errors.old ++ errors_of (word_details key.now bad)) }
{
    match bad {
        None => Ok(()),
        Some(number) => {
            note(errors, numbered(alloc, key, b": word ", number as u64)?)?;
            Ok(())
        }
    }
}

/// Notes the fault of a class.
pub fn note_token(
    alloc: Global,
    class: Class,
    token: u32,
    kind: ExprKind,
    errors: &mut EntryErrors,
) -> Result<(), NoMemory>
    ensures { OnOk result (errors.new ≡ errors.old ++ errors_of (token_detail class (token, kind) ∷ [])) }
{
    note(errors, token_detail(alloc, class, token, kind)?)?;
    Ok(())
}

fn kind_text(kind: ExprKind) -> &'static [u8]
    ensures { result.now ≡ kind_text kind }
{
    match kind {
        ExprKind::TooMany => b"too many tokens",
        ExprKind::Depth => b"depth",
        ExprKind::Stray => b"stray token",
        ExprKind::NotHere => b"not allowed here",
        ExprKind::BadFlag => b"bad flag",
        ExprKind::BadAtom => b"bad atom",
        ExprKind::Unclosed => b"unclosed group",
    }
}

// A text, another, and a number.
fn numbered(alloc: Global, front: &[u8], middle: &[u8], number: u64) -> Result<Text, NoMemory>
    ensures { IfOk result (λ text. text ≡ front.now ++ (middle.now ++ decimal number)) }
{
    let digits = number.to_string(alloc)?;
    let mut text = Text::of(alloc, front)?;
    text.append(middle)?;
    text.append(digits.as_bytes())?;
    Ok(text)
}

fn token_detail(alloc: Global, class: Class, token: u32, kind: ExprKind) -> Result<Text, NoMemory>
    ensures { IfOk result (λ text. text ≡ token_detail class (token, kind)) }
{
    let mut text = numbered(alloc, class_text(class), b": token ", u64::from(token))?;
    text.append(b": ")?;
    text.append(kind_text(kind))?;
    Ok(text)
}

fn note(errors: &mut EntryErrors, detail: Text) -> Result<(), NoMemory>
    ensures { OnOk result (errors.new ≡ errors.old ++ errors_of (detail ∷ [])) }
{
    errors.add(EntryError { detail })?;
    Ok(())
}
