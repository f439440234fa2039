//! The words of a line, the tokens of a text, and texts joined again.
//!
//! Each call costs O(the bytes of what it reads), and copies them once.
ghost use Rattle.std.specs.Prelude.{◌≡◌, ◌++◌, IfOk, OnOk};
ghost use Rattle.std.specs.List.{join_with_byte};
ghost use Rattle.gv_base.specs.Words.{filled, words_of, tokens_of};
ghost use Rattle.gv_base.specs.PrivateWords.{each_behind};

use crate::{Cut, NoMemory, Text, Texts, next_piece};
use std::alloc::Global;

/// The words of a line, in order: the pieces between spaces, tabs and carriage returns that aren't empty. Comments are
/// words like others.
pub fn words_of(alloc: Global, line: &[u8]) -> Result<Texts, NoMemory>
    ensures { IfOk result (λ words. words ≡ words_of line.now) }
{
    filled(alloc, line, Cut::Words)
}

/// The tokens of a text, in order: the pieces between spaces, tabs, carriage returns and line feeds that aren't empty.
pub fn tokens_of(alloc: Global, bytes: &[u8]) -> Result<Texts, NoMemory>
    ensures { IfOk result (λ tokens. tokens ≡ tokens_of bytes.now) }
{
    filled(alloc, bytes, Cut::Tokens)
}

// The pieces that aren't empty.
fn filled(alloc: Global, bytes: &[u8], cut: Cut) -> Result<Texts, NoMemory>
    ensures { IfOk result (λ texts. texts ≡ filled cut bytes.now) }
{
    let mut texts = Texts::new(alloc);
    let mut rest = Some(bytes);
    while let Some(piece) = next_piece(&mut rest, cut) {
        if !piece.is_empty() {
            texts.add(Text::of(alloc, piece)?)?;
        }
    }
    Ok(texts)
}

impl Texts {
    /// The texts in a row, with this byte between each two.
    pub fn joined(&self, alloc: Global, byte: u8) -> Result<Text, NoMemory>
        ensures { IfOk result (λ text. text ≡ join_with_byte byte self.now) }
    {
        let Some((first, rest)) = self.items().split_first() else {
            return Ok(Text::empty(alloc));
        };
        let mut text = first.copy(alloc)?;
        append_each(&mut text, byte, rest)?;
        Ok(text)
    }
}

// Appends the byte and a text, for each text.
fn append_each(text: &mut Text, byte: u8, rest: &[Text]) -> Result<(), NoMemory>
    ensures { OnOk result (text.new ≡ text.old ++ each_behind byte rest.now) }
{
    for item in rest {
        text.append(&[byte])?;
        text.append(item.bytes())?;
    }
    Ok(())
}
