//! Texts of bytes 0x20 to 0x7E alone, and how others are shown. O(bytes).
ghost use Rattle.std.specs.Prelude.{◌≡◌, IfOk};
ghost use Rattle.gv_report.specs.Printable.{is_printable_text, shown, shown_byte};

use gv_base::{NoMemory, Text};
use std::alloc::Global;

/// Whether the text has printable bytes alone. It takes no memory.
pub(crate) fn is_printable_text(bytes: &[u8]) -> bool
    ensures { result ≡ is_printable_text bytes.now }
{
    for byte in bytes {
        if !(31 < *byte && *byte < 127) {
            return false;
        }
    }
    true
}

fn shown_byte(byte: u8) -> u8
    ensures { result ≡ shown_byte byte }
{
    if 31 < byte && byte < 127 { byte } else { b'?' }
}

/// The text with `?` in place of each byte that isn't printable.
pub(crate) fn shown(alloc: Global, bytes: &[u8]) -> Result<Text, NoMemory>
    ensures { IfOk result (λ text. text ≡ shown bytes.now) }
{
    let mut text = Text::of(alloc, &[])?;
    for byte in bytes {
        text.append(&[shown_byte(*byte)])?;
    }
    Ok(text)
}
