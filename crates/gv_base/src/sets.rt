//! Sets of texts. O(log n) comparisons of texts among n.
ghost use Rattle.std.specs.Prelude.{◌≡◌, ◌||◌, ℕ, List, OnOk};
ghost use Rattle.std.specs.Str.{bytes_eq};
ghost use Rattle.gv_base.specs.Order.{has_text};

use crate::{NoMemory, Text, in_order_law};
use std::collections::BTreeSet;

/// Whether the text is in the set.
pub fn has_key(set: &BTreeSet<Text>, text: &Text) -> bool
    ensures { result ≡ has_text set.now.keys text.now }
{
    set.contains(text)
}

/// Adds a text to the set.
pub fn add_key(set: &mut BTreeSet<Text>, word: Text) -> Result<(), NoMemory>
    ensures { OnOk result ((text : List ℕ) → has_text set.new.keys text ≡ (bytes_eq text word || has_text set.old.keys text)) }
{
    in_order_law();
    set.insert(word)?;
    Ok(())
}
