//! Laws of the definitions: each function does nothing, and its contract holds of all texts, or of all trees.
ghost use Rattle.gv_base.specs.Laws.{ByteOrderLaw, InOrderLaw, MapLaw};

/// Byte order is total, and texts that compare as equal are one text.
pub fn byte_order_law()
    ensures { ByteOrderLaw }
{}

/// Texts in order ascend, are those that were there, and depend on these alone; lists that ascend and have the same
/// texts are equal.
pub fn in_order_law()
    ensures { InOrderLaw }
{}

/// What look-ups, insertions and removals of an ordered tree with keys of bytes and values `V` do to the map that it
/// keeps, and which entries and keys that map has.
pub fn map_law<V>()
    ensures { MapLaw V }
{}
