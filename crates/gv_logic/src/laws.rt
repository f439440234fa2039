//! What the canonical bytes say of gates.

ghost use Rattle.gv_logic.specs.Laws.{CircuitLaw};

/// The circuit law. Bytes are the canonical bytes of one circuit at most, so gates may be told apart
/// and looked up by their bytes.
pub fn circuit_law()
    ensures { CircuitLaw }
{}
