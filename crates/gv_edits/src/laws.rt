//! A law of the definitions: the function does nothing, and its contract holds of all bytes.
ghost use Rattle.gv_edits.specs.Written.{ReadAreWritten};

/// Bytes of which a command is read begin with that command as it is written, and what follows is what is left of them.
#[tactic(auto, using(crate::proofs::Texts::read_are_written))]
pub fn reading_law()
    ensures { ReadAreWritten }
{}
