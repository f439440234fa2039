//! Versions of the certificate file.

/// How the numbers of an answer are written.
#[derive(Clone, Copy, Debug, PartialEq, Eq)]
pub(crate) enum FileVersion {
    /// Four bytes each. It is read and never written.
    First,
    /// Short numbers, and hints by the way back to what they name.
    Second,
}
