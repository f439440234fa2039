//! A version, which keeps its text.
//!
//! `read_version`, `of` and `copy` cost O(bytes) and take the memory of the text; `text` takes none.
ghost use Rattle.std.specs.Prelude.{◌≡◌, true, IfOk, MatchResult};
ghost use Rattle.gv_version.specs.Form.{is_version};
ghost use Rattle.gv_version.specs.Faults.{IsFaultOf};

use crate::form::{has_form, long_run, longest_form};
use gv_base::{NoMemory, Text};
use std::alloc::Global;
use std::marker::Model;

/// A version, which keeps its text. Two are equal (`==`) where the order of versions says so, as `1` and `1-r0` are,
/// whatever their texts.
#[derive(Drop)]
pub struct Version {
    text: Text,
}

impl Model for Version {
    ghost use Rattle.std.specs.Prelude.{◌≡◌, ℕ, List, true};
    ghost use Rattle.gv_version.specs.Form.{is_version};

    ghost Value = { List ℕ };

    ghost view = { λ v. v.text };

    ghost invariant = { λ v. is_version v.text ≡ true };
}

/// Why bytes are no version. Places are counted in bytes from 0.
#[derive(Clone, Copy, Debug)]
pub enum VersionFault {
    /// The bytes haven't the form of a version. The longest front of them that has it ends here,
    /// and none has it where this is 0.
    Shape { at: u32 },
    /// The bytes have the form, but from here on there are more than 18 digits in a row.
    TooLong { at: u32 },
    /// No memory was found, or the place is past the room of lists, 2^32 bytes.
    NoMemory,
}

impl Version {
    /// The version with this text, which has the form. O(bytes).
    pub fn of(alloc: Global, text: &[u8]) -> Result<Version, NoMemory>
        requires { is_version text.now ≡ true }
        ensures { IfOk result (λ version. version ≡ text.now) }
    {
        Ok(Version {
            text: Text::of(alloc, text)?,
        })
    }

    /// The version with the same text. O(bytes).
    pub fn copy(&self, alloc: Global) -> Result<Version, NoMemory>
        ensures { IfOk result (λ copy. copy ≡ self.now) }
    {
        Version::of(alloc, self.text())
    }

    /// The bytes that were read.
    pub fn text(&self) -> &[u8]
        ensures text { result.now ≡ self.now }
        ensures version { is_version self.now ≡ true }
    {
        self.text.bytes()
    }
}

/// Reads a version (PMS chapter 3): digits, any number of `.digits`, at most one letter `a` to `z`,
/// any number of `_alpha`, `_beta`, `_pre`, `_rc` and `_p`, each with or without digits, and at most
/// one `-r` with digits. A run of more than 18 digits is refused.
pub fn read_version(alloc: Global, bytes: &[u8]) -> Result<Version, VersionFault>
    ensures read { IfOk result (λ version. version ≡ bytes.now) }
    ensures cases { MatchResult result (λ version. is_version bytes.now ≡ true) (λ fault. IsFaultOf bytes.now fault) }
{
    if !has_form(bytes) {
        return match u32::try_from(longest_form(bytes)) {
            Ok(at) => Err(VersionFault::Shape { at }),
            Err(_) => Err(VersionFault::NoMemory),
        };
    }
    if let Some(at) = long_run(bytes) {
        return match u32::try_from(at) {
            Ok(at) => Err(VersionFault::TooLong { at }),
            Err(_) => Err(VersionFault::NoMemory),
        };
    }
    match Text::of(alloc, bytes) {
        Ok(text) => Ok(Version { text }),
        Err(_) => Err(VersionFault::NoMemory),
    }
}
