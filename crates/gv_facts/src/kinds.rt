//! The kinds of things by which packages are read and judged. Each call costs O(1).
ghost use Rattle.std.specs.Prelude.{◌≡◌, IfOk};
ghost use Rattle.gv_facts.specs.Classes.{class_text, has_class};

use gv_base::NoMemory;
use std::alloc::Global;

/// The rules by which a package is read (PMS chapter 2).
#[derive(Clone, Copy, Debug, PartialEq, Eq)]
pub enum Eapi {
    /// `5`, which has neither BDEPEND nor IDEPEND.
    Five,
    /// `6`, with the classes of `5`.
    Six,
    /// `7`, which has BDEPEND; from here on an empty `||` or `^^` doesn't hold.
    Seven,
    /// `8`, which has IDEPEND too.
    Eight,
}

/// REQUIRED_USE and the classes of dependencies (PMS chapter 7).
#[derive(Clone, Copy, Debug, PartialEq, Eq)]
pub enum Class {
    /// REQUIRED_USE: which flags may be set together. No class of dependencies.
    Required,
    /// DEPEND: what has to be there while the package is built.
    Depend,
    /// BDEPEND: what has to run on the machine that builds the package. From EAPI 7.
    Bdepend,
    /// RDEPEND: what has to be there where the package is used.
    Rdepend,
    /// PDEPEND: what has to be there when the whole batch is merged.
    Pdepend,
    /// IDEPEND: what `pkg_preinst`, `pkg_postinst` and the like need. From EAPI 8.
    Idepend,
}

/// Which keywords accept a package: at stable that of the arch alone, at testing also that with `~`.
#[derive(Clone, Copy, Debug, PartialEq, Eq)]
pub enum Level {
    /// The arch as it stands among the keywords.
    Stable,
    /// The arch, or `~` and the arch.
    Testing,
}

/// The status of a profile in `profiles/profiles.desc`.
#[derive(Clone, Copy, Debug, PartialEq, Eq)]
pub enum Status {
    /// `stable`
    Stable,
    /// `dev`: in development.
    Dev,
    /// `exp`: experimental.
    Exp,
}

/// Where a package is judged: in the profile of a line of `profiles/profiles.desc`, from 1, and at a level.
#[derive(Clone, Copy, Debug, PartialEq, Eq)]
pub struct Context {
    /// The number that the profile itself has as its `line`.
    pub line: u32,
    /// The level at which the profile shows packages, this one and those that it may need.
    pub level: Level,
}

/// What a flag of a package is in a context (PMS chapter 5).
#[derive(Clone, Copy, Debug, PartialEq, Eq)]
pub enum FlagState {
    /// The package hasn't the flag.
    Absent,
    /// Masked.
    Off,
    /// Forced.
    On,
    /// As the user likes.
    Free,
}

impl Context {
    /// The same context, with the signature that every record has. A `Context` is also `Copy`.
    pub fn copy(&self, _alloc: Global) -> Result<Context, NoMemory>
        ensures { IfOk result (λ context. context ≡ self.now) }
    {
        Ok(*self)
    }
}

/// Whether packages of the EAPI have the class (PMS chapter 8): BDEPEND from 7 on, IDEPEND from 8 on, the others always.
pub fn has_class(eapi: Eapi, class: Class) -> bool
    ensures { result ≡ has_class eapi class }
{
    match (eapi, class) {
        (Eapi::Five | Eapi::Six, Class::Bdepend | Class::Idepend) => false,
        (Eapi::Seven, Class::Idepend) => false,
        _ => true,
    }
}

/// The key of the class in a cache entry (PMS chapter 7).
pub fn class_text(class: Class) -> &'static [u8]
    ensures { result.now ≡ class_text class }
{
    match class {
        Class::Required => b"REQUIRED_USE",
        Class::Depend => b"DEPEND",
        Class::Bdepend => b"BDEPEND",
        Class::Rdepend => b"RDEPEND",
        Class::Pdepend => b"PDEPEND",
        Class::Idepend => b"IDEPEND",
    }
}
