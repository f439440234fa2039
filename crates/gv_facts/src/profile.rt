//! Profiles, folded (PMS chapter 5). A copy costs O(bytes), the other calls O(1).
ghost use Rattle.std.specs.Prelude.{◌≡◌, [], ◌∷◌, ◌++◌, IfOk, OnOk, OnErr};

use crate::{Masks, Rules, Status, ValueLists};
use gv_base::{NoMemory, Text, Texts};
use std::alloc::Global;
use std::marker::Model;

/// What the stack of a profile comes to.
#[derive(Drop)]
pub struct Profile {
    /// Its line in `profiles/profiles.desc`, from 1.
    pub line: u32,
    /// The first word of that line, as keywords name it.
    pub arch: Text,
    /// The path word of that line, as it was written.
    pub path: Text,
    /// The third word of that line.
    pub status: Status,
    /// Whether it accepts what its arch has at testing: ACCEPT_KEYWORDS has the arch with `~`. Such a profile judges at
    /// testing alone.
    pub testing: bool,
    /// The words of IUSE_IMPLICIT.
    pub iuse_implicit: Texts,
    /// The words of USE_EXPAND.
    pub expand: Texts,
    /// The words of USE_EXPAND_IMPLICIT.
    pub expand_implicit: Texts,
    /// The words of USE_EXPAND_UNPREFIXED.
    pub unprefixed: Texts,
    /// The words of the variables USE_EXPAND_VALUES_*.
    pub values: ValueLists,
    /// The masks in force, the repository's own first.
    pub masks: Masks,
    /// In the order in which they apply.
    pub rules: Rules,
}

impl Profile {
    /// An equal profile.
    pub fn copy(&self, alloc: Global) -> Result<Profile, NoMemory>
        ensures { IfOk result (λ profile. profile ≡ self.now) }
    {
        Ok(Profile {
            line: self.line,
            arch: self.arch.copy(alloc)?,
            path: self.path.copy(alloc)?,
            status: self.status,
            testing: self.testing,
            iuse_implicit: self.iuse_implicit.copy(alloc)?,
            expand: self.expand.copy(alloc)?,
            expand_implicit: self.expand_implicit.copy(alloc)?,
            unprefixed: self.unprefixed.copy(alloc)?,
            values: self.values.copy(alloc)?,
            masks: self.masks.copy(alloc)?,
            rules: self.rules.copy(alloc)?,
        })
    }
}

/// Profiles in the order in which they were added: of a repository, that of their lines in `profiles/profiles.desc`.
#[derive(Drop)]
pub struct Profiles {
    items: Vec<Profile>,
}

impl Model for Profiles {
    ghost use Rattle.std.specs.Prelude.{List};
    ghost use Rattle.gv_facts.specs.declared.profile.Profile.{Profile};

    ghost Value = { List Profile };

    ghost view = { λ l. l.items.items };
}

impl Profiles {
    /// No profiles.
    pub fn new(alloc: Global) -> Self
        ensures { result ≡ [] }
    {
        Profiles {
            items: Vec::new(alloc),
        }
    }

    /// Adds a profile at the end. After an error the list is unchanged.
    pub fn add(&mut self, item: Profile) -> Result<(), NoMemory>
        ensures ok { OnOk result (self.new ≡ self.old ++ item ∷ []) }
        ensures err { OnErr result (self.new ≡ self.old) }
    {
        self.items.push(item)?;
        Ok(())
    }

    /// The profiles, in order.
    pub fn items(&self) -> &[Profile]
        ensures { result.now ≡ self.now }
    {
        &self.items
    }

    /// An equal list.
    pub fn copy(&self, alloc: Global) -> Result<Self, NoMemory>
        ensures { IfOk result (λ profiles. profiles ≡ self.now) }
    {
        let mut profiles = Profiles::new(alloc);
        for item in self.items() {
            profiles.add(item.copy(alloc)?)?;
        }
        Ok(profiles)
    }
}
