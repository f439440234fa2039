//! Packages. A copy costs O(bytes), and so does `tell`; the other calls cost what `index` says.
ghost use Rattle.std.specs.Prelude.{◌≡◌, [], ◌∷◌, ◌++◌, Some, false, true, filter, map, slice_get, slice_set, IfOk, OnOk, OnErr};
ghost use Rattle.std.specs.Option.{option_map_or};
ghost use Rattle.gv_facts.specs.Places.{is_pkg_of, places_of};
ghost use Rattle.gv_facts.specs.Values.{IsPkgValue};

use crate::Eapi;
use crate::index::{PairIndex, next_place};
use gv_base::{NoMemory, Text, Texts};
use gv_version::Version;
use std::alloc::Global;
use std::marker::Model;

/// A package, as its cache entry tells it (PMS chapter 7).
#[derive(Drop)]
pub struct Pkg {
    /// The folder in which its entry stands.
    pub category: Text,
    /// What stands in the PF before the version and its hyphen.
    pub name: Text,
    /// What stands in the PF behind the name, with the revision where one is written.
    pub version: Version,
    /// Name, hyphen and version as they were written.
    pub pf: Text,
    /// The value of EAPI.
    pub eapi: Eapi,
    /// What stands in SLOT before the slash, or all of it.
    pub slot: Text,
    /// The sub-slot, which is the slot where none was written.
    pub sub: Text,
    /// The words of KEYWORDS, with their signs.
    pub keywords: Texts,
    /// The flags of IUSE, without their signs.
    pub iuse: Texts,
    /// Those flags of IUSE that were written with `+`.
    pub iuse_plus: Texts,
    /// Whether PROPERTIES has the word `live`.
    pub live: bool,
}

impl Pkg {
    /// Tells the prover that the package is a value: its texts are bytes and its version has the form. At run time it
    /// goes through the bytes.
    pub fn tell(&self)
        ensures { IsPkgValue self.now }
    {
        self.category.tell();
        self.name.tell();
        let _text = self.version.text();
        self.pf.tell();
        self.slot.tell();
        self.sub.tell();
        self.keywords.tell();
        self.iuse.tell();
        self.iuse_plus.tell();
    }

    /// An equal package.
    pub fn copy(&self, alloc: Global) -> Result<Pkg, NoMemory>
        ensures { IfOk result (λ pkg. pkg ≡ self.now) }
    {
        Ok(Pkg {
            category: self.category.copy(alloc)?,
            name: self.name.copy(alloc)?,
            version: self.version.copy(alloc)?,
            pf: self.pf.copy(alloc)?,
            eapi: self.eapi,
            slot: self.slot.copy(alloc)?,
            sub: self.sub.copy(alloc)?,
            keywords: self.keywords.copy(alloc)?,
            iuse: self.iuse.copy(alloc)?,
            iuse_plus: self.iuse_plus.copy(alloc)?,
            live: self.live,
        })
    }
}

/// A list of packages, which knows the places of those of each category and name.
#[derive(Drop)]
pub struct Pkgs {
    items: Vec<Pkg>,
    by_name: PairIndex,
}

impl Model for Pkgs {
    ghost use Rattle.std.specs.Prelude.{List};
    ghost use Rattle.gv_facts.specs.declared.pkg.Pkg.{Pkg};
    ghost use Rattle.gv_facts.specs.Index.{HasPkgs};

    ghost Value = { List Pkg };

    ghost view = { λ l. l.items.items };

    ghost invariant = { λ l. HasPkgs l.by_name l.items.items };
}

impl Pkgs {
    /// No packages.
    pub fn new(alloc: Global) -> Self
        ensures { result ≡ [] }
    {
        Pkgs {
            items: Vec::new(alloc),
            by_name: PairIndex::new(alloc),
        }
    }

    /// Adds a package at the end. After an error the list is unchanged.
    pub fn add(&mut self, item: Pkg) -> Result<(), NoMemory>
        ensures ok { OnOk result (self.new ≡ self.old ++ item ∷ []) }
        ensures err { OnErr result (self.new ≡ self.old) }
    {
        self.items.reserve(1)?;
        let place = next_place(self.items.len())?;
        self.by_name
            .add(item.category.bytes(), item.name.bytes(), place)?;
        self.items.push_reserved(item);
        Ok(())
    }

    /// Puts a package in the place of one of the same category and name. Takes no memory.
    pub fn set(&mut self, place: usize, item: Pkg)
        requires { option_map_or (is_pkg_of item.category item.name) (slice_get self.old place) false ≡ true }
        ensures { self.new ≡ slice_set self.old place item }
    {
        self.items[place] = item;
    }

    /// The packages, in order, given away.
    pub fn into_items(self) -> Vec<Pkg>
        ensures { result.items ≡ self }
    {
        self.items
    }

    /// The packages, in order.
    pub fn items(&self) -> &[Pkg]
        ensures { result.now ≡ self.now }
    {
        &self.items
    }

    /// The places, from 0 and ascending, of the packages of this category and name. Takes no memory.
    pub fn places_of(&self, category: &[u8], name: &[u8]) -> &[u32]
        ensures places { result.now ≡ places_of (is_pkg_of category.now name.now) self.now }
        // What stands at them is what was looked for.
        ensures items { map (slice_get self.now) result.now ≡ map Some (filter (is_pkg_of category.now name.now) self.now) }
    {
        self.by_name.at(category, name)
    }

    /// An equal list.
    pub fn copy(&self, alloc: Global) -> Result<Self, NoMemory>
        ensures { IfOk result (λ pkgs. pkgs ≡ self.now) }
    {
        let mut pkgs = Pkgs::new(alloc);
        for item in self.items() {
            pkgs.add(item.copy(alloc)?)?;
        }
        Ok(pkgs)
    }
}
