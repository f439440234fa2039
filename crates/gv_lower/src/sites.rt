//! What the queries of a package ask about, found once for the package and not in each of its contexts.
//!
//! `RequiredFlags::new` costs the kind of the flag for each mention, `ClassSites::new` besides that for each atom that is no
//! blocker one look-up of its packages by hash, a test of each of these, and of each that it matches the kinds of the flags that
//! the atom's items name. Both keep a reference and a kind for each flag, and a number for each package.
ghost use Rattle.std.specs.Prelude.{◌≡◌, ◌++◌, ◌∷◌, [], map, IfOk, OnOk};
ghost use Rattle.gv_expr.specs.Dep.{deps};
ghost use Rattle.gv_expr.specs.DepView.{dep_of};
ghost use Rattle.gv_expr.specs.Mentions.{dep_mentions, req_mentions, wanted_atoms};
ghost use Rattle.gv_expr.specs.Required.{reqs};
ghost use Rattle.gv_lower.specs.Sites.{known_of, place_site, site_of};

use crate::known::{KnownFlag, known_flags, known_items};
use gv_atom::{Atom, Block, UseItem};
use gv_base::NoMemory;
use gv_expr::{DepExpr, DepTree, Mentions, UseExpr};
use gv_facts::{Pkg, Pkgs};
use gv_usestate::RuledFlags;
use gv_visible::{matches_at, named};
use std::alloc::Global;
use std::marker::Model;

/// The flags of a package that its REQUIRED_USE mentions, and what is known of them in each of some profiles.
#[derive(Drop)]
pub struct RequiredFlags<'a> {
    ruled: &'a RuledFlags<'a>,
    pkg: &'a Pkg,
    required: &'a UseExpr,
    flags: Vec<KnownFlag<'a>>,
}

impl<'a> Model for RequiredFlags<'a> {
    ghost use Rattle.std.specs.Prelude.{◌≡◌, map};
    ghost use Rattle.gv_expr.specs.Mentions.{req_mentions};
    ghost use Rattle.gv_expr.specs.Required.{reqs};
    ghost use Rattle.gv_lower.specs.Sites.{RequiredFlags, coded_flags, known_of};

    ghost Value = { RequiredFlags };

    ghost coded = { coded_flags };

    ghost view = { λ f. record { profiles = f.ruled.now; of = f.pkg.now; required = f.required.now } };

    ghost invariant = { λ f. f.flags.items ≡ map (known_of f.ruled.now f.pkg.now) (req_mentions (reqs f.required.now)) };
}

impl<'a> RequiredFlags<'a> {
    /// Those of this REQUIRED_USE of the package.
    pub fn new(
        alloc: Global,
        ruled: &'a RuledFlags<'a>,
        pkg: &'a Pkg,
        required: &'a UseExpr,
    ) -> Result<RequiredFlags<'a>, NoMemory>
        ensures { IfOk result (λ flags. flags ≡ record { profiles = ruled.now; of = pkg.now; required = required.now }) }
    {
        let mut mentions = Mentions::new(alloc);
        mentions.add_required(required)?;
        let flags = known_flags(alloc, ruled, pkg, mentions.items())?;
        Ok(RequiredFlags {
            ruled,
            pkg,
            required,
            flags,
        })
    }

    pub(crate) fn pkg(&self) -> &'a Pkg
        ensures { result.now ≡ self.now.of }
    {
        self.pkg
    }

    pub(crate) fn flags(&self) -> &[KnownFlag<'a>]
        ensures { result.now ≡ map (known_of self.now.profiles self.now.of) (req_mentions (reqs self.now.required)) }
    {
        &self.flags
    }
}

/// The place of a package that an atom matches, and the flags of that package that the atom's items name.
#[derive(Drop)]
pub(crate) struct PlaceSite<'a> {
    place: u32,
    flags: Vec<KnownFlag<'a>>,
}

impl<'a> Model for PlaceSite<'a> {
    ghost use Rattle.gv_lower.specs.Sites.{PlaceSite};

    ghost Value = { PlaceSite };

    ghost view = { λ s. record { place = s.place; flags = s.flags.items } };
}

impl<'a> PlaceSite<'a> {
    pub(crate) fn place(&self) -> u32
        ensures { result ≡ self.now.place }
    {
        self.place
    }

    pub(crate) fn flags(&self) -> &[KnownFlag<'a>]
        ensures { result.now ≡ self.now.flags }
    {
        &self.flags
    }
}

/// The places, ascending, of the packages that an atom matches.
#[derive(Drop)]
pub(crate) struct AtomSite<'a> {
    places: Vec<PlaceSite<'a>>,
}

impl<'a> Model for AtomSite<'a> {
    ghost use Rattle.std.specs.Prelude.{List};
    ghost use Rattle.gv_lower.specs.Sites.{PlaceSite};

    ghost Value = { List PlaceSite };

    ghost view = { λ s. s.places.items };
}

impl<'a> AtomSite<'a> {
    pub(crate) fn places(&self) -> &[PlaceSite<'a>]
        ensures { result.now ≡ self.now }
    {
        &self.places
    }
}

/// The flags that a class of a package mentions, and for each of its atoms that is no blocker the packages that it matches,
/// visible or not, each with its flags that the atom's items name; and what is known of all these flags in each of some
/// profiles.
#[derive(Drop)]
pub struct ClassSites<'a> {
    ruled: &'a RuledFlags<'a>,
    pkg: &'a Pkg,
    pkgs: &'a Pkgs,
    class: &'a DepExpr,
    flags: Vec<KnownFlag<'a>>,
    atoms: Vec<AtomSite<'a>>,
}

impl<'a> Model for ClassSites<'a> {
    ghost use Rattle.std.specs.Prelude.{◌≡◌, map};
    ghost use Rattle.gv_expr.specs.Dep.{deps};
    ghost use Rattle.gv_expr.specs.Mentions.{dep_mentions, wanted_atoms};
    ghost use Rattle.gv_lower.specs.Sites.{ClassSites, coded_sites, known_of, site_of};

    ghost Value = { ClassSites };

    ghost coded = { coded_sites };

    ghost view = { λ s. record { profiles = s.ruled.now; of = s.pkg.now; pkgs = s.pkgs.now; class = s.class.now } };

    ghost invariant = { λ s. (s.flags.items ≡ map (known_of s.ruled.now s.pkg.now) (dep_mentions (deps s.class.now))) × (s.atoms.items ≡ map (site_of s.ruled.now s.pkgs.now) (wanted_atoms (deps s.class.now))) };
}

impl<'a> ClassSites<'a> {
    /// Those of this class of the package among these packages.
    pub fn new(
        alloc: Global,
        ruled: &'a RuledFlags<'a>,
        pkg: &'a Pkg,
        pkgs: &'a Pkgs,
        class: &'a DepExpr,
    ) -> Result<ClassSites<'a>, NoMemory>
        ensures { IfOk result (λ sites. sites ≡ record { profiles = ruled.now; of = pkg.now; pkgs = pkgs.now; class = class.now }) }
    {
        let mut mentions = Mentions::new(alloc);
        mentions.add_class(class)?;
        let flags = known_flags(alloc, ruled, pkg, mentions.items())?;
        let mut atoms = Vec::new(alloc);
        add_sites(alloc, class, ruled, pkgs, &mut atoms)?;
        Ok(ClassSites {
            ruled,
            pkg,
            pkgs,
            class,
            flags,
            atoms,
        })
    }

    pub(crate) fn pkg(&self) -> &'a Pkg
        ensures { result.now ≡ self.now.of }
    {
        self.pkg
    }

    pub(crate) fn flags(&self) -> &[KnownFlag<'a>]
        ensures { result.now ≡ map (known_of self.now.profiles self.now.of) (dep_mentions (deps self.now.class)) }
    {
        &self.flags
    }

    pub(crate) fn atoms(&self) -> &[AtomSite<'a>]
        ensures { result.now ≡ map (site_of self.now.profiles self.now.pkgs) (wanted_atoms (deps self.now.class)) }
    {
        &self.atoms
    }
}

fn place_site<'a>(
    alloc: Global,
    ruled: &RuledFlags<'_>,
    pkgs: &[Pkg],
    items: &'a [UseItem],
    place: u32,
) -> Result<PlaceSite<'a>, NoMemory>
    ensures { IfOk result (λ site. site ≡ place_site ruled.now pkgs.now items.now place) }
{
    match pkgs.get(place as usize) {
        Some(pkg) => {
            let flags = known_items(alloc, ruled, pkg, items)?;
            Ok(PlaceSite { place, flags })
        }
        None => Ok(PlaceSite {
            place,
            flags: Vec::new(alloc),
        }),
    }
}

// A package that matches has the atom's category and name, so no other is looked at.
fn site_of<'a>(
    alloc: Global,
    ruled: &RuledFlags<'_>,
    atom: &'a Atom,
    pkgs: &Pkgs,
) -> Result<AtomSite<'a>, NoMemory>
    ensures { IfOk result (λ site. site ≡ site_of ruled.now pkgs.now atom.now) }
{
    let listed = pkgs.items();
    let items = atom.items.items();
    let mut places = Vec::new(alloc);
    for place in named(pkgs, atom) {
        if matches_at(listed, *place, atom) {
            places.push(place_site(alloc, ruled, listed, items, *place)?)?;
        }
    }
    Ok(AtomSite { places })
}

// Adds those of the atoms that are no blockers.
#[cycle(atoms)]
fn add_sites<'a>(
    alloc: Global,
    items: &'a DepExpr,
    ruled: &RuledFlags<'_>,
    pkgs: &Pkgs,
    atoms: &mut Vec<AtomSite<'a>>,
) -> Result<(), NoMemory>
    ensures { OnOk result (atoms.new.items ≡ atoms.old.items ++ map (site_of ruled.now pkgs.now) (wanted_atoms (deps items.now))) }
{
    for tree in &items.items {
        add_sites_of(alloc, tree, ruled, pkgs, atoms)?;
    }
    Ok(())
}

#[cycle(atoms)]
fn add_sites_of<'a>(
    alloc: Global,
    tree: &'a DepTree,
    ruled: &RuledFlags<'_>,
    pkgs: &Pkgs,
    atoms: &mut Vec<AtomSite<'a>>,
) -> Result<(), NoMemory>
    ensures { OnOk result (atoms.new.items ≡ atoms.old.items ++ map (site_of ruled.now pkgs.now) (wanted_atoms (deps (dep_of tree.now ∷ [])))) }
{
    match tree {
        DepTree::Leaf { atom } => match atom.block {
            Block::No => {
                atoms.push(site_of(alloc, ruled, atom, pkgs)?)?;
                Ok(())
            }
            Block::Weak | Block::Strong => Ok(()),
        },
        DepTree::All { items } | DepTree::Any { items } => {
            add_sites(alloc, items, ruled, pkgs, atoms)
        }
        DepTree::If { items, .. } => add_sites(alloc, items, ruled, pkgs, atoms),
    }
}
