//! The names that packages' classes mention, by numbers of 16 bits.
//!
//! Two bytes for each atom. Of a repository they cost O(the trees of all classes and the bytes of their atoms' names), and after
//! edits O(the packages) and that for those that are edited.
ghost use Rattle.std.specs.Prelude.{◌≡◌, ◌∷◌, [], ◌++◌, flat_map, fold, length, map, IfOk, OnOk};
ghost use Rattle.gv_expr.specs.Dep.{deps};
ghost use Rattle.gv_expr.specs.DepView.{dep_of};
ghost use Rattle.gv_expr.specs.Mentions.{wanted_atoms, with_atom};
ghost use Rattle.gv_reading.specs.Paths.{within};
ghost use Rattle.gv_renew.specs.Mentioned.{atom_number, class_numbers, name_number, number_with, numbers_of, other_bodies};

use gv_atom::{Atom, Block};
use gv_base::{NoMemory, Text};
use gv_checks::class_order;
use gv_entry::{Body, class_in};
use gv_expr::{DepExpr, DepTree};
use gv_facts::Class;
use gv_load::Repo;
use gv_reload::EntryEdits;
use std::alloc::Global;
use std::marker::Model;
use std::snapshot::Snapshot;

/// Of a package the numbers of the names that its classes mention.
#[derive(Drop)]
pub(crate) struct Numbers {
    items: Vec<u16>,
}

impl Model for Numbers {
    ghost use Rattle.std.specs.Prelude.{List, ℕ};

    ghost Value = { List ℕ };

    ghost view = { λ n. n.items.items };
}

impl Numbers {
    #[tactic(auto, unfolding(crate::specs::Mentioned::numbers_of))]
    fn of(alloc: Global, body: &Body) -> Result<Numbers, NoMemory>
        ensures { IfOk result (λ numbers. numbers ≡ numbers_of body.now) }
    {
        let mut numbers = Numbers {
            items: Vec::new(alloc),
        };
        add_classes(&mut numbers, body, &class_order())?;
        numbers.fit();
        Ok(numbers)
    }

    fn add(&mut self, number: u16) -> Result<(), NoMemory>
        ensures { OnOk result (self.new ≡ self.old ++ number ∷ []) }
    {
        self.items.push(number)?;
        Ok(())
    }

    // Lets go of the room that no number takes.
    fn fit(&mut self)
        ensures { self.new ≡ self.old }
    {
        self.items.shrink_to_fit();
    }

    fn items(&self) -> &[u16]
        ensures { result.now ≡ self.now }
    {
        &self.items
    }
}

/// The numbers of the names that the classes of one package mention, seen as what they are of.
#[derive(Drop)]
pub(crate) struct Names {
    numbers: Numbers,
    body: Snapshot<Body>,
}

impl Model for Names {
    ghost use Rattle.std.specs.Prelude.{◌≡◌};
    ghost use Rattle.gv_entry.specs.contracts.entry.Body as one;
    ghost use Rattle.gv_entry.specs.declared.entry.Body.{Body};
    ghost use Rattle.gv_renew.specs.Mentioned.{numbers_of};

    ghost Value = { Body };

    ghost coded = { one.the_row.coded };

    ghost view = { λ n. n.body.value };

    ghost invariant = { λ n. n.numbers ≡ numbers_of n.body.value };
}

impl Names {
    fn of(alloc: Global, body: &Body) -> Result<Names, NoMemory>
        ensures { IfOk result (λ names. names ≡ body.now) }
    {
        let numbers = Numbers::of(alloc, body)?;
        Ok(Names {
            numbers,
            body: Snapshot::of(body),
        })
    }

    pub(crate) fn numbers(&self) -> &[u16]
        ensures { result.now ≡ numbers_of self.now }
    {
        self.numbers.items()
    }
}

/// Of each package of a repository the names that its classes mention, in the order of packages: seen as the packages'
/// expressions.
#[derive(Drop)]
pub struct Mentioned {
    packages: Vec<Names>,
}

impl Model for Mentioned {
    ghost use Rattle.std.specs.Prelude.{List};
    ghost use Rattle.std.specs.Coded.{coded_list};
    ghost use Rattle.gv_entry.specs.contracts.entry.Body as body;
    ghost use Rattle.gv_entry.specs.declared.entry.Body.{Body};

    ghost Value = { List Body };

    ghost coded = { coded_list body.the_row.coded };

    ghost view = { λ m. m.packages.items };
}

impl Mentioned {
    /// Those of this repository.
    pub fn of(alloc: Global, repo: &Repo) -> Result<Mentioned, NoMemory>
        ensures { IfOk result (λ mentioned. mentioned ≡ repo.now.bodies) }
    {
        let mut packages = Vec::new(alloc);
        for body in repo.bodies.items() {
            packages.push(Names::of(alloc, body)?)?;
        }
        Ok(Mentioned { packages })
    }

    /// Those of the packages of this repository whose entries aren't edited.
    pub fn without(
        self,
        alloc: Global,
        repo: &Repo,
        edits: &EntryEdits,
    ) -> Result<Mentioned, NoMemory>
        requires { self ≡ repo.now.bodies }
        ensures { IfOk result (λ kept. kept ≡ other_bodies edits.now repo.now) }
    {
        let mut packages = Vec::with_capacity(alloc, self.packages.len())?;
        let mut all = self.packages.into_iter();
        for pkg in repo.pkgs.items() {
            let Some(names) = all.next() else {
                return Ok(Mentioned { packages });
            };
            if !edits.is_edited(&pkg.category, &pkg.pf) {
                packages.push(names)?;
            }
        }
        Ok(Mentioned { packages })
    }

    /// Those of all packages of this repository, from those of the packages whose entries aren't edited.
    pub fn with(self, alloc: Global, repo: &Repo, edits: &EntryEdits) -> Result<Mentioned, NoMemory>
        requires kept { self ≡ other_bodies edits.now repo.now }
        requires bodies { length repo.now.bodies ≡ length repo.now.pkgs }
        ensures { IfOk result (λ mentioned. mentioned ≡ repo.now.bodies) }
    {
        let pkgs = repo.pkgs.items();
        let mut packages = Vec::with_capacity(alloc, pkgs.len())?;
        let mut kept = self.packages.into_iter();
        for (i, body) in repo.bodies.items().iter().enumerate() {
            let pkg = &pkgs[i];
            let names = if edits.is_edited(&pkg.category, &pkg.pf) {
                Names::of(alloc, body)?
            } else {
                let Some(names) = kept.next() else {
                    unreachable!()
                };
                names
            };
            packages.push(names)?;
        }
        Ok(Mentioned { packages })
    }

    /// Those of each package, in order.
    pub(crate) fn packages(&self) -> &[Names]
        ensures { result.now ≡ self.now }
    {
        &self.packages
    }
}

#[tactic(auto, using(crate::proofs::MentionedLemmas::number_is))]
fn with_byte(number: u16, byte: u8) -> u16
    ensures { result ≡ number_with number byte }
{
    number.wrapping_mul(31).wrapping_add(u16::from(byte))
}

fn with_bytes(number: u16, bytes: &[u8]) -> u16
    ensures { result ≡ fold number_with number bytes.now }
{
    let mut number = number;
    for byte in bytes {
        number = with_byte(number, *byte);
    }
    number
}

/// The number of a text CATEGORY/NAME.
pub(crate) fn name_number(name: &Text) -> u16
    ensures { result ≡ name_number name.now }
{
    with_bytes(0, name.bytes())
}

#[tactic(auto, using(crate::proofs::MentionedLemmas::number_within))]
fn atom_number(atom: &Atom) -> u16
    ensures { result ≡ atom_number atom.now }
{
    let category = with_bytes(0, atom.category.bytes());
    with_bytes(with_byte(category, b'/'), atom.name.bytes())
}

fn add_atom(numbers: &mut Numbers, atom: &Atom) -> Result<(), NoMemory>
    ensures { OnOk result (numbers.new ≡ numbers.old ++ map atom_number (with_atom atom.now atom.now.block [])) }
{
    match atom.block {
        Block::No => numbers.add(atom_number(atom)),
        Block::Weak | Block::Strong => Ok(()),
    }
}

#[cycle(numbers)]
fn add_deps(numbers: &mut Numbers, items: &DepExpr) -> Result<(), NoMemory>
    ensures { OnOk result (numbers.new ≡ numbers.old ++ map atom_number (wanted_atoms (deps items.now))) }
{
    for tree in &items.items {
        add_dep(numbers, tree)?;
    }
    Ok(())
}

#[cycle(numbers)]
fn add_dep(numbers: &mut Numbers, tree: &DepTree) -> Result<(), NoMemory>
    ensures { OnOk result (numbers.new ≡ numbers.old ++ map atom_number (wanted_atoms (deps (dep_of tree.now ∷ [])))) }
{
    match tree {
        DepTree::Leaf { atom } => add_atom(numbers, atom),
        DepTree::All { items } | DepTree::Any { items } | DepTree::If { items, .. } => {
            add_deps(numbers, items)
        }
    }
}

// REQUIRED_USE has no atoms.
fn add_class(numbers: &mut Numbers, body: &Body, class: Class) -> Result<(), NoMemory>
    ensures { OnOk result (numbers.new ≡ numbers.old ++ class_numbers body.now class) }
{
    match class_in(body, class) {
        Some(items) => add_deps(numbers, items),
        None => Ok(()),
    }
}

fn add_classes(numbers: &mut Numbers, body: &Body, classes: &[Class]) -> Result<(), NoMemory>
    ensures { OnOk result (numbers.new ≡ numbers.old ++ flat_map (class_numbers body.now) classes.now) }
{
    for class in classes {
        add_class(numbers, body, *class)?;
    }
    Ok(())
}
