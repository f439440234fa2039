//! What of each package rests on edited entries.
//!
//! O(the edited entries, the packages, and the numbers of the names that their classes mention). The trees of a package are gone
//! through, down at most 64 groups, and each atom's name is looked up among those of edited entries, only where one of its numbers
//! is that of such a name.
ghost use Rattle.std.specs.Prelude.{◌≡◌, ◌∷◌, [], false, true, map, slice_set, IfOk};
ghost use Rattle.std.specs.List.{list_any};
ghost use Rattle.gv_expr.specs.Dep.{deps};
ghost use Rattle.gv_expr.specs.DepView.{dep_of};
ghost use Rattle.gv_expr.specs.Mentions.{wanted_atoms, with_atom};
ghost use Rattle.gv_reload.specs.EntryEdits.{entry_name};
ghost use Rattle.gv_renew.specs.Mentioned.{AreMarked, is_marked};
ghost use Rattle.gv_renew.specs.Renewal.{is_wanted, mentions};
ghost use Rattle.gv_renew.specs.Touched.{AreTouched, IsFound, mentions_at, touches};

use crate::mentioned::{Mentioned, Names, name_number};
use gv_atom::{Atom, Block};
use gv_base::{NoMemory, Text};
use gv_entry::{Body, class_in};
use gv_expr::{DepExpr, DepTree};
use gv_facts::{Class, Pkg};
use gv_load::Repo;
use gv_reload::EntryEdits;
use std::alloc::Global;

// One for each number of 16 bits.
const MARKS: usize = 65_536;

/// A package, whether its entry is edited, and which of its classes have an atom of the name of an edited entry.
#[derive(Drop)]
pub(crate) struct Touched<'a> {
    pub(crate) number: u32,
    pub(crate) pkg: &'a Pkg,
    pub(crate) body: &'a Body,
    pub(crate) edited: bool,
    pub(crate) depend: bool,
    pub(crate) bdepend: bool,
    pub(crate) rdepend: bool,
    pub(crate) pdepend: bool,
    pub(crate) idepend: bool,
}

impl<'a> Touched<'a> {
    fn of(
        edits: &EntryEdits,
        marks: &[bool],
        names: &Names,
        number: u32,
        pkg: &'a Pkg,
        body: &'a Body,
    ) -> Touched<'a>
        requires marks { AreMarked (map entry_name edits.now) marks.now }
        requires names { names.now ≡ body.now }
        ensures { IsFound edits.now (record { number = number; pkg = pkg.now; body = body.now }) result }
    {
        let near = some_marked(marks, names.numbers());
        Touched {
            number,
            pkg,
            body,
            edited: edits.is_edited(&pkg.category, &pkg.pf),
            depend: near_mentions(edits, near, body, Class::Depend),
            bdepend: near_mentions(edits, near, body, Class::Bdepend),
            rdepend: near_mentions(edits, near, body, Class::Rdepend),
            pdepend: near_mentions(edits, near, body, Class::Pdepend),
            idepend: near_mentions(edits, near, body, Class::Idepend),
        }
    }

    /// Whether something of the package rests on edited entries.
    pub(crate) fn touches(&self) -> bool
        ensures { result ≡ touches self.now }
    {
        self.edited
            || (self.depend || (self.bdepend || (self.rdepend || (self.pdepend || self.idepend))))
    }

    /// Whether the class has an atom of the name of an edited entry.
    pub(crate) fn mentions(&self, class: Class) -> bool
        ensures { result ≡ mentions_at self.now class }
    {
        match class {
            Class::Required => false,
            Class::Depend => self.depend,
            Class::Bdepend => self.bdepend,
            Class::Rdepend => self.rdepend,
            Class::Pdepend => self.pdepend,
            Class::Idepend => self.idepend,
        }
    }
}

/// What is found of each package. Packages are numbered by 32 bits, and more of them find no memory.
pub(crate) fn all_touched<'a>(
    alloc: Global,
    repo: &'a Repo,
    mentioned: &Mentioned,
    edits: &EntryEdits,
) -> Result<Vec<Touched<'a>>, NoMemory>
    requires mentioned { mentioned.now ≡ repo.now.bodies }
    ensures { IfOk result (λ ts. AreTouched edits.now repo.now.pkgs repo.now.bodies ts.items) }
{
    let marks = marks_of(alloc, MARKS, edits.names())?;
    touched_among(
        alloc,
        repo.pkgs.items(),
        repo.bodies.items(),
        mentioned.packages(),
        &marks,
        edits,
    )
}

#[tactic(auto, using(crate::proofs::TouchedLemmas::so_far_end, crate::proofs::TouchedLemmas::so_far_bodies_end))]
fn touched_among<'a>(
    alloc: Global,
    pkgs: &'a [Pkg],
    bodies: &'a [Body],
    mentioned: &[Names],
    marks: &[bool],
    edits: &EntryEdits,
) -> Result<Vec<Touched<'a>>, NoMemory>
    requires mentioned { mentioned.now ≡ bodies.now }
    requires marks { AreMarked (map entry_name edits.now) marks.now }
    ensures { IfOk result (λ ts. AreTouched edits.now pkgs.now bodies.now ts.items) }
{
    let mut touched = Vec::with_capacity(alloc, pkgs.len())?;
    for (i, pkg) in pkgs.iter().enumerate() {
        if i >= bodies.len() {
            return Ok(touched);
        }
        let Ok(number) = u32::try_from(i) else {
            return Err(NoMemory);
        };
        touched.push(Touched::of(edits, marks, &mentioned[i], number, pkg, &bodies[i]))?;
    }
    Ok(touched)
}

// So many marks, of which those at the numbers of these names are set.
fn marks_of(alloc: Global, count: usize, names: &[Text]) -> Result<Vec<bool>, NoMemory>
    ensures { IfOk result (λ marks. AreMarked names.now marks.items) }
{
    let mut marks = vec![in alloc; false; count]?;
    for name in names {
        mark(&mut marks, usize::from(name_number(name)));
    }
    Ok(marks)
}

fn mark(marks: &mut Vec<bool>, place: usize)
    ensures { marks.new.items ≡ slice_set marks.old.items place true }
{
    if place < marks.len() {
        marks[place] = true;
    }
}

fn is_marked(marks: &[bool], number: u16) -> bool
    ensures { result ≡ is_marked marks.now number }
{
    match marks.get(usize::from(number)) {
        Some(mark) => *mark,
        None => true,
    }
}

fn some_marked(marks: &[bool], numbers: &[u16]) -> bool
    ensures { result ≡ list_any (is_marked marks.now) numbers.now }
{
    for number in numbers {
        if is_marked(marks, *number) {
            return true;
        }
    }
    false
}

fn is_wanted(edits: &EntryEdits, atom: &Atom) -> bool
    ensures { result ≡ list_any (is_wanted edits.now) (with_atom atom.now atom.now.block []) }
{
    match atom.block {
        Block::No => edits.is_named(&atom.category, &atom.name),
        Block::Weak | Block::Strong => false,
    }
}

#[cycle(atoms)]
fn deps_mention(edits: &EntryEdits, items: &DepExpr) -> bool
    ensures { result ≡ list_any (is_wanted edits.now) (wanted_atoms (deps items.now)) }
{
    for tree in &items.items {
        if dep_mentions(edits, tree) {
            return true;
        }
    }
    false
}

#[cycle(atoms)]
fn dep_mentions(edits: &EntryEdits, tree: &DepTree) -> bool
    ensures { result ≡ list_any (is_wanted edits.now) (wanted_atoms (deps (dep_of tree.now ∷ []))) }
{
    match tree {
        DepTree::Leaf { atom } => is_wanted(edits, atom),
        DepTree::All { items } | DepTree::Any { items } | DepTree::If { items, .. } => {
            deps_mention(edits, items)
        }
    }
}

// The same, where one of the package's numbers is marked; else it has none.
fn near_mentions(edits: &EntryEdits, near: bool, body: &Body, class: Class) -> bool
    requires { near ≡ false → mentions edits.now body.now class ≡ false }
    ensures { result ≡ mentions edits.now body.now class }
{
    near && mentions(edits, body, class)
}

// Whether an atom of the class, no blocker, has the name of an edited entry.
fn mentions(edits: &EntryEdits, body: &Body, class: Class) -> bool
    ensures { result ≡ mentions edits.now body.now class }
{
    match class_in(body, class) {
        Some(items) => deps_mention(edits, items),
        None => false,
    }
}
