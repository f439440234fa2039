//! Atoms that match no package.
//!
//! O(a class's trees), down at most 64 groups, and for each atom a look-up by hash of its category and name, and a test
//! of the packages of that name.
ghost use Rattle.std.specs.Prelude.{◌≡◌, ◌++◌, ◌∷◌, [], map, filter, flat_map, IfOk, OnOk};
ghost use Rattle.gv_expr.specs.Dep.{deps};
ghost use Rattle.gv_expr.specs.DepView.{dep_of};
ghost use Rattle.gv_expr.specs.Mentions.{with_atom};
ghost use Rattle.gv_plain.specs.Plain.{nowhere_in, told_nonexistent};
ghost use Rattle.gv_plain.specs.PlainReports.{is_nowhere, is_readable, nonexistent, nonexistent_in};
ghost use Rattle.gv_plain.specs.Telling.{told_of_class};

use crate::classes::{class_order, is_whole};
use crate::context::ListedPkg;
use crate::telling::subject_of;
use gv_atom::{Atom, Block, print_atom};
use gv_base::NoMemory;
use gv_entry::{Body, class_in};
use gv_expr::{DepExpr, DepTree};
use gv_facts::{Class, Pkg, Pkgs, has_class};
use gv_report::{Keyword, Options, Report, Reports};
use gv_visible::some_matches;
use std::alloc::Global;

/// Whether the EAPI has the class, and it isn't broken.
pub(crate) fn is_readable(pkg: &Pkg, body: &Body, class: Class) -> bool
    ensures { result ≡ is_readable pkg.now body.now class }
{
    has_class(pkg.eapi, class) && is_whole(body, class)
}

/// Adds the reports of atoms of the package's classes that match no package, where they are selected.
pub(crate) fn add_nonexistent(
    alloc: Global,
    options: &Options,
    pkgs: &Pkgs,
    pkg: &Pkg,
    body: &Body,
    reports: &mut Reports,
) -> Result<(), NoMemory>
    ensures { OnOk result (reports.new ≡ reports.old ++ told_nonexistent options.now pkgs.now pkg.now body.now) }
{
    if options.keywords.has(Keyword::NonexistentDeps) {
        return add_classes(alloc, pkgs, pkg, body, &class_order(), reports);
    }
    Ok(())
}

/// Adds those of one of the classes alone.
pub(crate) fn add_nonexistent_in(
    alloc: Global,
    options: &Options,
    one: &ListedPkg<'_>,
    pkgs: &Pkgs,
    class: Class,
    reports: &mut Reports,
) -> Result<(), NoMemory>
    ensures { OnOk result (reports.new ≡ reports.old ++ told_of_class class options.now pkgs.now one.now.pkg.now one.now.body.now) }
{
    if options.keywords.has(Keyword::NonexistentDeps) && is_readable(one.pkg, one.body, class) {
        return add_class(alloc, pkgs, one.pkg, one.body, class, reports);
    }
    Ok(())
}

fn is_nowhere(pkgs: &Pkgs, atom: &Atom) -> bool
    ensures { result ≡ is_nowhere pkgs.now atom.now }
{
    !some_matches(pkgs, atom)
}

fn nonexistent(alloc: Global, pkg: &Pkg, class: Class, atom: &Atom) -> Result<Report, NoMemory>
    ensures { IfOk result (λ report. report ≡ nonexistent pkg.now class atom.now) }
{
    Ok(Report {
        subject: subject_of(alloc, pkg)?,
        keyword: Keyword::NonexistentDeps,
        class: Some(class),
        context: None,
        witness: None,
        detail: Some(print_atom(alloc, atom)?),
    })
}

fn add_wanted(
    alloc: Global,
    pkgs: &Pkgs,
    pkg: &Pkg,
    class: Class,
    atom: &Atom,
    reports: &mut Reports,
) -> Result<(), NoMemory>
    ensures { OnOk result (reports.new ≡ reports.old ++ map (nonexistent pkg.now class) (filter (is_nowhere pkgs.now) (atom.now ∷ []))) }
{
    if is_nowhere(pkgs, atom) {
        reports.add(nonexistent(alloc, pkg, class, atom)?)?;
    }
    Ok(())
}

fn add_atom(
    alloc: Global,
    pkgs: &Pkgs,
    pkg: &Pkg,
    class: Class,
    atom: &Atom,
    reports: &mut Reports,
) -> Result<(), NoMemory>
    ensures { OnOk result (reports.new ≡ reports.old ++ map (nonexistent pkg.now class) (filter (is_nowhere pkgs.now) (with_atom atom.now atom.now.block []))) }
{
    match atom.block {
        Block::No => add_wanted(alloc, pkgs, pkg, class, atom, reports),
        Block::Weak | Block::Strong => Ok(()),
    }
}

#[cycle(atoms)]
fn add_deps(
    alloc: Global,
    pkgs: &Pkgs,
    pkg: &Pkg,
    class: Class,
    items: &DepExpr,
    reports: &mut Reports,
) -> Result<(), NoMemory>
    ensures { OnOk result (reports.new ≡ reports.old ++ nowhere_in pkgs.now pkg.now class (deps items.now)) }
{
    for tree in &items.items {
        add_dep(alloc, pkgs, pkg, class, tree, reports)?;
    }
    Ok(())
}

#[cycle(atoms)]
fn add_dep(
    alloc: Global,
    pkgs: &Pkgs,
    pkg: &Pkg,
    class: Class,
    tree: &DepTree,
    reports: &mut Reports,
) -> Result<(), NoMemory>
    ensures { OnOk result (reports.new ≡ reports.old ++ nowhere_in pkgs.now pkg.now class (deps (dep_of tree.now ∷ []))) }
{
    match tree {
        DepTree::Leaf { atom } => add_atom(alloc, pkgs, pkg, class, atom, reports),
        DepTree::All { items } | DepTree::Any { items } | DepTree::If { items, .. } => {
            add_deps(alloc, pkgs, pkg, class, items, reports)
        }
    }
}

// Adds those of a class. REQUIRED_USE has no atoms.
fn add_class(
    alloc: Global,
    pkgs: &Pkgs,
    pkg: &Pkg,
    body: &Body,
    class: Class,
    reports: &mut Reports,
) -> Result<(), NoMemory>
    ensures { OnOk result (reports.new ≡ reports.old ++ nonexistent_in pkgs.now pkg.now body.now class) }
{
    match class_in(body, class) {
        Some(items) => add_deps(alloc, pkgs, pkg, class, items, reports),
        None => Ok(()),
    }
}

fn add_classes(
    alloc: Global,
    pkgs: &Pkgs,
    pkg: &Pkg,
    body: &Body,
    classes: &[Class],
    reports: &mut Reports,
) -> Result<(), NoMemory>
    ensures { OnOk result (reports.new ≡ reports.old ++ flat_map (nonexistent_in pkgs.now pkg.now body.now) (filter (is_readable pkg.now body.now) classes.now)) }
{
    for class in classes {
        if is_readable(pkg, body, *class) {
            add_class(alloc, pkgs, pkg, body, *class, reports)?;
        }
    }
    Ok(())
}
