//! Classes of a package that have one and the same expression, as DEPEND and RDEPEND often have.
//!
//! They are compared without memory, up to the first tree that differs.
ghost use Rattle.std.specs.Prelude.{◌≡◌, true};
ghost use Rattle.gv_entry.specs.Queries.{class_in};
ghost use Rattle.gv_facts.specs.declared.kinds.Class.{Class};
ghost use Rattle.gv_checks.specs.Alike.{AreFirsts, first_at};

use gv_entry::{Body, class_in};
use gv_facts::Class;

/// For each class that has an expression before it that is the same one the first of these, for the others themselves.
#[derive(Clone, Copy)]
pub(crate) struct Firsts {
    pub(crate) bdepend: Class,
    pub(crate) rdepend: Class,
    pub(crate) pdepend: Class,
    pub(crate) idepend: Class,
}

impl Firsts {
    /// Those of a package.
    pub(crate) fn of(body: &Body) -> Firsts
        ensures { AreFirsts body.now result }
    {
        Firsts {
            bdepend: first_of(body, Class::Bdepend),
            rdepend: first_of(body, Class::Rdepend),
            pdepend: first_of(body, Class::Pdepend),
            idepend: first_of(body, Class::Idepend),
        }
    }

    /// That of a class.
    pub(crate) fn at(self, class: Class) -> Class
        ensures { result ≡ first_at self class }
    {
        match class {
            Class::Required => Class::Required,
            Class::Depend => Class::Depend,
            Class::Bdepend => self.bdepend,
            Class::Rdepend => self.rdepend,
            Class::Pdepend => self.pdepend,
            Class::Idepend => self.idepend,
        }
    }

    /// Whether it is that of some class.
    pub(crate) fn is_first(self, class: Class) -> bool
        ensures { (other : Class) → first_at self other ≡ class → result ≡ true }
    {
        class == Class::Required
            || class == Class::Depend
            || class == self.bdepend
            || class == self.rdepend
            || class == self.pdepend
            || class == self.idepend
    }
}

fn first_of(body: &Body, class: Class) -> Class
    ensures { class_in body.now result ≡ class_in body.now class }
{
    let before = [
        Class::Depend,
        Class::Bdepend,
        Class::Rdepend,
        Class::Pdepend,
    ];
    for other in &before {
        if *other == class || are_alike(body, *other, class) {
            return *other;
        }
    }
    class
}

// Whether two classes have the same expression.
fn are_alike(body: &Body, a: Class, b: Class) -> bool
    ensures { result ≡ true → class_in body.now a ≡ class_in body.now b }
{
    match (class_in(body, a), class_in(body, b)) {
        (Some(a), Some(b)) => a.is_same(b),
        _ => false,
    }
}
