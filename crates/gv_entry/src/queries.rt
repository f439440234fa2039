//! The classes of a package's body, as queries ask of them. O(1).
ghost use Rattle.std.specs.Prelude.{◌≡◌, MatchOption, None, Some};
ghost use Rattle.std.specs.Option.{option_copied};
ghost use Rattle.gv_entry.specs.Queries.{class_in};

use crate::Body;
use gv_expr::{DepExpr, SharedDep};
use gv_facts::Class;

/// The dependencies of the class; `None` exactly where it is broken. REQUIRED_USE has none.
pub fn class_in(body: &Body, class: Class) -> Option<&DepExpr>
    ensures { MatchOption result (class_in body.now class ≡ None) (λ items. class_in body.now class ≡ Some items.now) }
{
    match class {
        Class::Required => None,
        Class::Depend => expr_of(&body.depend),
        Class::Bdepend => expr_of(&body.bdepend),
        Class::Rdepend => expr_of(&body.rdepend),
        Class::Pdepend => expr_of(&body.pdepend),
        Class::Idepend => expr_of(&body.idepend),
    }
}

fn expr_of(dep: &Option<SharedDep>) -> Option<&DepExpr>
    ensures { option_copied result ≡ dep.now }
{
    match dep {
        Some(dep) => Some(dep.expr()),
        None => None,
    }
}
