//! The classes of a package's expressions: their order, and whether they are broken.
ghost use Rattle.std.specs.Prelude.{◌≡◌};
ghost use Rattle.gv_plain.specs.Classes.{classes, is_whole};

use gv_entry::Body;
use gv_facts::Class;

/// The classes in the order of their queries.
pub fn class_order() -> [Class; 6]
    ensures { result ≡ classes }
{
    [
        Class::Required,
        Class::Depend,
        Class::Bdepend,
        Class::Rdepend,
        Class::Pdepend,
        Class::Idepend,
    ]
}

/// Whether the expression of the class is in the grammar.
pub fn is_whole(body: &Body, class: Class) -> bool
    ensures { result ≡ is_whole body.now class }
{
    match class {
        Class::Required => body.required.is_some(),
        Class::Depend => body.depend.is_some(),
        Class::Bdepend => body.bdepend.is_some(),
        Class::Rdepend => body.rdepend.is_some(),
        Class::Pdepend => body.pdepend.is_some(),
        Class::Idepend => body.idepend.is_some(),
    }
}
