//! Laws of the definitions: each function does nothing, and its contract holds of all texts, packages, profiles, expressions and
//! assignments.
ghost use Rattle.gv_expr.specs.Dep.{Dep};
ghost use Rattle.gv_expr.specs.Required.{Req};
ghost use Rattle.gv_entry.specs.Allowed.{Parent};
ghost use Rattle.gv_entry.specs.Laws as law;
ghost use Rattle.std.specs.Prelude.{List};

use gv_base::in_order_law;

/// An expression depends on the flags that it mentions alone.
#[tactic(auto, using(crate::proofs::Alike::depends_on_mentions))]
pub fn mentions_law()
    ensures { law.MentionsLaw }
{}

/// Bits of a query's flags, which say of each whether it hasn't its preferred value, stand for an assignment that fits the
/// flags' states and has the values that they say; and an assignment that fits them is, at every flag that was mentioned, that
/// of its own bits.
#[tactic(auto, using(crate::proofs::QueryLaw::bits_are))]
pub fn bits_law()
    ensures { law.BitsLaw }
{
    in_order_law();
}

/// Bits of a query's flags pass the test exactly where their assignment is allowed, and an assignment that fits the flags'
/// states is allowed exactly where its bits pass.
#[tactic(auto, using(crate::proofs::QueryLaw::allowed_is))]
pub fn allowed_law()
    ensures { law.AllowedLaw }
{
    in_order_law();
}

/// The same of failing assignments.
#[tactic(auto, using(crate::proofs::QueryLaw::failing_is))]
pub fn failing_law()
    ensures { law.FailingLaw }
{
    in_order_law();
}

/// What is found among all lists of bits is the one that is lesser than every other that passes the test, and nothing is
/// found only where none passes.
#[tactic(auto, using(crate::proofs::LeastLaw::least_found))]
pub fn least_law()
    ensures { law.LeastLaw }
{}

/// The bits of REQUIRED_USE's flags decide whether any assignment of all flags is allowed, and which is the least.
pub fn least_allowed_law()
    ensures { (c : Parent) (required : List Req) → law.LeastAllowedLaw c required }
{
    bits_law();
    allowed_law();
    least_law();
}

/// The bits of a class query's flags decide whether any assignment of all flags is failing, and which is the least.
pub fn least_failing_law()
    ensures { (c : Parent) (required : List Req) (class : List Dep) → law.LeastFailingLaw c required class }
{
    bits_law();
    failing_law();
    least_law();
}

/// The value of a key is that of the first line that begins with the key and `=`, and is empty where there is none.
#[tactic(auto, using(crate::proofs::ValueLaw::value_is))]
pub fn value_law()
    ensures { law.ValueLaw }
{}

/// A text is read as a digest exactly where it is 32 hexadecimal digits of either case.
#[tactic(auto, using(crate::proofs::DigestLaw::digest_there))]
pub fn digest_law()
    ensures { law.DigestLaw }
{}
