//! The flags of a query: those that are mentioned and free. O(n log n) comparisons for n mentions, and the state of each flag.
ghost use Rattle.std.specs.Prelude.{◌≡◌, ◌++◌, filter, IfOk};
ghost use Rattle.gv_base.specs.Order.{IsAscending, in_order};
ghost use Rattle.gv_expr.specs.Dep.{deps};
ghost use Rattle.gv_expr.specs.Mentions.{dep_mentions, req_mentions};
ghost use Rattle.gv_expr.specs.Required.{reqs};
ghost use Rattle.gv_entry.specs.Allowed.{is_free};
ghost use Rattle.gv_facts.specs.States.{state};
ghost use Rattle.gv_expr.specs.Mentions.{texts_of};

use gv_base::{NoMemory, Text, Texts, in_order_law};
use gv_expr::{DepExpr, Mentions, UseExpr};
use gv_facts::{FlagState, Level, Pkg, Profile};
use gv_usestate::state_of;
use std::alloc::Global;

// Of REQUIRED_USE alone.
pub(crate) fn required_flags(
    alloc: Global,
    pkg: &Pkg,
    profile: &Profile,
    level: Level,
    required: &UseExpr,
) -> Result<Texts, NoMemory>
    ensures flags { IfOk result (λ flags. flags ≡ filter (λ flag. is_free (state pkg.now profile.now level flag)) (in_order (req_mentions (reqs required.now)))) }
    ensures ascend { IfOk result IsAscending }
{
    in_order_law();
    let mentioned = required_mentions(alloc, required)?;
    let flags = free_flags(alloc, pkg, profile, level, mentioned.items())?;
    Ok(flags)
}

// Of REQUIRED_USE and a class.
pub(crate) fn class_flags<'a>(
    alloc: Global,
    pkg: &Pkg,
    profile: &Profile,
    level: Level,
    required: &'a UseExpr,
    class: &'a DepExpr,
) -> Result<Texts, NoMemory>
    ensures flags { IfOk result (λ flags. flags ≡ filter (λ flag. is_free (state pkg.now profile.now level flag)) (in_order (req_mentions (reqs required.now) ++ dep_mentions (deps class.now)))) }
    ensures ascend { IfOk result IsAscending }
{
    in_order_law();
    let mentioned = class_mentions(alloc, required, class)?;
    let flags = free_flags(alloc, pkg, profile, level, mentioned.items())?;
    Ok(flags)
}

// In byte order, each once.
fn required_mentions<'a>(alloc: Global, required: &'a UseExpr) -> Result<Mentions<'a>, NoMemory>
    ensures { IfOk result (λ flags. flags ≡ in_order (req_mentions (reqs required.now))) }
{
    let mut flags = Mentions::new(alloc);
    flags.add_required(required)?;
    flags.put_in_order()?;
    Ok(flags)
}

fn class_mentions<'a>(
    alloc: Global,
    required: &'a UseExpr,
    class: &'a DepExpr,
) -> Result<Mentions<'a>, NoMemory>
    ensures { IfOk result (λ flags. flags ≡ in_order (req_mentions (reqs required.now) ++ dep_mentions (deps class.now))) }
{
    let mut flags = Mentions::new(alloc);
    flags.add_required(required)?;
    flags.add_class(class)?;
    flags.put_in_order()?;
    Ok(flags)
}

fn is_free(pkg: &Pkg, profile: &Profile, level: Level, flag: &[u8]) -> bool
    ensures { result ≡ is_free (state pkg.now profile.now level flag.now) }
{
    matches!(state_of(pkg, profile, level, flag), FlagState::Free)
}

fn free_flags(
    alloc: Global,
    pkg: &Pkg,
    profile: &Profile,
    level: Level,
    mentioned: &[&[u8]],
) -> Result<Texts, NoMemory>
    ensures { IfOk result (λ flags. flags ≡ filter (λ flag. is_free (state pkg.now profile.now level flag)) (texts_of mentioned.now)) }
{
    let mut flags = Texts::new(alloc);
    for flag in mentioned {
        if is_free(pkg, profile, level, flag) {
            flags.add(Text::of(alloc, flag)?)?;
        }
    }
    Ok(flags)
}
