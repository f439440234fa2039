//! Flags that a class mentions and that aren't effective.
//!
//! A flag of the package's IUSE is effective in every profile, so only the others are looked at in each context, of which
//! there are few: each costs O(IUSE_IMPLICIT and the values of implicit variables).
ghost use Rattle.std.specs.Prelude.{◌≡◌, ◌++◌, map, filter, flat_map, true, not, IfOk, OnOk};
ghost use Rattle.gv_plain.specs.Context.{case_of};
ghost use Rattle.gv_plain.specs.Plain.{is_other, other_flags, told_unstated, unstated_among};
ghost use Rattle.gv_plain.specs.PlainReports.{is_readable, is_unstated, mentioned_in, readable_classes, unstated, unstated_in};

use crate::classes::class_order;
use crate::context::JudgedPkg;
use crate::nonexistent::is_readable;
use crate::telling::{context_of, is_told, subject_of};
use gv_base::{NoMemory, Text, Texts};
use gv_entry::{Body, class_in};
use gv_expr::{mentioned_dep, mentioned_required};
use gv_facts::{Class, FlagState, Pkg};
use gv_report::{Keyword, Options, Report, Reports};
use gv_usestate::state;
use std::alloc::Global;

/// The flags, in byte order, that a class mentions and that aren't in the package's IUSE.
#[derive(Drop)]
pub(crate) struct OtherFlags {
    pub(crate) class: Class,
    pub(crate) flags: Texts,
}

/// The flags of each readable class, in the order of classes.
pub(crate) fn other_flags(
    alloc: Global,
    pkg: &Pkg,
    body: &Body,
) -> Result<Vec<OtherFlags>, NoMemory>
    ensures { IfOk result (λ others. others.items ≡ map (other_flags pkg.now body.now) (readable_classes pkg.now body.now)) }
{
    others_among(alloc, pkg, body, &class_order())
}

/// Adds the reports of the flags that aren't effective in the context, where they are selected.
#[tactic(auto, using(crate::proofs::PlainLemmas::unstated_by_others))]
pub(crate) fn add_unstated(
    alloc: Global,
    options: &Options,
    judged: &JudgedPkg<'_>,
    others: &[OtherFlags],
    reports: &mut Reports,
) -> Result<(), NoMemory>
    requires { others.now ≡ map (other_flags judged.now.pkg.now judged.now.body.now) (readable_classes judged.now.pkg.now judged.now.body.now) }
    ensures { OnOk result (reports.new ≡ reports.old ++ told_unstated options.now (case_of judged.now)) }
{
    if is_told(options, judged, Keyword::UnstatedIuse) {
        return add_others(alloc, judged, others, reports);
    }
    Ok(())
}

fn mentioned_in(alloc: Global, body: &Body, class: Class) -> Result<Texts, NoMemory>
    ensures { IfOk result (λ flags. flags ≡ mentioned_in body.now class) }
{
    match class {
        Class::Required => match &body.required {
            Some(items) => mentioned_required(alloc, items),
            None => Ok(Texts::new(alloc)),
        },
        Class::Depend | Class::Bdepend | Class::Rdepend | Class::Pdepend | Class::Idepend => {
            match class_in(body, class) {
                Some(items) => mentioned_dep(alloc, items),
                None => Ok(Texts::new(alloc)),
            }
        }
    }
}

fn others_of(alloc: Global, pkg: &Pkg, flags: &[Text]) -> Result<Texts, NoMemory>
    ensures { IfOk result (λ others. others ≡ filter (is_other pkg.now) flags.now) }
{
    let mut others = Texts::new(alloc);
    for flag in flags {
        if !pkg.iuse.has(flag.bytes()) {
            others.add(flag.copy(alloc)?)?;
        }
    }
    Ok(others)
}

fn other_flags_in(
    alloc: Global,
    pkg: &Pkg,
    body: &Body,
    class: Class,
) -> Result<OtherFlags, NoMemory>
    ensures { IfOk result (λ others. others ≡ other_flags pkg.now body.now class) }
{
    let mentioned = mentioned_in(alloc, body, class)?;
    let flags = others_of(alloc, pkg, mentioned.items())?;
    Ok(OtherFlags { class, flags })
}

fn others_among(
    alloc: Global,
    pkg: &Pkg,
    body: &Body,
    classes: &[Class],
) -> Result<Vec<OtherFlags>, NoMemory>
    ensures { IfOk result (λ others. others.items ≡ map (other_flags pkg.now body.now) (filter (is_readable pkg.now body.now) classes.now)) }
{
    let mut others = Vec::new(alloc);
    for class in classes {
        if is_readable(pkg, body, *class) {
            others.push(other_flags_in(alloc, pkg, body, *class)?)?;
        }
    }
    Ok(others)
}

fn is_unstated(judged: &JudgedPkg<'_>, flag: &Text) -> bool
    ensures { result ≡ is_unstated (case_of judged.now) flag.now }
{
    match state(judged.pkg, judged.profile, judged.level, flag) {
        FlagState::Absent => true,
        FlagState::Off | FlagState::On | FlagState::Free => false,
    }
}

fn unstated(
    alloc: Global,
    judged: &JudgedPkg<'_>,
    class: Class,
    flag: &Text,
) -> Result<Report, NoMemory>
    ensures { IfOk result (λ report. report ≡ unstated (case_of judged.now) class flag.now) }
{
    Ok(Report {
        subject: subject_of(alloc, judged.pkg)?,
        keyword: Keyword::UnstatedIuse,
        class: Some(class),
        context: Some(context_of(alloc, judged)?),
        witness: None,
        detail: Some(flag.copy(alloc)?),
    })
}

fn add_flags(
    alloc: Global,
    judged: &JudgedPkg<'_>,
    class: Class,
    flags: &[Text],
    reports: &mut Reports,
) -> Result<(), NoMemory>
    ensures { OnOk result (reports.new ≡ reports.old ++ map (unstated (case_of judged.now) class) (filter (is_unstated (case_of judged.now)) flags.now)) }
{
    for flag in flags {
        if is_unstated(judged, flag) {
            reports.add(unstated(alloc, judged, class, flag)?)?;
        }
    }
    Ok(())
}

fn add_others(
    alloc: Global,
    judged: &JudgedPkg<'_>,
    others: &[OtherFlags],
    reports: &mut Reports,
) -> Result<(), NoMemory>
    ensures { OnOk result (reports.new ≡ reports.old ++ flat_map (unstated_among (case_of judged.now)) others.now) }
{
    for other in others {
        add_flags(alloc, judged, other.class, other.flags.items(), reports)?;
    }
    Ok(())
}
