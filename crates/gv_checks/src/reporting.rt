//! The report of a query and its keyword, from what was found for its gates.
//!
//! Costs the values of the gates and the bytes of the report.
ghost use Rattle.std.specs.Prelude.{◌≡◌, ◌++◌, [], true, codes, if◌then◌else◌, option_map, unwrap_or, map, slice_get, length, Some, None, IfOk};
ghost use Rattle.gv_base.specs.Words.{joined};
ghost use Rattle.gv_expr.specs.DepGrammar.{item_text};
ghost use Rattle.gv_entry.specs.Allowed.{turned, values_by};
ghost use Rattle.gv_entry.specs.declared.entry.Body.{Body};
ghost use Rattle.gv_logic.specs.Circuits.{at, values};
ghost use Rattle.gv_logic.specs.Literals.{lit_true};
ghost use Rattle.gv_lower.specs.Lowering.{IsQuery};
ghost use Rattle.gv_plain.specs.Context.{case_of};
ghost use Rattle.gv_checks.specs.Queries.{class_keyword, class_of, flags_of, gates_of, has_query, items_of, least_of, preferred_of, query_keyword, query_of, required_of};
ghost use Rattle.gv_plain.specs.PlainReports.{context_of, subject_of};
ghost use Rattle.gv_checks.specs.RepoReports.{failing_text, nonsolvable, query_report, unsatisfiable, witness_of, witness_words};
ghost use Rattle.gv_checks.specs.Unmet.{FoundUnmet, first_off};

use crate::laws::answers_law;
use gv_base::{NoMemory, Text, Texts};
use gv_entry::class_in;
use gv_expr::{DepExpr, print_item, print_required};
use gv_facts::{Class, Status};
use gv_logic::{Bits, Lit, values};
use gv_lower::{Query, value_law};
use gv_plain::{JudgedPkg, context_of, subject_of};
use gv_report::{ContextName, Keyword, Report, Subject};
use std::alloc::Global;

/// The words of the query's flags with these bits, joined by one space.
pub(crate) fn witness_of(alloc: Global, query: &Query, bits: &Bits) -> Result<Text, NoMemory>
    ensures { IfOk result (λ text. text ≡ joined (witness_words query.now.flags (values_by query.now.preferred bits.now))) }
{
    let values = values_by(alloc, query.preferred.items(), bits.items())?;
    let words = witness_words(alloc, query.flags.items(), values.items())?;
    words.joined(alloc, b' ')
}

/// The report of the query, if it has one, from the least assignment that is asked for.
pub(crate) fn report_of(
    alloc: Global,
    judged: &JudgedPkg<'_>,
    class: Class,
    query: &Query,
    found: &Option<Bits>,
) -> Result<Option<Report>, NoMemory>
    requires lowered { IsQuery (gates_of (query_of (case_of judged.now) class)) (flags_of (query_of (case_of judged.now) class)) (items_of (query_of (case_of judged.now) class)) (preferred_of (query_of (case_of judged.now) class)) query.now }
    requires found { found.now ≡ least_of (query_of (case_of judged.now) class) }
    ensures { IfOk result (λ report. report ≡ query_report (query_of (case_of judged.now) class)) }
{
    answers_law();
    match (class_in(judged.body, class), found) {
        (None, None) => Ok(Some(unsatisfiable(alloc, judged, class)?)),
        (None, Some(_)) => Ok(None),
        (Some(_), None) => Ok(None),
        (Some(dep), Some(bits)) => {
            let report = nonsolvable(alloc, judged, class, dep, query, bits)?;
            Ok(Some(report))
        }
    }
}

/// The keyword that a query belongs to.
pub(crate) fn query_keyword(status: Status, class: Class) -> Keyword
    ensures { result ≡ query_keyword status class }
{
    match class {
        Class::Required => Keyword::UnsatisfiableRequiredUse,
        Class::Depend | Class::Bdepend | Class::Rdepend | Class::Pdepend | Class::Idepend => {
            class_keyword(status)
        }
    }
}

// The keyword of a class that fails in a profile of this status.
fn class_keyword(status: Status) -> Keyword
    ensures { result ≡ class_keyword status }
{
    match status {
        Status::Stable => Keyword::NonsolvableDepsInStable,
        Status::Dev => Keyword::NonsolvableDepsInDev,
        Status::Exp => Keyword::NonsolvableDepsInExp,
    }
}

// A flag, with `-` before it where it is off.
fn witness_word(alloc: Global, flag: &Text, on: bool) -> Result<Text, NoMemory>
    ensures { IfOk result (λ word. word ≡ (if on then flag.now else codes "-" ++ flag.now)) }
{
    if on {
        return flag.copy(alloc);
    }
    let mut word = Text::of(alloc, b"-")?;
    word.append(flag.bytes())?;
    Ok(word)
}

#[tactic(auto, using(crate::proofs::WitnessLemmas::next_word, crate::proofs::WitnessLemmas::no_words))]
fn witness_words(alloc: Global, flags: &[Text], values: &[bool]) -> Result<Texts, NoMemory>
    ensures { IfOk result (λ words. words ≡ witness_words flags.now values.now) }
{
    let mut words = Texts::new(alloc);
    for (i, flag) in flags.iter().enumerate() {
        if i >= values.len() {
            return Ok(words);
        }
        words.add(witness_word(alloc, flag, values[i])?)?;
    }
    Ok(words)
}

// A value by its bit, which says that it isn't the preferred one.
fn turned(preferred: bool, bit: bool) -> bool
    ensures { result ≡ turned preferred bit }
{
    if preferred { !bit } else { bit }
}

#[tactic(auto, using(crate::proofs::WitnessLemmas::next_value))]
fn values_by(alloc: Global, preferred: &[bool], bits: &[bool]) -> Result<Bits, NoMemory>
    ensures { IfOk result (λ values. values ≡ values_by preferred.now bits.now) }
{
    let mut values = Bits::new(alloc);
    for (i, on) in preferred.iter().enumerate() {
        if i >= bits.len() {
            return Ok(values);
        }
        values.add(turned(*on, bits[i]))?;
    }
    Ok(values)
}

fn is_true(places: &[bool], lit: Lit) -> bool
    ensures { result ≡ lit_true (at places.now) lit }
{
    let on = match places.get((lit.0 / 2) as usize) {
        Some(on) => *on,
        None => false,
    };
    if lit.0 % 2 == 0 { on } else { !on }
}

// The place of the first literal that is false.
fn first_false(places: &[bool], lits: &[Lit]) -> Option<usize>
    ensures { result ≡ first_off (map (lit_true (at places.now)) lits.now) }
{
    for (i, lit) in lits.iter().enumerate() {
        if !is_true(places, *lit) {
            return Some(i);
        }
    }
    None
}

// The text of the first top item whose literal is false. A place fits 32 bits in every class that is read; where one
// doesn't, memory is said to be wanting.
fn unmet_text(
    alloc: Global,
    class: &DepExpr,
    places: &[bool],
    items: &[Lit],
) -> Result<Text, NoMemory>
    ensures { IfOk result (FoundUnmet class.now (first_off (map (lit_true (at places.now)) items.now))) }
{
    match first_false(places, items) {
        Some(n) if n < class.items.len() => match u32::try_from(n) {
            Ok(n) => print_item(alloc, class, n),
            Err(_) => Err(NoMemory),
        },
        _ => Text::of(alloc, b""),
    }
}

// The package and the context that a report is about.
fn place_of(alloc: Global, judged: &JudgedPkg<'_>) -> Result<(Subject, ContextName), NoMemory>
    ensures subject { IfOk result (λ place. place.0 ≡ subject_of judged.now.pkg.now) }
    ensures context { IfOk result (λ place. place.1 ≡ context_of (case_of judged.now).parent) }
{
    let context = context_of(alloc, judged)?;
    let subject = subject_of(alloc, judged.pkg)?;
    Ok((subject, context))
}

fn unsatisfiable(alloc: Global, judged: &JudgedPkg<'_>, class: Class) -> Result<Report, NoMemory>
    ensures { IfOk result (λ report. report ≡ unsatisfiable (query_of (case_of judged.now) class)) }
{
    let detail = match &judged.body.required {
        Some(required) => print_required(alloc, required)?,
        None => Text::of(alloc, b"")?,
    };
    let (subject, context) = place_of(alloc, judged)?;
    Ok(Report {
        subject,
        keyword: Keyword::UnsatisfiableRequiredUse,
        class: None,
        context: Some(context),
        witness: None,
        detail: Some(detail),
    })
}

// The text of the first top item that doesn't hold under these bits.
fn failing_text(
    alloc: Global,
    judged: &JudgedPkg<'_>,
    class: Class,
    dep: &DepExpr,
    query: &Query,
    bits: &Bits,
) -> Result<Text, NoMemory>
    requires class { class_of (query_of (case_of judged.now) class) ≡ Some dep.now }
    requires lowered { IsQuery (gates_of (query_of (case_of judged.now) class)) (flags_of (query_of (case_of judged.now) class)) (items_of (query_of (case_of judged.now) class)) (preferred_of (query_of (case_of judged.now) class)) query.now }
    requires long { length bits.now ≡ length (flags_of (query_of (case_of judged.now) class)) }
    ensures { IfOk result (λ text. text ≡ failing_text (query_of (case_of judged.now) class) dep.now bits.now) }
{
    let _judged = *judged;
    let _class = class;
    value_law();
    let places = values(alloc, &query.gates, bits)?;
    unmet_text(alloc, dep, places.items(), query.items.items())
}

fn nonsolvable(
    alloc: Global,
    judged: &JudgedPkg<'_>,
    class: Class,
    dep: &DepExpr,
    query: &Query,
    bits: &Bits,
) -> Result<Report, NoMemory>
    requires class { class_of (query_of (case_of judged.now) class) ≡ Some dep.now }
    requires lowered { IsQuery (gates_of (query_of (case_of judged.now) class)) (flags_of (query_of (case_of judged.now) class)) (items_of (query_of (case_of judged.now) class)) (preferred_of (query_of (case_of judged.now) class)) query.now }
    requires long { length bits.now ≡ length (flags_of (query_of (case_of judged.now) class)) }
    ensures { IfOk result (λ report. report ≡ nonsolvable (query_of (case_of judged.now) class) dep.now bits.now) }
{
    let witness = witness_of(alloc, query, bits)?;
    let detail = failing_text(alloc, judged, class, dep, query, bits)?;
    let (subject, context) = place_of(alloc, judged)?;
    Ok(Report {
        subject,
        keyword: class_keyword(judged.profile.status),
        class: Some(class),
        context: Some(context),
        witness: Some(witness),
        detail: Some(detail),
    })
}
