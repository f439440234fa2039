//! Reports of bad lines, of stacks with a fault, and of PFs that are no packages. O(bytes of the reports).
ghost use Rattle.std.specs.Prelude.{◌≡◌, ◌∷◌, [], ◌++◌, map, flat_map, IfOk, OnOk};
ghost use Rattle.gv_load.specs.Notes.{error_report, kept_notes, pf_notes, pf_report, place_report, stale_detail};

use crate::freshness::{Kept, PfKept, PfsKept, Why};
use gv_base::{NoMemory, Text};
use gv_entry::EntryErrors;
use gv_profile::{PlaceNote, PlaceNotes};
use gv_report::{Keyword, Report, Reports, Subject};
use std::alloc::Global;

/// Adds a report for each of these places.
pub(crate) fn add_places(
    alloc: Global,
    reports: &mut Reports,
    keyword: Keyword,
    notes: &PlaceNotes,
) -> Result<(), NoMemory>
    ensures { OnOk result (reports.new ≡ reports.old ++ map (place_report keyword) notes.now) }
{
    for note in notes.items() {
        reports.add(place_report(alloc, keyword, note)?)?;
    }
    Ok(())
}

/// Adds what is told of these PFs.
pub(crate) fn add_pfs(alloc: Global, reports: &mut Reports, kepts: &PfsKept) -> Result<(), NoMemory>
    ensures { OnOk result (reports.new ≡ reports.old ++ flat_map pf_notes kepts.now) }
{
    for kept in kepts.items() {
        add_kept(alloc, reports, &kept.subject, &kept.kept)?;
    }
    Ok(())
}

fn place_report(alloc: Global, keyword: Keyword, note: &PlaceNote) -> Result<Report, NoMemory>
    ensures { IfOk result (λ report. report ≡ place_report keyword note.now) }
{
    Ok(Report {
        subject: Subject::Place {
            path: note.path.copy(alloc)?,
            line: note.line,
        },
        keyword,
        class: None,
        context: None,
        witness: None,
        detail: Some(note.detail.copy(alloc)?),
    })
}

fn pf_report(
    alloc: Global,
    keyword: Keyword,
    subject: &Subject,
    detail: Option<Text>,
) -> Result<Report, NoMemory>
    ensures { IfOk result (λ report. report ≡ pf_report keyword subject.now detail) }
{
    Ok(Report {
        subject: subject.copy(alloc)?,
        keyword,
        class: None,
        context: None,
        witness: None,
        detail,
    })
}

fn add_pf(
    alloc: Global,
    reports: &mut Reports,
    keyword: Keyword,
    subject: &Subject,
    detail: Option<Text>,
) -> Result<(), NoMemory>
    ensures { OnOk result (reports.new ≡ reports.old ++ pf_report keyword subject.now detail ∷ []) }
{
    let report = pf_report(alloc, keyword, subject, detail)?;
    reports.add(report)?;
    Ok(())
}

fn add_errors(
    alloc: Global,
    reports: &mut Reports,
    subject: &Subject,
    errors: &EntryErrors,
) -> Result<(), NoMemory>
    ensures { OnOk result (reports.new ≡ reports.old ++ map (error_report subject.now) errors.now) }
{
    for error in errors.items() {
        let detail = error.detail.copy(alloc)?;
        add_pf(
            alloc,
            reports,
            Keyword::MetadataError,
            subject,
            Some(detail),
        )?;
    }
    Ok(())
}

#[tactic(auto, unfolding(crate::specs::Notes::stale_detail))]
fn stale_detail(alloc: Global, why: &Why) -> Result<Text, NoMemory>
    ensures { IfOk result (λ detail. detail ≡ stale_detail why.now) }
{
    match why {
        Why::Ebuild => Text::of(alloc, b"ebuild"),
        Why::Eclasses => Text::of(alloc, b"eclasses"),
        Why::OneEclass { name } => {
            let mut detail = Text::of(alloc, b"eclass ")?;
            detail.append(name.bytes())?;
            Ok(detail)
        }
    }
}

fn add_kept(
    alloc: Global,
    reports: &mut Reports,
    subject: &Subject,
    kept: &Kept,
) -> Result<(), NoMemory>
    ensures { OnOk result (reports.new ≡ reports.old ++ kept_notes subject.now kept.now) }
{
    match kept {
        Kept::Nothing => Ok(()),
        Kept::Missing => add_pf(alloc, reports, Keyword::MissingCache, subject, None),
        Kept::Orphan => add_pf(alloc, reports, Keyword::OrphanCache, subject, None),
        Kept::Stale { why } => {
            let detail = stale_detail(alloc, why)?;
            add_pf(alloc, reports, Keyword::StaleCache, subject, Some(detail))
        }
        Kept::Current { entry } => add_errors(alloc, reports, subject, &entry.errors),
    }
}
