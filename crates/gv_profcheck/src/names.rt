//! Lines of profile files whose atom is of no package. O(bytes), and a look-up by hash for each atom.
ghost use Rattle.std.specs.Prelude.{◌≡◌, ◌++◌, flat_map, option_to_list, IfOk, OnOk};
ghost use Rattle.gv_profile.specs.Lines.{line_words};
ghost use Rattle.gv_profcheck.specs.Unknown.{atom_in, file_reports, if_unknown, in_flags, in_mask, is_unknown, mask_atom, unknown_at, unknown_reports};

use gv_atom::{Atom, print_atom};
use gv_base::{Cut, NoMemory, Text, next_number, next_piece};
use gv_facts::Pkgs;
use gv_load::Repo;
use gv_profile::{are_flag_words, file_atom, line_words};
use gv_report::{Keyword, Report, Reports, Subject};
use gv_usedefaults::{FileKind, LineFile, Walk};
use std::alloc::Global;

/// The good lines of the files that the walk read whose atom has a category and a name of no package: those of
/// `package.mask`, the repository's own too, of `package.use`, `package.use.mask` and `package.use.force`, and of their stable
/// forms whatever the directory's EAPI. A `-atom` line isn't looked at.
pub fn unknown_packages(alloc: Global, repo: &Repo, walk: &Walk) -> Result<Reports, NoMemory>
    ensures { IfOk result (λ reports. reports ≡ unknown_reports repo.now.pkgs walk.now.files) }
{
    unknown_in(alloc, &repo.pkgs, walk.files.items())
}

fn unknown_in(alloc: Global, pkgs: &Pkgs, files: &[LineFile]) -> Result<Reports, NoMemory>
    ensures { IfOk result (λ reports. reports ≡ unknown_reports pkgs.now files.now) }
{
    let mut reports = Reports::new(alloc);
    for file in files {
        add_file(alloc, pkgs, file, &mut reports)?;
    }
    Ok(reports)
}

fn mask_atom(alloc: Global, word: &[u8]) -> Result<Option<Atom>, NoMemory>
    ensures { IfOk result (λ atom. atom ≡ mask_atom word.now) }
{
    match word {
        [] => Ok(None),
        [b'-', ..] => Ok(None),
        _ => file_atom(alloc, word),
    }
}

fn in_mask(alloc: Global, words: &[Text]) -> Result<Option<Atom>, NoMemory>
    ensures { IfOk result (λ atom. atom ≡ in_mask words.now) }
{
    match words {
        [word] => mask_atom(alloc, word.bytes()),
        _ => Ok(None),
    }
}

#[tactic(auto, using(crate::proofs::Rests::rest_of))]
fn in_flags(alloc: Global, words: &[Text]) -> Result<Option<Atom>, NoMemory>
    ensures { IfOk result (λ atom. atom ≡ in_flags words.now) }
{
    match words {
        [] => Ok(None),
        [text, words @ ..] => {
            if are_flag_words(words) {
                file_atom(alloc, text.bytes())
            } else {
                Ok(None)
            }
        }
    }
}

fn atom_in(alloc: Global, kind: FileKind, words: &[Text]) -> Result<Option<Atom>, NoMemory>
    ensures { IfOk result (λ atom. atom ≡ atom_in kind words.now) }
{
    match kind {
        FileKind::Parent | FileKind::Defaults => Ok(None),
        FileKind::Mask => in_mask(alloc, words),
        FileKind::Use
        | FileKind::UseMask
        | FileKind::UseForce
        | FileKind::StableMask
        | FileKind::StableForce => in_flags(alloc, words),
    }
}

#[tactic(auto, using(crate::proofs::Nowhere::no_place))]
fn is_unknown(pkgs: &Pkgs, atom: &Atom) -> bool
    ensures { result ≡ is_unknown pkgs.now atom.now }
{
    pkgs.places_of(atom.category.bytes(), atom.name.bytes())
        .is_empty()
}

fn unknown_at(alloc: Global, path: &Text, line: u32, atom: &Atom) -> Result<Report, NoMemory>
    ensures { IfOk result (λ report. report ≡ unknown_at path.now line atom.now) }
{
    Ok(Report {
        subject: Subject::Place {
            path: path.copy(alloc)?,
            line,
        },
        keyword: Keyword::UnknownProfilePackage,
        class: None,
        context: None,
        witness: None,
        detail: Some(print_atom(alloc, atom)?),
    })
}

fn add_unknown(
    alloc: Global,
    pkgs: &Pkgs,
    path: &Text,
    line: u32,
    atom: Option<Atom>,
    reports: &mut Reports,
) -> Result<(), NoMemory>
    ensures { OnOk result (reports.new ≡ reports.old ++ option_to_list (if_unknown pkgs.now path.now line atom)) }
{
    match atom {
        Some(atom) => {
            if is_unknown(pkgs, &atom) {
                reports.add(unknown_at(alloc, path, line, &atom)?)?;
            }
            Ok(())
        }
        None => Ok(()),
    }
}

fn add_line(
    alloc: Global,
    pkgs: &Pkgs,
    file: &LineFile,
    number: u32,
    line: &[u8],
    reports: &mut Reports,
) -> Result<(), NoMemory>
    ensures { OnOk result (reports.new ≡ reports.old ++ option_to_list (if_unknown pkgs.now file.now.path number (atom_in file.now.kind (line_words line.now)))) }
{
    let words = line_words(alloc, line)?;
    let atom = atom_in(alloc, file.kind, words.items())?;
    add_unknown(alloc, pkgs, &file.path, number, atom, reports)
}

fn add_file(
    alloc: Global,
    pkgs: &Pkgs,
    file: &LineFile,
    reports: &mut Reports,
) -> Result<(), NoMemory>
    ensures { OnOk result (reports.new ≡ reports.old ++ file_reports pkgs.now file.now) }
{
    let mut rest = Some(file.bytes.bytes());
    let mut number = 1u32;
    while let Some(line) = next_piece(&mut rest, Cut::Lines) {
        add_line(alloc, pkgs, file, number, line, reports)?;
        number = next_number(number)?;
    }
    Ok(())
}
