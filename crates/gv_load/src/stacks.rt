//! The stacks of all lines, folded line by line. A line costs what folding its stack costs; what several stacks share is parsed once.
ghost use Rattle.std.specs.Prelude.{◌≡◌, ◌++◌, ◌∷◌, [], Some, None, false, filter_map, option_to_list, IfOk, IfErr, OnOk};
ghost use Rattle.std.specs.FinMap as finite;
ghost use Rattle.gv_profile.specs.Names.{desc_path};
ghost use Rattle.gv_load.specs.Paths.{stack_place};
ghost use Rattle.gv_load.specs.Stacks.{detail_of, wrong_at, error_of, error_at, profile_at};
ghost use Rattle.gv_load.specs.StackLimits.{is_no_memory, limit_of, limit_at, first_limit, LimitIs};

use gv_base::{NoMemory, Text};
use gv_facts::{Profile, Profiles};
use gv_profile::{
    DescLine, DescLines, Dirs, PlaceNote, PlaceNotes, ProfileFault, Room, Sources, desc_path,
    fold_within,
};
use gv_reading::{LoadFault, NamedFiles, within};
use std::alloc::Global;

// How many visits a stack may have.
const MAX_VISITS: u64 = 4096;

/// The profiles of the lines whose stack has no fault, and the places of the faults of the others.
#[derive(Drop)]
pub(crate) struct Folds {
    pub profiles: Profiles,
    pub errors: PlaceNotes,
}

// What is wrong with a stack.
#[derive(Clone, Copy)]
pub(crate) enum Wrong {
    LeadsBack,
    NoParent,
    NoProfile,
    NoEapi,
}

/// The profiles of the lines whose stack has no fault, and the faults of the others, in the order of the lines. The first
/// line whose stack has more than 4,096 visits is a limit at `profiles/` and its path.
pub(crate) fn fold_lines(
    alloc: Global,
    dirs: &Dirs,
    first: &NamedFiles,
    lines: &DescLines,
) -> Result<Folds, LoadFault>
    ensures profiles { IfOk result (λ f. f.profiles ≡ filter_map (profile_at (finite.get dirs.now) first.now) lines.now) }
    ensures errors { IfOk result (λ f. f.errors ≡ filter_map (error_at (finite.get dirs.now)) lines.now) }
    ensures passed { OnOk result (first_limit (finite.get dirs.now) lines.now ≡ None) }
    ensures cause { IfErr result (LimitIs (first_limit (finite.get dirs.now) lines.now)) }
{
    let mut folds = Folds {
        profiles: Profiles::new(alloc),
        errors: PlaceNotes::new(alloc),
    };
    let mut sources = Sources::of(alloc, dirs, first);
    let mut room = Room::new();
    for line in lines.items() {
        folds = match fold_line(alloc, &mut sources, line, folds, &mut room) {
            Ok(folds) => folds,
            Err(fault) => return Err(fault),
        };
    }
    Ok(folds)
}

#[tactic(auto, unfolding(crate::specs::Stacks::detail_of))]
fn detail_of(alloc: Global, wrong: Wrong) -> Result<Text, NoMemory>
    ensures { IfOk result (λ text. text ≡ detail_of wrong) }
{
    match wrong {
        Wrong::LeadsBack => Text::of(alloc, b"cycle"),
        Wrong::NoParent => Text::of(alloc, b"missing parent"),
        Wrong::NoProfile => Text::of(alloc, b"missing profile"),
        Wrong::NoEapi => Text::of(alloc, b"bad eapi"),
    }
}

#[tactic(auto, unfolding(crate::specs::Paths::stack_place))]
fn stack_place(alloc: Global, word: &Text) -> Result<Text, NoMemory>
    ensures { IfOk result (λ place. place ≡ stack_place word.now) }
{
    let profiles = Text::of(alloc, b"profiles")?;
    within(alloc, &profiles, word.bytes())
}

fn too_many(alloc: Global, line: &DescLine) -> LoadFault
    ensures { LimitIs (Some (stack_place line.now.path)) result }
{
    stack_limit(alloc, &line.path)
}

/// That a stack has too many visits, by the path word of its profile.
pub fn stack_limit(alloc: Global, word: &Text) -> LoadFault
    ensures { LimitIs (Some (stack_place word.now)) result }
{
    match stack_place(alloc, word) {
        Ok(place) => LoadFault::Limit {
            place,
            number: MAX_VISITS,
        },
        Err(_) => LoadFault::NoMemory,
    }
}

fn with_profile(folds: Folds, profile: Profile) -> Result<Folds, NoMemory>
    ensures profiles { IfOk result (λ f. f.profiles ≡ folds.profiles ++ profile ∷ []) }
    ensures errors { IfOk result (λ f. f.errors ≡ folds.errors) }
{
    let Folds {
        mut profiles,
        errors,
    } = folds;
    profiles.add(profile)?;
    Ok(Folds { profiles, errors })
}

fn with_error(
    alloc: Global,
    folds: Folds,
    path: Text,
    line: u32,
    wrong: Wrong,
) -> Result<Folds, NoMemory>
    ensures profiles { IfOk result (λ f. f.profiles ≡ folds.profiles) }
    ensures errors { IfOk result (λ f. f.errors ≡ folds.errors ++ wrong_at path line wrong ∷ []) }
{
    let Folds {
        profiles,
        mut errors,
    } = folds;
    let detail = detail_of(alloc, wrong)?;
    errors.add(PlaceNote { path, line, detail })?;
    Ok(Folds { profiles, errors })
}

fn without_profile(alloc: Global, folds: Folds, line: u32) -> Result<Folds, NoMemory>
    ensures profiles { IfOk result (λ f. f.profiles ≡ folds.profiles) }
    ensures errors { IfOk result (λ f. f.errors ≡ folds.errors ++ wrong_at desc_path line Wrong.NoProfile ∷ []) }
{
    let path = desc_path(alloc)?;
    with_error(alloc, folds, path, line, Wrong::NoProfile)
}

// Notes the fault of a line's stack.
fn with_fault(
    alloc: Global,
    folds: Folds,
    line: &DescLine,
    fault: ProfileFault,
) -> Result<Folds, LoadFault>
    ensures profiles { IfOk result (λ f. f.profiles ≡ folds.profiles) }
    ensures errors { IfOk result (λ f. f.errors ≡ folds.errors ++ option_to_list (error_of fault)) }
    ensures passed { OnOk result (limit_of line.now (Some fault) ≡ None) }
    ensures told { OnOk result (is_no_memory fault ≡ false) }
    ensures cause { IfErr result (LimitIs (limit_of line.now (Some fault))) }
{
    let noted = match fault {
        ProfileFault::Cycle { path, line } => with_error(
            alloc,
            folds,
            path,
            line,
            Wrong::LeadsBack,
        ),
        ProfileFault::MissingParent { path, line } => {
            with_error(alloc, folds, path, line, Wrong::NoParent)
        }
        ProfileFault::MissingProfile { line } => without_profile(alloc, folds, line),
        ProfileFault::BadEapi { path } => with_error(alloc, folds, path, 1, Wrong::NoEapi),
        ProfileFault::TooMany => return Err(too_many(alloc, line)),
        ProfileFault::NoMemory => Err(NoMemory),
    };
    match noted {
        Ok(folds) => Ok(folds),
        Err(_) => Err(LoadFault::NoMemory),
    }
}

fn fold_line(
    alloc: Global,
    sources: &mut Sources<'_>,
    line: &DescLine,
    folds: Folds,
    room: &mut Room,
) -> Result<Folds, LoadFault>
    ensures same { sources.new ≡ sources.old }
    ensures profiles { IfOk result (λ f. f.profiles ≡ folds.profiles ++ option_to_list (profile_at (finite.get sources.old.dirs) sources.old.first line.now)) }
    ensures errors { IfOk result (λ f. f.errors ≡ folds.errors ++ option_to_list (error_at (finite.get sources.old.dirs) line.now)) }
    ensures passed { OnOk result (limit_at (finite.get sources.old.dirs) line.now ≡ None) }
    ensures cause { IfErr result (LimitIs (limit_at (finite.get sources.old.dirs) line.now)) }
{
    match fold_within(alloc, sources, line, room) {
        Ok(profile) => match with_profile(folds, profile) {
            Ok(folds) => Ok(folds),
            Err(_) => Err(LoadFault::NoMemory),
        },
        Err(fault) => match with_fault(alloc, folds, line, fault) {
            Ok(folds) => Ok(folds),
            Err(fault) => Err(fault),
        },
    }
}
