//! Calls of `gv_views` and `gv_overlay` over the files of the outside: `layout NAME;BYTES`, `view FOLDER;MASTERS;PATH`, where with no
//! masters the folder is seen for itself, `overlay NAME`, and `own BUDGET;PROFILES;NAME`.
ghost use Rattle.std.specs.Prelude.{◌≡◌};

use crate::checks::options;
use crate::given::Given;
use crate::judging::{add_count, refused};
use crate::made::words;
use crate::outside::Outside;
use crate::reports::printed;
use crate::written::Telling;
use gv_base::{Found, Ledger, MemTree, NoMemory, Steps, Text, Tree, TreeFault};
use gv_cert::Known;
use gv_checks::Judged;
use gv_overlay::{Overlay, OverlayFault, judge_own, load_overlay};
use gv_report::Options;
use gv_views::{FolderTree, LayeredTree, Layers, LayoutFault, layers_of, masters_in};
use gv_words::default_options;
use std::alloc::Global;
use std::marker::Brand;
use std::sync::ledger::Blank;

/// Tells the answer to a call of these, if it is one.
pub(crate) fn answer(
    alloc: Global,
    call: &str,
    given: &Given,
    outside: &Outside,
    told: &mut Telling,
) -> bool {
    match call {
        "layout" => layout(alloc, given, told),
        "view" => view(alloc, given, outside, told),
        "overlay" => overlay(alloc, given, outside, told),
        "own" => own::<Brand>(alloc, Blank::new(2), given, outside, told),
        _ => return false,
    }
    true
}

// The masters, with spaces between, or why there are none.
fn layout(alloc: Global, given: &Given, told: &mut Telling) {
    match masters_in(alloc, given.part(0), given.bytes(1)) {
        Ok(masters) => told.joined(&masters, b' '),
        Err(LayoutFault::TooMany) => told.say("too many"),
        Err(LayoutFault::Bad) => told.say("bad"),
        Err(LayoutFault::NoMemory) => told.lack(),
    }
}

fn view(alloc: Global, given: &Given, outside: &Outside, told: &mut Telling) {
    let Ok(mut tree) = outside.tree(alloc) else {
        return told.lack();
    };
    if given.bytes(1).is_empty() {
        let mut view = FolderTree {
            tree: &mut tree,
            folder: given.part(0),
        };
        return seen(alloc, &mut view, given.part(2), told);
    }
    match layers(alloc, given) {
        Ok(layers) => layered(alloc, &mut tree, &layers, given.part(2), told),
        Err(NoMemory) => told.lack(),
    }
}

fn layers(alloc: Global, given: &Given) -> Result<Layers, NoMemory> {
    layers_of(alloc, given.part(0), &words(alloc, given.words(1))?)
}

fn layered(alloc: Global, tree: &mut MemTree, layers: &Layers, path: &Text, told: &mut Telling) {
    let mut view = LayeredTree { tree, layers };
    seen(alloc, &mut view, path, told);
}

// What is at the path: a file with its bytes, a folder or nothing; and the names below it.
fn seen<T: Tree>(alloc: Global, tree: &mut T, path: &Text, told: &mut Telling) {
    read(alloc, tree, path, told);
    told.say("; ");
    match tree.list(alloc, path) {
        Ok(names) => told.joined(&names, b' '),
        Err(TreeFault::NoMemory) => told.lack(),
        Err(_) => told.say("failed"),
    }
}

fn read<T: Tree>(alloc: Global, tree: &mut T, path: &Text, told: &mut Telling) {
    match tree.read(alloc, path) {
        Ok(Found::File(bytes)) => {
            told.say("file ");
            told.add(bytes.bytes());
        }
        Ok(Found::Dir) => told.say("folder"),
        Ok(Found::Absent) => told.say("absent"),
        Err(TreeFault::Failed) => told.say("failed"),
        Err(TreeFault::TooLarge) => told.say("too large"),
        Err(TreeFault::NoMemory) => told.lack(),
    }
}

fn overlay(alloc: Global, given: &Given, outside: &Outside, told: &mut Telling) {
    if let Some(over) = overlay_of(alloc, outside, given.part(0), told) {
        tell_over(alloc, over, told);
    }
}

fn tell_over(alloc: Global, over: Overlay, told: &mut Telling) {
    notes(alloc, &over, told);
    tell(&over, told);
}

// The overlay of a name, and none where none is loaded, which is told.
fn overlay_of(
    alloc: Global,
    outside: &Outside,
    name: &Text,
    told: &mut Telling,
) -> Option<Overlay> {
    let Ok(mut tree) = outside.tree(alloc) else {
        told.lack();
        return None;
    };
    match load_overlay(alloc, &mut tree, name) {
        Ok(over) => Some(over),
        Err(found) => {
            fault(&found, told);
            None
        }
    }
}

// What is told of the overlay's entries.
fn notes(alloc: Global, over: &Overlay, told: &mut Telling) {
    match default_options(alloc) {
        Ok(options) => printed(alloc, &options, &over.notes, told),
        Err(NoMemory) => told.lack(),
    }
}

// The packages, of each whether it is the overlay's own.
fn tell(over: &Overlay, told: &mut Telling) {
    for (pkg, own) in over.repo.pkgs.items().iter().zip(over.own.items()) {
        told.say(if *own { "own " } else { "of a master " });
        told.add(pkg.category.bytes());
        told.say("/");
        told.add(pkg.pf.bytes());
        told.say("; ");
    }
}

fn fault(fault: &OverlayFault, told: &mut Telling) {
    match fault {
        OverlayFault::Tree { path } => about("tree ", path, told),
        OverlayFault::NotARepository { path } => about("none ", path, told),
        OverlayFault::Limit { place, number } => {
            about("limit ", place, told);
            told.say(" ");
            told.number(*number);
        }
        OverlayFault::NoMemory => told.lack(),
    }
}

fn about(word: &str, path: &Text, told: &mut Telling) {
    told.say(word);
    told.add(path.bytes());
}

// How many queries and records there are, and the reports.
fn own<L: Ledger>(alloc: Global, blank: Blank, given: &Given, outside: &Outside, told: &mut Telling)
    requires name { blank.name ≡ L.name }
    requires parts { blank.parts ≡ L.parts }
    requires two { blank.parts ≡ 2 }
{
    let mut steps = Steps::<L>::open(blank);
    let Ok(options) = options(alloc, given) else {
        return told.lack();
    };
    if let Some(over) = overlay_of(alloc, outside, given.part(2), told) {
        judged(alloc, over, &options, &mut steps, told);
    }
}

fn judged<L: Ledger>(
    alloc: Global,
    over: Overlay,
    options: &Options,
    steps: &mut Steps<L>,
    told: &mut Telling,
) {
    judged_own(alloc, &over, options, steps, told);
}

fn judged_own<L: Ledger>(
    alloc: Global,
    over: &Overlay,
    options: &Options,
    steps: &mut Steps<L>,
    told: &mut Telling,
) {
    match judge_own(alloc, over, options, &Known::new(alloc), steps) {
        Ok(found) => tell_found(alloc, options, found, told),
        Err(fault) => refused(alloc, &fault, told),
    }
}

fn tell_found(alloc: Global, options: &Options, found: Judged, told: &mut Telling) {
    add_count(found.queries, " queries, ", told);
    add_count(found.certs.count(), " records; ", told);
    printed(alloc, options, &found.reports, told)
}
