//! `gvis`: which dependencies of a Gentoo repository can't be met, and under which USE flags.
#![tactic(auto)]

ghost use Rattle.std.specs.Prelude.{◌≡◌};

use gv_base::{Ledger, Steps, Text};
use gv_run::run;
use gv_system::{FsStore, FsTree, StdSink, StdSource, words_given};
use std::marker::Brand;
use std::process::ExitCode;
use std::sync::ledger::Blank;

// Makes the real outside, and runs.
fn run_counted<L: Ledger>(rt: HostRuntime, blank: Blank) -> u8
    requires name { blank.name ≡ L.name }
    requires parts { blank.parts ≡ L.parts }
    requires two { blank.parts ≡ 2 }
{
    let alloc = rt.alloc();
    let Ok(words) = words_given(&rt, alloc) else {
        return 5;
    };
    let Ok(root) = Text::of(alloc, b".") else {
        return 5;
    };
    let mut tree = FsTree::new(rt, root);
    let mut store = FsStore::new(rt);
    let mut input = StdSource::new(rt.stdin());
    let mut out = StdSink::new(rt.stdout());
    let mut err = StdSink::new(rt.stderr());
    let mut steps = Steps::<L>::open(blank);
    run(
        alloc, &words, &mut tree, &mut store, &mut input, &mut out, &mut err, &mut steps,
    )
}

fn main(rt: HostRuntime) -> ExitCode {
    ExitCode::from(run_counted::<Brand>(rt, Blank::new(2)))
}
