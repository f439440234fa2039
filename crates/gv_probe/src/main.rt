//! `gv_probe`: tells what the libraries answer to calls that are written as lines of text, so that their cases can stand as
//! text beside the answers that are wanted.
//!
//! The words are names of files. Each line is a call and what it is given, as `order 1;2`; behind ` => ` may stand an answer,
//! which is passed over, and behind a call over the outside (`load`, `run WORDS`, `reread`, `emit`) the lines of an answer begin with `> `, `! `
//! or `= `. The file is written again with the answers that are found; where nothing differs, one line says so. Empty lines
//! and those that begin with `#` stay as they are.
#![tactic(auto)]

mod answering;
mod atom;
mod base;
mod cert;
mod checks;
mod defaults;
mod demo;
mod disk;
mod edits;
mod entry;
mod expr;
mod facts;
mod given;
mod judging;
mod keys;
mod linting;
mod loading;
mod logic;
mod lower;
mod made;
mod outside;
mod overlays;
mod profiles;
mod query;
mod refute;
mod reports;
mod repository;
mod running;
mod solver;
mod solving;
mod trail;
mod usestate;
mod version;
mod visible;
mod walking;
mod words;
mod written;

use answering::all;
use std::process::ExitCode;
use std::{env, fs, io};

fn main(rt: HostRuntime) -> io::Result<ExitCode> {
    for name in env::args(&rt)?.skip(1) {
        let text = fs::read_to_string(&rt, name.as_str())?;
        let all = all(rt.alloc(), text.as_str());
        let Ok(found) = all.bytes() else {
            return Ok(ExitCode::from(5));
        };
        if found == text.as_bytes() {
            println!(rt;
                "{name}: {} lines, as written",
                text.as_str().lines().count()
            )?;
        } else {
            print!(rt; "{}", std::str::from_utf8(found).unwrap_or(""))?;
        }
    }
    Ok(ExitCode::SUCCESS)
}
