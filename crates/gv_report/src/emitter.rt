//! The text of reports, by a stored test that is known to answer which are selected.
//!
//! `emit` costs O(bytes of the reports, and of the options for each), and a call of the test for each report.
ghost use Rattle.std.specs.Prelude.{◌≡◌, ◌++◌, IfOk, OnOk};
ghost use Rattle.gv_report.specs.Emitted.{emitted, report_text};
ghost use Rattle.gv_report.specs.Selecting.{selected};
ghost use Rattle.gv_report.specs.StoredTest.{AnswersSelected};
ghost use Rattle.gv_report.specs.Emitter.{options_of, test_of};

use crate::{Options, Report, Reports};
use gv_base::{NoMemory, Text};
use std::alloc::Global;
use std::marker::Model;

/// Options, and a test of reports.
///
/// That the test may be asked of every report that is a value, and then answers whether the options select it, is told by
/// `new`, and every call that asks the test requires it.
#[derive(Drop)]
pub struct Emitter<'a, F: Fn(&Report) -> bool> {
    options: &'a Options,
    test: F,
}

impl<'a, F: Fn(&Report) -> bool> Model for Emitter<'a, F> {
    ghost use Rattle.gv_report.specs.Emitter.{Emitter};

    ghost Value = { Emitter F };

    ghost view = { λ e. record { options = e.options.now; test = e.test } };
}

// Appends the report as its JSON object or as its line.
fn append_report(
    alloc: Global,
    json: bool,
    report: &Report,
    text: &mut Text,
) -> Result<(), NoMemory>
    ensures { OnOk result (text.new ≡ text.old ++ report_text json report.now) }
{
    if json {
        report.append_json(alloc, text)
    } else {
        report.append_line(alloc, text)
    }
}

impl<'a, F: Fn(&Report) -> bool> Emitter<'a, F> {
    /// An emitter of the reports that these options select. The test answers `selected`.
    pub fn new(options: &'a Options, test: F) -> Emitter<'a, F>
        requires test { AnswersSelected (F.pre test) (F.post test) options.now }
        ensures options { options_of result ≡ options.now }
        ensures test { AnswersSelected (F.pre (test_of result)) (F.post (test_of result)) (options_of result) }
    {
        Emitter { options, test }
    }

    /// Whether the report is printed. It asks the test and takes no memory.
    pub fn takes(&self, report: &Report) -> bool
        requires test { AnswersSelected (F.pre (test_of self.now)) (F.post (test_of self.now)) (options_of self.now) }
        ensures { result ≡ selected (options_of self.now) report.now }
    {
        report.tell();
        (self.test)(report)
    }

    /// The texts of the reports that the test takes, in the order of the list, each on a line of its own: JSON objects or
    /// lines, as the options say. JSON objects show `?` for each byte of a text that isn't one of 0x20 to 0x7E.
    pub fn emit(&self, alloc: Global, reports: &Reports) -> Result<Text, NoMemory>
        requires test { AnswersSelected (F.pre (test_of self.now)) (F.post (test_of self.now)) (options_of self.now) }
        ensures { IfOk result (λ text. text ≡ emitted (options_of self.now) reports.now) }
    {
        let mut text = Text::of(alloc, &[])?;
        for report in reports.items() {
            if self.takes(report) {
                append_report(alloc, self.options.json, report, &mut text)?;
            }
        }
        Ok(text)
    }
}
