//! The line of a report. O(bytes).
ghost use Rattle.std.specs.Prelude.{◌≡◌, ◌++◌, OnOk, Option, Some, option_map, codes, decimal};
ghost use Rattle.gv_facts.specs.Classes.{class_text};
ghost use Rattle.gv_report.specs.Line.{context_text, level_text, part_text, report_line, subject_text, use_text};

use crate::{ContextName, Report, Subject};
use gv_base::{NoMemory, Text};
use gv_facts::{Class, Level, class_text};
use std::alloc::Global;

pub(crate) fn level_text(level: Level) -> &'static [u8]
    ensures { result.now ≡ level_text level }
{
    match level {
        Level::Stable => b"stable",
        Level::Testing => b"testing",
    }
}

fn append_number(alloc: Global, number: u32, text: &mut Text) -> Result<(), NoMemory>
    ensures { OnOk result (text.new ≡ text.old ++ decimal number) }
{
    let digits = number.to_string(alloc)?;
    text.append(digits.as_bytes())?;
    Ok(())
}

impl Subject {
    /// Appends `PATH:LINE`, or `CATEGORY/PF`.
    pub fn append_to(&self, alloc: Global, text: &mut Text) -> Result<(), NoMemory>
        ensures { OnOk result (text.new ≡ text.old ++ subject_text self.now) }
    {
        match self {
            Subject::Place { path, line } => {
                text.append(path.bytes())?;
                text.append(b":")?;
                append_number(alloc, *line, text)?;
                Ok(())
            }
            Subject::Package { category, pf, .. } => {
                text.append(category.bytes())?;
                text.append(b"/")?;
                text.append(pf.bytes())?;
                Ok(())
            }
        }
    }
}

impl ContextName {
    // Appends arch, path and level.
    fn append_to(&self, text: &mut Text) -> Result<(), NoMemory>
        ensures { OnOk result (text.new ≡ text.old ++ context_text self.now) }
    {
        text.append(self.arch.bytes())?;
        text.append(b" ")?;
        text.append(self.path.bytes())?;
        text.append(b" ")?;
        text.append(level_text(self.level))?;
        Ok(())
    }
}

fn append_part(part: &[u8], text: &mut Text) -> Result<(), NoMemory>
    ensures { OnOk result (text.new ≡ text.old ++ part_text (Some part.now)) }
{
    text.append(b": ")?;
    text.append(part)?;
    Ok(())
}

fn append_class(class: Option<Class>, text: &mut Text) -> Result<(), NoMemory>
    ensures { OnOk result (text.new ≡ text.old ++ part_text (option_map class_text class)) }
{
    match class {
        None => Ok(()),
        Some(class) => {
            append_part(class_text(class), text)?;
            Ok(())
        }
    }
}

fn append_context(context: &Option<ContextName>, text: &mut Text) -> Result<(), NoMemory>
    ensures { OnOk result (text.new ≡ text.old ++ part_text (option_map context_text context.now)) }
{
    match context {
        None => Ok(()),
        Some(context) => {
            text.append(b": ")?;
            context.append_to(text)?;
            Ok(())
        }
    }
}

fn append_witness(witness: &Option<Text>, text: &mut Text) -> Result<(), NoMemory>
    ensures { OnOk result (text.new ≡ text.old ++ part_text (option_map use_text witness.now)) }
{
    match witness {
        None => Ok(()),
        Some(witness) => {
            text.append(b": USE=\"")?;
            text.append(witness.bytes())?;
            text.append(b"\"")?;
            Ok(())
        }
    }
}

fn append_detail(detail: &Option<Text>, text: &mut Text) -> Result<(), NoMemory>
    ensures { OnOk result (text.new ≡ text.old ++ part_text detail.now) }
{
    match detail {
        None => Ok(()),
        Some(detail) => {
            append_part(detail.bytes(), text)?;
            Ok(())
        }
    }
}

impl Report {
    /// Appends the report's line, with its line feed.
    pub fn append_line(&self, alloc: Global, text: &mut Text) -> Result<(), NoMemory>
        ensures { OnOk result (text.new ≡ text.old ++ report_line self.now) }
    {
        self.subject.append_to(alloc, text)?;
        append_part(self.keyword.text(), text)?;
        append_class(self.class, text)?;
        append_context(&self.context, text)?;
        append_witness(&self.witness, text)?;
        append_detail(&self.detail, text)?;
        text.append(b"\n")?;
        Ok(())
    }
}
