//! Reports and what they speak of. A copy costs O(bytes), and so does `tell`; the other calls cost O(1) on average.
ghost use Rattle.std.specs.Prelude.{◌≡◌, [], ◌∷◌, ◌++◌, IfOk, OnOk, OnErr};

use crate::Keyword;
use gv_base::{NoMemory, Text};
use gv_facts::{Class, Level};
use gv_version::Version;
use std::alloc::Global;
use std::marker::Model;

/// What a report speaks of.
#[derive(Drop)]
pub enum Subject {
    /// A line, from 1, of a file of the repository.
    Place {
        path: Text,
        line: u32,
    },
    /// A package, with its name, hyphen and version as they were written.
    Package {
        category: Text,
        name: Text,
        version: Version,
        pf: Text,
    },
}

/// The profile and the level at which a package was judged.
#[derive(Drop)]
pub struct ContextName {
    /// The line of the profile list, from 1.
    pub line: u32,
    /// The first word of that line.
    pub arch: Text,
    /// The path word of that line.
    pub path: Text,
    /// Which keywords the profile accepts: the arch alone, or with `~` too.
    pub level: Level,
}

/// A report. Which parts it has is told by its keyword.
#[derive(Drop)]
pub struct Report {
    /// The place or package with which its line begins.
    pub subject: Subject,
    /// The kind, which stands behind the subject in the line.
    pub keyword: Keyword,
    /// The class in which an atom or a flag stands, or that fails; none where the report is of no class.
    pub class: Option<Class>,
    /// Where the package was judged; none of what is told without a profile, as NonexistentDeps.
    pub context: Option<ContextName>,
    /// The flags of the query, with `-` before those that are off, joined by one space.
    pub witness: Option<Text>,
    /// What is wrong, in the words of the keyword.
    pub detail: Option<Text>,
}

impl Subject {
    /// An equal subject.
    pub fn copy(&self, alloc: Global) -> Result<Subject, NoMemory>
        ensures { IfOk result (λ subject. subject ≡ self.now) }
    {
        match self {
            Subject::Place { path, line } => Ok(Subject::Place {
                path: path.copy(alloc)?,
                line: *line,
            }),
            Subject::Package {
                category,
                name,
                version,
                pf,
            } => Ok(Subject::Package {
                category: category.copy(alloc)?,
                name: name.copy(alloc)?,
                version: version.copy(alloc)?,
                pf: pf.copy(alloc)?,
            }),
        }
    }
}

impl ContextName {
    /// An equal context.
    pub fn copy(&self, alloc: Global) -> Result<ContextName, NoMemory>
        ensures { IfOk result (λ context. context ≡ self.now) }
    {
        Ok(ContextName {
            line: self.line,
            arch: self.arch.copy(alloc)?,
            path: self.path.copy(alloc)?,
            level: self.level,
        })
    }
}

impl Report {
    /// An equal report.
    pub fn copy(&self, alloc: Global) -> Result<Report, NoMemory>
        ensures { IfOk result (λ report. report ≡ self.now) }
    {
        Ok(Report {
            subject: self.subject.copy(alloc)?,
            keyword: self.keyword,
            class: self.class,
            context: copy_context(alloc, &self.context)?,
            witness: copy_text(alloc, &self.witness)?,
            detail: copy_text(alloc, &self.detail)?,
        })
    }
}

/// Reports in the order in which they were added; `ordered` puts them into that in which they are printed.
#[derive(Drop)]
pub struct Reports {
    items: Vec<Report>,
}

impl Model for Reports {
    ghost use Rattle.std.specs.Prelude.{List};
    ghost use Rattle.gv_report.specs.declared.report.Report.{Report};

    ghost Value = { List Report };

    ghost view = { λ l. l.items.items };
}

impl Reports {
    /// No reports.
    pub fn new(alloc: Global) -> Self
        ensures { result ≡ [] }
    {
        Reports {
            items: Vec::new(alloc),
        }
    }

    /// These reports.
    pub fn of(items: Vec<Report>) -> Self
        ensures { result ≡ items.items }
    {
        Reports { items }
    }

    /// The reports, in order, given away.
    pub fn into_items(self) -> Vec<Report>
        ensures { result.items ≡ self }
    {
        self.items
    }

    /// Adds a report at the end. After an error the list is unchanged.
    pub fn add(&mut self, item: Report) -> Result<(), NoMemory>
        ensures ok { OnOk result (self.new ≡ self.old ++ item ∷ []) }
        ensures err { OnErr result (self.new ≡ self.old) }
    {
        self.items.push(item)?;
        Ok(())
    }

    /// Adds reports at the end. After an error the list is unchanged.
    pub fn append(&mut self, others: Reports) -> Result<(), NoMemory>
        ensures ok { OnOk result (self.new ≡ self.old ++ others) }
        ensures err { OnErr result (self.new ≡ self.old) }
    {
        let mut others = others.into_items();
        self.items.append(&mut others)?;
        Ok(())
    }

    /// The reports, in order.
    pub fn items(&self) -> &[Report]
        ensures { result.now ≡ self.now }
    {
        &self.items
    }

    /// An equal list.
    pub fn copy(&self, alloc: Global) -> Result<Self, NoMemory>
        ensures { IfOk result (λ reports. reports ≡ self.now) }
    {
        let mut reports = Reports::new(alloc);
        for item in self.items() {
            reports.add(item.copy(alloc)?)?;
        }
        Ok(reports)
    }
}

fn copy_text(alloc: Global, text: &Option<Text>) -> Result<Option<Text>, NoMemory>
    ensures { IfOk result (λ copy. copy ≡ text.now) }
{
    match text {
        None => Ok(None),
        Some(text) => Ok(Some(text.copy(alloc)?)),
    }
}

fn copy_context(
    alloc: Global,
    context: &Option<ContextName>,
) -> Result<Option<ContextName>, NoMemory>
    ensures { IfOk result (λ copy. copy ≡ context.now) }
{
    match context {
        None => Ok(None),
        Some(context) => Ok(Some(context.copy(alloc)?)),
    }
}
