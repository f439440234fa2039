//! What reports say of a package and of a context, and whether they are selected there.
//!
//! Each call costs O(bytes that it copies), and looking for the profile's path among those of the options.
ghost use Rattle.std.specs.Prelude.{◌≡◌, IfOk};
ghost use Rattle.gv_plain.specs.Context.{case_of};
ghost use Rattle.gv_plain.specs.Plain.{is_told};
ghost use Rattle.gv_plain.specs.PlainReports.{context_of, subject_of};

use crate::JudgedPkg;
use gv_base::NoMemory;
use gv_facts::Pkg;
use gv_report::{ContextName, Keyword, Options, Subject};
use std::alloc::Global;

/// The package as the subject of a report.
pub fn subject_of(alloc: Global, pkg: &Pkg) -> Result<Subject, NoMemory>
    ensures { IfOk result (λ subject. subject ≡ subject_of pkg.now) }
{
    Ok(Subject::Package {
        category: pkg.category.copy(alloc)?,
        name: pkg.name.copy(alloc)?,
        version: pkg.version.copy(alloc)?,
        pf: pkg.pf.copy(alloc)?,
    })
}

/// The context of a report about it.
pub fn context_of(alloc: Global, judged: &JudgedPkg<'_>) -> Result<ContextName, NoMemory>
    ensures { IfOk result (λ context. context ≡ context_of (case_of judged.now).parent) }
{
    Ok(ContextName {
        line: judged.profile.line,
        arch: judged.profile.arch.copy(alloc)?,
        path: judged.profile.path.copy(alloc)?,
        level: judged.level,
    })
}

/// Whether reports of the keyword are selected in the context.
pub fn is_told(options: &Options, judged: &JudgedPkg<'_>, keyword: Keyword) -> bool
    ensures { result ≡ is_told options.now (case_of judged.now) keyword }
{
    let is_profile = match &options.profiles {
        None => true,
        Some(paths) => paths.has(judged.profile.path.bytes()),
    };
    options.keywords.has(keyword) && is_profile
}
