//! What is told of a package, of all of its reports.
ghost use Rattle.gv_report.specs.declared.options.Options.{Options};
ghost use Rattle.gv_load.specs.declared.loading.Repo.{Repo};
ghost use Rattle.gv_plain.specs.Telling.{ToldLaw};

/// What is told of a package are its selected reports that need no query, and what is told of a repository are the selected ones of all. A law
/// of the definitions: the function does nothing.
#[tactic(auto, using(crate::proofs::PlainLemmas::told_law))]
pub fn told_law()
    ensures { (o : Options) (repo : Repo) → ToldLaw o repo }
{}
