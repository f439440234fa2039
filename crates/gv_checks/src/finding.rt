//! The query of a name. O(profiles), and a look-up of the package's level in each profile of the name's line.
ghost use Rattle.std.specs.Prelude.{◌≡◌, true, Some, slice_get, MatchOption};
ghost use Rattle.gv_facts.specs.declared.kinds.Level.{Level};
ghost use Rattle.gv_plain.specs.Context.{IsNumbered, case_of, listed};
ghost use Rattle.gv_checks.specs.Named.{HasNamed, IsNamed, IsNamedIn};
ghost use Rattle.gv_checks.specs.Queries.{has_query, query_of};

use crate::QueryName;
use crate::judging::is_asked;
use gv_facts::{Level, Profile};
use gv_load::Repo;
use gv_plain::{JudgedPkg, ListedPkg};
use gv_report::Options;
use gv_visible::judged;

/// The package, with its profile and level, of the query of this name.
#[tactic(auto, using(crate::proofs::NamedLemmas::pkg_there, crate::proofs::NamedLemmas::body_there))]
pub(crate) fn find_named<'a>(repo: &'a Repo, name: &QueryName, options: &Options) -> JudgedPkg<'a>
    requires { HasNamed options.now repo.now name.now }
    ensures numbered { IsNumbered result }
    ensures pkgs { result.pkgs.now ≡ repo.now.pkgs }
    ensures named { IsNamed options.now repo.now name.now (query_of (case_of result) name.now.class) }
    ensures has { has_query (case_of result) name.now.class ≡ true }
{
    let number = name.package as usize;
    let Some(pkg) = repo.pkgs.items().get(number) else {
        unreachable!()
    };
    let Some(body) = repo.bodies.items().get(number) else {
        unreachable!()
    };
    let one = ListedPkg {
        number: name.package,
        pkg,
        body,
    };
    find_in(repo, &one, repo.profiles.items(), name, options)
}

// In one of these profiles is the query of the name.
#[tactic(auto, using(crate::proofs::NamedLemmas::named_here, crate::proofs::NamedLemmas::has_asked, crate::proofs::NamedLemmas::passed, crate::proofs::NamedLemmas::never_past))]
fn find_in<'a>(
    repo: &'a Repo,
    one: &ListedPkg<'a>,
    profiles: &'a [Profile],
    name: &QueryName,
    options: &Options,
) -> JudgedPkg<'a>
    requires there { HasNamed options.now repo.now name.now }
    requires number { one.now.number ≡ name.now.«package» }
    requires pkg { slice_get repo.now.pkgs one.now.number ≡ Some one.now.pkg.now }
    requires body { slice_get repo.now.bodies one.now.number ≡ Some one.now.body.now }
    requires profiles { profiles.now ≡ repo.now.profiles }
    ensures numbered { IsNumbered result }
    ensures pkgs { result.pkgs.now ≡ repo.now.pkgs }
    ensures named { IsNamed options.now repo.now name.now (query_of (case_of result) name.now.class) }
    ensures has { has_query (case_of result) name.now.class ≡ true }
{
    for profile in profiles {
        if let Some(level) = level_in(repo, one, profile, name, options) {
            return JudgedPkg {
                number: one.number,
                pkg: one.pkg,
                body: one.body,
                profile,
                level,
                pkgs: &repo.pkgs,
            };
        }
    }
    unreachable!()
}

// The level of the query of this name in the profile, if it is one of the package there.
fn level_in(
    repo: &Repo,
    one: &ListedPkg<'_>,
    profile: &Profile,
    name: &QueryName,
    options: &Options,
) -> Option<Level>
    ensures { MatchOption result ((level : Level) → IsNamedIn options.now repo.now.pkgs name.now (listed one.now) profile.now level → ⊥) (IsNamedIn options.now repo.now.pkgs name.now (listed one.now) profile.now) }
{
    if profile.line != name.context.line {
        return None;
    }
    let Some(level) = judged(one.pkg, profile) else {
        return None;
    };
    let at = JudgedPkg {
        number: one.number,
        pkg: one.pkg,
        body: one.body,
        profile,
        level,
        pkgs: &repo.pkgs,
    };
    if level == name.context.level && is_asked(options, &at, name.class) {
        return Some(level);
    }
    None
}
