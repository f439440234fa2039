//! What the keys of a package's queries are made of: what its classes ask about and which of them have one and the same
//! expression, found once for the package, and the key of its REQUIRED_USE, made once for each context.
//!
//! A key costs what `gv_lower` says of the key of its class.
ghost use Rattle.std.specs.Prelude.{◌≡◌, true, ◌++◌, [], option_map, unwrap_or, IfOk, OnOk};
ghost use Rattle.std.specs.Option.{option_copied};
ghost use Rattle.gv_entry.specs.Queries.{class_in};
ghost use Rattle.gv_lower.specs.Keys.{required_key};
ghost use Rattle.gv_visible.specs.Candidates.{test_of};
ghost use Rattle.gv_checks.specs.Alike.{first_at};
ghost use Rattle.gv_checks.specs.Around.{AreAround};
ghost use Rattle.gv_plain.specs.Context.{case_of};
ghost use Rattle.gv_checks.specs.Keys.{ArePartsOf, AreSitesOf, HasSites, flags_in, sites_at, sites_in};
ghost use Rattle.gv_checks.specs.Queries.{query_of};
ghost use Rattle.gv_checks.specs.Shared.{key_of};

use crate::alike::Firsts;
use gv_base::NoMemory;
use gv_entry::{Body, class_in};
use gv_expr::UseExpr;
use gv_facts::{Class, Pkg, Pkgs};
use gv_lower::{ClassSites, RequiredFlags, add_class_key, add_required_key};
use gv_plain::JudgedPkg;
use gv_usestate::{ProfileStates, RuledFlags};
use gv_visible::Candidates;
use std::alloc::Global;

/// What the queries of a package ask about, of each class that isn't broken and is the first with its expression.
#[derive(Drop)]
pub(crate) struct PkgSites<'a> {
    /// The classes that have the same expression.
    pub(crate) firsts: Firsts,
    pub(crate) required: Option<RequiredFlags<'a>>,
    pub(crate) depend: Option<ClassSites<'a>>,
    pub(crate) bdepend: Option<ClassSites<'a>>,
    pub(crate) rdepend: Option<ClassSites<'a>>,
    pub(crate) pdepend: Option<ClassSites<'a>>,
    pub(crate) idepend: Option<ClassSites<'a>>,
}

impl<'a> PkgSites<'a> {
    /// Those of the package in each of the profiles.
    pub(crate) fn new(
        alloc: Global,
        ruled: &'a RuledFlags<'a>,
        pkgs: &'a Pkgs,
        pkg: &'a Pkg,
        body: &'a Body,
    ) -> Result<PkgSites<'a>, NoMemory>
        ensures { IfOk result (AreSitesOf ruled.now pkg.now pkgs.now body.now) }
    {
        let firsts = Firsts::of(body);
        let bdepend = firsts.is_first(Class::Bdepend);
        let rdepend = firsts.is_first(Class::Rdepend);
        let pdepend = firsts.is_first(Class::Pdepend);
        let idepend = firsts.is_first(Class::Idepend);
        Ok(PkgSites {
            firsts,
            required: required_in(alloc, ruled, pkg, &body.required)?,
            depend: sites_in(alloc, ruled, pkg, pkgs, body, Class::Depend)?,
            bdepend: sites_if(alloc, ruled, pkg, pkgs, bdepend, body, Class::Bdepend)?,
            rdepend: sites_if(alloc, ruled, pkg, pkgs, rdepend, body, Class::Rdepend)?,
            pdepend: sites_if(alloc, ruled, pkg, pkgs, pdepend, body, Class::Pdepend)?,
            idepend: sites_if(alloc, ruled, pkg, pkgs, idepend, body, Class::Idepend)?,
        })
    }

    /// The first class that has the expression of this one.
    pub(crate) fn first(&self, class: Class) -> Class
        ensures { result ≡ first_at self.now.firsts class }
    {
        self.firsts.at(class)
    }

    fn at(&self, class: Class) -> Option<&ClassSites<'a>>
        ensures { option_copied result ≡ sites_at self.now class }
    {
        match self.first(class) {
            Class::Required => None,
            Class::Depend => self.depend.as_ref(),
            Class::Bdepend => self.bdepend.as_ref(),
            Class::Rdepend => self.rdepend.as_ref(),
            Class::Pdepend => self.pdepend.as_ref(),
            Class::Idepend => self.idepend.as_ref(),
        }
    }

    /// Adds the key of the query, from the states of its profile and the key of REQUIRED_USE.
    pub(crate) fn add_key<F: Fn(&Pkg) -> bool>(
        &self,
        candidates: &Candidates<'_, F>,
        judged: &JudgedPkg<'_>,
        class: Class,
        states: &ProfileStates<'_>,
        required: &[u8],
        key: &mut Vec<u8>,
    ) -> Result<(), NoMemory>
        requires around { AreAround (F.pre (test_of candidates.now)) (F.post (test_of candidates.now)) candidates.now judged.now }
        requires parts { ArePartsOf judged.now states.now self.now required.now }
        ensures { OnOk result (key.new.items ≡ key.old.items ++ key_of (query_of (case_of judged.now) class)) }
    {
        key.extend_from_slice(required)?;
        match self.at(class) {
            None => Ok(()),
            Some(sites) => add_class_key(sites, candidates, states, key),
        }
    }
}

/// Makes the key of REQUIRED_USE; of a broken one it is empty.
#[tactic(auto, using(crate::proofs::KeyLemmas::required_none))]
pub(crate) fn make_required_key(
    judged: &JudgedPkg<'_>,
    states: &ProfileStates<'_>,
    sites: &PkgSites<'_>,
    key: &mut Vec<u8>,
) -> Result<(), NoMemory>
    requires states { states.now ≡ judged.now.profile.now }
    requires sites { HasSites judged.now sites.now }
    ensures { OnOk result (key.new.items ≡ required_key (case_of judged.now).parent (unwrap_or judged.now.body.now.required [])) }
{
    key.clear();
    match &sites.required {
        None => Ok(()),
        Some(flags) => add_required_key(flags, states, judged.level, key),
    }
}

fn required_in<'a>(
    alloc: Global,
    ruled: &'a RuledFlags<'a>,
    pkg: &'a Pkg,
    required: &'a Option<UseExpr>,
) -> Result<Option<RequiredFlags<'a>>, NoMemory>
    ensures { IfOk result (λ flags. flags ≡ option_map (flags_in ruled.now pkg.now) required.now) }
{
    match required {
        Some(required) => Ok(Some(RequiredFlags::new(alloc, ruled, pkg, required)?)),
        None => Ok(None),
    }
}

fn sites_in<'a>(
    alloc: Global,
    ruled: &'a RuledFlags<'a>,
    pkg: &'a Pkg,
    pkgs: &'a Pkgs,
    body: &'a Body,
    class: Class,
) -> Result<Option<ClassSites<'a>>, NoMemory>
    ensures { IfOk result (λ sites. sites ≡ option_map (sites_in ruled.now pkg.now pkgs.now) (class_in body.now class)) }
{
    match class_in(body, class) {
        Some(class) => Ok(Some(ClassSites::new(alloc, ruled, pkg, pkgs, class)?)),
        None => Ok(None),
    }
}

// Nothing of a class for which another stands.
fn sites_if<'a>(
    alloc: Global,
    ruled: &'a RuledFlags<'a>,
    pkg: &'a Pkg,
    pkgs: &'a Pkgs,
    is_first: bool,
    body: &'a Body,
    class: Class,
) -> Result<Option<ClassSites<'a>>, NoMemory>
    ensures { IfOk result (λ sites. is_first ≡ true → sites ≡ option_map (sites_in ruled.now pkg.now pkgs.now) (class_in body.now class)) }
{
    if is_first {
        sites_in(alloc, ruled, pkg, pkgs, body, class)
    } else {
        Ok(None)
    }
}
