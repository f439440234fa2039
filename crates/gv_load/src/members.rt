//! Packages with their expressions, in package order: O(log n) comparisons for each of n packages.
ghost use Rattle.std.specs.Prelude.{◌≡◌, ◌∷◌, [], ◌++◌, ◌<◌, length, map, slice_set, IfOk, OnOk, OnErr};
ghost use Rattle.std.specs.Ordering.{is_lt};
ghost use Rattle.gv_load.specs.Members.{with_all, with_member};
ghost use Rattle.gv_load.specs.Repository.{AreInPackageOrder, body_of, in_package_order, member_cmp, member_in, member_of, members_in, pkg_cmp, pkg_of};

use crate::freshness::{Kept, PfsKept};
use gv_base::NoMemory;
use gv_entry::{Body, Entry};
use gv_facts::{Pkg, Pkgs};
use std::alloc::Global;
use std::cmp::Ordering;
use std::collections::BTreeSet;
use std::marker::Model;

/// A package with its expressions.
#[derive(Drop)]
pub struct Member {
    /// The package.
    pub pkg: Pkg,
    /// What its classes and REQUIRED_USE say.
    pub body: Body,
}

impl Member {
    /// An equal package with equal expressions.
    pub fn copy(&self, alloc: Global) -> Result<Member, NoMemory>
        ensures { IfOk result (λ member. member ≡ self.now) }
    {
        Ok(Member {
            pkg: self.pkg.copy(alloc)?,
            body: self.body.copy(alloc)?,
        })
    }
}

/// By category, name, version and PF.
pub fn compare(one: &Pkg, two: &Pkg) -> Ordering
    ensures { result ≡ pkg_cmp one.now two.now }
{
    one.category.cmp(&two.category).then_with(|| {
        one.name.cmp(&two.name).then_with(|| {
            one.version
                .cmp(&two.version)
                .then_with(|| one.pf.cmp(&two.pf))
        })
    })
}

impl Member {
    fn compare(&self, other: &Member) -> Ordering
        ensures { result ≡ member_cmp self.now other.now }
    {
        compare(&self.pkg, &other.pkg)
    }

    /// Whether it comes before the other one.
    pub fn is_before(&self, other: &Member) -> bool
        ensures { result ≡ is_lt (member_cmp self.now other.now) }
    {
        matches!(self.compare(other), Ordering::Less)
    }
}

impl PartialEq for Member {
    ghost use Rattle.std.specs.Cmp.{partial_equiv_from_equiv};
    ghost use Rattle.std.specs.Ordering.{eq_by_cmp};
    ghost use Rattle.std.proofs.lemmas.Cmp.{eq_by_cmp_equiv};
    ghost use Rattle.gv_load.specs.MemberOrder.{member_total};
    ghost use Rattle.gv_load.specs.Repository.{member_cmp};

    ghost eq = { eq_by_cmp member_cmp };

    ghost laws = { partial_equiv_from_equiv (eq_by_cmp_equiv member_total) };

    fn eq(&self, other: &Member) -> bool {
        matches!(self.compare(other), Ordering::Equal)
    }
}

impl Eq for Member {
    ghost use Rattle.std.proofs.lemmas.Cmp.{eq_by_cmp_equiv};
    ghost use Rattle.gv_load.specs.MemberOrder.{member_total};

    ghost laws = { eq_by_cmp_equiv member_total };
}

impl PartialOrd for Member {
    ghost use Rattle.std.specs.Cmp.{partial_order_from_total};
    ghost use Rattle.std.specs.Ordering.{as_partial_cmp};
    ghost use Rattle.gv_load.specs.MemberOrder.{member_total};
    ghost use Rattle.gv_load.specs.Repository.{member_cmp};

    ghost partial_cmp = { as_partial_cmp member_cmp };

    ghost laws = { partial_order_from_total member_total };

    fn partial_cmp(&self, other: &Member) -> Option<Ordering> {
        Some(self.compare(other))
    }
}

impl Ord for Member {
    ghost use Rattle.std.specs.Cmp.Rules.{comparing};
    ghost use Rattle.std.proofs.Common.{rules};
    ghost use Rattle.gv_load.specs.MemberOrder.{member_total};
    ghost use Rattle.gv_load.specs.Repository.{member_cmp};

    ghost cmp = { member_cmp };

    ghost total = { member_total };

    ghost matches_partial_cmp = { Prim.search (comparing, rules) };

    ghost matches_eq = { Prim.search (comparing, rules) };

    fn cmp(&self, other: &Member) -> Ordering {
        self.compare(other)
    }
}

/// Bodies of packages, in the order of these.
#[derive(Drop)]
pub struct Bodies {
    items: Vec<Body>,
}

impl Model for Bodies {
    ghost use Rattle.std.specs.Prelude.{List};
    ghost use Rattle.std.specs.Coded.{coded_list};
    ghost use Rattle.gv_entry.specs.contracts.entry.Body as body;
    ghost use Rattle.gv_entry.specs.declared.entry.Body.{Body};

    ghost Value = { List Body };

    ghost coded = { coded_list body.the_row.coded };

    ghost view = { λ l. l.items.items };
}

impl Bodies {
    /// No bodies.
    pub fn new(alloc: Global) -> Self
        ensures { result ≡ [] }
    {
        Bodies {
            items: Vec::new(alloc),
        }
    }

    /// Adds a body at the end. After an error the list is unchanged.
    pub fn add(&mut self, item: Body) -> Result<(), NoMemory>
        ensures ok { OnOk result (self.new ≡ self.old ++ item ∷ []) }
        ensures err { OnErr result (self.new ≡ self.old) }
    {
        self.items.push(item)?;
        Ok(())
    }

    /// Puts a body in the place of one.
    pub fn set(&mut self, place: usize, item: Body)
        requires { place < length self.old }
        ensures { self.new ≡ slice_set self.old place item }
    {
        self.items[place] = item;
    }

    /// The bodies, in order, given away.
    pub fn into_items(self) -> Vec<Body>
        ensures { result.items ≡ self }
    {
        self.items
    }

    /// The bodies, in order.
    pub fn items(&self) -> &[Body]
        ensures { result.now ≡ self.now }
    {
        &self.items
    }

    /// An equal list.
    pub fn copy(&self, alloc: Global) -> Result<Self, NoMemory>
        ensures { IfOk result (λ bodies. bodies ≡ self.now) }
    {
        let mut bodies = Bodies::new(alloc);
        for item in self.items() {
            bodies.add(item.copy(alloc)?)?;
        }
        Ok(bodies)
    }
}

/// The packages, and their bodies.
#[derive(Drop)]
pub struct Packages {
    pub pkgs: Pkgs,
    pub bodies: Bodies,
}

impl Packages {
    /// No packages.
    pub fn new(alloc: Global) -> Packages
        ensures pkgs { result.pkgs ≡ [] }
        ensures bodies { result.bodies ≡ [] }
    {
        Packages {
            pkgs: Pkgs::new(alloc),
            bodies: Bodies::new(alloc),
        }
    }

    /// Adds a package and its body at the ends.
    pub fn add(&mut self, member: Member) -> Result<(), NoMemory>
        ensures pkgs { OnOk result (self.new.pkgs ≡ self.old.pkgs ++ member.pkg ∷ []) }
        ensures bodies { OnOk result (self.new.bodies ≡ self.old.bodies ++ member.body ∷ []) }
    {
        let Member { pkg, body } = member;
        self.pkgs.add(pkg)?;
        self.bodies.add(body)?;
        Ok(())
    }

    /// Adds these in their order.
    pub fn add_all(&mut self, mut members: BTreeSet<Member>) -> Result<(), NoMemory>
        ensures pkgs { OnOk result (self.new.pkgs ≡ self.old.pkgs ++ map pkg_of members.keys) }
        ensures bodies { OnOk result (self.new.bodies ≡ self.old.bodies ++ map body_of members.keys) }
    {
        while let Some(member) = members.pop_first() {
            self.add(member)?;
        }
        Ok(())
    }
}

/// The packages that current entries say, in package order, with their bodies.
pub(crate) fn packages_in(alloc: Global, kepts: PfsKept) -> Result<Packages, NoMemory>
    ensures pkgs { IfOk result (λ packages. packages.pkgs ≡ map pkg_of (in_package_order (members_in kepts))) }
    ensures bodies { IfOk result (λ packages. packages.bodies ≡ map body_of (in_package_order (members_in kepts))) }
    ensures order { IfOk result (λ packages. AreInPackageOrder packages.pkgs) }
{
    let members = in_order(alloc, kepts)?;
    let packages = apart(alloc, members)?;
    Ok(packages)
}

fn add_entry(members: &mut BTreeSet<Member>, entry: Entry) -> Result<(), NoMemory>
    ensures { OnOk result (members.new.keys ≡ with_member members.old.keys (member_of entry)) }
{
    let Entry { head, body, .. } = entry;
    match head {
        Some(pkg) => {
            members.insert(Member { pkg, body })?;
            Ok(())
        }
        None => Ok(()),
    }
}

fn add_kept(members: &mut BTreeSet<Member>, kept: Kept) -> Result<(), NoMemory>
    ensures { OnOk result (members.new.keys ≡ with_member members.old.keys (member_in kept)) }
{
    match kept {
        Kept::Current { entry } => add_entry(members, entry),
        Kept::Nothing | Kept::Missing | Kept::Orphan | Kept::Stale { .. } => Ok(()),
    }
}

fn in_order(alloc: Global, kepts: PfsKept) -> Result<BTreeSet<Member>, NoMemory>
    ensures { IfOk result (λ members. members.keys ≡ with_all [] kepts) }
{
    let mut members = BTreeSet::new(alloc);
    for kept in kepts.into_items() {
        add_kept(&mut members, kept.kept)?;
    }
    Ok(members)
}

// The packages in their order, and their bodies.
fn apart(alloc: Global, members: BTreeSet<Member>) -> Result<Packages, NoMemory>
    ensures pkgs { IfOk result (λ packages. packages.pkgs ≡ map pkg_of members.keys) }
    ensures bodies { IfOk result (λ packages. packages.bodies ≡ map body_of members.keys) }
{
    let mut packages = Packages::new(alloc);
    packages.add_all(members)?;
    Ok(packages)
}
