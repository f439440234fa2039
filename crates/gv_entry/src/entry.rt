//! What a cache entry says. A copy costs O(bytes), but for its dependencies, which it shares; the other calls cost O(1).
ghost use Rattle.std.specs.Prelude.{◌≡◌, [], ◌∷◌, ◌++◌, IfOk, OnOk, OnErr};

use gv_base::{NoMemory, Text};
use gv_expr::{SharedDep, UseExpr};
use gv_facts::Pkg;
use std::alloc::Global;
use std::marker::Model;

/// An eclass that an entry names, and the MD5 of its file.
#[derive(Drop)]
pub struct Eclass {
    /// The name of its file, without `.eclass`.
    pub name: Text,
    /// What stands behind the name in `_eclasses_`; whether the file has it isn't asked here.
    pub digest: [u8; 16],
}

/// The expressions of a package, each `None` where it isn't in the grammar. A class that the EAPI lacks is empty, and
/// all are where the EAPI isn't supported. RDEPEND, which in most entries has the text of DEPEND, shares its expression then.
#[derive(Drop)]
pub struct Body {
    /// The value of REQUIRED_USE.
    pub required: Option<UseExpr>,
    /// The value of DEPEND.
    pub depend: Option<SharedDep>,
    /// The value of BDEPEND; empty before EAPI 7.
    pub bdepend: Option<SharedDep>,
    /// The value of RDEPEND.
    pub rdepend: Option<SharedDep>,
    /// The value of PDEPEND.
    pub pdepend: Option<SharedDep>,
    /// The value of IDEPEND; empty before EAPI 8.
    pub idepend: Option<SharedDep>,
}

/// What is wrong with an entry, as it is told.
#[derive(Drop)]
pub struct EntryError {
    /// The key, and what is wrong with its value: as `SLOT: bad`, `IUSE: word 2`, `DEPEND: token 3: bad atom`.
    pub detail: Text,
}

/// A cache entry.
#[derive(Drop)]
pub struct Entry {
    /// The MD5 of the ebuild; `None` exactly where `_md5_` isn't 32 hexadecimal digits.
    pub digest: Option<[u8; 16]>,
    /// The eclasses in their order; `None` exactly where `_eclasses_` isn't empty and isn't pairs of a name, which is one
    /// part of a path, and 32 hexadecimal digits, separated by tabs.
    pub eclasses: Option<Eclasses>,
    /// The package; `None` exactly where EAPI, SLOT, KEYWORDS and IUSE aren't all those of a package.
    pub head: Option<Pkg>,
    /// Read whether or not the entry is a package.
    pub body: Body,
    /// In the order EAPI, SLOT, KEYWORDS, IUSE, REQUIRED_USE, DEPEND, BDEPEND, RDEPEND, PDEPEND, IDEPEND.
    pub errors: EntryErrors,
}

impl Eclass {
    /// An equal eclass.
    pub fn copy(&self, alloc: Global) -> Result<Eclass, NoMemory>
        ensures { IfOk result (λ eclass. eclass ≡ self.now) }
    {
        Ok(Eclass {
            name: self.name.copy(alloc)?,
            digest: self.digest,
        })
    }
}

impl Body {
    /// Equal expressions.
    pub fn copy(&self, alloc: Global) -> Result<Body, NoMemory>
        ensures { IfOk result (λ body. body ≡ self.now) }
    {
        Ok(Body {
            required: copy_required(alloc, &self.required)?,
            depend: share(&self.depend)?,
            bdepend: share(&self.bdepend)?,
            rdepend: share(&self.rdepend)?,
            pdepend: share(&self.pdepend)?,
            idepend: share(&self.idepend)?,
        })
    }
}

impl EntryError {
    /// An equal error.
    pub fn copy(&self, alloc: Global) -> Result<EntryError, NoMemory>
        ensures { IfOk result (λ error. error ≡ self.now) }
    {
        Ok(EntryError {
            detail: self.detail.copy(alloc)?,
        })
    }
}

impl Entry {
    /// An equal entry.
    pub fn copy(&self, alloc: Global) -> Result<Entry, NoMemory>
        ensures { IfOk result (λ entry. entry ≡ self.now) }
    {
        Ok(Entry {
            digest: self.digest,
            eclasses: copy_eclasses(alloc, &self.eclasses)?,
            head: copy_head(alloc, &self.head)?,
            body: self.body.copy(alloc)?,
            errors: self.errors.copy(alloc)?,
        })
    }
}

/// Eclasses in the order in which `_eclasses_` names them.
#[derive(Drop)]
pub struct Eclasses {
    items: Vec<Eclass>,
}

impl Model for Eclasses {
    ghost use Rattle.std.specs.Prelude.{List};
    ghost use Rattle.gv_entry.specs.declared.entry.Eclass.{Eclass};

    ghost Value = { List Eclass };

    ghost view = { λ l. l.items.items };
}

impl Eclasses {
    /// No eclasses.
    pub fn new(alloc: Global) -> Self
        ensures { result ≡ [] }
    {
        Eclasses {
            items: Vec::new(alloc),
        }
    }

    /// Adds an eclass at the end. After an error the list is unchanged.
    pub fn add(&mut self, item: Eclass) -> Result<(), NoMemory>
        ensures ok { OnOk result (self.new ≡ self.old ++ item ∷ []) }
        ensures err { OnErr result (self.new ≡ self.old) }
    {
        self.items.push(item)?;
        Ok(())
    }

    /// The eclasses, in order.
    pub fn items(&self) -> &[Eclass]
        ensures { result.now ≡ self.now }
    {
        &self.items
    }

    /// An equal list.
    pub fn copy(&self, alloc: Global) -> Result<Self, NoMemory>
        ensures { IfOk result (λ eclasses. eclasses ≡ self.now) }
    {
        let mut eclasses = Eclasses::new(alloc);
        for item in self.items() {
            eclasses.add(item.copy(alloc)?)?;
        }
        Ok(eclasses)
    }
}

/// Errors in the order in which they were added.
#[derive(Drop)]
pub struct EntryErrors {
    items: Vec<EntryError>,
}

impl Model for EntryErrors {
    ghost use Rattle.std.specs.Prelude.{List};
    ghost use Rattle.gv_entry.specs.declared.entry.EntryError.{EntryError};

    ghost Value = { List EntryError };

    ghost view = { λ l. l.items.items };
}

impl EntryErrors {
    /// No errors.
    pub fn new(alloc: Global) -> Self
        ensures { result ≡ [] }
    {
        EntryErrors {
            items: Vec::new(alloc),
        }
    }

    /// Adds an error at the end. After an error the list is unchanged.
    pub fn add(&mut self, item: EntryError) -> Result<(), NoMemory>
        ensures ok { OnOk result (self.new ≡ self.old ++ item ∷ []) }
        ensures err { OnErr result (self.new ≡ self.old) }
    {
        self.items.push(item)?;
        Ok(())
    }

    /// The errors, in order.
    pub fn items(&self) -> &[EntryError]
        ensures { result.now ≡ self.now }
    {
        &self.items
    }

    /// An equal list.
    pub fn copy(&self, alloc: Global) -> Result<Self, NoMemory>
        ensures { IfOk result (λ errors. errors ≡ self.now) }
    {
        let mut errors = EntryErrors::new(alloc);
        for item in self.items() {
            errors.add(item.copy(alloc)?)?;
        }
        Ok(errors)
    }
}

fn copy_required(alloc: Global, required: &Option<UseExpr>) -> Result<Option<UseExpr>, NoMemory>
    ensures { IfOk result (λ copy. copy ≡ required.now) }
{
    match required {
        Some(required) => Ok(Some(required.copy(alloc)?)),
        None => Ok(None),
    }
}

fn share(dep: &Option<SharedDep>) -> Result<Option<SharedDep>, NoMemory>
    ensures { IfOk result (λ shared. shared ≡ dep.now) }
{
    match dep {
        Some(dep) => Ok(Some(dep.share()?)),
        None => Ok(None),
    }
}

fn copy_eclasses(alloc: Global, eclasses: &Option<Eclasses>) -> Result<Option<Eclasses>, NoMemory>
    ensures { IfOk result (λ copy. copy ≡ eclasses.now) }
{
    match eclasses {
        Some(eclasses) => Ok(Some(eclasses.copy(alloc)?)),
        None => Ok(None),
    }
}

fn copy_head(alloc: Global, head: &Option<Pkg>) -> Result<Option<Pkg>, NoMemory>
    ensures { IfOk result (λ copy. copy ≡ head.now) }
{
    match head {
        Some(head) => Ok(Some(head.copy(alloc)?)),
        None => Ok(None),
    }
}
