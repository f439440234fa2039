//! Which queries of a repository are judged, and of which packages is told what needs no query. O(1), without memory.
ghost use Rattle.std.specs.Prelude.{◌≡◌, ◌≤◌};
ghost use Rattle.gv_checks.specs.Chosen.{has, has_class, has_none, is_chosen, is_in_part, is_none, is_own, is_passed, tells};

use gv_cert::Known;
use gv_facts::Class;
use gv_logic::Bits;

/// Some classes of a package.
#[derive(Clone, Copy, Debug, PartialEq, Eq)]
pub struct ClassSet {
    pub required: bool,
    pub depend: bool,
    pub bdepend: bool,
    pub rdepend: bool,
    pub pdepend: bool,
    pub idepend: bool,
}

impl ClassSet {
    /// Whether the class is one of them.
    pub fn has(&self, class: Class) -> bool
        ensures { result ≡ has self.now class }
    {
        match class {
            Class::Required => self.required,
            Class::Depend => self.depend,
            Class::Bdepend => self.bdepend,
            Class::Rdepend => self.rdepend,
            Class::Pdepend => self.pdepend,
            Class::Idepend => self.idepend,
        }
    }

    fn is_none(&self) -> bool
        ensures { result ≡ is_none self.now }
    {
        !(self.required
            || (self.depend || (self.bdepend || (self.rdepend || (self.pdepend || self.idepend)))))
    }
}

/// Which queries are judged, and of which packages is told what needs none.
#[derive(Clone, Copy)]
pub enum Chosen<'a> {
    /// All queries, and all packages.
    All,
    /// Those of the packages whose bit is on, and these packages.
    Packages(&'a Bits),
    /// Those of the classes in the set of each package, and no package.
    Classes(&'a [ClassSet]),
    /// Those of one of so many parts, and no package: query number q, from 1, is of part ((q - 1) modulo parts) + 1.
    Part { part: u32, parts: u32 },
}

impl<'a> Chosen<'a> {
    /// Whether the query of this place among all, from 0, is chosen, which is that of a class of the package of this number.
    pub(crate) fn has(&self, place: u32, number: u32, class: Class) -> bool
        ensures { result ≡ is_chosen self.now place number class }
    {
        match self {
            Chosen::All => true,
            Chosen::Packages(own) => is_own(own, number),
            Chosen::Classes(sets) => has_class(sets, number, class),
            Chosen::Part { part, parts } => is_in_part(*part, *parts, place),
        }
    }

    /// Whether no query of the package of this number is chosen, wherever they stand.
    pub(crate) fn passes(&self, number: u32) -> bool
        ensures { result ≡ is_passed self.now number }
    {
        match self {
            Chosen::All => false,
            Chosen::Packages(own) => !is_own(own, number),
            Chosen::Classes(sets) => has_none(sets, number),
            Chosen::Part { .. } => false,
        }
    }

    /// Whether is told of the package of this number what needs no query.
    pub(crate) fn tells(&self, number: u32) -> bool
        ensures { result ≡ tells self.now number }
    {
        match self {
            Chosen::All => true,
            Chosen::Packages(own) => is_own(own, number),
            Chosen::Classes(_) => false,
            Chosen::Part { .. } => false,
        }
    }
}

/// Which queries are judged, and what answers them.
#[derive(Clone, Copy)]
pub struct Asking<'a> {
    pub chosen: Chosen<'a>,
    /// How many sets a query may keep; where it is 0, records alone answer.
    pub budget: u32,
    /// The records that were given.
    pub given: &'a Known,
    pub ghost in_range: { budget ≤ 1000000 },
}

fn is_own(own: &Bits, number: u32) -> bool
    ensures { result ≡ is_own own.now number }
{
    match own.items().get(number as usize) {
        Some(is_own) => *is_own,
        None => false,
    }
}

fn has_class(sets: &[ClassSet], number: u32, class: Class) -> bool
    ensures { result ≡ has_class sets.now number class }
{
    match sets.get(number as usize) {
        Some(set) => set.has(class),
        None => false,
    }
}

fn has_none(sets: &[ClassSet], number: u32) -> bool
    ensures { result ≡ has_none sets.now number }
{
    match sets.get(number as usize) {
        Some(set) => set.is_none(),
        None => true,
    }
}

fn is_in_part(part: u32, parts: u32, place: u32) -> bool
    ensures { result ≡ is_in_part part parts place }
{
    parts > 0 && u64::from(place % parts) + 1 == u64::from(part)
}
