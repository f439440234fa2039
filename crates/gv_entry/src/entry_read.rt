//! Reading a cache entry (PMS chapter 14, md5-dict). O(bytes).
ghost use Rattle.std.specs.Prelude.{◌≡◌, ◌+◌, ◌++◌, [], true, codes, drop, None, Some, take, unwrap_or, IfOk, IsSome, OnOk};
ghost use Rattle.gv_expr.specs.RequiredRead.{read_required};
ghost use Rattle.gv_expr.specs.TokenFaults.{dependency};
ghost use Rattle.gv_facts.specs.declared.kinds.Class.TheVariants.{Depend, Rdepend, Required};
ghost use Rattle.gv_facts.specs.Classes.{class_text};
ghost use Rattle.gv_base.specs.Words.{tokens_of};
ghost use Rattle.gv_version.specs.Names.{split_pf};
ghost use Rattle.gv_entry.specs.Details.{body_details, class_details, errors_of, head_details, head_details_with, language_of};
ghost use Rattle.gv_entry.specs.EntryRead.{body_of, dep_in, entry_of, entry_with, head_of, head_with, pkg_with};
ghost use Rattle.gv_entry.specs.EntryValues.{value_of};

use crate::details::{note_slot, note_text, note_token, note_word};
use crate::digests::{digest_in, eclasses_of};
use crate::entry_values::{
    EntryText, bad_flag, bad_keyword, eapi_of, flags_of, plus_flags_of, slot_of,
};
use crate::{Body, Entry, EntryErrors};
use gv_base::{NoMemory, Text, Texts, tokens_of};
use gv_expr::{DepExpr, ExprFault, SharedDep, UseExpr, read_dep, read_required};
use gv_facts::{Class, Eapi, Pkg, has_class};
use gv_version::{Version, split_pf, split_pf_law};
use std::alloc::Global;

// The package whose entry it is.
#[derive(Clone, Copy)]
struct Named<'a> {
    category: &'a Text,
    pf: &'a Text,
}

// The words of the keys that have words.
#[derive(Drop)]
struct EntryWords {
    keywords: Texts,
    iuse: Texts,
    properties: Texts,
}

/// The entry that the bytes are, of the package with this category and this PF. Of two lines of a key the first counts, a
/// key without a line is empty, and lines of other keys are ignored. All errors are told, but an EAPI that isn't
/// supported stands alone. The PF has to be one: `split_pf` divides it into a name and a version.
pub fn read_entry(
    alloc: Global,
    category: &Text,
    pf: &Text,
    bytes: &[u8],
) -> Result<Entry, NoMemory>
    requires { IsSome (split_pf pf.now) }
    ensures { IfOk result (λ entry. entry ≡ entry_of category.now pf.now bytes.now) }
{
    let text = EntryText::new(alloc, bytes)?;
    let named = Named { category, pf };
    let mut errors = EntryErrors::new(alloc);
    match eapi_of(text.value_of(b"EAPI")) {
        Some(eapi) => {
            let head = head_of(alloc, &named, eapi, &text, &mut errors)?;
            let body = body_of(alloc, eapi, &text, &mut errors)?;
            entry_with(alloc, &text, head, body, errors)
        }
        None => {
            note_text(alloc, b"EAPI: unsupported", &mut errors)?;
            entry_with(alloc, &text, None, empty_body(alloc)?, errors)
        }
    }
}

fn required_in(
    alloc: Global,
    eapi: Eapi,
    text: &EntryText<'_>,
    errors: &mut EntryErrors,
) -> Result<Option<UseExpr>, NoMemory>
    ensures required { IfOk result (λ required. required ≡ read_required (value_of (class_text Required) text.now)) }
    ensures errors { OnOk result (errors.new ≡ errors.old ++ errors_of (class_details eapi text.now Required)) }
{
    match read_required(alloc, text.of_class(Class::Required)) {
        Ok(required) => Ok(Some(required)),
        Err(ExprFault::Bad { token, kind }) => {
            note_token(alloc, Class::Required, token, kind, errors)?;
            Ok(None)
        }
        Err(ExprFault::NoMemory) => Err(NoMemory),
    }
}

fn dep_in(
    alloc: Global,
    eapi: Eapi,
    text: &EntryText<'_>,
    class: Class,
    errors: &mut EntryErrors,
) -> Result<Option<SharedDep>, NoMemory>
    requires { language_of class ≡ dependency }
    ensures dep { IfOk result (λ dep. dep ≡ dep_in eapi text.now class) }
    ensures errors { OnOk result (errors.new ≡ errors.old ++ errors_of (class_details eapi text.now class)) }
{
    if !has_class(eapi, class) {
        return Ok(Some(no_dep(alloc)?));
    }
    match read_dep(alloc, text.of_class(class)) {
        Ok(dep) => Ok(Some(SharedDep::new(alloc, dep)?)),
        Err(ExprFault::Bad { token, kind }) => {
            note_token(alloc, class, token, kind, errors)?;
            Ok(None)
        }
        Err(ExprFault::NoMemory) => Err(NoMemory),
    }
}

// No dependency.
fn no_dep(alloc: Global) -> Result<SharedDep, NoMemory>
    ensures { IfOk result (λ dep. dep ≡ []) }
{
    SharedDep::new(alloc, DepExpr::new(alloc))
}

// RDEPEND, by the expression of DEPEND where that has the same text.
fn rdepend_in(
    alloc: Global,
    eapi: Eapi,
    text: &EntryText<'_>,
    depend: &Option<SharedDep>,
    errors: &mut EntryErrors,
) -> Result<Option<SharedDep>, NoMemory>
    requires { depend.now ≡ dep_in eapi text.now Depend }
    ensures dep { IfOk result (λ dep. dep ≡ dep_in eapi text.now Rdepend) }
    ensures errors { OnOk result (errors.new ≡ errors.old ++ errors_of (class_details eapi text.now Rdepend)) }
{
    let same = text.of_class(Class::Depend) == text.of_class(Class::Rdepend);
    match depend {
        Some(dep) if same => Ok(Some(dep.share()?)),
        _ => dep_in(alloc, eapi, text, Class::Rdepend, errors),
    }
}

fn body_of(
    alloc: Global,
    eapi: Eapi,
    text: &EntryText<'_>,
    errors: &mut EntryErrors,
) -> Result<Body, NoMemory>
    ensures body { IfOk result (λ body. body ≡ body_of (Some eapi) text.now) }
    ensures errors { OnOk result (errors.new ≡ errors.old ++ errors_of (body_details eapi text.now)) }
{
    let required = required_in(alloc, eapi, text, errors)?;
    let depend = dep_in(alloc, eapi, text, Class::Depend, errors)?;
    let bdepend = dep_in(alloc, eapi, text, Class::Bdepend, errors)?;
    let rdepend = rdepend_in(alloc, eapi, text, &depend, errors)?;
    Ok(Body {
        required,
        depend,
        bdepend,
        rdepend,
        pdepend: dep_in(alloc, eapi, text, Class::Pdepend, errors)?,
        idepend: dep_in(alloc, eapi, text, Class::Idepend, errors)?,
    })
}

// The expressions of an entry whose EAPI isn't supported.
fn empty_body(alloc: Global) -> Result<Body, NoMemory>
    ensures { IfOk result (λ body. body ≡ body_of None []) }
{
    let none = no_dep(alloc)?;
    Ok(Body {
        required: Some(UseExpr::new(alloc)),
        depend: Some(none.share()?),
        bdepend: Some(none.share()?),
        rdepend: Some(none.share()?),
        pdepend: Some(none.share()?),
        idepend: Some(none),
    })
}

// The name and the version that a PF is divided into. A place past 2^32 finds no memory.
fn name_and_version(alloc: Global, pf: &[u8]) -> Result<(Text, Version), NoMemory>
    requires { IsSome (split_pf pf.now) }
    ensures name { IfOk result (λ both. both.0 ≡ take (unwrap_or (split_pf pf.now) 0) pf.now) }
    ensures version { IfOk result (λ both. both.1 ≡ drop (unwrap_or (split_pf pf.now) 0 + 1) pf.now) }
{
    let Some(hyphen) = split_pf(pf) else {
        return Err(NoMemory);
    };
    split_pf_law();
    let (name, behind) = pf.split_at(hyphen as usize);
    let [_, version @ ..] = behind else {
        unreachable!();
    };
    let name = Text::of(alloc, name)?;
    let version = Version::of(alloc, version)?;
    Ok((name, version))
}

fn words_in(alloc: Global, text: &EntryText<'_>) -> Result<EntryWords, NoMemory>
    ensures keywords { IfOk result (λ words. words.keywords ≡ tokens_of (value_of (codes "KEYWORDS") text.now)) }
    ensures iuse { IfOk result (λ words. words.iuse ≡ tokens_of (value_of (codes "IUSE") text.now)) }
    ensures properties { IfOk result (λ words. words.properties ≡ tokens_of (value_of (codes "PROPERTIES") text.now)) }
{
    Ok(EntryWords {
        keywords: tokens_of(alloc, text.value_of(b"KEYWORDS"))?,
        iuse: tokens_of(alloc, text.value_of(b"IUSE"))?,
        properties: tokens_of(alloc, text.value_of(b"PROPERTIES"))?,
    })
}

fn pkg_with(
    alloc: Global,
    named: &Named,
    eapi: Eapi,
    slots: (Text, Text),
    words: EntryWords,
) -> Result<Pkg, NoMemory>
    requires { IsSome (split_pf named.now.pf.now) }
    ensures { IfOk result (λ pkg. pkg ≡ pkg_with named.now.category.now named.now.pf.now (unwrap_or (split_pf named.now.pf.now) 0) eapi slots words.keywords words.iuse words.properties) }
{
    let (name, version) = name_and_version(alloc, named.pf.bytes())?;
    let (slot, sub) = slots;
    Ok(Pkg {
        category: named.category.copy(alloc)?,
        name,
        version,
        pf: named.pf.copy(alloc)?,
        eapi,
        slot,
        sub,
        iuse: flags_of(alloc, &words.iuse)?,
        iuse_plus: plus_flags_of(alloc, &words.iuse)?,
        live: words.properties.has(b"live"),
        keywords: words.keywords,
    })
}

// The package, where there is a slot and no bad word.
fn head_with(
    alloc: Global,
    named: &Named,
    eapi: Eapi,
    slots: Option<(Text, Text)>,
    bad: (Option<usize>, Option<usize>),
    words: EntryWords,
) -> Result<Option<Pkg>, NoMemory>
    requires { IsSome (split_pf named.now.pf.now) }
    ensures { IfOk result (λ head. head ≡ head_with named.now.category.now named.now.pf.now eapi slots bad.0 bad.1 words.keywords words.iuse words.properties) }
{
    match (slots, bad) {
        (Some(slots), (None, None)) => Ok(Some(pkg_with(alloc, named, eapi, slots, words)?)),
        _ => Ok(None),
    }
}

// Notes what is wrong with SLOT, KEYWORDS and IUSE.
fn note_head(
    alloc: Global,
    has_slot: bool,
    bad: (Option<usize>, Option<usize>),
    errors: &mut EntryErrors,
) -> Result<(), NoMemory>
    ensures { OnOk result (errors.new ≡ errors.old ++ errors_of (head_details_with has_slot bad.0 bad.1)) }
{
    note_slot(alloc, has_slot, errors)?;
    note_word(alloc, b"KEYWORDS", bad.0, errors)?;
    note_word(alloc, b"IUSE", bad.1, errors)?;
    Ok(())
}

fn head_of(
    alloc: Global,
    named: &Named,
    eapi: Eapi,
    text: &EntryText<'_>,
    errors: &mut EntryErrors,
) -> Result<Option<Pkg>, NoMemory>
    requires { IsSome (split_pf named.now.pf.now) }
    ensures head { IfOk result (λ head. head ≡ head_of named.now.category.now named.now.pf.now (Some eapi) text.now) }
    ensures errors { OnOk result (errors.new ≡ errors.old ++ errors_of (head_details text.now)) }
{
    let slots = slot_of(alloc, text.value_of(b"SLOT"))?;
    let words = words_in(alloc, text)?;
    let bad = (bad_keyword(&words.keywords), bad_flag(&words.iuse));
    note_head(alloc, slots.is_some(), bad, errors)?;
    let head = head_with(alloc, named, eapi, slots, bad, words)?;
    Ok(head)
}

// The entry with this package, these expressions and errors.
fn entry_with(
    alloc: Global,
    text: &EntryText<'_>,
    head: Option<Pkg>,
    body: Body,
    errors: EntryErrors,
) -> Result<Entry, NoMemory>
    ensures { IfOk result (λ entry. entry ≡ entry_with text.now head body errors) }
{
    Ok(Entry {
        digest: digest_in(text.value_of(b"_md5_")),
        eclasses: eclasses_of(alloc, text.value_of(b"_eclasses_"))?,
        head,
        body,
        errors,
    })
}
