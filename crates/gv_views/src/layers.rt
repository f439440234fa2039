//! The folders from which the parts of an overlay are taken.
ghost use Rattle.std.specs.Prelude.{◌≡◌, ◌++◌, reverse, IfOk, OnOk};
ghost use Rattle.gv_views.specs.Views.{behind_first, first_of, layers_of};

use gv_base::{NoMemory, Text, Texts};
use std::alloc::Global;

/// The folders from which the parts of an overlay are taken.
#[derive(Drop)]
pub struct Layers {
    /// All that the others don't say.
    pub own: Text,
    /// What is below `profiles`.
    pub profiles: Text,
    /// The lists of categories that are joined to that of `profiles`, in this order.
    pub lists: Texts,
    /// What is below `eclass`: the first of these that has a file.
    pub eclasses: Texts,
}

/// Those of an overlay of this name over its masters: the profiles are those of the first master, the lists of categories those of
/// the masters and then of the overlay, and an eclass is that of the overlay, or else of the last master that has it.
pub fn layers_of(alloc: Global, name: &Text, masters: &Texts) -> Result<Layers, NoMemory>
    ensures { IfOk result (λ made. made ≡ layers_of name.now masters.now) }
{
    let mut lists = behind_first(alloc, masters.items())?;
    lists.add(name.copy(alloc)?)?;
    let mut eclasses = Texts::new(alloc);
    eclasses.add(name.copy(alloc)?)?;
    add_reversed(alloc, &mut eclasses, masters.items())?;
    Ok(Layers {
        own: name.copy(alloc)?,
        profiles: first_of(alloc, masters.items())?,
        lists,
        eclasses,
    })
}

fn first_of(alloc: Global, texts: &[Text]) -> Result<Text, NoMemory>
    ensures { IfOk result (λ first. first ≡ first_of texts.now) }
{
    match texts {
        [first, ..] => first.copy(alloc),
        [] => Text::of(alloc, &[]),
    }
}

fn behind_first(alloc: Global, texts: &[Text]) -> Result<Texts, NoMemory>
    ensures { IfOk result (λ others. others ≡ behind_first texts.now) }
{
    match texts {
        [_, others @ ..] => copies(alloc, others),
        [] => Ok(Texts::new(alloc)),
    }
}

fn copies(alloc: Global, texts: &[Text]) -> Result<Texts, NoMemory>
    ensures { IfOk result (λ copies. copies ≡ texts.now) }
{
    let mut copies = Texts::new(alloc);
    for text in texts {
        copies.add(text.copy(alloc)?)?;
    }
    Ok(copies)
}

// Adds the last one first.
#[tactic(auto, using(crate::proofs::Lists::reversed_next))]
fn add_reversed(alloc: Global, texts: &mut Texts, others: &[Text]) -> Result<(), NoMemory>
    ensures { OnOk result (texts.new ≡ texts.old ++ reverse others.now) }
{
    for i in 0..others.len() {
        texts.add(others[others.len() - 1 - i].copy(alloc)?)?;
    }
    Ok(())
}
