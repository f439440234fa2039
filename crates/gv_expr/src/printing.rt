//! The text of an expression: its tokens, joined by one space. O(bytes).
//!
//! A space is written before each token, and the first is cut off at the end.
ghost use Rattle.std.specs.Prelude.{◌≡◌, ◌<◌, ◌++◌, [], ◌∷◌, ℕ, List, IfOk, IfSome, OnOk, length, drop, slice_get};
ghost use Rattle.gv_expr.specs.Dep.{deps};
ghost use Rattle.gv_expr.specs.DepGrammar.{dep_text, dep_tokens, item_text, IsDepOf};
ghost use Rattle.gv_expr.specs.DepView.{dep_of};
ghost use Rattle.gv_expr.specs.Required.{reqs};
ghost use Rattle.gv_expr.specs.RequiredGrammar.{req_text, req_tokens, IsReqOf};
ghost use Rattle.gv_expr.specs.RequiredView.{req_of};
ghost use Rattle.gv_expr.specs.Spaced.{spaced};
ghost use Rattle.gv_expr.specs.Token.{signed};
ghost use Rattle.gv_expr.specs.declared.token.Token.TheVariants.{Open, Close, If};

use crate::{DepExpr, DepTree, UseExpr, UseTree};
use gv_atom::print_atom;
use gv_base::{NoMemory, Text};
use std::alloc::Global;

/// The tokens of the dependency, joined by one space.
pub fn print_dep(alloc: Global, items: &DepExpr) -> Result<Text, NoMemory>
    ensures text { IfOk result (λ text. text ≡ dep_text (deps items.now)) }
    // The text of a dependency that was read is that dependency again.
    ensures again { IfOk result (λ text. (bytes : List ℕ) → IsDepOf bytes items.now → IsDepOf text items.now) }
{
    text_of_dep(alloc, items)
}

/// The tokens of the top item with this number, from 0, joined by one space.
pub fn print_item(alloc: Global, items: &DepExpr, n: u32) -> Result<Text, NoMemory>
    requires { n < length items.now }
    ensures { IfOk result (λ text. IfSome (slice_get items.now n) (λ item. text ≡ item_text item)) }
{
    let mut text = Text::of(alloc, b"")?;
    append_dep(alloc, &items.items[n as usize], &mut text)?;
    let cut = without_space(alloc, &text)?;
    Ok(cut)
}

/// The tokens of the REQUIRED_USE, joined by one space.
pub fn print_required(alloc: Global, items: &UseExpr) -> Result<Text, NoMemory>
    ensures text { IfOk result (λ text. text ≡ req_text (reqs items.now)) }
    // The text of a REQUIRED_USE that was read is that REQUIRED_USE again.
    ensures again { IfOk result (λ text. (bytes : List ℕ) → IsReqOf bytes items.now → IsReqOf text items.now) }
{
    text_of_required(alloc, items)
}

#[tactic(auto, using(crate::proofs::SpacedLemmas::unspaced))]
fn text_of_dep(alloc: Global, items: &DepExpr) -> Result<Text, NoMemory>
    ensures { IfOk result (λ text. text ≡ dep_text (deps items.now)) }
{
    let mut text = Text::of(alloc, b"")?;
    append_deps(alloc, items, &mut text)?;
    without_space(alloc, &text)
}

#[tactic(auto, using(crate::proofs::SpacedLemmas::unspaced))]
fn text_of_required(alloc: Global, items: &UseExpr) -> Result<Text, NoMemory>
    ensures { IfOk result (λ text. text ≡ req_text (reqs items.now)) }
{
    let mut text = Text::of(alloc, b"")?;
    append_uses(items, &mut text)?;
    without_space(alloc, &text)
}

// The text behind the space that stands before the first token.
fn without_space(alloc: Global, text: &Text) -> Result<Text, NoMemory>
    ensures { IfOk result (λ cut. cut ≡ drop 1 text.now) }
{
    match text.bytes() {
        [] => Text::of(alloc, b""),
        [_, rest @ ..] => Text::of(alloc, rest),
    }
}

fn append_flag(flag: &Text, negated: bool, text: &mut Text) -> Result<(), NoMemory>
    ensures { OnOk result (text.new ≡ text.old ++ 32 ∷ signed flag.now negated) }
{
    if negated {
        text.append(b" !")?;
    } else {
        text.append(b" ")?;
    }
    text.append(flag.bytes())?;
    Ok(())
}

fn append_condition(flag: &Text, negated: bool, text: &mut Text) -> Result<(), NoMemory>
    ensures { OnOk result (text.new ≡ text.old ++ spaced (If flag.now negated ∷ Open ∷ [])) }
{
    append_flag(flag, negated, text)?;
    text.append(b"? (")?;
    Ok(())
}

#[cycle(deps)]
fn append_deps(alloc: Global, items: &DepExpr, text: &mut Text) -> Result<(), NoMemory>
    ensures { OnOk result (text.new ≡ text.old ++ spaced (dep_tokens (deps items.now))) }
{
    for tree in &items.items {
        append_dep(alloc, tree, text)?;
    }
    Ok(())
}

// The trees of a group, and its end.
#[cycle(deps)]
#[tactic(auto, using(crate::proofs::SpacedLemmas::closed))]
fn append_dep_group(alloc: Global, items: &DepExpr, text: &mut Text) -> Result<(), NoMemory>
    ensures { OnOk result (text.new ≡ text.old ++ spaced (dep_tokens (deps items.now) ++ Close ∷ [])) }
{
    append_deps(alloc, items, text)?;
    text.append(b" )")?;
    Ok(())
}

#[cycle(deps)]
#[tactic(auto, using(crate::proofs::SpacedLemmas::plain_printed, crate::proofs::SpacedLemmas::any_printed, crate::proofs::SpacedLemmas::if_printed))]
fn append_dep(alloc: Global, tree: &DepTree, text: &mut Text) -> Result<(), NoMemory>
    ensures { OnOk result (text.new ≡ text.old ++ spaced (dep_tokens (deps (dep_of tree.now ∷ [])))) }
{
    match tree {
        DepTree::Leaf { atom } => {
            let atom = print_atom(alloc, atom)?;
            text.append(b" ")?;
            text.append(atom.bytes())?;
            Ok(())
        }
        DepTree::All { items } => {
            text.append(b" (")?;
            append_dep_group(alloc, items, text)
        }
        DepTree::Any { items } => {
            text.append(b" || (")?;
            append_dep_group(alloc, items, text)
        }
        DepTree::If {
            flag,
            negated,
            items,
        } => {
            append_condition(flag, *negated, text)?;
            append_dep_group(alloc, items, text)
        }
    }
}

#[cycle(uses)]
fn append_uses(items: &UseExpr, text: &mut Text) -> Result<(), NoMemory>
    ensures { OnOk result (text.new ≡ text.old ++ spaced (req_tokens (reqs items.now))) }
{
    for tree in &items.items {
        append_use(tree, text)?;
    }
    Ok(())
}

// The trees of a group, and its end.
#[cycle(uses)]
#[tactic(auto, using(crate::proofs::SpacedLemmas::closed))]
fn append_use_group(items: &UseExpr, text: &mut Text) -> Result<(), NoMemory>
    ensures { OnOk result (text.new ≡ text.old ++ spaced (req_tokens (reqs items.now) ++ Close ∷ [])) }
{
    append_uses(items, text)?;
    text.append(b" )")?;
    Ok(())
}

#[cycle(uses)]
#[tactic(auto, using(crate::proofs::SpacedLemmas::plain_printed, crate::proofs::SpacedLemmas::any_printed, crate::proofs::SpacedLemmas::one_printed, crate::proofs::SpacedLemmas::most_printed, crate::proofs::SpacedLemmas::if_printed))]
fn append_use(tree: &UseTree, text: &mut Text) -> Result<(), NoMemory>
    ensures { OnOk result (text.new ≡ text.old ++ spaced (req_tokens (reqs (req_of tree.now ∷ [])))) }
{
    match tree {
        UseTree::Leaf { flag, negated } => append_flag(flag, *negated, text),
        UseTree::All { items } => {
            text.append(b" (")?;
            append_use_group(items, text)
        }
        UseTree::Any { items } => {
            text.append(b" || (")?;
            append_use_group(items, text)
        }
        UseTree::One { items } => {
            text.append(b" ^^ (")?;
            append_use_group(items, text)
        }
        UseTree::Most { items } => {
            text.append(b" ?? (")?;
            append_use_group(items, text)
        }
        UseTree::If {
            flag,
            negated,
            items,
        } => {
            append_condition(flag, *negated, text)?;
            append_use_group(items, text)
        }
    }
}
