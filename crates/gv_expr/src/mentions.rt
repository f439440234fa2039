//! The flags that expressions mention. O(n) to find n mentions, O(n log n) comparisons to put them in order; they are borrowed from the
//! expressions until they are copied.
ghost use Rattle.std.specs.Prelude.{◌≡◌, ◌++◌, [], ◌∷◌, IfOk, OnOk};
ghost use Rattle.gv_atom.specs.declared.atom.Block.TheVariants.{No};
ghost use Rattle.gv_base.specs.Order.{in_order};
ghost use Rattle.gv_expr.specs.Dep.{deps};
ghost use Rattle.gv_expr.specs.DepView.{dep_of};
ghost use Rattle.gv_expr.specs.Mentions.{dep_mentions, item_mentions, mentioned_dep, mentioned_required, req_mentions, texts_of};
ghost use Rattle.gv_expr.specs.Required.{reqs};
ghost use Rattle.gv_expr.specs.RequiredView.{req_of};

use crate::{DepExpr, DepTree, UseExpr, UseTree};
use gv_atom::{Atom, Block, UseItem};
use gv_base::{NoMemory, Text, Texts, in_order_law};
use std::alloc::Global;
use std::marker::Model;

/// The parent's flags that the dependency mentions, in byte order, each once: those of its conditionals, and of the items
/// that look at the parent's flag in atoms that are no blockers.
pub fn mentioned_dep(alloc: Global, items: &DepExpr) -> Result<Texts, NoMemory>
    ensures { IfOk result (λ flags. flags ≡ mentioned_dep (deps items.now)) }
{
    let mut mentions = Mentions::new(alloc);
    mentions.add_class(items)?;
    mentions.put_in_order()?;
    mentions.copied(alloc)
}

/// The flags that the REQUIRED_USE mentions, in byte order, each once: those of its leaves and conditionals.
pub fn mentioned_required(alloc: Global, items: &UseExpr) -> Result<Texts, NoMemory>
    ensures { IfOk result (λ flags. flags ≡ mentioned_required (reqs items.now)) }
{
    let mut mentions = Mentions::new(alloc);
    mentions.add_required(items)?;
    mentions.put_in_order()?;
    mentions.copied(alloc)
}

/// Flags in the order in which they are mentioned, with repeats, until they are put in order.
#[derive(Drop)]
pub struct Mentions<'a> {
    flags: Vec<&'a [u8]>,
}

impl<'a> Model for Mentions<'a> {
    ghost use Rattle.std.specs.Prelude.{List, ℕ};
    ghost use Rattle.gv_expr.specs.Mentions.{texts_of};

    ghost Value = { List (List ℕ) };

    ghost view = { λ m. texts_of m.flags.items };
}

impl<'a> Mentions<'a> {
    /// None.
    pub fn new(alloc: Global) -> Mentions<'a>
        ensures { result ≡ [] }
    {
        Mentions {
            flags: Vec::new(alloc),
        }
    }

    /// The flags, in their order.
    pub fn items(&self) -> &[&'a [u8]]
        ensures { texts_of result.now ≡ self.now }
    {
        &self.flags
    }

    /// Copies of them.
    pub fn copied(&self, alloc: Global) -> Result<Texts, NoMemory>
        ensures { IfOk result (λ flags. flags ≡ self.now) }
    {
        let mut flags = Texts::new(alloc);
        for flag in self.items() {
            flags.add(Text::of(alloc, flag)?)?;
        }
        Ok(flags)
    }

    /// Puts them in byte order, each once.
    pub fn put_in_order(&mut self) -> Result<(), NoMemory>
        ensures { OnOk result (self.new ≡ in_order self.old) }
    {
        in_order_law();
        self.flags.sort()?;
        self.flags.dedup();
        Ok(())
    }

    #[tactic(auto, using(crate::proofs::Gathering::one_more))]
    fn add(&mut self, flag: &'a Text) -> Result<(), NoMemory>
        ensures { OnOk result (self.new ≡ self.old ++ flag.now ∷ []) }
    {
        self.flags.push(flag.bytes())?;
        Ok(())
    }

    // Of the parent's flags that items ask about.
    fn add_items(&mut self, items: &'a [UseItem]) -> Result<(), NoMemory>
        ensures { OnOk result (self.new ≡ self.old ++ item_mentions No items.now) }
    {
        for item in items {
            if !item.ask.asks_parent() {
                continue;
            }
            self.add(&item.flag)?;
        }
        Ok(())
    }

    fn add_atom(&mut self, atom: &'a Atom) -> Result<(), NoMemory>
        ensures { OnOk result (self.new ≡ self.old ++ item_mentions atom.now.block atom.now.items) }
    {
        match atom.block {
            Block::No => self.add_items(atom.items.items()),
            Block::Weak | Block::Strong => Ok(()),
        }
    }

    /// Adds those of a class.
    #[cycle(deps)]
    pub fn add_class(&mut self, items: &'a DepExpr) -> Result<(), NoMemory>
        ensures { OnOk result (self.new ≡ self.old ++ dep_mentions (deps items.now)) }
    {
        for tree in &items.items {
            self.add_dep(tree)?;
        }
        Ok(())
    }

    #[cycle(deps)]
    fn add_dep(&mut self, tree: &'a DepTree) -> Result<(), NoMemory>
        ensures { OnOk result (self.new ≡ self.old ++ dep_mentions (deps (dep_of tree.now ∷ []))) }
    {
        match tree {
            DepTree::Leaf { atom } => self.add_atom(atom),
            DepTree::All { items } | DepTree::Any { items } => self.add_class(items),
            DepTree::If { flag, items, .. } => {
                self.add(flag)?;
                self.add_class(items)
            }
        }
    }

    /// Adds those of REQUIRED_USE.
    #[cycle(uses)]
    pub fn add_required(&mut self, items: &'a UseExpr) -> Result<(), NoMemory>
        ensures { OnOk result (self.new ≡ self.old ++ req_mentions (reqs items.now)) }
    {
        for tree in &items.items {
            self.add_use(tree)?;
        }
        Ok(())
    }

    #[cycle(uses)]
    fn add_use(&mut self, tree: &'a UseTree) -> Result<(), NoMemory>
        ensures { OnOk result (self.new ≡ self.old ++ req_mentions (reqs (req_of tree.now ∷ []))) }
    {
        match tree {
            UseTree::Leaf { flag, .. } => self.add(flag),
            UseTree::All { items }
            | UseTree::Any { items }
            | UseTree::One { items }
            | UseTree::Most { items } => self.add_required(items),
            UseTree::If { flag, items, .. } => {
                self.add(flag)?;
                self.add_required(items)
            }
        }
    }
}
