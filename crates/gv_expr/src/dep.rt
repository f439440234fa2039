//! Dependencies (PMS chapter 8) as trees, and what the reader of tokens needs to know of them.
ghost use Rattle.std.specs.Prelude.{◌≡◌, ◌≤◌, ◌∷◌, [], ◌++◌, Some, true, IfOk, OnOk, OnErr};
ghost use Rattle.gv_expr.specs.Dep.{deps, depth_of, end, more};
ghost use Rattle.gv_expr.specs.DepGrammar.{dep_tokens};
ghost use Rattle.gv_expr.specs.DepView.{dep_of, view_of};
ghost use Rattle.gv_expr.specs.Leaves.{are_atoms};
ghost use Rattle.gv_expr.specs.OpenGroups.{head_tokens, is_allowed};
ghost use Rattle.gv_expr.specs.declared.fault.ExprKind.TheVariants.{NotHere};
ghost use Rattle.gv_expr.specs.declared.token.Token.TheVariants.{Open, Close};

use crate::ExprKind;
use crate::grammar::{Grammar, Head, MOST_GROUPS, StepFault, larger};
use gv_atom::{Atom, AtomFault, read_atom};
use gv_base::{NoMemory, Text};
use std::alloc::Global;
use std::marker::Model;

/// A tree of a dependency.
#[cycle(dep)]
#[derive(Drop)]
pub enum DepTree {
    /// An atom.
    Leaf {
        atom: Atom,
    },
    /// `( )`.
    All {
        items: DepExpr,
    },
    /// `|| ( )`.
    Any {
        items: DepExpr,
    },
    /// `flag? ( )`, and `!flag? ( )` where it is negated.
    If {
        flag: Text,
        negated: bool,
        items: DepExpr,
    },
}

/// A dependency: its top trees, in the order in which they stand. At most 64 groups stand in one another.
#[cycle(dep)]
#[derive(Drop)]
pub struct DepExpr {
    /// The top trees alone: what stands in a group is in its tree.
    pub items: Vec<DepTree>,
    depth: u32,
}

impl Model for DepExpr {
    ghost use Rattle.std.specs.Prelude.{◌≡◌, ◌≤◌, List};
    ghost use Rattle.gv_expr.specs.Dep.{Dep, deps, depth_of};
    ghost use Rattle.gv_expr.specs.DepStored.{deps_code, size_of};

    ghost Value = { List Dep };

    ghost coded = { deps_code };

    ghost use Rattle.gv_expr.specs.DepView.{view_of};

    ghost view = { λ e. view_of e.items.items };

    ghost invariant = { λ e. (e.depth ≡ depth_of (deps (view_of e.items.items))) × (e.depth ≤ 64) };

    ghost size = { size_of };

    ghost use Rattle.gv_expr.specs.DepFalls.{child_falls};

    ghost size_decreases = { λ a h. child_falls a };
}

impl DepExpr {
    /// No trees.
    pub fn new(alloc: Global) -> DepExpr
        ensures { result ≡ [] }
    {
        DepExpr {
            items: Vec::new(alloc),
            depth: 0,
        }
    }

    /// Adds a tree at the end. After an error the expression is unchanged. Where 64 groups stand in one another inside of a
    /// group, no memory is given.
    pub fn add(&mut self, item: DepTree) -> Result<(), NoMemory>
        ensures ok { OnOk result (self.new ≡ self.old ++ dep_of item ∷ []) }
        ensures err { OnErr result (self.new ≡ self.old) }
    {
        let depth = item.depth();
        if depth > MOST_GROUPS {
            return Err(NoMemory);
        }
        self.items.push(item)?;
        self.depth = larger(self.depth, depth);
        Ok(())
    }

    // Lets go of the room that no top tree takes.
    fn fit(&mut self)
        ensures { self.new ≡ self.old }
    {
        self.items.shrink_to_fit();
    }

    /// How many groups stand in one another at most.
    pub fn depth(&self) -> u32
        ensures depth { result ≡ depth_of (deps self.now) }
        ensures most { result ≤ 64 }
    {
        self.depth
    }

    /// The top trees, in order.
    pub fn items(&self) -> &[DepTree]
        ensures { view_of result.now ≡ self.now }
    {
        &self.items
    }

    /// The same expression once more. O(bytes).
    #[cycle(copy)]
    pub fn copy(&self, alloc: Global) -> Result<DepExpr, NoMemory>
        ensures { IfOk result (λ e. e ≡ self.now) }
    {
        let mut copied = DepExpr::new(alloc);
        for tree in &self.items {
            copied.add(tree.copy(alloc)?)?;
        }
        Ok(copied)
    }
}

/// Leaves are atoms, and neither `^^` nor `??` is allowed.
impl Grammar for DepExpr {
    ghost use Rattle.gv_expr.specs.TokenFaults.{dependency};

    ghost language = { dependency };

    ghost written = { λ e. dep_tokens (deps e) };

    ghost are_good = { λ e. are_atoms (deps e) };

    fn nothing(alloc: Global) -> DepExpr {
        DepExpr::new(alloc)
    }

    fn count_fault() -> Option<ExprKind> {
        Some(ExprKind::NotHere)
    }

    #[tactic(auto, using(crate::proofs::DepSteps::leaf_tokens, crate::proofs::DepSteps::leaf_leaves))]
    fn add_leaf(&mut self, alloc: Global, text: &Text) -> Result<(), StepFault> {
        match read_atom(alloc, text.bytes()) {
            Ok(atom) => {
                self.add(DepTree::Leaf { atom })?;
                Ok(())
            }
            Err(AtomFault::Bad { .. }) => Err(StepFault::Fault(ExprKind::BadAtom)),
            Err(AtomFault::NoMemory) => Err(StepFault::NoMemory),
        }
    }

    #[tactic(auto, using(crate::proofs::DepSteps::more_tokens, crate::proofs::DepSteps::more_leaves))]
    fn add_group(&mut self, head: Head, items: DepExpr) -> Result<(), NoMemory> {
        self.add(DepTree::group(head, items))
    }

    fn trim(&mut self) {
        self.fit();
    }
}

impl DepTree {
    // How many groups stand in one another at most, the tree's own among them.
    fn depth(&self) -> u32
        ensures { result ≡ depth_of (deps (dep_of self.now ∷ [])) }
    {
        match self {
            DepTree::Leaf { .. } => 0,
            DepTree::All { items } | DepTree::Any { items } | DepTree::If { items, .. } => {
                items.depth() + 1
            }
        }
    }

    // The group of these trees, behind what stands before its `(`.
    #[tactic(auto, using(crate::proofs::DepSteps::group_leaves))]
    fn group(head: Head, items: DepExpr) -> DepTree
        requires allowed { is_allowed (Some NotHere) head ≡ true }
        ensures tokens { dep_tokens (more (dep_of result) end) ≡ head_tokens head ++ Open ∷ (dep_tokens (deps items) ++ Close ∷ []) }
        ensures leaves { are_atoms (more (dep_of result) end) ≡ are_atoms (deps items) }
    {
        match head {
            Head::Nothing => DepTree::All { items },
            Head::Any => DepTree::Any { items },
            Head::If { flag, negated } => DepTree::If {
                flag,
                negated,
                items,
            },
            Head::One | Head::Most => unreachable!(),
        }
    }

    /// The same tree once more. O(bytes).
    #[cycle(copy)]
    pub fn copy(&self, alloc: Global) -> Result<DepTree, NoMemory>
        ensures { IfOk result (λ t. dep_of t ≡ dep_of self.now) }
    {
        match self {
            DepTree::Leaf { atom } => Ok(DepTree::Leaf {
                atom: atom.copy(alloc)?,
            }),
            DepTree::All { items } => Ok(DepTree::All {
                items: items.copy(alloc)?,
            }),
            DepTree::Any { items } => Ok(DepTree::Any {
                items: items.copy(alloc)?,
            }),
            DepTree::If {
                flag,
                negated,
                items,
            } => Ok(DepTree::If {
                flag: flag.copy(alloc)?,
                negated: *negated,
                items: items.copy(alloc)?,
            }),
        }
    }
}
