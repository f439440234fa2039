//! REQUIRED_USE (PMS chapter 7) as trees, and what the reader of tokens needs to know of it.
ghost use Rattle.std.specs.Prelude.{◌≡◌, ◌≤◌, ◌∷◌, [], ◌++◌, IfOk, OnOk, OnErr};
ghost use Rattle.gv_expr.specs.Leaves.{are_flags};
ghost use Rattle.gv_expr.specs.OpenGroups.{head_tokens};
ghost use Rattle.gv_expr.specs.Required.{reqs, depth_of, end, more};
ghost use Rattle.gv_expr.specs.RequiredGrammar.{req_tokens};
ghost use Rattle.gv_expr.specs.RequiredView.{req_of, view_of};
ghost use Rattle.gv_expr.specs.declared.token.Token.TheVariants.{Open, Close};

use crate::ExprKind;
use crate::grammar::{Grammar, Head, MOST_GROUPS, StepFault, larger};
use crate::token::split_sign;
use gv_base::{NoMemory, Text};
use gv_version::is_flag;
use std::alloc::Global;
use std::marker::Model;

/// A tree of a REQUIRED_USE.
#[cycle(required)]
#[derive(Drop)]
pub enum UseTree {
    /// `flag`, and `!flag` where it is negated.
    Leaf {
        flag: Text,
        negated: bool,
    },
    /// `( )`.
    All {
        items: UseExpr,
    },
    /// `|| ( )`.
    Any {
        items: UseExpr,
    },
    /// `^^ ( )`.
    One {
        items: UseExpr,
    },
    /// `?? ( )`.
    Most {
        items: UseExpr,
    },
    /// `flag? ( )`, and `!flag? ( )` where it is negated.
    If {
        flag: Text,
        negated: bool,
        items: UseExpr,
    },
}

/// A REQUIRED_USE: its top trees, in the order in which they stand. At most 64 groups stand in one another.
#[cycle(required)]
#[derive(Drop)]
pub struct UseExpr {
    /// The top trees alone: what stands in a group is in its tree.
    pub items: Vec<UseTree>,
    depth: u32,
}

impl Model for UseExpr {
    ghost use Rattle.std.specs.Prelude.{◌≡◌, ◌≤◌, List};
    ghost use Rattle.gv_expr.specs.Required.{Req, reqs, depth_of};
    ghost use Rattle.gv_expr.specs.RequiredStored.{reqs_code, size_of};

    ghost Value = { List Req };

    ghost coded = { reqs_code };

    ghost use Rattle.gv_expr.specs.RequiredView.{view_of};

    ghost view = { λ e. view_of e.items.items };

    ghost invariant = { λ e. (e.depth ≡ depth_of (reqs (view_of e.items.items))) × (e.depth ≤ 64) };

    ghost size = { size_of };

    ghost use Rattle.gv_expr.specs.RequiredFalls.{child_falls};

    ghost size_decreases = { λ a h. child_falls a };
}

impl UseExpr {
    /// No trees.
    pub fn new(alloc: Global) -> UseExpr
        ensures { result ≡ [] }
    {
        UseExpr {
            items: Vec::new(alloc),
            depth: 0,
        }
    }

    /// Adds a tree at the end. After an error the expression is unchanged. Where 64 groups stand in one another inside of a
    /// group, no memory is given.
    pub fn add(&mut self, item: UseTree) -> Result<(), NoMemory>
        ensures ok { OnOk result (self.new ≡ self.old ++ req_of item ∷ []) }
        ensures err { OnErr result (self.new ≡ self.old) }
    {
        let depth = item.depth();
        if depth > MOST_GROUPS {
            return Err(NoMemory);
        }
        self.items.push(item)?;
        self.depth = larger(self.depth, depth);
        Ok(())
    }

    // Lets go of the room that no top tree takes.
    fn fit(&mut self)
        ensures { self.new ≡ self.old }
    {
        self.items.shrink_to_fit();
    }

    /// How many groups stand in one another at most.
    pub fn depth(&self) -> u32
        ensures depth { result ≡ depth_of (reqs self.now) }
        ensures most { result ≤ 64 }
    {
        self.depth
    }

    /// The top trees, in order.
    pub fn items(&self) -> &[UseTree]
        ensures { view_of result.now ≡ self.now }
    {
        &self.items
    }

    /// The same expression once more. O(bytes).
    #[cycle(copy)]
    pub fn copy(&self, alloc: Global) -> Result<UseExpr, NoMemory>
        ensures { IfOk result (λ e. e ≡ self.now) }
    {
        let mut copied = UseExpr::new(alloc);
        for tree in &self.items {
            copied.add(tree.copy(alloc)?)?;
        }
        Ok(copied)
    }
}

/// Leaves are flags with an optional `!`, and all groups are allowed.
impl Grammar for UseExpr {
    ghost use Rattle.gv_expr.specs.TokenFaults.{required_use};

    ghost language = { required_use };

    ghost written = { λ e. req_tokens (reqs e) };

    ghost are_good = { λ e. are_flags (reqs e) };

    fn nothing(alloc: Global) -> UseExpr {
        UseExpr::new(alloc)
    }

    fn count_fault() -> Option<ExprKind> {
        None
    }

    #[tactic(auto, using(crate::proofs::ReqSteps::leaf_tokens, crate::proofs::ReqSteps::leaf_leaves, crate::proofs::Signs::signed_again))]
    fn add_leaf(&mut self, alloc: Global, text: &Text) -> Result<(), StepFault> {
        let (flag, negated) = split_sign(text.bytes());
        if !is_flag(flag) {
            return Err(StepFault::Fault(ExprKind::BadFlag));
        }
        let flag = Text::of(alloc, flag)?;
        self.add(UseTree::Leaf { flag, negated })?;
        Ok(())
    }

    #[tactic(auto, using(crate::proofs::ReqSteps::more_tokens, crate::proofs::ReqSteps::more_leaves))]
    fn add_group(&mut self, head: Head, items: UseExpr) -> Result<(), NoMemory> {
        self.add(UseTree::group(head, items))
    }

    fn trim(&mut self) {
        self.fit();
    }
}

impl UseTree {
    // How many groups stand in one another at most, the tree's own among them.
    fn depth(&self) -> u32
        ensures { result ≡ depth_of (reqs (req_of self.now ∷ [])) }
    {
        match self {
            UseTree::Leaf { .. } => 0,
            UseTree::All { items }
            | UseTree::Any { items }
            | UseTree::One { items }
            | UseTree::Most { items }
            | UseTree::If { items, .. } => items.depth() + 1,
        }
    }

    // The group of these trees, behind what stands before its `(`.
    #[tactic(auto, using(crate::proofs::ReqSteps::group_leaves))]
    fn group(head: Head, items: UseExpr) -> UseTree
        ensures tokens { req_tokens (more (req_of result) end) ≡ head_tokens head ++ Open ∷ (req_tokens (reqs items) ++ Close ∷ []) }
        ensures leaves { are_flags (more (req_of result) end) ≡ are_flags (reqs items) }
    {
        match head {
            Head::Nothing => UseTree::All { items },
            Head::Any => UseTree::Any { items },
            Head::One => UseTree::One { items },
            Head::Most => UseTree::Most { items },
            Head::If { flag, negated } => UseTree::If {
                flag,
                negated,
                items,
            },
        }
    }

    /// The same tree once more. O(bytes).
    #[cycle(copy)]
    pub fn copy(&self, alloc: Global) -> Result<UseTree, NoMemory>
        ensures { IfOk result (λ t. req_of t ≡ req_of self.now) }
    {
        match self {
            UseTree::Leaf { flag, negated } => Ok(UseTree::Leaf {
                flag: flag.copy(alloc)?,
                negated: *negated,
            }),
            UseTree::All { items } => Ok(UseTree::All {
                items: items.copy(alloc)?,
            }),
            UseTree::Any { items } => Ok(UseTree::Any {
                items: items.copy(alloc)?,
            }),
            UseTree::One { items } => Ok(UseTree::One {
                items: items.copy(alloc)?,
            }),
            UseTree::Most { items } => Ok(UseTree::Most {
                items: items.copy(alloc)?,
            }),
            UseTree::If {
                flag,
                negated,
                items,
            } => Ok(UseTree::If {
                flag: flag.copy(alloc)?,
                negated: *negated,
                items: items.copy(alloc)?,
            }),
        }
    }
}
