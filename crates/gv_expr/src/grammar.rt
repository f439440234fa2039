//! What the reader of tokens asks of a language of expressions: what a leaf is, and how a closed group becomes a tree.
ghost use Rattle.std.specs.Prelude.{◌≡◌, ◌∷◌, [], ◌++◌, Bool, true, ◌&&◌, List, max, None, IfErr, OnOk, OnErr};
ghost use Rattle.gv_expr.specs.OpenGroups.{head_tokens, is_allowed, is_there, StepFails};
ghost use Rattle.gv_expr.specs.TokenFaults.{Language};
ghost use Rattle.gv_expr.specs.declared.token.Token.{Token};
ghost use Rattle.gv_expr.specs.declared.token.Token.TheVariants.{Open, Close, Word};

use crate::ExprKind;
use gv_base::{NoMemory, Text};
use std::alloc::Global;

/// The most groups that stand in one another, and that may be open while an expression is read.
pub const MOST_GROUPS: u32 = 64;

/// The larger number.
pub fn larger(a: u32, b: u32) -> u32
    ensures { result ≡ max a b }
{
    if a < b { b } else { a }
}

/// What stands before a group's `(`: nothing, `||`, `^^`, `??` or a conditional.
#[derive(Drop)]
pub enum Head {
    /// No token, as in front of a plain `( )`.
    Nothing,
    /// `||`
    Any,
    /// `^^`
    One,
    /// `??`
    Most,
    /// `flag?`, and `!flag?` where it is negated.
    If { flag: Text, negated: bool },
}

impl Head {
    /// Whether a token stands there, behind which no other one than `(` may come.
    pub fn is_there(&self) -> bool
        ensures { result ≡ is_there self.now }
    {
        !matches!(self, Head::Nothing)
    }
}

/// Why a token wasn't taken.
#[derive(Drop)]
pub enum StepFault {
    /// The token is at fault, in this way.
    Fault(ExprKind),
    /// Memory was wanted and not given; of the token nothing is told.
    NoMemory,
}

impl From<NoMemory> for StepFault {
    ghost use Rattle.std.specs.Prelude.{◌≡◌};
    ghost use Rattle.gv_expr.specs.declared.grammar.StepFault.TheVariants.{NoMemory};

    ghost from_gives = { λ _ fault. fault ≡ NoMemory };

    fn from(_refused: NoMemory) -> StepFault {
        StepFault::NoMemory
    }
}

/// The trees of a language, as the reader makes them.
pub trait Grammar: Drop {
    /// What the language asks of a leaf, and of `^^` and `??`.
    ghost language: { Language };

    /// The tokens that the trees are written with.
    ghost written: { Self → List Token };

    /// Whether each leaf is such.
    ghost are_good: { Self → Bool };

    /// No trees.
    fn nothing(alloc: Global) -> Self
        ensures tokens { written result ≡ [] }
        ensures good { are_good result ≡ true };

    /// What is wrong with `^^` and `??`, if anything is.
    fn count_fault() -> Option<ExprKind>
        ensures { result ≡ language.count_fault };

    /// Adds a leaf at the end. After an error the trees are unchanged.
    fn add_leaf(&mut self, alloc: Global, text: &Text) -> Result<(), StepFault>
        ensures good { OnOk result (language.leaf_fault text.now ≡ None) }
        ensures tokens { OnOk result (written self.new ≡ written self.old ++ Word text.now ∷ []) }
        ensures leaves { OnOk result (are_good self.new ≡ are_good self.old) }
        ensures bad { IfErr result (StepFails (language.leaf_fault text.now)) }
        ensures err { OnErr result (self.new ≡ self.old) };

    /// Adds a group at the end. After an error the trees are unchanged.
    fn add_group(&mut self, head: Head, items: Self) -> Result<(), NoMemory>
        requires allowed { is_allowed language.count_fault head ≡ true }
        ensures tokens { OnOk result (written self.new ≡ written self.old ++ (head_tokens head ++ Open ∷ (written items ++ Close ∷ []))) }
        ensures leaves { OnOk result (are_good self.new ≡ (are_good self.old && are_good items)) }
        ensures err { OnErr result (self.new ≡ self.old) };

    /// Lets go of the room that no tree takes: trees are kept for as long as their package is.
    fn trim(&mut self)
        ensures { self.new ≡ self.old };
}
