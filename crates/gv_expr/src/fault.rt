//! What is wrong with bytes that are no expression.
use gv_base::NoMemory;

/// What is wrong with a token of an expression.
#[derive(Clone, Copy, Debug)]
pub enum ExprKind {
    /// It is the 100,001st token.
    TooMany,
    /// A `(` inside of 64 open groups.
    Depth,
    /// A `)` where no group is open, or a token other than `(` behind `||`, `^^`, `??` or a conditional.
    Stray,
    /// `^^` or `??` in a dependency.
    NotHere,
    /// What should be a flag is none.
    BadFlag,
    /// What should be an atom is none.
    BadAtom,
    /// The tokens end inside of a group, or where a `(` has to follow; told at the place behind the last token.
    Unclosed,
}

/// Why bytes were not read as an expression.
#[derive(Clone, Copy, Debug)]
pub enum ExprFault {
    /// They are no expression: the token at fault, from 1, and what is wrong with it.
    Bad { token: u32, kind: ExprKind },
    /// No memory was found.
    NoMemory,
}

impl From<NoMemory> for ExprFault {
    ghost use Rattle.std.specs.Prelude.{◌≡◌};
    ghost use Rattle.gv_expr.specs.declared.fault.ExprFault.TheVariants.{NoMemory};

    ghost from_gives = { λ _ fault. fault ≡ NoMemory };

    fn from(_refused: NoMemory) -> ExprFault {
        ExprFault::NoMemory
    }
}
