//! Expressions: dependencies (PMS chapter 8) and REQUIRED_USE (PMS chapter 7), as trees of groups.
//!
//! Stands on `gv_base`, `gv_version` and `gv_atom`. Layers above use `read_dep` and `read_required` by which bytes are an
//! expression, by the trees that they give and by the token of the first fault; `print_dep`, `print_item` and
//! `print_required` by their text; `mentioned_dep`, `mentioned_required` and `Mentions` by the flags; `dep_law` and `required_law` for
//! what the definitions read. Contracts see an expression as a list of trees of a data type of the definitions, `Dep` or
//! `Req`. In no expression do more than 64 groups stand in one another, so whatever goes down one goes no deeper.
#![tactic(auto)]

mod alike;
mod dep;
mod fault;
mod grammar;
mod laws;
mod mentions;
mod open_groups;
mod printing;
mod reading;
mod required;
mod shared_dep;
mod token;

pub use dep::{DepExpr, DepTree};
pub use fault::{ExprFault, ExprKind};
pub use laws::{dep_law, required_law};
pub use mentions::{Mentions, mentioned_dep, mentioned_required};
pub use printing::{print_dep, print_item, print_required};
pub use reading::{read_dep, read_required};
pub use required::{UseExpr, UseTree};
pub use shared_dep::SharedDep;
pub use token::Token;
