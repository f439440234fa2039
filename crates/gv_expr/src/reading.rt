//! Reading an expression, token by token, with a stack of open groups. O(bytes).
ghost use Rattle.std.specs.Prelude.{◌≡◌, ◌<◌, [], ◌∷◌, true, List, length, None, Some, IsSome, IfOk, IfErr, MatchOption};
ghost use Rattle.gv_base.specs.Pieces.{left};
ghost use Rattle.gv_expr.specs.Dep.{Dep};
ghost use Rattle.gv_expr.specs.DepGrammar.{IsDepOf};
ghost use Rattle.gv_expr.specs.DepRead.{read_dep};
ghost use Rattle.gv_expr.specs.Fault.{FaultIs, GivesDep, GivesReq};
ghost use Rattle.gv_expr.specs.Required.{Req};
ghost use Rattle.gv_expr.specs.RequiredGrammar.{IsReqOf};
ghost use Rattle.gv_expr.specs.RequiredRead.{read_required};
ghost use Rattle.gv_expr.specs.TokenFaults.{dependency, first_fault, required_use};
ghost use Rattle.gv_expr.specs.Token.{token_of, tokens_of};
ghost use Rattle.gv_expr.specs.Spaced.{tokens_in};

use crate::grammar::{Grammar, StepFault};
use crate::open_groups::Reader;
use crate::token::token_of;
use crate::{DepExpr, ExprFault, ExprKind, UseExpr};
use gv_atom::atom_law;
use gv_base::{Cut, next_piece};
use std::alloc::Global;

/// The most tokens of an expression.
const MOST_TOKENS: u32 = 100_000;

/// The dependency that the bytes are (PMS chapter 8): atoms, `( )`, `|| ( )`, `flag? ( )` and `!flag? ( )`, with at most
/// 64 open groups and 100,000 tokens. Where they are none, the first token that is at fault is told.
pub fn read_dep(alloc: Global, bytes: &[u8]) -> Result<DepExpr, ExprFault>
    // What is read is the dependency of these bytes.
    ensures dep { IfOk result (λ e. IsDepOf bytes.now e) }
    ensures read { IfOk result (λ e. read_dep bytes.now ≡ Some e) }
    // Each dependency within the limits is read from its bytes.
    ensures again { (ts : List Dep) → IsDepOf bytes.now ts → GivesDep result ts }
    ensures bad { IfErr result (FaultIs (first_fault dependency (tokens_of bytes.now))) }
{
    atom_law();
    read_tokens::<DepExpr>(alloc, bytes)
}

/// The REQUIRED_USE that the bytes are (PMS chapter 7): flags, `!flag`, `( )`, `|| ( )`, `^^ ( )`, `?? ( )`, `flag? ( )`
/// and `!flag? ( )`, with the same limits. Where they are none, the first token that is at fault is told.
pub fn read_required(alloc: Global, bytes: &[u8]) -> Result<UseExpr, ExprFault>
    // What is read is the REQUIRED_USE of these bytes.
    ensures required { IfOk result (λ e. IsReqOf bytes.now e) }
    ensures read { IfOk result (λ e. read_required bytes.now ≡ Some e) }
    // Each REQUIRED_USE within the limits is read from its bytes.
    ensures again { (ts : List Req) → IsReqOf bytes.now ts → GivesReq result ts }
    ensures bad { IfErr result (FaultIs (first_fault required_use (tokens_of bytes.now))) }
{
    read_tokens::<UseExpr>(alloc, bytes)
}

// Takes the first piece that isn't empty off, where one is left.
fn next_word<'a>(rest: &mut Option<&'a [u8]>) -> Option<&'a [u8]>
    ensures word { MatchOption result (tokens_in (left Cut.Tokens rest.old) ≡ [])
        (λ word. tokens_in (left Cut.Tokens rest.old) ≡ token_of word.now ∷ tokens_in (left Cut.Tokens rest.new)) }
    ensures fewer { IsSome result → length (left Cut.Tokens rest.new) < length (left Cut.Tokens rest.old) }
{
    while let Some(piece) = next_piece(rest, Cut::Tokens) {
        if !piece.is_empty() {
            return Some(piece);
        }
    }
    None
}

// The trees with these tokens, or the first fault of the tokens.
fn read_tokens<E: Grammar>(alloc: Global, bytes: &[u8]) -> Result<E, ExprFault>
    ensures tokens { IfOk result (λ e. E.written e ≡ tokens_of bytes.now) }
    ensures good { IfOk result (λ e. E.are_good e ≡ true) }
    ensures none { IfOk result (λ e. first_fault E.language (tokens_of bytes.now) ≡ None) }
    ensures bad { IfErr result (FaultIs (first_fault E.language (tokens_of bytes.now))) }
{
    let mut reader = Reader::<E>::new(alloc);
    let mut number: u32 = 1;
    let mut rest = Some(bytes);
    while let Some(word) = next_word(&mut rest) {
        if number > MOST_TOKENS {
            return Err(ExprFault::Bad {
                token: number,
                kind: ExprKind::TooMany,
            });
        }
        match reader.take(alloc, token_of(alloc, word)?) {
            Ok(()) => {}
            Err(StepFault::Fault(kind)) => {
                return Err(ExprFault::Bad {
                    token: number,
                    kind,
                });
            }
            Err(StepFault::NoMemory) => return Err(ExprFault::NoMemory),
        }
        number += 1;
    }
    match reader.finish() {
        Some(items) => Ok(items),
        None => Err(ExprFault::Bad {
            token: number,
            kind: ExprKind::Unclosed,
        }),
    }
}
