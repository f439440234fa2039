//! Laws of the definitions: each function does nothing, and its contract holds of all texts and trees.
ghost use Rattle.std.specs.Prelude.{◌≡◌, ◌↔◌, ℕ, List, None, Some};
ghost use Rattle.gv_expr.specs.Dep.{Dep, deps};
ghost use Rattle.gv_expr.specs.DepGrammar.{dep_text, IsDepOf};
ghost use Rattle.gv_expr.specs.DepRead.{read_dep};
ghost use Rattle.gv_expr.specs.Laws.{IsDep, IsReq};
ghost use Rattle.gv_expr.specs.Required.{Req, reqs};
ghost use Rattle.gv_expr.specs.RequiredGrammar.{req_text, IsReqOf};
ghost use Rattle.gv_expr.specs.RequiredRead.{read_required};
ghost use Rattle.gv_expr.specs.TokenFaults.{dependency, first_fault, required_use};
ghost use Rattle.gv_expr.specs.Token.{tokens_of};

use gv_atom::atom_law;

/// What is read of bytes is the dependency that the grammar has for them, there is one exactly where no token is at
/// fault, and the text of one is that dependency again.
pub fn dep_law()
    ensures read { (bytes : List ℕ) (ts : List Dep) → (read_dep bytes ≡ Some ts) ↔ IsDepOf bytes ts }
    ensures faults { (bytes : List ℕ) → (first_fault dependency (tokens_of bytes) ≡ None) ↔ IsDep bytes }
    ensures again { (bytes : List ℕ) (ts : List Dep) → IsDepOf bytes ts → IsDepOf (dep_text (deps ts)) ts }
{
    atom_law();
}

/// What is read of bytes is the REQUIRED_USE that the grammar has for them, there is one exactly where no token is at
/// fault, and the text of one is that REQUIRED_USE again.
pub fn required_law()
    ensures read { (bytes : List ℕ) (ts : List Req) → (read_required bytes ≡ Some ts) ↔ IsReqOf bytes ts }
    ensures faults { (bytes : List ℕ) → (first_fault required_use (tokens_of bytes) ≡ None) ↔ IsReq bytes }
    ensures again { (bytes : List ℕ) (ts : List Req) → IsReqOf bytes ts → IsReqOf (req_text (reqs ts)) ts }
{}
