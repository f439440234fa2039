//! Calls of the libraries of gates and their answers.
use crate::given::Given;
use crate::written::Telling;
use crate::{cert, logic, query, refute, solver, trail};
use std::alloc::Global;

/// Tells the answer to a call of these libraries, if it is one.
pub(crate) fn answer(alloc: Global, call: &str, given: &Given, told: &mut Telling) -> bool {
    logic::answer(alloc, call, given, told)
        || refute::answer(alloc, call, given, told)
        || trail::answer(alloc, call, given, told)
        || solver::answer(alloc, call, given, told)
        || cert::answer(alloc, call, given, told)
        || query::answer(alloc, call, given, told)
}
