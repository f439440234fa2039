//! Calls of the libraries of repositories.
use crate::given::Given;
use crate::outside::Outside;
use crate::written::Telling;
use crate::{
    checks, entry, facts, keys, linting, lower, overlays, profiles, reports, usestate, visible,
};
use gv_base::NoMemory;
use std::alloc::Global;

/// Tells the answer to a call in one line, if it is one.
pub(crate) fn answer(
    alloc: Global,
    call: &str,
    given: &Given,
    outside: &Outside,
    told: &mut Telling,
) -> bool {
    entry::answer(alloc, call, given, told)
        || facts::answer(alloc, call, given, told)
        || usestate::answer(alloc, call, given, told)
        || visible::answer(alloc, call, given, told)
        || reports::answer(alloc, call, given, told)
        || lower::answer(alloc, call, given, told)
        || keys::answer(alloc, call, given, told)
        || of_profiles(alloc, call, given, outside, told)
        || overlays::answer(alloc, call, given, outside, told)
        || linting::answer(alloc, call, given, outside, told)
        || checks::answer(alloc, call, given, outside, told)
}

fn of_profiles(
    alloc: Global,
    call: &str,
    given: &Given,
    outside: &Outside,
    told: &mut Telling,
) -> bool {
    match profiles::answer(alloc, call, given, outside, told) {
        Ok(is_call) => is_call,
        Err(NoMemory) => {
            told.lack();
            true
        }
    }
}
