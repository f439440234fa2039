//! Calls of `gv_expr`.
use crate::given::Given;
use crate::written::Telling;
use gv_base::{NoMemory, Text};
use gv_expr::{
    DepExpr, DepTree, ExprFault, UseExpr, UseTree, mentioned_dep, mentioned_required, print_dep,
    print_item, print_required, read_dep, read_required,
};
use std::alloc::Global;

/// Tells the answer to a call of this library, if it is one.
pub(crate) fn answer(alloc: Global, call: &str, given: &Given, told: &mut Telling) -> bool {
    match call {
        "dep" | "dep-fault" | "dep-flags" | "dep-item" => dep(alloc, call, given, told),
        "required" | "required-fault" | "required-flags" => required(alloc, call, given, told),
        "dep-around" => around(alloc, given.number(0), told),
        "required-around" => around_required(alloc, given.number(0), told),
        _ => return false,
    }
    true
}

fn fault(alloc: Global, fault: ExprFault, told: &mut Telling) {
    match fault {
        ExprFault::Bad { token, kind } => told.formatted(format!(in alloc; "{kind:?} {token}")),
        ExprFault::NoMemory => told.lack(),
    }
}

fn dep(alloc: Global, call: &str, given: &Given, told: &mut Telling) {
    match read_dep(alloc, given.bytes(0)) {
        Ok(items) => of_dep(alloc, call, &items, given.number(1), told),
        Err(found) => fault(alloc, found, told),
    }
}

fn of_dep(alloc: Global, call: &str, items: &DepExpr, n: u64, told: &mut Telling) {
    match call {
        "dep" => told.text(printed(alloc, items)),
        "dep-flags" => told.texts(mentioned_dep(alloc, items), b','),
        "dep-item" => item(alloc, items, n, told),
        _ => told.say("none"),
    }
}

fn printed(alloc: Global, items: &DepExpr) -> Result<Text, NoMemory> {
    print_dep(alloc, &items.copy(alloc)?)
}

fn item(alloc: Global, items: &DepExpr, n: u64, told: &mut Telling) {
    if n < items.items.len() as u64 && n <= u64::from(u32::MAX) {
        told.text(print_item(alloc, items, n as u32));
    } else {
        told.say("none");
    }
}

fn required(alloc: Global, call: &str, given: &Given, told: &mut Telling) {
    match read_required(alloc, given.bytes(0)) {
        Ok(items) => of_required(alloc, call, &items, told),
        Err(found) => fault(alloc, found, told),
    }
}

fn of_required(alloc: Global, call: &str, items: &UseExpr, told: &mut Telling) {
    match call {
        "required" => told.text(printed_required(alloc, items)),
        "required-flags" => told.texts(mentioned_required(alloc, items), b','),
        _ => told.say("none"),
    }
}

fn printed_required(alloc: Global, items: &UseExpr) -> Result<Text, NoMemory> {
    print_required(alloc, &items.copy(alloc)?)
}

fn refused(n: u64, depth: u32, told: &mut Telling) {
    told.say("refused ");
    told.number(n);
    told.say(", left ");
    told.number(u64::from(depth));
}

fn depth(depth: u32, told: &mut Telling) {
    told.say("depth ");
    told.number(u64::from(depth));
}

// So many groups, each put around the one before: the depth at the end, or the number of the group that was refused.
fn around(alloc: Global, groups: u64, told: &mut Telling) {
    let mut items = DepExpr::new(alloc);
    for n in 1..=groups {
        let mut outer = DepExpr::new(alloc);
        if outer.add(DepTree::All { items }).is_err() {
            return refused(n, outer.depth(), told);
        }
        items = outer;
    }
    depth(items.depth(), told);
}

fn around_required(alloc: Global, groups: u64, told: &mut Telling) {
    let mut items = UseExpr::new(alloc);
    for n in 1..=groups {
        let mut outer = UseExpr::new(alloc);
        if outer.add(UseTree::Most { items }).is_err() {
            return refused(n, outer.depth(), told);
        }
        items = outer;
    }
    depth(items.depth(), told);
}
