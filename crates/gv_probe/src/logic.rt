//! Gates, clauses and bits as they are written in a line, and calls of `gv_logic` and `gv_encode`.
//!
//! A list has commas between its numbers, and `-` is the empty one. Gates are the number of inputs, each gate as `&` or `|`
//! and the list of its operands, a colon and the root; clauses are the number of variables, a colon and a list for each.
//! Bytes are words of hexadecimal digits; a word that is none stands for its own bytes.
ghost use Rattle.std.specs.Prelude.{◌*◌, ◌<◌, ◌≡◌, IsTrue, length};
ghost use Rattle.std.specs.List.{AllByRecursion};

use crate::given::{Given, number_in, words_in};
use crate::written::Telling;
use gv_base::{NoMemory, Text, words_of};
use gv_encode::{encode, encoding_law};
use gv_logic::{
    Bits, Clause, Clauses, Gates, Lit, Lits, Op, clause_count, gate_bytes, is_on, read_gates,
    value, values,
};
use hex::FromHexError;
use std::alloc::Global;

/// The number that digits are, as far as 32 bits go.
pub(crate) fn u32_in(digits: &[u8]) -> u32 {
    number_in(digits).min(u64::from(u32::MAX)) as u32
}

/// The numbers of a list.
pub(crate) fn numbers_in(alloc: Global, list: &[u8]) -> Result<Vec<u32>, NoMemory> {
    let mut numbers = Vec::new(alloc);
    for digits in words_in(list).split(',') {
        if let [b'0'..=b'9', ..] = digits.as_bytes() {
            numbers.push(u32_in(digits.as_bytes()))?;
        }
    }
    Ok(numbers)
}

/// The clause that a list is.
pub(crate) fn clause_in(alloc: Global, list: &[u8]) -> Result<Clause, NoMemory> {
    let mut clause = Clause::new(alloc);
    for number in numbers_in(alloc, list)?.iter() {
        clause.add(Lit(*number))?;
    }
    Clause::of(alloc, clause.items())
}

/// Bits, each 0 or 1.
pub(crate) fn bits_in(alloc: Global, digits: &[u8]) -> Result<Bits, NoMemory> {
    let mut bits = Bits::new(alloc);
    for digit in digits {
        if digit.is_ascii_digit() {
            bits.add(*digit == b'1')?;
        }
    }
    Bits::of(alloc, bits.items())
}

/// The bytes of words of digits.
pub(crate) fn bytes_in(alloc: Global, digits: &[u8]) -> Result<Text, NoMemory> {
    let words = words_of(alloc, digits)?;
    let mut bytes = Telling::new(alloc);
    for word in words.items() {
        add_read(alloc, word.bytes(), &mut bytes);
    }
    Text::of(alloc, bytes.bytes()?)
}

fn add_read(alloc: Global, word: &[u8], bytes: &mut Telling) {
    match hex::decode(alloc, word) {
        Ok(read) => bytes.add(&read),
        Err(FromHexError::OutOfMemory) => bytes.lack(),
        Err(_) => bytes.add(word),
    }
}

/// The digits of bytes.
pub(crate) fn digits_of(alloc: Global, bytes: &[u8], told: &mut Telling) {
    told.formatted(hex::encode(alloc, bytes));
}

/// Gates; none where what is written is none.
pub(crate) fn gates_in(alloc: Global, text: &[u8]) -> Result<Option<Gates>, NoMemory> {
    match read_gates(alloc, gates_bytes(alloc, text)?.bytes()?)? {
        Some(gates) => Ok(Some(gates.copy(alloc)?)),
        None => Ok(None),
    }
}

fn gates_bytes(alloc: Global, text: &[u8]) -> Result<Telling, NoMemory> {
    let words = words_of(alloc, text)?;
    let mut bytes = Telling::new(alloc);
    if let [inputs, gates @ .., _, root] = words.items() {
        put(u32_in(inputs.bytes()), &mut bytes);
        put_gates(alloc, gates, &mut bytes);
        put(u32_in(root.bytes()), &mut bytes);
    }
    Ok(bytes)
}

fn put_gates(alloc: Global, gates: &[Text], bytes: &mut Telling) {
    put_count(gates.len(), bytes);
    for gate in gates {
        put_gate(alloc, gate.bytes(), bytes);
    }
}

fn put_count(count: usize, bytes: &mut Telling) {
    put(count.min(u32::MAX as usize) as u32, bytes);
}

fn put(number: u32, bytes: &mut Telling) {
    bytes.add(&number.to_be_bytes());
}

// The bytes of a gate, of which a sign that is none makes none.
fn put_gate(alloc: Global, gate: &[u8], bytes: &mut Telling) {
    match gate.split_first() {
        Some((b'&', operands)) => put_op(alloc, 0, operands, bytes),
        Some((b'|', operands)) => put_op(alloc, 1, operands, bytes),
        _ => put_op(alloc, 2, gate, bytes),
    }
}

fn put_op(alloc: Global, op: u8, list: &[u8], bytes: &mut Telling) {
    bytes.add(&[op]);
    match numbers_in(alloc, list) {
        Ok(operands) => put_numbers(operands.as_slice(), bytes),
        Err(NoMemory) => bytes.lack(),
    }
}

fn put_numbers(numbers: &[u32], bytes: &mut Telling) {
    put_count(numbers.len(), bytes);
    for number in numbers {
        put(*number, bytes);
    }
}

/// Tells a list of numbers.
pub(crate) fn tell_numbers(numbers: &[u32], told: &mut Telling) {
    if numbers.is_empty() {
        told.add(b"-");
    }
    let mut is_first = true;
    for number in numbers {
        tell_number(is_first, *number, told);
        is_first = false;
    }
}

fn tell_number(is_first: bool, number: u32, told: &mut Telling) {
    if !is_first {
        told.add(b",");
    }
    told.number(u64::from(number));
}

/// Tells a list of literals.
pub(crate) fn tell_lits(lits: &[Lit], told: &mut Telling) {
    if lits.is_empty() {
        told.add(b"-");
    }
    let mut is_first = true;
    for lit in lits {
        tell_number(is_first, lit.0, told);
        is_first = false;
    }
}

/// Bits as they are written.
pub(crate) fn told_bits(bits: &[bool], told: &mut Telling) {
    if bits.is_empty() {
        told.add(b"-");
    }
    for bit in bits {
        told.add(if *bit { b"1" } else { b"0" });
    }
}

/// Clauses; none where a literal is of none of the variables.
pub(crate) fn clauses_in(alloc: Global, text: &[u8]) -> Result<Option<Clauses>, NoMemory> {
    let words = words_of(alloc, text)?;
    let [variables, _, lists @ ..] = words.items() else {
        return Ok(None);
    };
    clauses_of(alloc, u32_in(variables.bytes()), lists)
}

fn clauses_of(alloc: Global, variables: u32, lists: &[Text]) -> Result<Option<Clauses>, NoMemory> {
    let mut clauses = Clauses::new(alloc, variables);
    for list in lists {
        if !has_added(alloc, list.bytes(), &mut clauses)? {
            return Ok(None);
        }
    }
    Ok(Some(clauses.copy(alloc)?))
}

// Adds a clause, and answers whether each of its literals is of one of the variables.
fn has_added(alloc: Global, list: &[u8], clauses: &mut Clauses) -> Result<bool, NoMemory> {
    let clause = clause_in(alloc, list)?;
    if !are_within(clause.items(), clauses.variables()) {
        return Ok(false);
    }
    clauses.add(clause.items())?;
    Ok(true)
}

/// Whether each literal is of one of so many variables.
pub(crate) fn are_within(lits: &[Lit], variables: u32) -> bool
    ensures { IsTrue result → AllByRecursion (λ lit. lit < 2 * variables) lits.now }
{
    for lit in lits {
        if lit.0 / 2 >= variables {
            return false;
        }
    }
    true
}

// Gates as they are written.
fn told_gates(gates: &Gates, told: &mut Telling) {
    told.number(u64::from(gates.inputs()));
    for n in 0..gates.count() {
        told.say(match gates.op(n) {
            Op::And => " &",
            Op::Or => " |",
        });
        tell_lits(gates.operands(n), told);
    }
    told.say(" : ");
    told.number(u64::from(gates.root().0));
}

// Clauses as they are written.
fn told_clauses(clauses: &Clauses, told: &mut Telling) {
    told.number(u64::from(clauses.variables()));
    told.say(" :");
    for number in 0..clauses.count() {
        told.add(b" ");
        tell_lits(clauses.at(number), told);
    }
}

/// Tells the answer to a call of these libraries, if it is one.
pub(crate) fn answer(alloc: Global, call: &str, given: &Given, told: &mut Telling) -> bool {
    match call {
        "value" | "values" | "gate-bytes" | "clause-count" | "encode" => {
            of_gates(alloc, call, given, told);
        }
        "read-gates" => read(alloc, given, told),
        "clauses" | "clause" => of_clauses(alloc, call, given, told),
        "opposites" => opposites(alloc, given, told),
        "is-on" => is_marked(alloc, given, told),
        _ => return false,
    }
    true
}

fn of_gates(alloc: Global, call: &str, given: &Given, told: &mut Telling) {
    match gates_in(alloc, given.bytes(0)) {
        Ok(Some(gates)) => by_call(alloc, call, &gates, given, told),
        Ok(None) => told.say("no gates"),
        Err(NoMemory) => told.lack(),
    }
}

fn by_call(alloc: Global, call: &str, gates: &Gates, given: &Given, told: &mut Telling) {
    match call {
        "gate-bytes" => encoded(alloc, gates, told),
        "clause-count" => told.number(u64::from(clause_count(gates))),
        "encode" => clauses_of_gates(alloc, gates, told),
        _ => at_bits(alloc, call, gates, given.bytes(1), told),
    }
}

fn encoded(alloc: Global, gates: &Gates, told: &mut Telling) {
    match gate_bytes(alloc, gates) {
        Ok(bytes) => digits_of(alloc, bytes.bytes(), told),
        Err(NoMemory) => told.lack(),
    }
}

fn clauses_of_gates(alloc: Global, gates: &Gates, told: &mut Telling) {
    encoding_law();
    match encode(alloc, gates) {
        Ok(clauses) => told_clauses(&clauses, told),
        Err(NoMemory) => told.lack(),
    }
}

fn at_bits(alloc: Global, call: &str, gates: &Gates, digits: &[u8], told: &mut Telling) {
    let Ok(bits) = bits_in(alloc, digits) else {
        return told.lack();
    };
    if bits.items().len() != gates.inputs() as usize {
        return told.say("other bits");
    }
    if call == "value" {
        value_at(alloc, gates, &bits, told);
    } else {
        values_at(alloc, gates, &bits, told);
    }
}

fn value_at(alloc: Global, gates: &Gates, bits: &Bits, told: &mut Telling)
    requires { length bits.now ≡ gates.now.inputs }
{
    match value(alloc, gates, bits) {
        Ok(is_on) => told_bits(&[is_on], told),
        Err(NoMemory) => told.lack(),
    }
}

fn values_at(alloc: Global, gates: &Gates, bits: &Bits, told: &mut Telling)
    requires { length bits.now ≡ gates.now.inputs }
{
    match values(alloc, gates, bits) {
        Ok(on) => told_bits(on.items(), told),
        Err(NoMemory) => told.lack(),
    }
}

// The gates that bytes are.
fn read(alloc: Global, given: &Given, told: &mut Telling) {
    match read_from(alloc, given.bytes(0)) {
        Ok(Some(gates)) => told_gates(&gates, told),
        Ok(None) => told.say("none"),
        Err(NoMemory) => told.lack(),
    }
}

fn read_from(alloc: Global, digits: &[u8]) -> Result<Option<Gates>, NoMemory> {
    read_gates(alloc, bytes_in(alloc, digits)?.bytes())
}

// The clause of a number, or all of them.
fn of_clauses(alloc: Global, call: &str, given: &Given, told: &mut Telling) {
    match clauses_in(alloc, given.bytes(0)) {
        Ok(Some(clauses)) => clauses_or_one(&clauses, call, given.bytes(1), told),
        Ok(None) => told.say("no clauses"),
        Err(NoMemory) => told.lack(),
    }
}

fn clauses_or_one(clauses: &Clauses, call: &str, number: &[u8], told: &mut Telling) {
    if call == "clauses" {
        return told_clauses(clauses, told);
    }
    match clauses.get(u32_in(number)) {
        Some(clause) => tell_lits(clause, told),
        None => told.say("none"),
    }
}

// The opposites of literals.
fn opposites(alloc: Global, given: &Given, told: &mut Telling) {
    match opposites_of(alloc, given.bytes(0)) {
        Ok(opposites) => tell_lits(opposites.items(), told),
        Err(NoMemory) => told.lack(),
    }
}

fn opposites_of(alloc: Global, list: &[u8]) -> Result<Lits, NoMemory> {
    let clause = clause_in(alloc, list)?;
    let mut opposites = Lits::new(alloc);
    for lit in Lits::of(alloc, clause.items())?.items() {
        opposites.add(lit.opposite())?;
    }
    opposites.copy(alloc)
}

// Whether a literal is on, where it is said of each.
fn is_marked(alloc: Global, given: &Given, told: &mut Telling) {
    match bits_in(alloc, given.bytes(0)) {
        Ok(on) => told.yes_no(is_on(on.items(), Lit(u32_in(given.bytes(1))))),
        Err(NoMemory) => told.lack(),
    }
}
