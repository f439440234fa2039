//! A reader's state: the groups that are open, with what stands before each. Each step costs O(the token's bytes).
ghost use Rattle.std.specs.Prelude.{◌≡◌, Some, None, IfErr, OnOk, MatchOption, true, false, ◌||◌, not, nat_eq};
ghost use Rattle.gv_version.specs.Names.{is_flag};
ghost use Rattle.gv_expr.specs.OpenGroups.{after, begun, fault_of_head, flag_fault, is_allowed, nothing, StepFails};
ghost use Rattle.gv_expr.specs.TokenFaults.{fault_of};

use crate::grammar::{Grammar, Head, MOST_GROUPS, StepFault};
use crate::{ExprKind, Token};
use gv_base::Text;
use gv_version::is_flag;
use std::alloc::Global;
use std::marker::Model;
use std::mem;

/// An open group: what stands before its `(`, and the trees before that.
#[derive(Drop)]
pub struct Group<E> {
    before: E,
    head: Head,
}

/// Seen as the tokens that were taken, whether a head waits for its `(`, and the number of open groups.
#[derive(Drop)]
pub struct Reader<E: Grammar> {
    stack: Vec<Group<E>>,
    items: E,
    head: Head,
}

impl<E: Grammar> Model for Reader<E> {
    ghost use Rattle.gv_expr.specs.OpenGroups.{State, state_of, IsKept};

    ghost Value = { State };

    ghost view = { λ r. state_of E.written r.stack.items r.items r.head };

    ghost invariant = { λ r. IsKept E.are_good E.language.count_fault r.stack.items r.items r.head };
}

// What is wrong with the flag of a conditional, if anything is.
fn flag_fault(flag: &Text) -> Option<ExprKind>
    ensures { result ≡ flag_fault flag.now }
{
    if is_flag(flag.bytes()) {
        None
    } else {
        Some(ExprKind::BadFlag)
    }
}

impl<E: Grammar> Reader<E> {
    /// A reader that has taken no token.
    pub fn new(alloc: Global) -> Reader<E>
        ensures { result ≡ nothing }
    {
        Reader {
            stack: Vec::new(alloc),
            items: E::nothing(alloc),
            head: Head::Nothing,
        }
    }

    /// Takes the next token, or tells what is wrong with it.
    pub fn take(&mut self, alloc: Global, token: Token) -> Result<(), StepFault>
        ensures good { OnOk result (fault_of E.language token self.old.head self.old.depth ≡ None) }
        ensures after { OnOk result (self.new ≡ after self.old token) }
        ensures bad { IfErr result (StepFails (fault_of E.language token self.old.head self.old.depth)) }
    {
        match token {
            Token::Open => self.open(alloc),
            Token::Close => self.close(),
            Token::Any => self.begin(Head::Any, None),
            Token::One => self.begin(Head::One, E::count_fault()),
            Token::Most => self.begin(Head::Most, E::count_fault()),
            Token::If { flag, negated } => {
                let fault = flag_fault(&flag);
                self.begin(Head::If { flag, negated }, fault)
            }
            Token::Word { text } => self.word(alloc, &text),
        }
    }

    #[tactic(auto, using(crate::proofs::Steps::opened))]
    fn open(&mut self, alloc: Global) -> Result<(), StepFault>
        ensures good { OnOk result (fault_of E.language Token.Open self.old.head self.old.depth ≡ None) }
        ensures after { OnOk result (self.new ≡ after self.old Token.Open) }
        ensures bad { IfErr result (StepFails (fault_of E.language Token.Open self.old.head self.old.depth)) }
    {
        if self.stack.len() >= MOST_GROUPS as usize {
            return Err(StepFault::Fault(ExprKind::Depth));
        }
        let head = mem::replace(&mut self.head, Head::Nothing);
        let before = mem::replace(&mut self.items, E::nothing(alloc));
        match self.stack.push(Group { before, head }) {
            Ok(()) => Ok(()),
            Err(_) => Err(StepFault::NoMemory),
        }
    }

    #[tactic(auto, using(crate::proofs::Steps::shut))]
    fn close(&mut self) -> Result<(), StepFault>
        ensures good { OnOk result (fault_of E.language Token.Close self.old.head self.old.depth ≡ None) }
        ensures after { OnOk result (self.new ≡ after self.old Token.Close) }
        ensures bad { IfErr result (StepFails (fault_of E.language Token.Close self.old.head self.old.depth)) }
    {
        if self.head.is_there() {
            return Err(StepFault::Fault(ExprKind::Stray));
        }
        match self.stack.pop() {
            None => Err(StepFault::Fault(ExprKind::Stray)),
            Some(Group { before, head }) => {
                let mut items = mem::replace(&mut self.items, before);
                items.trim();
                self.items.add_group(head, items)?;
                Ok(())
            }
        }
    }

    // Takes a token that needs `(` after it, and is at fault so where no other head stands before it.
    fn begin(&mut self, head: Head, fault: Option<ExprKind>) -> Result<(), StepFault>
        requires allowed { fault ≡ None → is_allowed E.language.count_fault head ≡ true }
        ensures good { OnOk result (fault_of_head fault self.old.head ≡ None) }
        ensures after { OnOk result (self.new ≡ begun self.old head) }
        ensures bad { IfErr result (StepFails (fault_of_head fault self.old.head)) }
    {
        if self.head.is_there() {
            return Err(StepFault::Fault(ExprKind::Stray));
        }
        match fault {
            Some(kind) => Err(StepFault::Fault(kind)),
            None => {
                self.head = head;
                Ok(())
            }
        }
    }

    fn word(&mut self, alloc: Global, text: &Text) -> Result<(), StepFault>
        ensures good { OnOk result (fault_of E.language (Token.Word text.now) self.old.head self.old.depth ≡ None) }
        ensures after { OnOk result (self.new ≡ after self.old (Token.Word text.now)) }
        ensures bad { IfErr result (StepFails (fault_of E.language (Token.Word text.now) self.old.head self.old.depth)) }
    {
        if self.head.is_there() {
            return Err(StepFault::Fault(ExprKind::Stray));
        }
        self.items.add_leaf(alloc, text)
    }

    /// The trees whose tokens were taken, or nothing inside of a group or behind a head.
    pub fn finish(self) -> Option<E>
        ensures { MatchOption result ((self.head || not (nat_eq self.depth 0)) ≡ true)
            (λ e. ((self.head || not (nat_eq self.depth 0)) ≡ false) × (E.written e ≡ self.text) × (E.are_good e ≡ true)) }
    {
        if self.head.is_there() || !self.stack.is_empty() {
            return None;
        }
        let Reader {
            stack: _,
            mut items,
            head: _,
        } = self;
        items.trim();
        Some(items)
    }
}
