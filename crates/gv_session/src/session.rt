//! A session over a tree.
//!
//! `put` and `cut` cost what those of `Edits` cost. A report costs what `judging` says, and O(the bytes of the text).
ghost use Rattle.std.specs.Prelude.{◌≡◌, ◌↔◌, ◌<◌, ◌≤◌, ◌⊎◌, [], true, false, length, Option, None, Some, IfOk, IfErr, OnOk, OnErr, IsErrOf};
ghost use Rattle.gv_base.specs.FileMap.{FileMap};
ghost use Rattle.gv_base.specs.Paths.{is_path};
ghost use Rattle.gv_edits.specs.declared.edit.Edit.TheVariants.{Put, Cut};
ghost use Rattle.gv_session.specs.Session.{Agrees, IsReport, ReportCause, seen_in, with_edit};

use crate::judging::judge_edited;
use crate::reporting::text_of;
use crate::{Last, SessionFault};
use gv_base::{Ledger, MAX_FILE_BYTES, Steps, Text, Tree};
use gv_edits::{EditFault, Edits, MAX_PATH_BYTES};
use gv_report::{Options, selected_law};
use std::alloc::Global;
use std::marker::Model;

/// A session, seen as its options, all edits in order, and what the last report left.
#[derive(Drop)]
pub struct Session {
    alloc: Global,
    options: Options,
    edits: Edits,
    last: Option<Last>,
}

impl Model for Session {
    ghost use Rattle.std.specs.Coded.{codes};
    ghost use Rattle.gv_session.specs.Session.{State};
    ghost use Rattle.gv_session.specs.contracts.last.Last as kept;

    ghost Value = { State };

    ghost coded = { Prim.hlevel (codes, kept.the_row.coded) };

    ghost view = { λ s. record { options = s.options; edits = s.edits; last = s.last } };
}

impl Session {
    /// No edits.
    pub fn start(alloc: Global, options: Options) -> Session
        ensures { result ≡ record { options = options; edits = []; last = None } }
    {
        Session {
            alloc,
            options,
            edits: Edits::new(alloc),
            last: None,
        }
    }

    /// Sets a path. `BadPath` comes exactly where the bytes are no path, and `Limit` exactly where they are one and it has
    /// more than `MAX_PATH_BYTES` bytes or the file more than `MAX_FILE_BYTES`. After a refusal the session is unchanged.
    #[tactic(auto, using(crate::proofs::SessionLemmas::agrees_with))]
    pub fn put(&mut self, path: &[u8], bytes: &[u8]) -> Result<(), EditFault>
        ensures ok { OnOk result (self.new ≡ with_edit self.old (Put path.now bytes.now)) }
        ensures err { OnErr result (self.new ≡ self.old) }
        ensures agrees { (told : Option FileMap) → Agrees told self.old → Agrees told self.new }
        ensures bad_path { IsErrOf result EditFault.BadPath ↔ (is_path path.now ≡ false) }
        ensures limit { IsErrOf result EditFault.Limit ↔ ((is_path path.now ≡ true) × ((MAX_PATH_BYTES < length path.now) ⊎ (MAX_FILE_BYTES < length bytes.now))) }
    {
        self.edits.put(path, bytes)
    }

    /// Removes a path; one that isn't there changes nothing. `BadPath` comes exactly where the bytes are no path, and
    /// `Limit` exactly where they are one and it has more than `MAX_PATH_BYTES` bytes. After a refusal the session is
    /// unchanged.
    #[tactic(auto, using(crate::proofs::SessionLemmas::agrees_with))]
    pub fn cut(&mut self, path: &[u8]) -> Result<(), EditFault>
        ensures ok { OnOk result (self.new ≡ with_edit self.old (Cut path.now)) }
        ensures err { OnErr result (self.new ≡ self.old) }
        ensures agrees { (told : Option FileMap) → Agrees told self.old → Agrees told self.new }
        ensures bad_path { IsErrOf result EditFault.BadPath ↔ (is_path path.now ≡ false) }
        ensures limit { IsErrOf result EditFault.Limit ↔ ((is_path path.now ≡ true) × (MAX_PATH_BYTES < length path.now)) }
    {
        self.edits.cut(path)
    }

    /// The text of the scan of the tree's files with all edits so far, applied in order. The edits stay, whatever is
    /// answered, and a report may be asked again. It is told over the files of the reports before; a refused report leaves nothing
    /// for the next one.
    ///
    /// `Load` and `Judge` come where `load` and `judge` may so refuse over the edited files, and never hold `NoMemory`.
    pub fn report<T: Tree, L: Ledger>(
        &mut self,
        tree: &mut T,
        steps: &mut Steps<L>,
    ) -> Result<Text, SessionFault>
        requires { Agrees (T.files tree.old) self.old }
        ensures text { IfOk result (IsReport self.old (T.files tree.old) steps.old steps.new) }
        ensures cause { IfErr result (ReportCause self.old (T.files tree.old) (T.faults tree.old) (T.faults tree.new) steps.old steps.new) }
        ensures agrees { Agrees (T.files tree.new) self.new }
        ensures options { self.new.options ≡ self.old.options }
        ensures edits { self.new.edits ≡ self.old.edits }
        ensures seen { OnOk result (seen_in self.new ≡ Some (length self.old.edits)) }
        ensures unseen { OnErr result (self.new.last ≡ None) }
        ensures files { T.files tree.new ≡ T.files tree.old }
        ensures root { T.entered tree.new ≡ T.entered tree.old }
        ensures lent { T.lent tree.new ≡ T.lent tree.old }
        ensures later { T.faults tree.old ≤ T.faults tree.new }
        ensures calm { OnOk result (T.faults tree.new ≡ T.faults tree.old) }
    {
        selected_law();
        let last = self.last.take();
        match judge_edited(self.alloc, last, tree, &self.edits, &self.options, steps) {
            Ok(judged) => {
                let text = text_of(self.alloc, &self.options, &judged.reports)?;
                self.last = Some(judged);
                Ok(text)
            }
            Err(fault) => Err(fault),
        }
    }
}
