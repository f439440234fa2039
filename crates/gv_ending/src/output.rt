//! Writes a whole text. Costs a call for each piece that the sink takes.
ghost use Rattle.std.specs.Prelude.{◌≡◌, ◌≤◌, IfErr, OnOk, OnErr, IsErrOf};
ghost use Rattle.gv_base.specs.Causes.{Rose};
ghost use Rattle.gv_base.specs.Outside.{gains};
ghost use Rattle.gv_ending.specs.Causes.{Why, of_output};
ghost use Rattle.gv_ending.specs.Endings.{GainsFront};

use crate::Refusal;
use gv_base::{Sink, SinkFault, Text};

/// Writes the whole text: what a command has to say. Where it is refused, the output has some first bytes of it.
pub fn write<S: Sink>(out: &mut S, text: &Text) -> Result<(), Refusal>
    ensures ok { OnOk result (S.held out.new ≡ gains (S.held out.old) text.now) }
    ensures err { OnErr result (GainsFront (S.held out.old) (S.held out.new) text.now) }
    ensures cause { IfErr result (Why (of_output (Rose (S.faults out.old) (S.faults out.new)))) }
    ensures later { S.faults out.old ≤ S.faults out.new }
    ensures calm { OnOk result (S.faults out.new ≡ S.faults out.old) }
{
    match put_all(out, text.bytes()) {
        Ok(()) => Ok(()),
        Err(SinkFault::Failed) => Err(Refusal::OutputFailed),
        Err(SinkFault::NoMemory) => Err(Refusal::NoMemory),
    }
}

/// Writes the whole text, piece by piece. An empty text makes no call.
pub(crate) fn put_all<S: Sink>(sink: &mut S, text: &[u8]) -> Result<(), SinkFault>
    ensures ok { OnOk result (S.held sink.new ≡ gains (S.held sink.old) text.now) }
    ensures err { OnErr result (GainsFront (S.held sink.old) (S.held sink.new) text.now) }
    ensures later { S.faults sink.old ≤ S.faults sink.new }
    ensures calm { OnOk result (S.faults sink.new ≡ S.faults sink.old) }
    ensures failed { IsErrOf result SinkFault.Failed → Rose (S.faults sink.old) (S.faults sink.new) }
{
    let mut at = 0;
    while at < text.len() {
        let n = sink.put(&text[at..])?;
        if n == 0 {
            return Err(SinkFault::Failed);
        }
        at += n;
    }
    Ok(())
}
