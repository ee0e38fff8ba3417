//! A command: it decides on a reply to its input, which is then written.

ghost use Rattle.std.specs.Prelude.{◌≡◌, ◌≤◌, ◌+◌, Err, IfOk, true};
ghost use Rattle.command_input.specs.Reading.{ReadCause, TakesAtMost};
ghost use Rattle.command_reply.specs.Ends.{Ends, WantsFirst};
ghost use Rattle.command_reply.specs.Question.{Decides, FrontOf, IsSound, Question};
ghost use Rattle.command_reply.specs.Reply.{end_status};

use crate::Reply;
use command_input::{ReadFault, Status};
use geo_chan::{PutFault, Sink, Source};
use std::alloc::Global;

/// A command. Nothing is written before it has decided.
pub trait Deciding {
    /// What it replies.
    type Answer: Reply + Drop;

    /// What it asks.
    ghost question: { Self → Question };

    /// The reply to the input.
    fn decide<S: Source>(&self, alloc: Global, source: &mut S) -> Result<Self::Answer, ReadFault>
        ensures answer { IfOk result (λ reply.
            Decides (question self.now) (S.left source.old) (Self.Answer.says reply)) }
        ensures ready { IfOk result (λ reply. Self.Answer.ready reply) }
        ensures most { TakesAtMost (question self.now).most
            (S.left source.old) (S.left source.new) }
        ensures counted { S.taken source.new ≤ S.taken source.old + (question self.now).most }
        ensures cause { ReadCause (S.faults source.old) (S.faults source.new) result }
        ensures unread { (question self.now).most ≡ 0
            → (source.new ≡ source.old) × (result ≡ Err ReadFault.Failed → ⊥) };

    /// An input has one answer. It does nothing, and its contract is what is known behind it.
    fn sound(&self)
        ensures { IsSound (question self.now) };
}

/// Carries a command out, and says how that ended.
pub fn carry_out<C: Deciding, S: Source, W: Sink>(
    alloc: Global,
    command: &C,
    source: &mut S,
    sink: &mut W,
) -> Status
    ensures ends { Ends (C.question command.now).answer (FrontOf (C.question command.now).answer)
        (S.left source.old) (S.faults source.old) (S.faults source.new)
        (W.written sink.old) (W.written sink.new) (W.faults sink.old) (W.faults sink.new) result }
    ensures most { TakesAtMost (C.question command.now).most
        (S.left source.old) (S.left source.new) }
    ensures counted { S.taken source.new ≤ S.taken source.old + (C.question command.now).most }
    ensures unread { (C.question command.now).most ≡ 0
        → (source.new ≡ source.old) × (result ≡ Status.ReadFault → ⊥) }
    ensures kept { result ≡ Status.ReadFault → sink.new ≡ sink.old }
    ensures quiet { WantsFirst (W.quiet sink.old) (W.written sink.old) (W.written sink.new)
        result }
    ensures unwritten { W.quiet sink.old ≡ true → result ≡ Status.Memory → sink.new ≡ sink.old }
    ensures sound { IsSound (C.question command.now) }
{
    command.sound();
    match command.decide(alloc, source) {
        Ok(reply) => status_of(reply.write(alloc, sink)),
        Err(ReadFault::Failed) => Status::ReadFault,
        Err(ReadFault::Memory) => Status::Memory,
    }
}

// How a run ends that has written its reply, or was cut off.
fn status_of(written: Result<Status, PutFault>) -> Status
    ensures { result ≡ end_status written }
{
    match written {
        Ok(status) => status,
        Err(PutFault::Failed) => Status::WriteFault,
        Err(PutFault::Memory) => Status::Memory,
    }
}
