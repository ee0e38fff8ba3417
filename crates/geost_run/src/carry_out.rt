//! Which command carries out what the words ask for.

ghost use Rattle.std.specs.Prelude.{◌≡◌, ◌≤◌, ◌+◌, true};
ghost use Rattle.command_input.specs.Reading.{TakesAtMost};
ghost use Rattle.command_input.specs.Words.{form_of};
ghost use Rattle.command_reply.specs.Ends.{Ends, WantsFirst};
ghost use Rattle.command_reply.specs.Question.{IsSound};
ghost use Rattle.geost_run.specs.Questions.{AnswerTo, BeginsOf, most_taken, question_of};

use check_commands::{Check, CheckBest};
use command_input::{Command, Status};
use geo_chan::{Sink, Source};
use json_commands::{FromJson, ToJson};
use json_search_commands::FirstJson;
use layout_commands::{Draw, Judge, Load};
use search_commands::{All, Best, First, Make, Why};
use std::alloc::Global;
use text_commands::Show;

// Carries the command out, and says how that ended: one line a command.
pub fn carry_out<S: Source, W: Sink>(
    alloc: Global,
    command: Command<'_>,
    source: &mut S,
    sink: &mut W,
) -> Status
    requires { (form_of command).bounds }
    ensures ends { Ends (AnswerTo command.entry) (BeginsOf command.entry)
        (S.left source.old) (S.faults source.old) (S.faults source.new)
        (W.written sink.old) (W.written sink.new) (W.faults sink.old) (W.faults sink.new) result }
    ensures most { TakesAtMost (most_taken command.entry)
        (S.left source.old) (S.left source.new) }
    ensures counted { S.taken source.new ≤ S.taken source.old + most_taken command.entry }
    ensures unread { most_taken command.entry ≡ 0
        → (source.new ≡ source.old) × (result ≡ Status.ReadFault → ⊥) }
    ensures kept { result ≡ Status.ReadFault → sink.new ≡ sink.old }
    ensures quiet { WantsFirst (W.quiet sink.old) (W.written sink.old) (W.written sink.new)
        result }
    ensures unwritten { W.quiet sink.old ≡ true → result ≡ Status.Memory → sink.new ≡ sink.old }
    ensures sound { IsSound (question_of command.entry) }
{
    match command {
        Command::First(most) => command_reply::carry_out(alloc, &First { most }, source, sink),
        Command::Show => command_reply::carry_out(alloc, &Show, source, sink),
        Command::Judge => command_reply::carry_out(alloc, &Judge, source, sink),
        Command::Check => command_reply::carry_out(alloc, &Check, source, sink),
        Command::Draw => command_reply::carry_out(alloc, &Draw, source, sink),
        Command::All(request) => command_reply::carry_out(alloc, &All { request }, source, sink),
        Command::Make(seed, most) => {
            command_reply::carry_out(alloc, &Make::new(seed, most), source, sink)
        }
        Command::Best(dimension, most) => {
            command_reply::carry_out(alloc, &Best::new(dimension, most), source, sink)
        }
        Command::CheckBest(dimension, extent) => {
            command_reply::carry_out(alloc, &CheckBest::new(dimension, extent), source, sink)
        }
        Command::Load(dimension) => {
            command_reply::carry_out(alloc, &Load::new(dimension), source, sink)
        }
        Command::Why(most) => command_reply::carry_out(alloc, &Why { most }, source, sink),
        Command::ToJson => command_reply::carry_out(alloc, &ToJson, source, sink),
        Command::FromJson => command_reply::carry_out(alloc, &FromJson, source, sink),
        Command::FirstJson(most) => {
            command_reply::carry_out(alloc, &FirstJson { most }, source, sink)
        }
    }
}
