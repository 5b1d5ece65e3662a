//! Hands out the plans of process data cycles.

ghost use Rattle.std.specs.Prelude.{◌≡◌, Some};
ghost use Rattle.book_model.specs.Reading.{applied};
ghost use Rattle.desk_book.specs.Asking.{AsksPlan, HearsPlan, has_no_more_turns, is_done, is_of_prefix, is_repeating, is_resting, is_without_bytes, last_turn, note_of};
ghost use Rattle.desk_book.specs.Calls.{replayed, AreAnswered};
ghost use Rattle.desk_book.specs.Logs.{cycle_log};

use crate::call::Call;
use crate::handing::note;
use crate::heard::Heard;
use crate::naming::{Refusals, Tickets};
use crate::served::Served;
use sii_image::{ImageFault, Plan};
use station_jobs::CycleNote;

/// What a log keeps of a plan: its prefix of commands, and the bytes of its image.
pub fn note_of(plan: &Plan) -> CycleNote
    ensures { result ≡ note_of plan.now }
{
    CycleNote {
        prefix: plan.prefix,
        size: plan.image.outputs() + plan.image.inputs(),
    }
}

impl<T: Tickets, R: Refusals> Served<T, R> {
    /// Whether the book was finished, and all its commands are settled.
    fn is_done(&self) -> bool
        ensures { result ≡ is_done (replayed T.opened self.now.calls) }
    {
        let status = self.core.status();
        self.core.is_finished() && status.settled == status.accepted
    }

    /// Whether the last cycle had the image after the commands that are settled in a row.
    fn is_last_turn_of_plan(&self) -> bool
        ensures { result ≡ is_of_prefix (applied (replayed T.opened self.now.calls)) (last_turn (cycle_log self.now.calls)) }
    {
        match self.cycle.last() {
            Some(last) => last.prefix == self.core.applied(),
            None => false,
        }
    }

    /// Whether there are no more cycles to do: the book has a fault, or no more commands will be settled and the last cycle had the image
    /// after all of them.
    fn has_no_more_turns(&self) -> bool
        ensures { result ≡ has_no_more_turns (replayed T.opened self.now.calls) (cycle_log self.now.calls) }
    {
        self.core.fault().is_some() || self.is_done() && self.is_last_turn_of_plan()
    }

    /// Whether the last cycle exchanged no bytes, because its process image is empty.
    fn is_last_turn_without_bytes(&self) -> bool
        ensures { result ≡ is_without_bytes (last_turn (cycle_log self.now.calls)) }
    {
        match self.cycle.last() {
            Some(last) => last.size == 0,
            None => false,
        }
    }

    /// Whether the cycle rests: the last cycle had the image after the commands that are settled in a row, and this image is empty.
    fn is_resting(&self) -> bool
        ensures { result ≡ is_resting (replayed T.opened self.now.calls) (cycle_log self.now.calls) }
    {
        self.is_last_turn_of_plan() && self.is_last_turn_without_bytes()
    }

    /// Whether the next cycle would repeat the last one: there are more cycles to do, and the last one had the image after the commands that
    /// are settled in a row.
    pub fn repeats_turn(&self) -> bool
        ensures { result ≡ is_repeating (replayed T.opened self.now.calls) (cycle_log self.now.calls) }
    {
        !self.has_no_more_turns() && self.is_last_turn_of_plan()
    }

    /// Answers the plan of the next process data cycle: the process image after the commands that are settled in a row.
    ///
    /// The memory for its note is taken before the book is asked. After `NoMemory` nothing has changed. The answer is `Stop` once the jobs
    /// have stopped for want of memory, or the book has a fault; and once it is finished and all its commands are settled, if the last
    /// cycle had the image after all of them, or if there is no such image. It is `Nothing` while there is no image but there may be one
    /// later. An empty image gets one cycle, which configures the line for it; then the answer is `Nothing`, and the book isn't asked, until
    /// more commands are settled.
    pub fn cycle_next(&mut self) -> Heard<Plan>
        ensures asks { AsksPlan (replayed T.opened self.old.calls) result self.old self.new }
        ensures answered { AreAnswered T.opened self.new.calls }
    {
        if self.is_out_of_memory || self.has_no_more_turns() {
            return Heard::Stop;
        }
        if self.is_resting() {
            return Heard::Nothing;
        }
        self.hear_plan()
    }

    /// Asks the book for the plan of the next process data cycle, and notes its answer.
    fn hear_plan(&mut self) -> Heard<Plan>
        ensures hears { HearsPlan (replayed T.opened self.old.calls) result self.old self.new }
        ensures answered { AreAnswered T.opened self.new.calls }
    {
        let Ok(()) = self.cycle.reserve() else {
            return Heard::NoMemory;
        };
        match self.core.plan() {
            Ok(plan) => {
                let turn = note_of(&plan);
                let answer = Some(turn);
                note(&mut self.history, Call::PlanAsked { answer });
                self.cycle.hand_out(turn);
                Heard::Work(plan)
            }
            Err(ImageFault::ImageOverLimit) => {
                note(&mut self.history, Call::PlanAsked { answer: None });
                if self.is_done() {
                    Heard::Stop
                } else {
                    Heard::Nothing
                }
            }
            Err(ImageFault::Memory) => Heard::NoMemory,
        }
    }
}
