//! The source of a thread's jobs.

ghost use Rattle.std.specs.Prelude.{◌≡◌, Bool, IsTrue, false, List, [], ◌∷◌};
ghost use Rattle.station_jobs.specs.Dispatch.{log_after, IfWork, IfStop};
ghost use Rattle.station_jobs.specs.Telling.{IfNoWork};

use crate::log::Log;
use std::sync::Wait;

/// What a dispatch answers when it is asked for a job.
#[derive(Drop)]
pub enum Turn<J> {
    /// A job to do.
    Work(J),
    /// No job now, but there may be one later.
    Again,
    /// No job, now or later.
    Stop,
}

/// Hands out jobs to the loop that does them, takes their outcomes, and keeps the log of both.
///
/// It can be sent to another thread, so it can't keep the guard of a lock.
pub trait Dispatch<L: Log>: Send {
    /// The log of the jobs handed out so far.
    ghost log: { Self → L };

    /// Whether a job is out: the last one handed out has no outcome yet.
    ghost has_job: { Self → Bool };

    /// The jobs that it may hand out from now on.
    ghost may_hand: { Self → L.Job → Type 0 };

    /// What is known once it answers `Stop`, now or later.
    ghost has_ended: { Self → Type 0 };

    /// What is known once these outcomes, in order, are reported from now on, each before the next job is asked for, and no others.
    ghost are_reported: { Self → List L.Outcome → Type 0 };

    /// Asks for the next job, and may wait for one. If memory is refused for the job or for its entry in the log, the answer is
    /// `Again` and nothing is handed out.
    fn next<R: Wait>(&mut self, rt: &R) -> Turn<L::Job>
        ensures log { log self.new ≡ log_after L.handed (log self.old) result }
        ensures out { IfWork result (λ job. IsTrue (has_job self.new)) }
        ensures no_job { IfNoWork result (has_job self.new ≡ has_job self.old) }
        ensures may { IfWork result (λ job. may_hand self.old job) }
        ensures no_more { (job : L.Job) → may_hand self.new job → may_hand self.old job }
        ensures stop { IfStop result (has_ended self.old) }
        ensures no_end { has_ended self.new → has_ended self.old }
        ensures reported { has_job self.old ≡ false → (outcomes : List L.Outcome) → are_reported self.new outcomes → are_reported self.old outcomes };

    /// Reports the outcome of the job that is out. There has to be one, and none is out afterwards.
    fn done<R: Wait>(&mut self, rt: &R, outcome: L::Outcome)
        requires { IsTrue (has_job self.old) }
        ensures log { log self.new ≡ L.reported (log self.old) outcome }
        ensures out { has_job self.new ≡ false }
        ensures no_more { (job : L.Job) → may_hand self.new job → may_hand self.old job }
        ensures no_end { has_ended self.new → has_ended self.old }
        ensures reported { (later : List L.Outcome) → are_reported self.new later → are_reported self.old (outcome ∷ later) };

    /// Gives the log, once no more jobs are wanted.
    fn into_log(self) -> L
        ensures log { result ≡ log self }
        ensures reported { has_job self ≡ false → are_reported self [] };
}
