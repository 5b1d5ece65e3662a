//! Hands out the jobs of the slaves, and takes their outcomes.

ghost use Rattle.std.specs.Prelude.{◌≡◌, ◌↔◌, ◌<◌, length, slice_index_or, IsTrue, OnOk};
ghost use Rattle.station_jobs.specs.Dispatch.{with_outcome};
ghost use Rattle.station_jobs.specs.Noted.{is_waiting};
ghost use Rattle.desk_book.specs.Logs.{with_rom_answer};
ghost use Rattle.desk_book.specs.Serving.{IsNoted, entries_at, no_entries};
ghost use Rattle.desk_book.specs.Asking.{AsksSlave, HearsSlave, SlaveIsReported, TellsSlave, WearsFew, is_rom_job};
ghost use Rattle.desk_book.specs.Calls.{AreAnswered, replayed};

use crate::call::Call;
use crate::handing::note;
use crate::heard::Heard;
use crate::naming::{Refusals, Tickets};
use crate::served::Served;
use book_model::{RomNext, RomOutcome};
use station_jobs::{Notes, SlaveLog, are_same_calls};
use std::alloc::AllocError;

/// The jobs that were handed out for one slave, with their outcomes.
type SlaveNotes = Notes<RomNext, RomOutcome>;

/// Whether this is an issue or a settle: not `Idle` or `Stop`.
fn is_job(next: RomNext) -> bool
    ensures { result ≡ is_rom_job next }
{
    match next {
        RomNext::Idle | RomNext::Stop => false,
        _ => true,
    }
}

/// Whether a job of slave `at` is out.
fn is_waiting_at(slaves: &Vec<SlaveNotes>, at: usize) -> bool
    requires { at < length slaves.now.items }
    ensures { result ≡ is_waiting (entries_at slaves.now.items at) }
{
    let notes = &slaves[at];
    notes.is_waiting()
}

/// Whether this is the log of slave `at`, with exactly the jobs that are noted for it.
pub(crate) fn is_work_of(slaves: &Vec<SlaveNotes>, at: usize, log: &SlaveLog) -> bool
    requires { at < length slaves.now.items }
    ensures { IsTrue result ↔ (log.now.slave ≡ at) × (log.now.jobs ≡ entries_at slaves.now.items at) }
{
    let notes = &slaves[at];
    usize::from(log.slave) == at && are_same_calls(log.jobs.as_slice(), notes.as_slice())
}

/// Takes memory for one more job of slave `at`.
fn reserve_at(slaves: &mut Vec<SlaveNotes>, at: usize) -> Result<(), AllocError>
    requires { at < length slaves.old.items }
    ensures same { IsNoted slaves.old.items at (entries_at slaves.old.items at) slaves.new.items }
    ensures room { OnOk result (0 < (slice_index_or slaves.new.items at no_entries).spare) }
{
    let notes = &mut slaves[at];
    notes.reserve()
}

/// Notes the book's answer for slave `at`, if it is a job. There is room for it.
fn hand_out_at(slaves: &mut Vec<SlaveNotes>, at: usize, next: RomNext) -> Heard<RomNext>
    requires inside { at < length slaves.old.items }
    requires room { 0 < (slice_index_or slaves.old.items at no_entries).spare }
    ensures noted { IsNoted slaves.old.items at (with_rom_answer (entries_at slaves.old.items at) next) slaves.new.items }
    ensures tells { TellsSlave next result }
{
    if is_job(next) {
        let notes = &mut slaves[at];
        notes.hand_out(next);
        return Heard::Work(next);
    }
    match next {
        RomNext::Stop => Heard::Stop,
        _ => Heard::Nothing,
    }
}

/// Notes the outcome of the last job of slave `at`.
fn tell_at(slaves: &mut Vec<SlaveNotes>, at: usize, outcome: RomOutcome)
    requires { at < length slaves.old.items }
    ensures { IsNoted slaves.old.items at (with_outcome (entries_at slaves.old.items at) outcome) slaves.new.items }
{
    let notes = &mut slaves[at];
    notes.tell(outcome);
}

impl<T: Tickets, R: Refusals> Served<T, R> {
    /// Asks the book for the next job of a slave.
    ///
    /// The memory for its note is taken before the book is asked. After `NoMemory` nothing has changed. Once the jobs have stopped for want
    /// of memory, and for a slave that the line doesn't have, the answer is `Stop` and the book isn't asked. While a job of the slave is
    /// out, it is `Nothing` and the book isn't asked.
    ///
    /// A slave gets at most three issues for each word that the entries found at the open and the accepted commands name for it.
    pub fn slave_next(&mut self, slave: u16) -> Heard<RomNext>
        ensures asks { AsksSlave T.opened slave result self.old self.new }
        ensures answered { AreAnswered T.opened self.new.calls }
        ensures wear { WearsFew result (replayed T.opened self.new.calls) }
    {
        let at = usize::from(slave);
        if self.is_out_of_memory || at >= self.slaves.len() {
            return Heard::Stop;
        }
        if is_waiting_at(&self.slaves, at) {
            return Heard::Nothing;
        }
        self.hear_slave(slave)
    }

    /// Asks the book for the next job of a slave that the line has, and notes its answer.
    fn hear_slave(&mut self, slave: u16) -> Heard<RomNext>
        requires { slave < length T.opened.words }
        ensures hears { HearsSlave slave result self.old self.new }
        ensures answered { AreAnswered T.opened self.new.calls }
        ensures wear { WearsFew result (replayed T.opened self.new.calls) }
    {
        let at = usize::from(slave);
        let Ok(()) = reserve_at(&mut self.slaves, at) else {
            return Heard::NoMemory;
        };
        let answer = self.core.rom_next(slave);
        note(&mut self.history, Call::SlaveAsked { slave, answer });
        hand_out_at(&mut self.slaves, at, answer)
    }

    /// Reports the outcome of the slave's job that is out. If none is out, nothing changes.
    pub fn slave_done(&mut self, slave: u16, outcome: RomOutcome)
        ensures { SlaveIsReported slave outcome self.old self.new }
    {
        let at = usize::from(slave);
        if at >= self.slaves.len() || !is_waiting_at(&self.slaves, at) {
            return;
        }
        self.core.rom_done(slave, outcome);
        note(&mut self.history, Call::SlaveReported { slave, outcome });
        tell_at(&mut self.slaves, at, outcome);
    }
}
