//! Notes of the process data cycles that were handed out.

ghost use Rattle.std.specs.Prelude.{◌≡◌, ◌↔◌, ◌<◌, ◌++◌, ◌∷◌, ◌-◌, [], length, slice_get, IsTrue, OnOk};
ghost use Rattle.station_jobs.specs.Runs.{is_full};

use crate::cycle::CycleNote;
use std::alloc::{AllocError, Global};
use std::marker::Model;

/// Equal process data cycles, one after another.
#[derive(Clone, Copy, PartialEq, Eq, Drop)]
pub struct Run {
    /// What is kept of each of them.
    note: CycleNote,
    /// How many more follow the first one.
    again: u64,
}

/// The process data cycles that were handed out, in order. Outcomes aren't kept.
///
/// Equal cycles in a row take one entry in memory, with their number. So its size grows with the plans that were handed out, not with time.
///
/// Contracts see the list of all cycles, and whether one more fits into its memory.
#[derive(Drop)]
pub struct CycleNotes {
    runs: Vec<Run>,
}

impl Model for CycleNotes {
    ghost use Rattle.std.specs.Prelude.{◌-◌, vec_len, vec_capacity};
    ghost use Rattle.station_jobs.specs.Runs.{CyclesNoted, AreSeparate, expanded, spare_after};

    ghost Value = { CyclesNoted };

    ghost view = { λ notes. record {
      entries = expanded notes.runs.items;
      spare = spare_after notes.runs.items (vec_capacity notes.runs - vec_len notes.runs);
    } };

    ghost invariant = { λ notes. AreSeparate notes.runs.items };
}

impl CycleNotes {
    /// Notes without cycles.
    pub fn new(alloc: Global) -> Self
        ensures { result.entries ≡ [] }
    {
        CycleNotes {
            runs: Vec::new(alloc),
        }
    }

    /// Takes memory for one more cycle.
    ///
    /// # Errors
    ///
    /// `AllocError`: memory was refused, or the last 2^64 cycles were equal. The cycles are unchanged.
    pub fn reserve(&mut self) -> Result<(), AllocError>
        ensures entries { self.new.entries ≡ self.old.entries }
        ensures room { OnOk result (0 < self.new.spare) }
    {
        if is_full(&self.runs) {
            return Err(AllocError);
        }
        self.runs.reserve(1)?;
        Ok(())
    }

    /// Notes one more cycle. There has to be room for it, as after `reserve`.
    pub fn hand_out(&mut self, note: CycleNote)
        requires { 0 < self.old.spare }
        ensures { self.new.entries ≡ self.old.entries ++ note ∷ [] }
    {
        let new = Run { note, again: 0 };
        let Some(last) = self.runs.pop() else {
            self.runs.push_reserved(new);
            return;
        };
        if last.note == note {
            let again = last.again + 1;
            self.runs.push_reserved(Run { note, again });
        } else {
            self.runs.push_reserved(last);
            self.runs.push_reserved(new);
        }
    }

    /// The last cycle.
    pub fn last(&self) -> Option<CycleNote>
        ensures { result ≡ slice_get self.now.entries (length self.now.entries - 1) }
    {
        let last = *self.runs.last()?;
        Some(last.note)
    }

    /// Whether these are the same cycles, in the same order.
    pub fn are_same(&self, others: &CycleNotes) -> bool
        ensures { IsTrue result ↔ (self.now.entries ≡ others.now.entries) }
    {
        are_same_runs(&self.runs, &others.runs)
    }

    /// The cycles, as the log of a thread that has ended.
    pub fn into_log(self) -> CycleLog
        ensures { result ≡ self.entries }
    {
        CycleLog { notes: self }
    }
}

/// Whether the last run can't be counted any further.
fn is_full(runs: &[Run]) -> bool
    ensures { result ≡ is_full runs.now }
{
    match runs.last() {
        Some(last) => last.again == u64::MAX,
        None => false,
    }
}

/// Whether the runs are the same, in the same order.
fn are_same_runs(ones: &[Run], others: &[Run]) -> bool
    ensures { IsTrue result ↔ (ones.now ≡ others.now) }
{
    if ones.len() != others.len() {
        return false;
    }
    for i in 0..ones.len() {
        if ones[i] != others[i] {
            return false;
        }
    }
    true
}

/// The process data cycles of a thread: of each, the prefix of its plan and the size of its image. Contracts see the list.
#[derive(Drop)]
pub struct CycleLog {
    notes: CycleNotes,
}

impl Model for CycleLog {
    ghost use Rattle.std.specs.Prelude.{List};
    ghost use Rattle.station_jobs.specs.declared.cycle.CycleNote.{CycleNote};

    ghost Value = { List CycleNote };

    ghost view = { λ log. log.notes.entries };
}

impl CycleLog {
    /// The cycles.
    pub fn notes(&self) -> &CycleNotes
        ensures { result.now.entries ≡ self.now }
    {
        &self.notes
    }
}
