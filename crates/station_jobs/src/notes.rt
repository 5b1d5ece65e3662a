//! Notes of the jobs that were handed out to one thread.

ghost use Rattle.std.specs.Prelude.{◌≡◌, ◌<◌, ◌≤◌, ◌-◌, [], ◌∷◌, ◌++◌, Bool, Option, Some, None, length, IfErr, OnOk, OnErr};
ghost use Rattle.station_jobs.specs.Dispatch.{with_outcome};
ghost use Rattle.station_jobs.specs.Noted.{is_waiting};

use crate::Assignment;
use sii_words::ItemList;
use std::alloc::{AllocError, Global};
use std::marker::Model;

/// The jobs that were handed out to one thread, in order, each with its outcome.
///
/// Contracts see the list, and how many more jobs fit into its memory.
#[derive(Drop)]
pub struct Notes<J, O> {
    entries: Vec<Assignment<J, O>>,
}

impl<J, O> Model for Notes<J, O> {
    ghost use Rattle.std.specs.Prelude.{◌-◌, vec_len, vec_capacity};
    ghost use Rattle.station_jobs.specs.Noted.{Noted};

    ghost Value = { Noted J O };

    ghost view = { λ notes. record { entries = notes.entries.items; spare = vec_capacity notes.entries - vec_len notes.entries } };
}

impl<J, O> Notes<J, O> {
    /// Notes without jobs.
    pub fn new(alloc: Global) -> Self
        ensures { result.entries ≡ [] }
    {
        Notes {
            entries: Vec::new(alloc),
        }
    }

    /// The jobs, in the order in which they were handed out.
    pub fn as_slice(&self) -> &[Assignment<J, O>]
        ensures { result.now ≡ self.now.entries }
    {
        &self.entries
    }

    /// Takes memory for one more job.
    ///
    /// # Errors
    ///
    /// `AllocError`: memory was refused. The jobs are unchanged.
    pub fn reserve(&mut self) -> Result<(), AllocError>
        ensures entries { self.new.entries ≡ self.old.entries }
        ensures room { OnOk result (0 < self.new.spare) }
    {
        self.entries.reserve(1)?;
        Ok(())
    }

    /// Notes one more job, which has no outcome yet. There has to be room for it, as after `reserve`.
    pub fn hand_out(&mut self, job: J)
        requires { 0 < self.old.spare }
        ensures { self.new.entries ≡ self.old.entries ++ record { job = job; outcome = None } ∷ [] }
    {
        self.entries
            .push_reserved(Assignment { job, outcome: None });
    }

    /// Whether a job is out: the last one has no outcome yet.
    pub fn is_waiting(&self) -> bool
        ensures { result ≡ is_waiting self.now.entries }
    {
        match self.entries.as_slice().last() {
            Some(last) => last.outcome.is_none(),
            None => false,
        }
    }

    /// The jobs, as a list.
    pub fn into_list(self) -> ItemList<Assignment<J, O>>
        ensures { result ≡ self.entries }
    {
        let Notes { entries } = self;
        ItemList::from_vec(entries)
    }
}

impl<J, O: Drop> Notes<J, O> {
    /// Notes the outcome of the last job. Without a job nothing changes.
    pub fn tell(&mut self, outcome: O)
        ensures { self.new.entries ≡ with_outcome self.old.entries outcome }
    {
        let Some(last) = self.entries.pop() else {
            return;
        };
        let Assignment { job, outcome: _ } = last;
        let outcome = Some(outcome);
        self.entries.push_reserved(Assignment { job, outcome });
    }
}
