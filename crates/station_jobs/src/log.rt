//! The logs of the jobs that were handed out.

ghost use Rattle.std.specs.Prelude.{◌≡◌, ◌+◌, ◌++◌, ◌∷◌, [], None};
ghost use Rattle.station_jobs.specs.Dispatch.{with_outcome};

use crate::cycle::{CycleJob, CycleOutcome};
use crate::cycle_notes::CycleLog;
use book_model::{DiskNext, RomNext, RomOutcome};
use sii_words::ItemList;
use site_core::DeviceFault;

/// A job that was handed out, with its outcome once it is reported.
#[derive(Drop)]
pub struct Assignment<J, O> {
    /// What was to be done.
    pub job: J,
    /// How it ended. `None` until this is reported.
    pub outcome: Option<O>,
}

/// What a dispatch keeps of its jobs, in the order in which they were handed out.
pub trait Log {
    /// What is handed out.
    type Job;

    /// What is reported of a job.
    type Outcome;

    /// The log with one more job, which has no outcome yet.
    ghost handed: { Self → Self.Job → Self };

    /// The log once this outcome of the last job is reported.
    ghost reported: { Self → Self.Outcome → Self };
}

/// The disk's actions, each with its outcome.
pub type DiskLog = ItemList<Assignment<DiskNext, Result<(), DeviceFault>>>;

impl Log for DiskLog {
    type Job = DiskNext;

    type Outcome = Result<(), DeviceFault>;

    ghost handed = { λ log job. log ++ record { job = job; outcome = None } ∷ [] };

    ghost reported = { with_outcome };
}

/// The issues and settles of one slave, each with its outcome.
pub type RomLog = ItemList<Assignment<RomNext, RomOutcome>>;

impl Log for RomLog {
    type Job = RomNext;

    type Outcome = RomOutcome;

    ghost handed = { λ log job. log ++ record { job = job; outcome = None } ∷ [] };

    ghost reported = { with_outcome };
}

impl Log for CycleLog {
    type Job = CycleJob;

    type Outcome = CycleOutcome;

    ghost handed = { λ log job. log ++ record { prefix = job.plan.prefix; size = job.plan.image.outputs + job.plan.image.inputs } ∷ [] };

    ghost reported = { λ log outcome. log };
}

/// The log of one slave's jobs, with the slave's number.
#[derive(Drop)]
pub struct SlaveLog {
    /// The slave's number, from 0 in the order of the line.
    pub slave: u16,
    /// Its issues and settles, each with its outcome.
    pub jobs: RomLog,
}
