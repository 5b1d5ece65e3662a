//! The calls of a book under its lock, as its history has them.

ghost use Rattle.std.specs.Prelude.{◌≡◌};

use book_model::{DiskNext, RomNext, RomOutcome, SubmitRefusal};
use sii_edit::Command;
use site_core::DeviceFault;
use station_jobs::CycleNote;
use std::marker::Model;
use std::snapshot::Snapshot;

/// A value that only contracts can read. It takes no memory.
#[derive(Drop)]
pub struct Recalled<T> {
    of: Snapshot<T>,
}

impl<T> Model for Recalled<T> {
    ghost Value = { T };

    ghost view = { λ recalled. recalled.of.value };
}

impl<T> Recalled<T> {
    /// Records what this value is now.
    pub fn of(value: &T) -> Self
        ensures { result ≡ value.now }
    {
        Recalled {
            of: Snapshot::of(value),
        }
    }
}

/// A call of a book, with its answer.
#[derive(Drop)]
pub enum Call {
    /// A command was submitted.
    Submitted {
        /// The command.
        command: Recalled<Command>,
        /// Its number if it was accepted, or why it was refused.
        answer: Result<u64, SubmitRefusal>,
    },
    /// The book was asked for the next action on the disk.
    DiskAsked {
        /// The action, or that there is none.
        answer: Recalled<DiskNext>,
    },
    /// The outcome of the action on the disk was reported.
    DiskReported {
        /// Whether it succeeded.
        outcome: Result<(), DeviceFault>,
    },
    /// The book was asked for the next job of a slave.
    SlaveAsked {
        /// The slave's number, from 0.
        slave: u16,
        /// The job, or that there is none.
        answer: RomNext,
    },
    /// The outcome of a slave's job was reported.
    SlaveReported {
        /// The slave's number, from 0.
        slave: u16,
        /// How the job ended.
        outcome: RomOutcome,
    },
    /// The book was asked for the plan of the next process data cycle.
    PlanAsked {
        /// What is kept of the plan. `None`: its process image was over the limits.
        answer: Option<CycleNote>,
    },
    /// The book was closed for commands.
    Finished,
}
