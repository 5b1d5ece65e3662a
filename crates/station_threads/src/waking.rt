//! Who sleeps at a desk, and whom a call at the desk wakes.
//!
//! A sleeper asks the book under the lock, and sleeps where the answer is to wait. So a call that may change this answer wakes it:
//!
//! | Who sleeps | Until | Woken by |
//! |---|---|---|
//! | the disk, at rest | a command is queued; the older half is settled | an accepted command; a written word (2) |
//! | a slave's worker, with nothing to write | a live batch names it | the sync of a gate whose commands name the slave |
//! | the same in a finished book | all commands are durable | the sync of a gate |
//! | the cycle, without an image or with an empty one | more commands are settled | a written word, the sync of a gate (1) |
//! | the cycle, after one of the same image | 10 milliseconds are over; more commands are settled | the same |
//! | who waits for a receipt | the command is durable | the sync of a gate |
//! | who watches `changed` | the status differs | each outcome and each accepted command that changes it |
//! | all of these | a fault, `finish`, want of memory | the outcome that is a fault, `finish`, `stop_for_memory` |
//! | a second dispatch of the disk or of a slave | the job that is out has its outcome | that outcome |
//!
//! (1) Where more commands are settled then. A command whose words already hold their values is settled as its batch goes live.
//!
//! (2) Where more commands are settled then, or none is yet: the entries found at the open aren't counted as settled commands.

use book_model::{RomOutcome, Status};
use desk_book::{Refusals, Served, Tickets};
use sii_edit::Command;
use site_core::DeviceFault;
use std::alloc::{AllocError, Global};
use std::sync::{Condvar, MutexGuard, Wait};
use std::time::Duration;

/// The time from one process data cycle to the next of the same image, in milliseconds.
const CYCLE_TIME: u64 = 10;

/// The condition variables of a desk: one for each kind of sleeper, and for each slave its own.
#[derive(Drop)]
pub(crate) struct Sleepers {
    pub(crate) disk: Condvar,
    slaves: Vec<Condvar>,
    pub(crate) cycle: Condvar,
    /// Those who wait for a receipt.
    pub(crate) receipts: Condvar,
    /// Those who watch `changed`.
    pub(crate) watchers: Condvar,
}

/// Whom a call wakes.
#[derive(Clone, Copy, Drop)]
pub(crate) struct Wakes {
    disk: bool,
    /// Bit i stands for slave i. A line has at most 64 slaves.
    slaves: u64,
    cycle: bool,
    receipts: bool,
    watchers: bool,
}

impl Wakes {
    /// Nobody: after an issue there is nothing but to settle it.
    pub(crate) const NOBODY: Wakes = Wakes {
        disk: false,
        slaves: 0,
        cycle: false,
        receipts: false,
        watchers: false,
    };

    /// Everybody: after a fault, a finish, and want of memory.
    pub(crate) const EVERYBODY: Wakes = Wakes {
        disk: true,
        slaves: u64::MAX,
        cycle: true,
        receipts: true,
        watchers: true,
    };

    /// Those to whom an accepted command gives work.
    pub(crate) const ACCEPTED: Wakes = Wakes {
        disk: true,
        slaves: 0,
        cycle: false,
        receipts: false,
        watchers: true,
    };

    /// Those who wait for what differs between these two statuses of a book: after the outcome before this one, and now. Only outcomes make
    /// commands durable or settled, and who watches was woken for the commands that were accepted meanwhile.
    fn between(before: &Status, after: &Status) -> Wakes {
        Wakes {
            disk: false,
            slaves: 0,
            cycle: after.settled != before.settled,
            receipts: after.durable != before.durable,
            watchers: *after != *before,
        }
    }
}

impl Sleepers {
    /// The condition variables of a line with this many slaves.
    ///
    /// # Errors
    ///
    /// `AllocError`: memory was refused.
    pub(crate) fn new(alloc: Global, slaves: usize) -> Result<Self, AllocError> {
        let mut own = Vec::with_capacity(alloc, slaves)?;
        for _slave in 0..slaves {
            own.push(Condvar::new())?;
        }
        Ok(Sleepers {
            disk: Condvar::new(),
            slaves: own,
            cycle: Condvar::new(),
            receipts: Condvar::new(),
            watchers: Condvar::new(),
        })
    }

    /// Sleeps as the worker of this slave, until it is woken. The book has no work to wait for where the line has no such slave.
    pub(crate) fn sleep_as_slave<W: Wait, T>(&self, rt: &W, slave: u16, guard: MutexGuard<'_, T>) {
        if let Some(own) = self.slaves.get(usize::from(slave)) {
            own.wait(rt, guard);
        }
    }

    /// Sleeps as the cycle, until it is woken or `CYCLE_TIME` is over.
    pub(crate) fn pause_cycle<W: Wait, T>(&self, rt: &W, guard: MutexGuard<'_, T>) {
        let seen = self.cycle.notifications();
        drop(guard);
        self.cycle
            .sleep(rt, seen, Duration::from_millis(CYCLE_TIME));
    }

    /// Wakes those who sleep.
    pub(crate) fn wake(&self, wakes: Wakes) {
        if wakes.disk {
            self.disk.notify_all();
        }
        if wakes.slaves != 0 {
            self.wake_slaves(wakes.slaves);
        }
        if wakes.cycle {
            self.cycle.notify_all();
        }
        if wakes.receipts {
            self.receipts.notify_all();
        }
        if wakes.watchers {
            self.watchers.notify_all();
        }
    }

    /// Wakes the worker of this slave.
    pub(crate) fn wake_slave(&self, slave: u16) {
        if let Some(own) = self.slaves.get(usize::from(slave)) {
            own.notify_all();
        }
    }

    /// Wakes the workers of these slaves, of which bit i stands for slave i.
    fn wake_slaves(&self, slaves: u64) {
        for (slave, own) in self.slaves.iter().enumerate() {
            if slave >= 64 || slaves >> slave & 1 == 1 {
                own.notify_all();
            }
        }
    }
}

// ---- the slaves that commands name

/// The bit of this slave; all bits if a line has no such slave.
fn bit_of(slave: u16) -> u64 {
    if slave < 64 { 1 << slave } else { u64::MAX }
}

/// The bits of the slaves that the command may change.
fn bits_of_command(command: &Command) -> u64 {
    let mut bits = 0;
    for place in 0..usize::MAX {
        match command.slave_at(place) {
            Some(slave) => bits |= bit_of(slave),
            None => return bits,
        }
    }
    bits
}

/// The bits of the slaves that the commands may change.
fn bits_of_commands(commands: &[Command]) -> u64 {
    let mut bits = 0;
    for command in commands {
        bits |= bits_of_command(command);
    }
    bits
}

// ---- outcomes

/// The bits of the slaves to which the commands that have become durable give work: those that they name, and all in a finished book, whose
/// workers end once all its commands are durable.
fn bits_woken<T: Tickets, R: Refusals>(served: &Served<T, R>, before: u64, after: u64) -> u64 {
    if before == after {
        return 0;
    }
    if served.is_closed() {
        return u64::MAX;
    }
    match served.accepted().get(before as usize..after as usize) {
        Some(commands) => bits_of_commands(commands),
        None => u64::MAX,
    }
}

/// Reports the outcome of the disk's action to the book. Answers whom this gives work.
pub(crate) fn disk_reported<T: Tickets, R: Refusals>(
    served: &mut Served<T, R>,
    outcome: Result<(), DeviceFault>,
) -> Wakes {
    served.disk_done(outcome);
    if served.fault().is_some() {
        return Wakes::EVERYBODY;
    }
    let (before, after) = served.progress();
    Wakes {
        disk: true,
        slaves: bits_woken(served, before.durable, after.durable),
        ..Wakes::between(&before, &after)
    }
}

/// Reports the outcome of a slave's job to the book. Answers whom this gives work, beside the slave's own worker.
pub(crate) fn slave_reported<T: Tickets, R: Refusals>(
    served: &mut Served<T, R>,
    slave: u16,
    outcome: RomOutcome,
) -> Wakes {
    served.slave_done(slave, outcome);
    if let RomOutcome::Issued(_) = outcome {
        return Wakes::NOBODY;
    }
    if served.fault().is_some() {
        return Wakes::EVERYBODY;
    }
    let (before, after) = served.progress();
    let wakes = Wakes::between(&before, &after);
    Wakes {
        disk: before.settled == 0 || wakes.cycle,
        ..wakes
    }
}
