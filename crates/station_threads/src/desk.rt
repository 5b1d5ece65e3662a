//! The desk: a book under one lock, shared by the threads that submit and the threads that do its jobs.

ghost use Rattle.std.specs.Prelude.{◌≡◌, ◌+◌, ◌<◌, [], true, false, length, IfOk, IfErr};
ghost use Rattle.book_core.specs.Appending.{AppendsNext};
ghost use Rattle.station_jobs.specs.Dispatch.{IfWork};
ghost use Rattle.desk_book.specs.Asking.{is_rom_job};
ghost use Rattle.desk_book.specs.Closing.{IsReceiptOf};
ghost use Rattle.desk_book.specs.Submitting.{CountsRefusal};

use crate::patience::Patience;
use crate::sides::{CycleSide, DiskSide, RomSide};
use crate::waking::{Sleepers, Wakes, disk_reported, slave_reported};
use book_core::Core;
use book_model::{DiskNext, RomNext, RomOutcome, Status};
use desk_book::{
    BlankLedger, Heard, Receipt, Refusals, Refused, Served, Share, ShareFault, Ticket, Tickets,
    Unacknowledged,
};
use jrn_format::AREA_START;
use sii_edit::Command;
use sii_image::Plan;
use site_core::DeviceFault;
use station_jobs::{CycleNotes, Notes, Turn};
use std::alloc::{AllocError, Global};
use std::marker::Model;
use std::sync::{Mutex, Wait};

/// A book of commands under one lock, with a condition variable for each kind of those who wait, and for each slave its own.
///
/// No device call is made while the lock is held. Contracts see where the journal's area ends.
#[derive(Drop)]
pub struct Desk<T: Tickets, R: Refusals> {
    pub(crate) served: Mutex<Served<T, R>>,
    pub(crate) sleepers: Sleepers,
    pub(crate) alloc: Global,
    /// The byte of the file at which the journal's area ends: 8 plus its capacity.
    pub(crate) limit: usize,
}

impl<T: Tickets, R: Refusals> Model for Desk<T, R> {
    ghost use Rattle.book_core.specs.Appending.{AppendsNext};
    ghost use Rattle.station_threads.specs.Sides.{Limited};

    ghost Value = { Limited };

    ghost view = { λ desk. record { limit = desk.limit } };

    ghost invariant = { λ _. AppendsNext T.opened };
}

impl<T: Tickets, R: Refusals> Desk<T, R> {
    /// Makes a desk of a book that has accepted no command yet, with a ledger for its tickets and one for its refusals, and gives out its first
    /// share, which a new desk never refuses.
    ///
    /// The book has to be `T.opened`, and the ledgers those of `T` and `R`, with as many parts as these say: two at least, one for the share,
    /// and one that the desk keeps.
    ///
    /// # Errors
    ///
    /// `AllocError`: memory was refused. The book is dropped.
    pub fn with_share(
        alloc: Global,
        core: Core,
        tickets: BlankLedger,
        refusals: BlankLedger,
    ) -> Result<(Desk<T, R>, Share<T, R>), AllocError>
        requires core { core ≡ T.opened }
        requires none { core.accepted ≡ [] }
        requires tickets { (tickets.name ≡ T.name) × (tickets.count ≡ T.parts) }
        requires refusals { (refusals.name ≡ R.name) × (refusals.count ≡ R.parts) }
        requires parts { (1 < tickets.count) × (1 < refusals.count) }
        ensures limit { IfOk result (λ made. made.0.limit ≡ 8 + core.capacity) }
        ensures share { IfOk result (λ made. made.1 ≡ record { tickets = 0; refusals = 0 }) }
    {
        // Its contract says that what the book is appending are the accepted commands right after the durable ones.
        let _commands = core.accepted();
        let limit = AREA_START + core.capacity() as usize;
        let Ok(sleepers) = Sleepers::new(alloc, core.contents().len()) else {
            drop(core);
            return Err(AllocError);
        };
        match Served::of(alloc, core, tickets, refusals) {
            Ok(mut served) => {
                let Some(share) = served.share() else {
                    unreachable!()
                };
                let desk = Desk {
                    served: Mutex::new(served),
                    sleepers,
                    alloc,
                    limit,
                };
                Ok((desk, share))
            }
            Err(AllocError) => {
                drop(sleepers);
                Err(AllocError)
            }
        }
    }

    /// Gives out a share, the right to submit. It counts no tickets and no refusals yet.
    ///
    /// # Errors
    ///
    /// `NoShare`: one of the two ledgers has at most one part left, and the desk keeps one part of each. Nothing changes.
    pub fn share<W: Wait>(&self, rt: &W) -> Result<Share<T, R>, ShareFault>
        ensures { IfOk result (λ share. share ≡ record { tickets = 0; refusals = 0 }) }
    {
        match self.served.lock(rt).share() {
            Some(share) => return Ok(share),
            None => return Err(ShareFault::NoShare),
        }
    }

    /// Submits a command. Answers a ticket for it, which the share counts.
    ///
    /// # Errors
    ///
    /// The command is handed back, and the book is unchanged. The first that applies is the reason: `Full`, once all shares together
    /// count `u64::MAX` refusals; `Closed`; `OldJournal`; `Command`, with what is wrong with it on the current contents; `TooLarge`;
    /// `Full`. Where memory was refused, the reason is `Command` with the cause `Memory`, in place of any but the first three. The share
    /// counts each refusal, except the first kind of `Full` and those for memory.
    pub fn submit<W: Wait>(
        &self,
        rt: &W,
        share: &mut Share<T, R>,
        command: Command,
    ) -> Result<Ticket, Refused>
        ensures command { IfOk result (λ ticket. ticket.command ≡ command) }
        ensures counted { IfOk result (λ ticket. share.new ≡ record share.old { tickets = share.old.tickets + 1 }) }
        ensures handed_back { IfErr result (λ refused. refused.command ≡ command) }
        ensures refused { IfErr result (λ refused. CountsRefusal refused.refusal share.old share.new) }
    {
        let answer = self.served.lock(rt).submit(share, command);
        match answer {
            Ok(ticket) => {
                self.sleepers.wake(Wakes::ACCEPTED);
                return Ok(ticket);
            }
            Err(refused) => return Err(refused),
        }
    }

    /// Waits until the ticket's command is durable. Answers its receipt.
    ///
    /// It waits while the book has no fault, the jobs haven't stopped for want of memory, and the book's command of the ticket's number is
    /// accepted and not yet durable.
    ///
    /// # Errors
    ///
    /// The ticket is handed back: a fault or want of memory came first, or the ticket is of another desk. Then this book has accepted no
    /// command of its number, or another one.
    pub fn wait<W: Wait>(&self, rt: &W, ticket: Ticket) -> Result<Receipt, Unacknowledged>
        ensures receipt { IfOk result (λ receipt. receipt ≡ ticket) }
        ensures stood { IfOk result (λ receipt. IsReceiptOf T.opened receipt) }
        ensures handed_back { IfErr result (λ refused. refused.ticket ≡ ticket) }
    {
        let number = ticket.number();
        let served = self
            .sleepers
            .receipts
            .wait_while(rt, self.served.lock(rt), |served| {
                served.is_pending(number) && !served.is_out_of_memory()
            });
        match served.receipt(ticket) {
            Ok(receipt) => return Ok(receipt),
            Err(refused) => return Err(refused),
        }
    }

    /// Accepts no more commands. Those that were accepted are still carried out.
    pub fn finish<W: Wait>(&self, rt: &W) {
        self.served.lock(rt).finish();
        self.sleepers.wake(Wakes::EVERYBODY);
    }

    /// How many commands are accepted, durable and settled, and how many bytes of the journal are live.
    pub fn status<W: Wait>(&self, rt: &W) -> Status {
        self.served.lock(rt).status()
    }

    /// How many slaves the line of the book has.
    pub fn slaves<W: Wait>(&self, rt: &W) -> usize
        ensures { result ≡ length T.opened.words }
    {
        self.served.lock(rt).slaves()
    }

    /// Whether the jobs have stopped because memory stayed refused. What was accepted is then left to a recovery.
    pub fn is_out_of_memory<W: Wait>(&self, rt: &W) -> bool {
        self.served.lock(rt).is_out_of_memory()
    }

    /// Whether memory was refused to a dispatch too often. If so, stops the jobs, and wakes all who wait at the desk.
    pub(crate) fn stops_for_memory<W: Wait>(&self, rt: &W, patience: &Patience) -> bool {
        if !patience.has_ended(rt) {
            return false;
        }
        self.served.lock(rt).stop_for_memory();
        self.sleepers.wake(Wakes::EVERYBODY);
        true
    }

    /// Asks the book for the disk's next action, which it answers twice. If there is none now, it sleeps until it is woken.
    pub(crate) fn ask_disk<W: Wait>(
        &self,
        rt: &W,
        patience: &mut Patience,
    ) -> Turn<(DiskNext, DiskNext)>
        ensures { IfWork result (λ jobs. jobs.1 ≡ jobs.0) }
    {
        let mut served = self.served.lock(rt);
        match served.disk_next() {
            Heard::Work(jobs) => {
                patience.granted();
                Turn::Work(jobs)
            }
            Heard::Nothing => {
                patience.granted();
                self.sleepers.disk.wait(rt, served);
                Turn::Again
            }
            Heard::NoMemory => {
                patience.refused();
                Turn::Again
            }
            Heard::Stop => Turn::Stop,
        }
    }

    /// Asks the book for the next job of this slave. If there is none now, it sleeps until it is woken.
    pub(crate) fn ask_slave<W: Wait>(
        &self,
        rt: &W,
        slave: u16,
        patience: &mut Patience,
    ) -> Turn<RomNext>
        ensures { IfWork result (λ job. is_rom_job job ≡ true) }
    {
        let mut served = self.served.lock(rt);
        match served.slave_next(slave) {
            Heard::Work(job) => {
                patience.granted();
                Turn::Work(job)
            }
            Heard::Nothing => {
                patience.granted();
                self.sleepers.sleep_as_slave(rt, slave, served);
                Turn::Again
            }
            Heard::NoMemory => {
                patience.refused();
                Turn::Again
            }
            Heard::Stop => Turn::Stop,
        }
    }

    /// Asks the book for the plan of the next process data cycle. If there is none now, it sleeps until it is woken.
    pub(crate) fn ask_cycle<W: Wait>(&self, rt: &W, patience: &mut Patience) -> Turn<Plan> {
        let mut served = self.served.lock(rt);
        match served.cycle_next() {
            Heard::Work(plan) => {
                patience.granted();
                Turn::Work(plan)
            }
            Heard::Nothing => {
                patience.granted();
                self.sleepers.cycle.wait(rt, served);
                Turn::Again
            }
            Heard::NoMemory => {
                patience.refused();
                Turn::Again
            }
            Heard::Stop => Turn::Stop,
        }
    }

    /// Waits until the next process data cycle is due: at once where its image is another one than the last had, or there are no more
    /// cycles to do, and otherwise `CYCLE_TIME` after the last one.
    pub(crate) fn await_cycle<W: Wait>(&self, rt: &W) {
        let served = self.served.lock(rt);
        if served.repeats_turn() {
            self.sleepers.pause_cycle(rt, served);
        }
    }

    /// Reports the outcome of the disk's action, and wakes those to whom it gives work.
    pub(crate) fn disk_done<W: Wait>(&self, rt: &W, outcome: Result<(), DeviceFault>) {
        let wakes = disk_reported(&mut *self.served.lock(rt), outcome);
        self.sleepers.wake(wakes);
    }

    /// Reports the outcome of a slave's job, and wakes those to whom it gives work.
    pub(crate) fn slave_done<W: Wait>(&self, rt: &W, slave: u16, outcome: RomOutcome) {
        let wakes = slave_reported(&mut *self.served.lock(rt), slave, outcome);
        self.sleepers.wake(wakes);
        self.sleepers.wake_slave(slave);
    }

    /// Waits until the book's status differs from `seen`, the book accepts no commands, or the jobs have stopped for want of memory.
    /// Answers its status then.
    pub fn changed<W: Wait>(&self, rt: &W, seen: &Status) -> Status {
        let seen = *seen;
        let served = self
            .sleepers
            .watchers
            .wait_while(rt, self.served.lock(rt), |served| {
                served.status() == seen && !served.is_closed() && !served.is_out_of_memory()
            });
        served.status()
    }

    /// The book, taken out of its lock.
    pub(crate) fn into_book(self) -> Served<T, R>
        ensures { AppendsNext T.opened }
    {
        let Desk {
            served,
            sleepers,
            ..
        } = self;
        drop(sleepers);
        served.into_inner()
    }

    /// The dispatch of the disk's jobs. It hands out no write that begins after the journal's area.
    pub fn disk_side(&self) -> DiskSide<'_, T, R>
        ensures limit { result.limit ≡ self.now.limit }
        ensures fresh { (result.log ≡ []) × (result.has_job ≡ false) }
    {
        DiskSide {
            desk: self,
            notes: Notes::new(self.alloc),
            has_job: false,
            limit: self.limit,
            patience: Patience::new(),
        }
    }

    /// The dispatch of one slave's jobs. Slaves are numbered from 0; for one that the line doesn't have, it answers `Stop`.
    pub fn rom_side(&self, slave: u16) -> RomSide<'_, T, R>
        ensures slave { result.slave ≡ slave }
        ensures fresh { (result.log ≡ []) × (result.has_job ≡ false) }
    {
        RomSide {
            desk: self,
            slave,
            notes: Notes::new(self.alloc),
            has_job: false,
            patience: Patience::new(),
        }
    }

    /// The dispatch of process data cycles. All their outputs are zero.
    pub fn cycle_side(&self) -> CycleSide<'_, T, R>
        ensures { result ≡ record { log = []; has_job = false } }
    {
        CycleSide {
            desk: self,
            turns: CycleNotes::new(self.alloc),
            has_job: false,
            patience: Patience::new(),
        }
    }
}
