//! Reads the final book, and compares with it what is handed in to close a desk.

ghost use Rattle.std.specs.Prelude.{◌≡◌, ◌↔◌, ◌<◌, [], length, IsTrue};
ghost use Rattle.sii_edit.specs.Fold.{contents};
ghost use Rattle.book_model.specs.Book.{base_of};
ghost use Rattle.desk_book.specs.Calls.{replayed, AreAnswered};
ghost use Rattle.desk_book.specs.Logs.{disk_log, cycle_log};
ghost use Rattle.desk_book.specs.Closing.{CountAll, AreReceiptsOf, IsWorkOf, AreWorkersOf, AllWorked, is_served};

use crate::counting::{all_refusals, all_tickets, are_separate, stand_at_their_numbers};
use crate::naming::{Refusals, Tickets};
use crate::served::Served;
use crate::share::Share;
use crate::slaves::is_work_of;
use crate::ticket::Receipt;
use sii_edit::Command;
use sii_words::Plant;
use site_core::Site;
use station_jobs::{CycleLog, CycleNotes, DiskEntry, End, SlaveLog, are_same_actions};

impl<T: Tickets, R: Refusals> Served<T, R> {
    /// The accepted commands, in order.
    ///
    /// Each call of the history was answered as the book's definition answers it.
    pub fn accepted(&self) -> &[Command]
        ensures commands { result.now ≡ (replayed T.opened self.now.calls).accepted }
        ensures answered { AreAnswered T.opened self.now.calls }
    {
        self.core.accepted()
    }

    /// The contents after all accepted commands.
    pub fn contents(&self) -> &Plant
        ensures { result.now ≡ contents (base_of T.opened) (replayed T.opened self.now.calls).accepted }
    {
        self.core.contents()
    }

    /// Whether the book has no fault, and everything that it found at the open or accepted since is settled.
    ///
    /// Each call of the history was answered as the book's definition answers it.
    pub fn is_served(&self) -> bool
        ensures served { result ≡ is_served (replayed T.opened self.now.calls) }
        ensures answered { AreAnswered T.opened self.now.calls }
    {
        let is_durable = self.core.durable() == self.core.accepted_count();
        self.core.fault().is_none() && is_durable && self.core.is_settled()
    }

    /// Shows that all shares that were given out together count all tickets and refusals. Nothing changes.
    pub fn audit(&mut self, shares: &mut [Share<T, R>])
        ensures counted { length shares.old ≡ self.old.pool.given → CountAll (replayed T.opened self.old.calls) self.old.calls shares.old }
        ensures same { self.new ≡ self.old }
        ensures shares { shares.new ≡ shares.old }
    {
        self.pool
            .audit(shares, &mut self.tickets, &mut self.refusals);
    }

    /// Whether these shares together count as many tickets as commands were accepted, and as many refusals as were counted.
    pub fn shares_match(&self, shares: &[Share<T, R>]) -> bool
        ensures { IsTrue result ↔ CountAll (replayed T.opened self.now.calls) self.now.calls shares.now }
    {
        let accepted = self.core.accepted_count();
        let refused = self.refused;
        let Some(tickets) = all_tickets(shares) else {
            return false;
        };
        let Some(refusals) = all_refusals(shares) else {
            return false;
        };
        tickets == accepted && refusals == refused
    }

    /// Whether each receipt has the durable command of its number, and no two have the same number.
    pub fn receipts_match(&self, receipts: &[Receipt]) -> bool
        ensures { IsTrue result ↔ AreReceiptsOf (replayed T.opened self.now.calls) receipts.now }
    {
        let durable = self.core.durable();
        stand_at_their_numbers(receipts, self.core.accepted(), durable) && are_separate(receipts)
    }

    /// Whether this log has exactly the disk actions that were handed out, with the outcomes that were reported.
    pub fn flusher_matches(&self, log: &[DiskEntry]) -> bool
        ensures { IsTrue result ↔ (log.now ≡ disk_log self.now.calls) }
    {
        are_same_actions(log, self.disk.as_slice())
    }

    /// Whether this log has exactly the process data cycles that were handed out.
    pub fn cycle_matches(&self, log: &CycleLog) -> bool
        ensures { IsTrue result ↔ (log.now ≡ cycle_log self.now.calls) }
    {
        log.notes().are_same(&self.cycle)
    }

    /// Whether no process data cycle was handed out.
    pub fn has_no_turns(&self) -> bool
        ensures { IsTrue result ↔ (cycle_log self.now.calls ≡ []) }
    {
        self.cycle.are_same(&CycleNotes::new(self.alloc))
    }

    /// Whether this is the log of slave `at`, with exactly the jobs that were handed out for it.
    fn worker_matches(&self, at: usize, log: &SlaveLog) -> bool
        requires { at < length (contents (base_of T.opened) (replayed T.opened self.now.calls).accepted) }
        ensures { IsTrue result ↔ IsWorkOf self.now.calls at log.now }
    {
        is_work_of(&self.slaves, at, log)
    }

    /// Whether there is one end for each slave, in the order of the line, with exactly the jobs that were handed out for it.
    ///
    /// If so, these jobs led each slave to where it is.
    pub fn workers_match<S: Site>(&self, workers: &[End<S, SlaveLog>]) -> bool
        ensures matches { IsTrue result ↔ AreWorkersOf T.opened self.now.calls workers.now }
        ensures worked { IsTrue result → AllWorked S.seen workers.now }
    {
        if workers.len() != self.contents().len() {
            return false;
        }
        for i in 0..workers.len() {
            if !self.worker_matches(i, workers[i].log()) {
                return false;
            }
        }
        true
    }
}
