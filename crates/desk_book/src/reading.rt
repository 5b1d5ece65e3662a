//! Reads the book's progress, and turns tickets into receipts.

ghost use Rattle.std.specs.Prelude.{◌≡◌, ◌↔◌, true, IsTrue, IfOk, IfErr, length};
ghost use Rattle.book_model.specs.Book.{is_closed};
ghost use Rattle.book_model.specs.Reading.{status};
ghost use Rattle.desk_book.specs.Calls.{replayed, AreAnswered};
ghost use Rattle.desk_book.specs.Closing.{StandsAt};
ghost use Rattle.desk_book.specs.Waiting.{is_pending};

use crate::counting::stands_at;
use crate::naming::{Refusals, Tickets};
use crate::served::Served;
use crate::ticket::{Receipt, Ticket, Unacknowledged};
use book_model::{Fault, Status};
use std::mem::replace;

impl<T: Tickets, R: Refusals> Served<T, R> {
    /// How many commands are accepted, durable and settled, and how many bytes of the journal are live.
    pub fn status(&self) -> Status
        ensures { result ≡ status (replayed T.opened self.now.calls) }
    {
        self.core.status()
    }

    /// The status that this answered last, or at first that of the open, and the status now.
    ///
    /// Looking for the settled prefix takes a time that grows with the slaves, so who compares the status before a call and after it
    /// asks once for both.
    pub fn progress(&mut self) -> (Status, Status)
        ensures before { result.0 ≡ self.old.seen }
        ensures now { result.1 ≡ status (replayed T.opened self.old.calls) }
        ensures seen { self.new ≡ record self.old { seen = status (replayed T.opened self.old.calls) } }
    {
        let now = self.core.status();
        (replace(&mut self.seen, now), now)
    }

    /// How many slaves the line has.
    pub fn slaves(&self) -> usize
        ensures { result ≡ length T.opened.words }
    {
        self.slaves.len()
    }

    /// The fault that has closed the book, if there is one.
    pub fn fault(&self) -> Option<Fault>
        ensures { result ≡ (replayed T.opened self.now.calls).fault }
    {
        self.core.fault()
    }

    /// Whether the book accepts no commands: it was finished, or it has a fault.
    pub fn is_closed(&self) -> bool
        ensures { result ≡ is_closed (replayed T.opened self.now.calls) }
    {
        self.core.is_finished() || self.core.fault().is_some()
    }

    /// Whether the command of this number was accepted and isn't durable yet, and the book has no fault.
    pub fn is_pending(&self, number: u64) -> bool
        ensures { result ≡ is_pending (replayed T.opened self.now.calls) number }
    {
        let fault = self.core.fault();
        fault.is_none() && self.core.durable() <= number && number < self.core.accepted_count()
    }

    /// Notes that memory stays refused, so that the jobs stop. The book isn't told.
    pub fn stop_for_memory(&mut self)
        ensures { self.new ≡ record self.old { has_stopped = true } }
    {
        self.is_out_of_memory = true;
    }

    /// Whether the jobs have stopped for want of memory.
    pub fn is_out_of_memory(&self) -> bool
        ensures { result ≡ self.now.has_stopped }
    {
        self.is_out_of_memory
    }

    /// Whether the ticket's command is the accepted one of its number, and durable.
    fn is_durable(&self, ticket: &Ticket) -> bool
        ensures answered { AreAnswered T.opened self.now.calls }
        ensures stands { IsTrue result
            ↔ StandsAt (replayed T.opened self.now.calls).accepted (replayed T.opened self.now.calls).durable ticket.now }
    {
        let durable = self.core.durable();
        stands_at(
            ticket.number(),
            ticket.command(),
            self.core.accepted(),
            durable,
        )
    }

    /// Turns a ticket whose command is durable into its receipt.
    ///
    /// # Errors
    ///
    /// The ticket is handed back: its command isn't durable, or the book's command of this number is another one, because the ticket is
    /// of another desk.
    pub fn receipt(&self, ticket: Ticket) -> Result<Receipt, Unacknowledged>
        ensures receipt { IfOk result (λ receipt. receipt ≡ ticket) }
        ensures stands { IfOk result
            (λ receipt. StandsAt (replayed T.opened self.now.calls).accepted (replayed T.opened self.now.calls).durable receipt) }
        ensures answered { AreAnswered T.opened self.now.calls }
        ensures refused { IfErr result
            (λ refused. ¬ StandsAt (replayed T.opened self.now.calls).accepted (replayed T.opened self.now.calls).durable ticket) }
        ensures handed_back { IfErr result (λ refused. refused.ticket ≡ ticket) }
    {
        if !self.is_durable(&ticket) {
            return Err(Unacknowledged { ticket });
        }
        let Ticket { number, command } = ticket;
        Ok(Receipt { number, command })
    }
}
