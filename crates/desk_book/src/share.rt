//! The right to submit at a desk.

ghost use Rattle.std.specs.Prelude.{◌≡◌, ◌+◌, ◌<◌, ◌^◌};

use crate::naming::{Refusals, Tickets};
use std::marker::Model;
use std::sync::ledger;
use std::sync::ledger::Book;

/// The right to submit at a desk, with one part of each of its ledgers. It counts the tickets and the refusals that it got.
#[derive(Drop)]
pub struct Share<T: Tickets, R: Refusals> {
    pub(crate) tickets: u64,
    pub(crate) refusals: u64,
    pub(crate) ticket_token: ledger::Share<T>,
    pub(crate) refusal_token: ledger::Share<R>,
}

impl<T: Tickets, R: Refusals> Model for Share<T, R> {
    ghost use Rattle.std.specs.Prelude.{◌≡◌};
    ghost use Rattle.desk_book.specs.Serving.{ShareCounts};
    ghost use Rattle.desk_book.specs.Tokens.{IsToken};

    ghost Value = { ShareCounts };

    ghost view = { λ s. record { tickets = s.tickets; refusals = s.refusals } };

    ghost invariant = { λ s. IsToken s.tickets s.ticket_token.parts s.ticket_token.amount
        × IsToken s.refusals s.refusal_token.parts s.refusal_token.amount };
}

impl<T: Tickets, R: Refusals> Share<T, R> {
    /// A share with one part of each ledger, which counts nothing yet.
    pub(crate) fn new(ticket_token: ledger::Share<T>, refusal_token: ledger::Share<R>) -> Self
        requires tickets { (ticket_token.parts ≡ 1) × (ticket_token.amount ≡ 0) }
        requires refusals { (refusal_token.parts ≡ 1) × (refusal_token.amount ≡ 0) }
        ensures { result ≡ record { tickets = 0; refusals = 0 } }
    {
        Share {
            tickets: 0,
            refusals: 0,
            ticket_token,
            refusal_token,
        }
    }

    /// How many tickets this share got.
    pub fn tickets(&self) -> u64
        ensures { result ≡ self.now.tickets }
    {
        self.tickets
    }

    /// How many refusals this share counts.
    pub fn refusals(&self) -> u64
        ensures { result ≡ self.now.refusals }
    {
        self.refusals
    }

    /// Counts one more ticket. The ledger's total has to stay below 2^64.
    pub(crate) fn count_ticket(&mut self, book: &mut Book<T>)
        requires { book.old.total + 1 < 2 ^ 64 }
        ensures total { book.new.total ≡ book.old.total + 1 }
        ensures counts { self.new ≡ record self.old { tickets = self.old.tickets + 1 } }
    {
        book.audit(&mut self.ticket_token);
        book.add(&mut self.ticket_token, 1);
        self.tickets += 1;
    }

    /// Counts one more refusal. The ledger's total has to stay below 2^64.
    pub(crate) fn count_refusal(&mut self, book: &mut Book<R>)
        requires { book.old.total + 1 < 2 ^ 64 }
        ensures few { book.old.total + 1 < 2 ^ 64 }
        ensures total { book.new.total ≡ book.old.total + 1 }
        ensures counts { self.new ≡ record self.old { refusals = self.old.refusals + 1 } }
    {
        book.audit(&mut self.refusal_token);
        book.add(&mut self.refusal_token, 1);
        self.refusals += 1;
    }
}
