//! The parts of a desk's ledgers that no share has.

ghost use Rattle.std.specs.Prelude.{◌≡◌, ◌+◌, ◌-◌, ◌<◌, ◌≤◌, ◌⊎◌, length, sum_by, IfSome, IfNone, OnSome};
ghost use Rattle.desk_book.specs.Serving.{ShareCounts};

use crate::auditing::{lend_refusals, lend_tickets};
use crate::naming::{BlankLedger, Refusals, Tickets};
use crate::share::Share;
use std::marker::Model;
use std::sync::ledger;
use std::sync::ledger::Book;

/// The parts of the two ledgers that aren't given out. Contracts see their numbers, and how many shares are given out.
#[derive(Drop)]
pub struct Pool<T: Tickets, R: Refusals> {
    pub(crate) tickets: ledger::Share<T>,
    pub(crate) refusals: ledger::Share<R>,
    ticket_parts: u64,
    refusal_parts: u64,
    given: u64,
}

impl<T: Tickets, R: Refusals> Model for Pool<T, R> {
    ghost use Rattle.desk_book.specs.Serving.{Pooled};
    ghost use Rattle.desk_book.specs.Tokens.{IsRest};

    ghost Value = { Pooled };

    ghost view = { λ pool. record { tickets = pool.ticket_parts; refusals = pool.refusal_parts; given = pool.given } };

    ghost invariant = { λ pool. IsRest T.parts pool.tickets.parts pool.tickets.amount pool.ticket_parts pool.given
        × IsRest R.parts pool.refusals.parts pool.refusals.amount pool.refusal_parts pool.given };
}

impl<T: Tickets, R: Refusals> Pool<T, R> {
    /// Opens the two ledgers, with nothing given out.
    pub(crate) fn open(
        tickets: BlankLedger,
        refusals: BlankLedger,
    ) -> (Book<T>, Book<R>, Pool<T, R>)
        requires tickets { (tickets.name ≡ T.name) × (tickets.count ≡ T.parts) }
        requires refusals { (refusals.name ≡ R.name) × (refusals.count ≡ R.parts) }
        ensures totals { (result.0.total ≡ 0) × (result.1.total ≡ 0) }
        ensures pool { result.2 ≡ record { tickets = tickets.count; refusals = refusals.count; given = 0 } }
    {
        let (ticket_blank, ticket_parts) = tickets.into_blank();
        let (refusal_blank, refusal_parts) = refusals.into_blank();
        let (ticket_book, ticket_rest) = ticket_blank.open::<T>();
        let (refusal_book, refusal_rest) = refusal_blank.open::<R>();
        let pool = Pool {
            tickets: ticket_rest,
            refusals: refusal_rest,
            ticket_parts,
            refusal_parts,
            given: 0,
        };
        (ticket_book, refusal_book, pool)
    }

    /// How many shares are given out.
    pub(crate) fn given(&self) -> u64
        ensures { result ≡ self.now.given }
    {
        self.given
    }

    /// Gives out a share with one part of each ledger. `None` if one of them has at most one part left.
    pub(crate) fn share(&mut self) -> Option<Share<T, R>>
        ensures some { OnSome result ((1 < self.old.tickets) × (1 < self.old.refusals)) }
        ensures share { IfSome result (λ share. share ≡ record { tickets = 0; refusals = 0 }) }
        ensures given { OnSome result (self.new
            ≡ record { tickets = self.old.tickets - 1; refusals = self.old.refusals - 1; given = self.old.given + 1 }) }
        ensures none { IfNone result ((self.old.tickets ≤ 1) ⊎ (self.old.refusals ≤ 1)) }
        ensures same { IfNone result (self.new ≡ self.old) }
    {
        if self.ticket_parts <= 1 || self.refusal_parts <= 1 {
            return None;
        }
        let ticket_token = self.tickets.split_off(1, 0);
        let refusal_token = self.refusals.split_off(1, 0);
        self.ticket_parts -= 1;
        self.refusal_parts -= 1;
        self.given += 1;
        Some(Share::new(ticket_token, refusal_token))
    }

    /// Shows that all shares that were given out together count the totals of the ledgers. Nothing changes.
    pub(crate) fn audit(
        &mut self,
        shares: &mut [Share<T, R>],
        tickets: &mut Book<T>,
        refusals: &mut Book<R>,
    )
        ensures tickets { length shares.old ≡ self.old.given → sum_by (λ (s : ShareCounts). s.tickets) shares.old ≡ tickets.old.total }
        ensures refusals { length shares.old ≡ self.old.given → sum_by (λ (s : ShareCounts). s.refusals) shares.old ≡ refusals.old.total }
        ensures ticket_total { tickets.new.total ≡ tickets.old.total }
        ensures refusal_total { refusals.new.total ≡ refusals.old.total }
        ensures same { self.new ≡ self.old }
        ensures shares { shares.new ≡ shares.old }
    {
        lend_tickets(shares, &mut self.tickets, tickets);
        lend_refusals(shares, &mut self.refusals, refusals);
    }
}
