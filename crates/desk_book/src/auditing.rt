//! What all shares of a desk count together.

ghost use Rattle.std.specs.Prelude.{◌≡◌, ◌+◌, length, sum_by};
ghost use Rattle.desk_book.specs.Serving.{ShareCounts};

use crate::naming::{Refusals, Tickets};
use crate::share::Share;
use std::sync::ledger;
use std::sync::ledger::Book;

/// Merges the ticket tokens of these shares into `rest`, and then gives them back.
///
/// Nothing changes. If together they are all parts of the ledger, the tickets that they count add up to its total.
pub(crate) fn lend_tickets<T: Tickets, R: Refusals>(
    shares: &mut [Share<T, R>],
    rest: &mut ledger::Share<T>,
    book: &mut Book<T>,
)
    ensures entire { rest.old.parts + length shares.old ≡ T.parts
        → rest.old.amount + sum_by (λ (s : ShareCounts). s.tickets) shares.old ≡ book.old.total }
    ensures parts { rest.new.parts ≡ rest.old.parts }
    ensures amount { rest.new.amount ≡ rest.old.amount }
    ensures total { book.new.total ≡ book.old.total }
    ensures shares { shares.new ≡ shares.old }
{
    book.audit(rest);
    let Some((first, others)) = shares.split_first_mut() else {
        return;
    };
    let count = first.tickets;
    first.ticket_token.give(rest, 1, count);
    lend_tickets(others, rest, book);
    rest.give(&mut first.ticket_token, 1, count);
}

/// Merges the refusal tokens of these shares into `rest`, and then gives them back.
///
/// Nothing changes. If together they are all parts of the ledger, the refusals that they count add up to its total.
pub(crate) fn lend_refusals<T: Tickets, R: Refusals>(
    shares: &mut [Share<T, R>],
    rest: &mut ledger::Share<R>,
    book: &mut Book<R>,
)
    ensures entire { rest.old.parts + length shares.old ≡ R.parts
        → rest.old.amount + sum_by (λ (s : ShareCounts). s.refusals) shares.old ≡ book.old.total }
    ensures parts { rest.new.parts ≡ rest.old.parts }
    ensures amount { rest.new.amount ≡ rest.old.amount }
    ensures total { book.new.total ≡ book.old.total }
    ensures shares { shares.new ≡ shares.old }
{
    book.audit(rest);
    let Some((first, others)) = shares.split_first_mut() else {
        return;
    };
    let count = first.refusals;
    first.refusal_token.give(rest, 1, count);
    lend_refusals(others, rest, book);
    rest.give(&mut first.refusal_token, 1, count);
}
