//! The types that stand for a desk in contracts: its two ledgers.

ghost use Rattle.std.specs.Prelude.{◌≡◌};

use std::marker::{Brand, Model};
use std::sync::ledger::{Blank, Ledger};

/// The ledger of a desk's tickets. Its type stands for the desk, and says which book the desk was made of.
pub trait Tickets: Ledger {
    ghost use Rattle.book_model.specs.Book.{Book};

    /// The book that the desk was made of.
    ghost opened: { Book };
}

/// The ledger of a desk's refusals.
pub trait Refusals: Ledger {}

impl Tickets for Brand {
    ghost use Rattle.desk_book.specs.Nothing.{no_book};

    ghost opened = { no_book };
}

impl Refusals for Brand {}

/// A ledger that isn't opened yet. Contracts see its name, and into how many parts it is cut.
#[derive(Drop)]
pub struct BlankLedger {
    blank: Blank,
    count: u64,
}

impl Model for BlankLedger {
    ghost use Rattle.std.specs.Prelude.{◌≡◌};
    ghost use Rattle.desk_book.specs.Tokens.{Cut};

    ghost Value = { Cut };

    ghost view = { λ parts. record { name = parts.blank.name; count = parts.count } };

    ghost invariant = { λ parts. parts.blank.parts ≡ parts.count };
}

impl BlankLedger {
    /// A ledger of `count` parts. Each share of a desk takes one, and the desk keeps the last.
    pub fn new(count: u64) -> BlankLedger
        ensures { result.count ≡ count }
    {
        BlankLedger {
            blank: Blank::new(count),
            count,
        }
    }

    /// The ledger, and into how many parts it is cut.
    pub(crate) fn into_blank(self) -> (Blank, u64)
        ensures name { result.0.name ≡ self.name }
        ensures parts { result.0.parts ≡ self.count }
        ensures count { result.1 ≡ self.count }
    {
        let BlankLedger { blank, count } = self;
        (blank, count)
    }
}
