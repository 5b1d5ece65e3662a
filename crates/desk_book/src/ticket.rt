//! What a submitter gets: tickets, receipts and refusals.

ghost use Rattle.std.specs.Prelude.{◌≡◌};

use book_model::SubmitRefusal;
use sii_edit::Command;
use std::marker::Model;
use thiserror::Error;

/// An accepted command, with its number, counted from 0 in the order of acceptance.
#[derive(Drop)]
pub struct Ticket {
    pub(crate) number: u64,
    pub(crate) command: Command,
}

impl Model for Ticket {
    ghost use Rattle.desk_book.specs.Numbered.{Numbered};

    ghost Value = { Numbered };

    ghost view = { λ ticket. record { number = ticket.number; command = ticket.command } };
}

/// The acknowledgement of a durable command: the command with its number.
#[derive(Drop)]
pub struct Receipt {
    pub(crate) number: u64,
    pub(crate) command: Command,
}

impl Model for Receipt {
    ghost use Rattle.desk_book.specs.Numbered.{Numbered};

    ghost Value = { Numbered };

    ghost view = { λ receipt. record { number = receipt.number; command = receipt.command } };
}

/// A command that wasn't accepted, and why.
#[derive(Drop)]
pub struct Refused {
    /// Why the command wasn't accepted.
    pub refusal: SubmitRefusal,
    /// The command, handed back.
    pub command: Command,
}

/// A ticket that got no receipt. Its command may be durable or not.
#[derive(Drop)]
pub struct Unacknowledged {
    /// The ticket, handed back.
    pub ticket: Ticket,
}

/// Why no share was given out.
#[derive(Clone, Copy, Debug, PartialEq, Eq, Error)]
pub enum ShareFault {
    /// The desk has no more shares to give out.
    #[error("no share is left")]
    NoShare,
}

impl Ticket {
    /// The number of the command, counted from 0.
    pub fn number(&self) -> u64
        ensures { result ≡ self.now.number }
    {
        self.number
    }

    /// The command.
    pub fn command(&self) -> &Command
        ensures { result.now ≡ self.now.command }
    {
        &self.command
    }
}

impl Receipt {
    /// The number of the command, counted from 0.
    pub fn number(&self) -> u64
        ensures { result ≡ self.now.number }
    {
        self.number
    }

    /// The command.
    pub fn command(&self) -> &Command
        ensures { result.now ≡ self.now.command }
    {
        &self.command
    }
}
