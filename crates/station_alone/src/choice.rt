use book_model::{Fault, SubmitRefusal};
use sii_edit::Command;

/// A step of a station, as its caller chooses it.
#[derive(Drop)]
pub enum Choice {
    /// Submit this command.
    Submit(Command),
    /// Carry out the book's next action for the disk.
    Disk,
    /// Carry out the book's next action for this slave, numbered from 0: issue its next word, or settle the word that was issued.
    Rom(u16),
    /// Ask for the migration of an old journal to version 2, which begins once nothing is live.
    Migrate,
}

/// The outcome of a step.
#[derive(Clone, Copy, PartialEq, Eq)]
pub enum Answer {
    /// The command was accepted. Its number is counted from 0 at the open.
    Accepted(u64),
    /// The command was refused for this reason.
    Refused(SubmitRefusal),
    /// The action was carried out, or the migration was asked for.
    Did,
    /// There was nothing to do now, or no migration to ask for.
    Idle,
    /// There is nothing more to do: the book is closed, or there is no such slave.
    Ended,
    /// The action failed, and this fault has closed the book.
    Failed(Fault),
    /// Memory was refused, and nothing has changed.
    NoMemory,
}
