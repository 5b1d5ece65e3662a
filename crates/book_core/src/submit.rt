ghost use Rattle.std.specs.Prelude.{◌≡◌, ◌≤◌, ◌<◌, ◌^◌, ◌+◌, Ok, List, length, All, true, nat_lt, IfOk, OnOk, OnErr};

use crate::book::Core;
use book_model::{QUEUE, SubmitRefusal};
use book_parts::entry_bytes;
use jrn_format::Form;
use sii_edit::{Change, Command};
use std::alloc::AllocError;

/// How many runs a command has at most: its count has 16 bits.
const MOST_RUNS: usize = 65_535;

/// How many bytes a batch of one command has around the command's own, with the closed gate at its end.
const AROUND: u64 = 9;

impl Core {
    ghost use Rattle.sii_words.specs.declared.run.Run.{Run};
    ghost use Rattle.jrn_format.specs.Batch.{entry_size};
    ghost use Rattle.book_model.specs.Book.{contents_of};
    ghost use Rattle.book_model.specs.Submit.{IsSubmitted, is_full, with_command};
    ghost use Rattle.book_parts.specs.Change.{IsChangeOf, IsShort};
    ghost use Rattle.book_core.specs.Submit.{room_for};

    /// Accepts the command and queues it. Returns its number, counted from 0.
    ///
    /// Only the words of the slaves that the command names are read and copied.
    ///
    /// # Errors
    ///
    /// In this order: `Closed` if the book is finished or has a fault; `OldJournal` if the journal isn't of version 2; `Command` if the
    /// command is refused on the contents after all accepted ones; `TooLarge` if it has more than 65,535 runs, or an empty half can't
    /// hold it; `Full` if 1,024 commands are queued, 2⁶⁴ - 1 were accepted, or no half has room for the queue and this command.
    ///
    /// Out of memory is a `Command` refusal too. It may come in place of any answer but the first two. The book stays as it is.
    pub fn submit(&mut self, command: &Command) -> Result<u64, SubmitRefusal>
        ensures answer { IsSubmitted self.old command.now result }
        ensures accepted { OnOk result (self.new ≡ with_command self.old command.now) }
        ensures refused { OnErr result (self.new ≡ self.old) }
    {
        if self.is_finished || self.fault.is_some() {
            return Err(SubmitRefusal::Closed);
        }
        if self.area.form() != Form::Two {
            return Err(SubmitRefusal::OldJournal);
        }
        let change = self.ledger.validate(command)?;
        self.validate_room(&change)?;
        let number = self.accept(command, change)?;
        Ok(number)
    }

    /// Whether there is room for a command with this change.
    ///
    /// # Errors
    ///
    /// `TooLarge`: an empty half can't hold it, or it has more runs than can be counted. Then `Full`.
    fn validate_room(&self, change: &Change) -> Result<(), SubmitRefusal>
        requires form { self.now.form ≡ Form.Two }
        requires short { All IsShort change.now.runs.items }
        ensures { result ≡ room_for self.now change.now.runs.items }
    {
        if change.runs.len() > MOST_RUNS {
            return Err(SubmitRefusal::TooLarge);
        }
        let bytes = u64::from(entry_bytes(change));
        if bytes + AROUND > u64::from(self.area.capacity() / 2) {
            return Err(SubmitRefusal::TooLarge);
        }
        if self.is_full(bytes) {
            return Err(SubmitRefusal::Full);
        }
        Ok(())
    }

    /// Whether there is no room for a command of `bytes` bytes after the queue. A batch that is being appended counts as live.
    fn is_full(&self, bytes: u64) -> bool
        requires form { self.now.form ≡ Form.Two }
        requires few { bytes < 2 ^ 32 }
        ensures { (runs : List Run) → entry_size runs ≡ bytes → result ≡ is_full self.now runs }
    {
        if self.ledger.queued().len() >= QUEUE || self.ledger.len() == u64::MAX {
            return true;
        }
        let bytes = self.ledger.queued_bytes() + bytes;
        let spot = match self.step.spot() {
            Some(spot) => self
                .area
                .place_after(spot, self.ledger.appended_bytes(), bytes),
            None => self.area.place_of(bytes),
        };
        spot.is_none()
    }

    /// Accepts the command, for which there is room.
    fn accept(&mut self, command: &Command, change: Change) -> Result<u64, AllocError>
        requires form { self.old.form ≡ Form.Two }
        requires change { IsChangeOf (contents_of self.old) command.now change }
        requires room { room_for self.old change.runs.items ≡ Ok tt }
        ensures number { IfOk result (λ number. number ≡ length self.old.accepted) }
        ensures accepted { OnOk result (self.new ≡ with_command self.old command.now) }
        ensures refused { OnErr result (self.new ≡ self.old) }
    {
        let number = self.ledger.accept(command, change)?;
        Ok(number)
    }
}
