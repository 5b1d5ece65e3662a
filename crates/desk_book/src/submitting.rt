//! Submits commands, and counts their tickets and refusals.

ghost use Rattle.std.specs.Prelude.{◌≡◌, IfOk, IfErr};
ghost use Rattle.desk_book.specs.Calls.{replayed};
ghost use Rattle.desk_book.specs.Submitting.{Submits, answer_of, is_out_of_memory};

use crate::call::{Call, Recalled};
use crate::handing::note;
use crate::naming::{Refusals, Tickets};
use crate::served::Served;
use crate::share::Share;
use crate::ticket::{Refused, Ticket};
use book_model::SubmitRefusal;
use sii_edit::{Cause, Command, Refusal};

/// Whether the command was refused because memory was.
pub(crate) fn is_out_of_memory(refusal: SubmitRefusal) -> bool
    ensures { result ≡ is_out_of_memory refusal }
{
    match refusal {
        SubmitRefusal::Command(Refusal { cause, .. }) => matches!(cause, Cause::Memory),
        _ => false,
    }
}

impl<T: Tickets, R: Refusals> Served<T, R> {
    /// Submits the command to the book, and counts its ticket or its refusal in the share. Answers its number.
    ///
    /// # Errors
    ///
    /// Those of `submit`, but the caller keeps the command.
    fn ask(&mut self, share: &mut Share<T, R>, command: &Command) -> Result<u64, SubmitRefusal>
        ensures { Submits (replayed T.opened self.old.calls) command.now result self.old share.old self.new share.new }
    {
        if self.refused == u64::MAX {
            return Err(SubmitRefusal::Full);
        }
        let answer = self.core.submit(command);
        match answer {
            Ok(number) => {
                note(
                    &mut self.history,
                    Call::Submitted {
                        command: Recalled::of(command),
                        answer,
                    },
                );
                share.count_ticket(&mut self.tickets);
                return Ok(number);
            }
            Err(refusal) => {
                if is_out_of_memory(refusal) {
                    return Err(refusal);
                }
                note(
                    &mut self.history,
                    Call::Submitted {
                        command: Recalled::of(command),
                        answer,
                    },
                );
                share.count_refusal(&mut self.refusals);
                self.refused += 1;
                return Err(refusal);
            }
        }
    }
    /// Submits a command. Answers a ticket for it, which the share counts.
    ///
    /// # Errors
    ///
    /// The command is handed back, and the book is unchanged. The first that applies is the reason: `Full`, once all shares together
    /// count `u64::MAX` refusals; `Closed`; `OldJournal`; `Command`, with what is wrong with it on the current contents; `TooLarge`;
    /// `Full`. Where memory was refused, the reason is `Command` with the cause `Memory`, in place of any but the first three. The share
    /// counts each refusal, except the first kind of `Full` and those for memory.
    pub fn submit(&mut self, share: &mut Share<T, R>, command: Command) -> Result<Ticket, Refused>
        ensures answer { Submits (replayed T.opened self.old.calls) command (answer_of result) self.old share.old self.new share.new }
        ensures command { IfOk result (λ ticket. ticket.command ≡ command) }
        ensures handed_back { IfErr result (λ refused. refused.command ≡ command) }
    {
        match self.ask(share, &command) {
            Ok(number) => return Ok(Ticket { number, command }),
            Err(refusal) => return Err(Refused { refusal, command }),
        }
    }
}
