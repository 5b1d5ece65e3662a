//! The client of a desk that submits the commands of a script.

ghost use Rattle.std.specs.Prelude.{◌≡◌, None};

use crate::asked::NamesCommands;
use crate::submitting::submit_and_wait;
use crate::work::Work;
use sii_edit::Command;
use station_files::Fault;
use station_line::Answered;
use station_threads::{Client, Desk, Receipt, Refusals, Share, Tickets};
use std::alloc::Global;
use std::io::Write;
use std::marker::{Model, PhantomData};
use std::mem::replace;
use std::sync::Wait;
use std::thread::Threads;

/// A client that submits the commands of the type `C` once. Contracts see the counts of its share, how the commands were answered, and its
/// result, once it has submitted.
#[derive(Drop)]
pub(crate) struct Submitter<'o, T: Tickets, R: Refusals, C: NamesCommands, O: Write> {
    pub(crate) alloc: Global,
    /// The commands; none once they are submitted.
    pub(crate) commands: Vec<Command>,
    /// Whether it prints how many are durable and settled, as it happens.
    pub(crate) tells_events: bool,
    pub(crate) output: &'o mut O,
    pub(crate) share: Share<T, R>,
    pub(crate) answered: Answered,
    pub(crate) came: Option<Result<Vec<Receipt>, Fault>>,
    pub(crate) of: PhantomData<C>,
}

impl<'o, T: Tickets, R: Refusals, C: NamesCommands, O: Write> Model for Submitter<'o, T, R, C, O> {
    ghost use Rattle.std.specs.Prelude.{◌≡◌, false, is_some};
    ghost use Rattle.script_session.specs.Asking.{ComesTo, Submission};

    ghost Value = { Submission };

    ghost view = { λ s. record { counts = s.share; answered = s.answered; came = s.came } };

    ghost invariant = { λ s. (is_some s.came ≡ false → s.commands.items ≡ C.commands) × ComesTo C.commands s.answered s.share s.came };
}

impl<'o, T: Tickets, R: Refusals, C: NamesCommands, O: Write> Client<T, R>
    for Submitter<'o, T, R, C, O> {
    fn drive<W: Wait + Threads + Sync>(&mut self, rt: &W, desk: &Desk<T, R>) {
        if self.came.is_some() {
            return;
        }
        let commands = replace(&mut self.commands, Vec::new(self.alloc));
        let came = submit_and_wait(
            rt,
            self.alloc,
            desk,
            &mut self.share,
            Work {
                commands,
                tells_events: self.tells_events,
            },
            self.output,
            &mut self.answered,
        );
        self.came = Some(came);
    }
}
