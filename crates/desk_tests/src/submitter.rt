//! The submitters of a desk while its line is served.

ghost use denote.Param.Send.{IsSync};

use crate::memory::{Memory, room};
use crate::session::Scenario;
use book_model::SubmitRefusal;
use runner_cases::asks::{Ask, command};
use sii_edit::Cause;
use station_threads::{Client, Desk, Receipt, Refusals, Refused, Share, Ticket, Tickets};
use std::alloc::Global;
use std::process::Abort;
use std::sync::Wait;
use std::thread::{JoinHandle, Scope, Threads};

/// When a submitter waits for its commands.
#[derive(Clone, Copy)]
pub(crate) enum Pace {
    /// For each command before it submits the next.
    OneByOne,
    /// After all commands are submitted.
    Together,
    /// After all commands are submitted, which is done before the line is served.
    Queued,
}

/// A submitter with its share.
#[derive(Drop)]
pub(crate) struct Submitter<T: Tickets, R: Refusals> {
    alloc: Global,
    share: Share<T, R>,
    asks: &'static [Ask],
    rounds: usize,
    pace: Pace,
    tickets: Vec<Ticket>,
    receipts: Vec<Receipt>,
}

/// Whether memory was refused.
fn is_out_of_memory(refused: Refused) -> bool {
    let Refused { refusal, command } = refused;
    drop(command);
    match refusal {
        SubmitRefusal::Command(refusal) => refusal.cause == Cause::Memory,
        _ => false,
    }
}

impl<T: Tickets, R: Refusals> Submitter<T, R> {
    /// A submitter of these commands, which has submitted those that are for the time before serving.
    pub(crate) fn new<W: Wait + Abort>(
        rt: &W,
        alloc: Global,
        desk: &Desk<T, R>,
        share: Share<T, R>,
        scenario: &Scenario,
        asks: &'static [Ask],
    ) -> Self {
        let count = asks.len().saturating_mul(scenario.rounds);
        let mut submitter = Submitter {
            alloc,
            share,
            asks,
            rounds: scenario.rounds,
            pace: scenario.pace,
            tickets: room(rt, alloc, count),
            receipts: room(rt, alloc, count),
        };
        if matches!(scenario.pace, Pace::Queued) {
            let tries = match scenario.memory {
                Memory::Ample => 1,
                Memory::RefusedOnce => 2,
            };
            submitter.submit_rounds(rt, desk, tries);
        }
        submitter
    }

    /// Submits the command that is asked for. False, with nothing changed, if memory was refused.
    fn is_submitted<W: Wait>(&mut self, rt: &W, desk: &Desk<T, R>, ask: &Ask) -> bool {
        let Some(asked) = command(self.alloc, ask) else {
            return false;
        };
        match desk.submit(rt, &mut self.share, asked) {
            Ok(ticket) => self.tickets.push(ticket).is_ok(),
            Err(refused) => !is_out_of_memory(refused),
        }
    }

    /// Waits for all submitted commands, and keeps the receipts of those that are acknowledged.
    pub(crate) fn wait_all<W: Wait>(&mut self, rt: &W, desk: &Desk<T, R>) {
        while let Some(ticket) = self.tickets.pop() {
            if let Some(receipt) = desk.wait(rt, ticket).ok() {
                drop(self.receipts.push(receipt));
            }
        }
    }

    /// Submits all commands once, each in so many tries if memory is refused, and waits for each if the pace is `OneByOne`.
    fn submit_all<W: Wait>(&mut self, rt: &W, desk: &Desk<T, R>, tries: u32) {
        for ask in self.asks {
            for _try in 0..tries {
                if self.is_submitted(rt, desk, ask) {
                    break;
                }
            }
            if matches!(self.pace, Pace::OneByOne) {
                self.wait_all(rt, desk);
            }
        }
    }

    /// Submits the commands in all rounds, each in so many tries if memory is refused.
    fn submit_rounds<W: Wait>(&mut self, rt: &W, desk: &Desk<T, R>, tries: u32) {
        for _round in 0..self.rounds {
            self.submit_all(rt, desk, tries);
        }
    }

    /// Submits the commands once the line is served, unless they were queued before. Memory is ample then.
    fn submit_served<W: Wait>(&mut self, rt: &W, desk: &Desk<T, R>) {
        if !matches!(self.pace, Pace::Queued) {
            self.submit_rounds(rt, desk, 1);
        }
    }

    /// The submitter's share and receipts.
    pub(crate) fn into_parts(self) -> (Share<T, R>, Vec<Receipt>) {
        let Submitter {
            share,
            receipts,
            ..
        } = self;
        (share, receipts)
    }
}

/// A submitter on its thread. If that couldn't be created, one that has submitted already.
type Started<T, R> = Result<JoinHandle<Submitter<T, R>>, Submitter<T, R>>;

/// Starts a submitter's thread. If it can't be created, it submits here, before the line is served, and waits for nothing.
pub(crate) fn start_submitting<
    's,
    E,
    T: Tickets + Send + Sync + 's,
    R: Refusals + Send + Sync + 's,
    W: Wait + Threads + Sync,
>(
    scope: &'s Scope<'s, E>,
    rt: &'s W,
    desk: &'s Desk<T, R>,
    submitter: Submitter<T, R>,
) -> Started<T, R> {
    let submits = move || -> Submitter<T, R>
        requires { IsSync W.row }
    {
        let mut own = submitter;
        own.submit_served(rt, desk);
        own
    };
    match scope.spawn(submits) {
        Ok(handle) => Ok(handle),
        Err(refused) => Err((refused.value)()),
    }
}

/// Waits for the end of a submitter's thread, if it has one.
pub(crate) fn ended<T: Tickets, R: Refusals, W: Threads>(
    rt: &W,
    started: Started<T, R>,
) -> Submitter<T, R> {
    match started {
        Ok(handle) => handle.join(rt),
        Err(submitter) => submitter,
    }
}

/// Waits until `accepted` commands are accepted, or the desk accepts no more.
fn wait_for_others<T: Tickets, R: Refusals, W: Wait>(rt: &W, desk: &Desk<T, R>, accepted: u64) {
    for _ in rt.forever() {
        let seen = desk.status(rt);
        if seen.accepted >= accepted || desk.changed(rt, &seen) == seen {
            break;
        }
    }
}

/// Submits on the thread that serves the line, and then waits until `accepted` commands of all submitters are accepted.
#[derive(Drop)]
pub(crate) struct Driver<T: Tickets, R: Refusals> {
    pub(crate) submitter: Submitter<T, R>,
    pub(crate) accepted: u64,
}

impl<T: Tickets, R: Refusals> Client<T, R> for Driver<T, R> {
    fn drive<W: Wait + Threads + Sync>(&mut self, rt: &W, desk: &Desk<T, R>) {
        self.submitter.submit_served(rt, desk);
        self.submitter.wait_all(rt, desk);
        wait_for_others(rt, desk, self.accepted);
    }
}
