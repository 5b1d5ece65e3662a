//! Submits commands at a desk, one by one, and waits for their receipts.

ghost use Rattle.std.specs.Prelude.{◌≡◌, ◌+◌, ◌++◌, option_to_list, IfErr, IfOk, OnOk};
ghost use Rattle.station_files.specs.Faults.{IsOfStream};
ghost use Rattle.script_session.specs.Asking.{AreInOrder, Asks, AsksAll, GivesUp, Receives};

use crate::events::tell_events;
use crate::work::Work;
use book_model::{Status, SubmitRefusal};
use sii_edit::{Cause, Command, Refusal};
use station_files::Fault;
use station_line::{Answered, print_accepted, print_refused, refused_as};
use station_threads::{Desk, Receipt, Refusals, Refused, Share, Ticket, Tickets};
use std::alloc::Global;
use std::io::Write;
use std::sync::Wait;

/// The refusal of a command for which memory was refused.
const NO_MEMORY: SubmitRefusal = SubmitRefusal::Command(Refusal {
    cause: Cause::Memory,
    position: None,
});

/// Submits a command. While the book is full, it waits until the book has changed and submits the command again. It is refused with
/// `Memory` where the desk has stopped for want of memory.
///
/// The desk is asked for its status only once the book was full, and then the command is submitted again before it waits, since the book
/// may have changed in between.
fn ask<T: Tickets, R: Refusals, W: Wait>(
    rt: &W,
    desk: &Desk<T, R>,
    share: &mut Share<T, R>,
    command: Command,
) -> Result<Ticket, SubmitRefusal>
    ensures command { IfOk result (λ ticket. ticket.command ≡ command) }
    ensures counted { IfOk result (λ ticket. share.new.tickets ≡ share.old.tickets + 1) }
    ensures uncounted { IfErr result (λ refusal. share.new.tickets ≡ share.old.tickets) }
{
    let mut asked = command;
    let mut seen = None;
    for _try in rt.forever() {
        match desk.submit(rt, share, asked) {
            Ok(ticket) => return Ok(ticket),
            Err(refused) => {
                let Refused { refusal, command } = refused;
                if refusal != SubmitRefusal::Full {
                    drop(command);
                    return Err(refusal);
                }
                seen = Some(status_after(rt, desk, seen));
                if desk.is_out_of_memory(rt) {
                    drop(command);
                    return Err(NO_MEMORY);
                }
                asked = command;
            }
        }
    }
    unreachable!()
}

/// The desk's status, once it differs from the one that was seen before, if one was.
fn status_after<T: Tickets, R: Refusals, W: Wait>(
    rt: &W,
    desk: &Desk<T, R>,
    seen: Option<Status>,
) -> Status {
    match seen {
        Some(seen) => desk.changed(rt, &seen),
        None => desk.status(rt),
    }
}

/// Submits the command at position `place` of the script, and prints the answer.
fn ask_one<T: Tickets, R: Refusals, O: Write, W: Wait>(
    rt: &W,
    desk: &Desk<T, R>,
    share: &mut Share<T, R>,
    place: usize,
    command: Command,
    output: &mut O,
    answered: &mut Answered,
) -> Result<Option<Ticket>, Fault>
    ensures asked { IfOk result (λ ticket. Asks command answered.old answered.new share.old share.new ticket) }
    ensures failed { IfErr result IsOfStream }
{
    match ask(rt, desk, share, command) {
        Ok(ticket) => match print_accepted(place, ticket.number(), output) {
            Ok(()) => Ok(Some(ticket)),
            Err(fault) => {
                drop(ticket);
                Err(fault)
            }
        },
        Err(refusal) => {
            print_refused(place, refused_as(refusal), output, answered)?;
            Ok(None)
        }
    }
}

/// Appends the ticket, if there is one.
fn keep(tickets: &mut Vec<Ticket>, asked: Option<Ticket>) -> Result<(), Fault>
    ensures kept { OnOk result (tickets.new.items ≡ tickets.old.items ++ option_to_list asked) }
    ensures failed { IfErr result IsOfStream }
{
    match asked {
        Some(ticket) => {
            tickets.push(ticket)?;
            Ok(())
        }
        None => Ok(()),
    }
}

/// Submits the commands in order, and prints the answer to each. Returns the tickets of the accepted ones.
fn ask_all<T: Tickets, R: Refusals, O: Write, W: Wait>(
    rt: &W,
    alloc: Global,
    desk: &Desk<T, R>,
    share: &mut Share<T, R>,
    commands: Vec<Command>,
    output: &mut O,
    answered: &mut Answered,
) -> Result<Vec<Ticket>, Fault>
    ensures asked { IfOk result (λ tickets. AsksAll commands.items answered.old answered.new share.old share.new tickets.items) }
    ensures failed { IfErr result IsOfStream }
{
    let mut tickets = Vec::with_capacity(alloc, commands.len())?;
    let mut place = 0usize;
    for command in commands {
        let asked = ask_one(rt, desk, share, place, command, output, answered)?;
        keep(&mut tickets, asked)?;
        place = place.saturating_add(1);
    }
    Ok(tickets)
}

/// Waits until the command of this ticket is durable. A ticket with another number than `number` gives `Unserved`.
fn receive<T: Tickets, R: Refusals, W: Wait>(
    rt: &W,
    desk: &Desk<T, R>,
    ticket: Ticket,
    number: u64,
) -> Result<Receipt, Fault>
    ensures same { IfOk result (λ receipt. receipt ≡ ticket) }
    ensures number { IfOk result (λ receipt. receipt.number ≡ number) }
    ensures failed { IfErr result GivesUp }
{
    let receipt = match desk.wait(rt, ticket) {
        Ok(receipt) => receipt,
        Err(refused) => {
            drop(refused);
            return Err(Fault::Unserved);
        }
    };
    if receipt.number() != number {
        drop(receipt);
        return Err(Fault::Unserved);
    }
    Ok(receipt)
}

/// Waits for the receipt of each ticket, in order. The number of each must be its place in the list.
fn receive_all<T: Tickets, R: Refusals, W: Wait>(
    rt: &W,
    alloc: Global,
    desk: &Desk<T, R>,
    tickets: Vec<Ticket>,
) -> Result<Vec<Receipt>, Fault>
    ensures same { IfOk result (λ receipts. receipts.items ≡ tickets.items) }
    ensures in_order { IfOk result (λ receipts. AreInOrder receipts.items) }
    ensures failed { IfErr result GivesUp }
{
    let mut receipts = Vec::with_capacity(alloc, tickets.len())?;
    for ticket in tickets {
        let receipt = receive(rt, desk, ticket, receipts.len() as u64)?;
        receipts.push(receipt)?;
    }
    Ok(receipts)
}

/// Submits the commands in order, prints the answer to each, tells what happens to them if that is asked for, and waits until all accepted
/// ones are durable.
///
/// # Errors
///
/// `File` where an answer can't be printed; `Unserved` where a command doesn't become durable; `Memory` at any point. Commands that were
/// accepted before stay accepted.
pub(crate) fn submit_and_wait<T: Tickets, R: Refusals, O: Write, W: Wait>(
    rt: &W,
    alloc: Global,
    desk: &Desk<T, R>,
    share: &mut Share<T, R>,
    work: Work,
    output: &mut O,
    answered: &mut Answered,
) -> Result<Vec<Receipt>, Fault>
    ensures received { IfOk result (λ receipts. Receives work.commands.items answered.old answered.new share.old share.new receipts.items) }
    ensures failed { IfErr result GivesUp }
{
    let Work {
        commands,
        tells_events,
    } = work;
    let tickets = ask_all(rt, alloc, desk, share, commands, output, answered)?;
    if tells_events {
        tell_events(rt, desk, output)?;
    }
    receive_all(rt, alloc, desk, tickets)
}
