//! Closes a desk with the share and the receipts of the submitter and the ends of the threads.

ghost use Rattle.std.specs.Prelude.{◌≡◌, ◌≤◌, ◌⊎◌, [], vec_capacity, false, IfErr, MatchResult, Ok, Err, OnOk};
ghost use Rattle.desk_book.specs.Calls.{replayed, AreAnswered};
ghost use Rattle.station_files.specs.Faults.{IsOfStream};
ghost use Rattle.script_session.specs.Asking.{fault_of, receipts_of};
ghost use Rattle.script_session.specs.AtDesk.{Closes, EndsSo, IsStopped, TellsWhy};

use crate::asked::NamesCommands;
use crate::submitter::Submitter;
use sii_edit::Command;
use site_core::Site;
use site_shadow::{Device, ShadowSite};
use station_files::Fault;
use station_line::{Answered, fault_of_book};
use station_threads::{
    CloseFault, Closed, Desk, Ends, NotClosed, Receipt, Refusals, Served, Share, Tickets, close,
};
use std::alloc::Global;
use std::io::Write;

/// How the work at a desk ended.
#[derive(Drop)]
pub struct Ending {
    /// Whether the commands were submitted. If a thread can't be started, none is.
    pub is_driven: bool,
    /// How the commands were answered: all accepted if none was submitted.
    pub answered: Answered,
    /// Why the desk wasn't closed, if it wasn't.
    pub closed: Result<(), CloseFault>,
    /// The fault that is reported to the user, if there is one. The desk can be closed all the same: where an answer or the totals couldn't be
    /// printed, or memory for a receipt was refused.
    pub reported: Result<(), Fault>,
}

/// What a closed desk leaves: the ends of its threads, how the work ended, and the commands where they were not submitted.
#[derive(Drop)]
pub(crate) struct AtDesk<S: Site> {
    pub(crate) ends: Ends<S>,
    pub(crate) ending: Ending,
    /// The commands where they were not submitted.
    pub(crate) unserved: Vec<Command>,
}

/// Closes the desk with the submitter's share and receipts and the ends of the threads. Prints the totals if the commands were submitted.
/// `room` is an empty list with room for the share.
pub(crate) fn hand_in<T: Tickets, R: Refusals, C: NamesCommands, O: Write, D: Device + Drop>(
    desk: Desk<T, R>,
    submitter: Submitter<'_, T, R, C, O>,
    room: Vec<Share<T, R>>,
    ends: Ends<ShadowSite<D>>,
) -> AtDesk<ShadowSite<D>>
    requires { (room.items ≡ []) × (1 ≤ vec_capacity room) }
    ensures ends { result.ends ≡ ends }
    ensures ending { EndsSo T.opened C.commands ends result.ending }
    ensures unserved { result.ending.is_driven ≡ false → result.unserved.items ≡ C.commands }
{
    let Submitter {
        alloc,
        commands: unserved,
        output,
        share,
        answered,
        came,
        ..
    } = submitter;
    let mut shares = room;
    shares.push_reserved(share);
    let is_driven = came.is_some();
    let (receipts, asked) = received(alloc, came);
    let (ends, closed, ended) = close_desk(desk, shares, receipts, ends, is_driven, output);
    let ending = Ending {
        is_driven,
        answered,
        closed,
        reported: reported_of(asked, ended),
    };
    AtDesk {
        ends,
        ending,
        unserved,
    }
}

/// The receipts of the submitter, if it got any, and its fault, if it met one.
fn received(
    alloc: Global,
    came: Option<Result<Vec<Receipt>, Fault>>,
) -> (Vec<Receipt>, Result<(), Fault>)
    ensures receipts { result.0.items ≡ receipts_of came }
    ensures fault { result.1 ≡ fault_of came }
{
    match came {
        Some(Ok(receipts)) => (receipts, Ok(())),
        Some(Err(fault)) => (Vec::new(alloc), Err(fault)),
        None => (Vec::new(alloc), Ok(())),
    }
}

/// What is reported to the user, from the result of the submitter and that of closing the desk.
fn reported_of(asked: Result<(), Fault>, ended: Result<(), Fault>) -> Result<(), Fault>
    ensures good { OnOk result ((asked ≡ Ok tt) × (ended ≡ Ok tt)) }
    ensures fault { IfErr result (λ fault. IsOfStream fault ⊎ (ended ≡ Err fault) ⊎ ((asked ≡ Err fault) × (ended ≡ Ok tt))) }
{
    match asked {
        Ok(()) => ended,
        Err(fault) => Err(first_of(fault, ended)),
    }
}

/// The fault that is reported to the user where the submitter gave up: its own where a stream failed or memory was refused, otherwise that of the
/// desk, if there is one.
fn first_of(fault: Fault, ended: Result<(), Fault>) -> Fault
    ensures { IsOfStream result ⊎ (ended ≡ Err result) ⊎ ((result ≡ fault) × (ended ≡ Ok tt)) }
{
    match fault {
        Fault::File => Fault::File,
        Fault::Memory => Fault::Memory,
        _ => match ended {
            Ok(()) => fault,
            Err(why) => why,
        },
    }
}

/// What closing a desk returns: the ends, why the desk isn't closed, and the fault that is reported to the user.
type Logged<D> = (
    Ends<ShadowSite<D>>,
    Result<(), CloseFault>,
    Result<(), Fault>,
);

/// Closes the desk, and prints the totals if `has_totals`.
fn close_desk<T: Tickets, R: Refusals, O: Write, D: Device + Drop>(
    desk: Desk<T, R>,
    shares: Vec<Share<T, R>>,
    receipts: Vec<Receipt>,
    ends: Ends<ShadowSite<D>>,
    has_totals: bool,
    output: &mut O,
) -> Logged<D>
    ensures ends { result.0 ≡ ends }
    ensures closes { MatchResult result.1 (λ done. Closes T.opened shares.items receipts.items ends) (λ why. IsStopped T.opened why result.2 ends) }
    ensures reported { OnOk result.2 (result.1 ≡ Ok tt) }
    ensures printed { OnOk result.1 (IfErr result.2 IsOfStream) }
{
    match close(desk, shares, receipts, ends) {
        Ok(closed) => tell_closed(closed, has_totals, output),
        Err(left) => tell_open(left, has_totals, output),
    }
}

/// Prints the totals of a closed desk, if `has_totals`.
fn tell_closed<T: Tickets, R: Refusals, O: Write, D: Device + Drop>(
    closed: Closed<T, R, ShadowSite<D>>,
    has_totals: bool,
    output: &mut O,
) -> Logged<D>
    ensures ends { (result.0 ≡ closed.ends) × (result.1 ≡ Ok tt) }
    ensures printed { IfErr result.2 IsOfStream }
    ensures answered { AreAnswered T.opened closed.book.calls }
{
    let Closed { book, ends } = closed;
    let printed = print_totals(&book, has_totals, output);
    drop(book);
    (ends, Ok(()), printed)
}

/// Gives the reason why a desk isn't closed, and prints the totals if `has_totals`.
fn tell_open<T: Tickets, R: Refusals, O: Write, D: Device + Drop>(
    left: NotClosed<T, R, ShadowSite<D>>,
    has_totals: bool,
    output: &mut O,
) -> Logged<D>
    ensures ends { (result.0 ≡ left.ends) × (result.1 ≡ Err left.fault) }
    ensures fault { MatchResult result.2 (λ done. ⊥) (TellsWhy (replayed T.opened left.book.calls)) }
    ensures answered { AreAnswered T.opened left.book.calls }
{
    let NotClosed {
        fault,
        book,
        shares,
        receipts,
        ends,
    } = left;
    let _printed = print_totals(&book, has_totals, output);
    let why = why_open(&book);
    drop(book);
    drop(shares);
    drop(receipts);
    (ends, Err(fault), Err(why))
}

/// Why a desk isn't closed: the fault of the book; if it has none, `Memory` where its jobs stopped for want of it, or `Unserved`.
fn why_open<T: Tickets, R: Refusals>(book: &Served<T, R>) -> Fault
    ensures { TellsWhy (replayed T.opened book.now.calls) result }
{
    match book.fault() {
        Some(fault) => fault_of_book(fault),
        None if book.is_out_of_memory() => Fault::Memory,
        None => Fault::Unserved,
    }
}

/// Prints how many commands a book has accepted, and how many of them are durable and settled, if `is_asked`.
fn print_totals<T: Tickets, R: Refusals, O: Write>(
    book: &Served<T, R>,
    is_asked: bool,
    output: &mut O,
) -> Result<(), Fault>
    ensures answered { AreAnswered T.opened book.now.calls }
    ensures failed { IfErr result IsOfStream }
{
    let accepted = book.accepted().len();
    if !is_asked {
        return Ok(());
    }
    let totals = book.status();
    let (durable, settled) = (totals.durable, totals.settled);
    writeln!(
        output,
        "accepted {accepted} durable {durable} settled {settled}"
    )?;
    output.flush()?;
    Ok(())
}
