//! Closing a desk: what its users hold is handed in and compared with what the book handed out.

ghost use Rattle.std.specs.Prelude.{◌≡◌, ◌↔◌, IsTrue, true, false, length, IfOk, IfErr, IfSome, OnOk};
ghost use Rattle.book_core.specs.Appending.{AppendsNext};
ghost use Rattle.desk_book.specs.Calls.{replayed};
ghost use Rattle.desk_book.specs.Closing.{AllWorked, CountAll, is_served};
ghost use Rattle.desk_laws.specs.Slaves.{IsJustOpened, AllReadAsContents};
ghost use Rattle.desk_laws.specs.Joined.{IsKeptAs};
ghost use Rattle.desk_laws.specs.Together.{AllEndSo, IsLeft};
ghost use Rattle.station_jobs.specs.Flushing.{IsFlushed};
ghost use Rattle.station_threads.specs.Closing.{IsCycleOf, AreEndsOf, AreTurnsOf, IsHandedIn};

use crate::desk::Desk;
use desk_book::{Receipt, Refusals, Served, Share, Tickets};
use site_core::Site;
use station_jobs::{CycleLog, DiskLog, End, SlaveLog};
use thiserror::Error;

/// The ends of the threads that did a desk's jobs.
#[derive(Drop)]
pub struct Ends<S: Site> {
    /// The end of the disk's thread.
    pub flusher: End<S, DiskLog>,
    /// One end for each slave, in the order of the line.
    pub workers: Vec<End<S, SlaveLog>>,
    /// The end of the process data thread, if there was one.
    pub cycle: Option<End<S, CycleLog>>,
}

/// Why a desk couldn't be closed.
#[derive(Clone, Copy, Debug, PartialEq, Eq, Error)]
pub enum CloseFault {
    /// The shares, receipts and ends that were handed in don't match what the book handed out.
    #[error("what was handed in isn't what was handed out")]
    Mismatch,
    /// The book has a fault, or a command that it accepted, or a batch that it found live at the open, isn't settled.
    #[error("not all is settled")]
    Unserved,
}

/// A desk that was closed.
#[derive(Drop)]
pub struct Closed<T: Tickets, R: Refusals, S: Site> {
    /// The book, taken out of its lock. All its commands are settled.
    pub book: Served<T, R>,
    /// The ends that were handed in.
    pub ends: Ends<S>,
}

/// A desk that couldn't be closed, with everything that was handed in.
#[derive(Drop)]
pub struct NotClosed<T: Tickets, R: Refusals, S: Site> {
    /// Why it couldn't be closed.
    pub fault: CloseFault,
    /// The book, taken out of its lock.
    pub book: Served<T, R>,
    /// The shares, in the order in which they were handed in.
    pub shares: Vec<Share<T, R>>,
    /// The receipts that were handed in.
    pub receipts: Vec<Receipt>,
    /// The ends that were handed in.
    pub ends: Ends<S>,
}

/// Whether the cycle's log has what the book handed out. Without a cycle, whether the book handed out no turn.
fn turns_match<T: Tickets, R: Refusals, S: Site>(
    book: &Served<T, R>,
    cycle: &Option<End<S, CycleLog>>,
) -> bool
    ensures { IsTrue result ↔ IsCycleOf book.now.calls cycle.now }
{
    match cycle {
        Some(end) => book.cycle_matches(end.log()),
        None => book.has_no_turns(),
    }
}

/// Whether the logs of the disk, of each slave and of the cycle have what the book handed out. If so, the jobs of each log led its disk
/// or slave to where it is.
fn ends_match<T: Tickets, R: Refusals, S: Site>(book: &Served<T, R>, ends: &Ends<S>) -> bool
    ensures matches { IsTrue result ↔ AreEndsOf T.opened book.now.calls ends.now }
    ensures worked { IsTrue result → AllWorked S.seen ends.now.workers.items }
    ensures flushed { IsTrue result → IsFlushed ends.now.flusher.log (S.seen ends.now.flusher.start) (S.seen ends.now.flusher.site) }
{
    turns_match(book, &ends.cycle)
        && book.flusher_matches(ends.flusher.log().as_slice())
        && book.workers_match(ends.workers.as_slice())
}

/// Whether shares, receipts and ends match what the book handed out. If so, the jobs of each log led its disk or slave to where it is.
fn all_match<T: Tickets, R: Refusals, S: Site>(
    book: &Served<T, R>,
    shares: &[Share<T, R>],
    receipts: &[Receipt],
    ends: &Ends<S>,
) -> bool
    ensures matches { IsTrue result ↔ IsHandedIn T.opened book.now.calls shares.now receipts.now ends.now }
    ensures worked { IsTrue result → AllWorked S.seen ends.now.workers.items }
    ensures flushed { IsTrue result → IsFlushed ends.now.flusher.log (S.seen ends.now.flusher.start) (S.seen ends.now.flusher.site) }
{
    book.shares_match(shares) && book.receipts_match(receipts) && ends_match(book, ends)
}

/// Says whether everything was handed in and is settled, or why not, as `close` does. Nothing changes.
fn validate<T: Tickets, R: Refusals, S: Site>(
    book: &mut Served<T, R>,
    shares: &mut [Share<T, R>],
    receipts: &[Receipt],
    ends: &Ends<S>,
) -> Result<(), CloseFault>
    requires next { AppendsNext T.opened }
    ensures same { book.new ≡ book.old }
    ensures shares { shares.new ≡ shares.old }
    ensures handed_in { OnOk result (IsHandedIn T.opened book.new.calls shares.old receipts.now ends.now) }
    ensures served { OnOk result (is_served (replayed T.opened book.new.calls) ≡ true) }
    ensures contents { OnOk result (IsJustOpened T.opened
        → AllReadAsContents T.opened (replayed T.opened book.new.calls) S.seen ends.now.workers.items) }
    ensures left { OnOk result (AllEndSo IsLeft T.opened book.new.calls S.seen ends.now.flusher ends.now.workers.items) }
    ensures turns { OnOk result (IfSome ends.now.cycle (λ end. AreTurnsOf T.opened book.new.calls end.log)) }
    ensures all_shares { length shares.old ≡ book.old.pool.given → CountAll (replayed T.opened book.old.calls) book.old.calls shares.old }
    ensures mismatch { IfErr result (λ fault. fault ≡ CloseFault.Mismatch
        → ¬ (IsHandedIn T.opened book.new.calls shares.old receipts.now ends.now)) }
    ensures unserved { IfErr result (λ fault. fault ≡ CloseFault.Unserved → is_served (replayed T.opened book.new.calls) ≡ false) }
    ensures kept { IfErr result (λ fault. fault ≡ CloseFault.Unserved
        → AllEndSo IsKeptAs T.opened book.new.calls S.seen ends.now.flusher ends.now.workers.items) }
    ensures turns_kept { IfErr result (λ fault. fault ≡ CloseFault.Unserved
        → IfSome ends.now.cycle (λ end. AreTurnsOf T.opened book.new.calls end.log)) }
{
    book.audit(shares);
    if !all_match(book, shares, receipts, ends) {
        return Err(CloseFault::Mismatch);
    }
    if !book.is_served() {
        return Err(CloseFault::Unserved);
    }
    Ok(())
}

/// Closes a desk on which everything is settled, once its threads have ended.
///
/// All shares and ends are handed in, and receipts as far as the caller has them.
///
/// If the book had just been opened when the desk was made: each slave that was idle when its worker began, with the words that the book
/// was opened with, reads as the contents after all accepted commands.
///
/// If it was opened on the disk and the slaves that the threads began with: a power cut now leaves only a recoverable state, in which
/// redo of the live journal gives the contents after a prefix of the accepted commands, with every durable one in it. After `Ok` the
/// prefix is all of them. After `Unserved` the state is recoverable too, whether there was a fault, a power cut, or work is left.
///
/// Each process data cycle in the log of the cycle's end, after `Ok` and after `Unserved`, is of the contents after a prefix of the
/// accepted commands, and its size is that of their process image. No cycle has a shorter prefix than the one before it.
///
/// # Errors
///
/// Everything is handed back, with the book out of its lock. The first that applies is the reason:
///
/// - `Mismatch`: the shares don't count all tickets and refusals, a receipt has no durable command of this desk, two receipts have the
///   same number, or the logs of the ends aren't what the book handed out. If all shares that the desk gave out are there, it isn't
///   the shares.
/// - `Unserved`: the book has a fault, or something that it accepted or found isn't settled.
pub fn close<T: Tickets, R: Refusals, S: Site>(
    desk: Desk<T, R>,
    mut shares: Vec<Share<T, R>>,
    receipts: Vec<Receipt>,
    ends: Ends<S>,
) -> Result<Closed<T, R, S>, NotClosed<T, R, S>>
    ensures handed_in { IfOk result (λ closed. IsHandedIn T.opened closed.book.calls shares.items receipts.items ends) }
    ensures served { IfOk result (λ closed. is_served (replayed T.opened closed.book.calls) ≡ true) }
    ensures contents { IfOk result (λ closed. IsJustOpened T.opened
        → AllReadAsContents T.opened (replayed T.opened closed.book.calls) S.seen closed.ends.workers.items) }
    ensures left { IfOk result (λ closed. AllEndSo IsLeft T.opened closed.book.calls S.seen closed.ends.flusher closed.ends.workers.items) }
    ensures turns { IfOk result (λ closed. IfSome closed.ends.cycle (λ end. AreTurnsOf T.opened closed.book.calls end.log)) }
    ensures ends { IfOk result (λ closed. closed.ends ≡ ends) }
    ensures handed_back { IfErr result (λ left. (left.shares.items ≡ shares.items) × (left.receipts ≡ receipts) × (left.ends ≡ ends)) }
    ensures all_shares { IfErr result (λ left. length shares.items ≡ left.book.pool.given
        → CountAll (replayed T.opened left.book.calls) left.book.calls shares.items) }
    ensures mismatch { IfErr result (λ left. left.fault ≡ CloseFault.Mismatch
        → ¬ (IsHandedIn T.opened left.book.calls shares.items receipts.items ends)) }
    ensures unserved { IfErr result (λ left. left.fault ≡ CloseFault.Unserved → is_served (replayed T.opened left.book.calls) ≡ false) }
    ensures kept { IfErr result (λ left. left.fault ≡ CloseFault.Unserved
        → AllEndSo IsKeptAs T.opened left.book.calls S.seen left.ends.flusher left.ends.workers.items) }
    ensures turns_kept { IfErr result (λ left. left.fault ≡ CloseFault.Unserved
        → IfSome left.ends.cycle (λ end. AreTurnsOf T.opened left.book.calls end.log)) }
{
    let mut book = desk.into_book();
    match validate(&mut book, shares.as_mut_slice(), receipts.as_slice(), &ends) {
        Ok(()) => Ok(Closed { book, ends }),
        Err(fault) => Err(NotClosed {
            fault,
            book,
            shares,
            receipts,
            ends,
        }),
    }
}
