//! What a desk's lock protects.

ghost use Rattle.std.specs.Prelude.{◌≡◌, ◌⊎◌, ◌≤◌, ◌-◌, ◌+◌, [], false, length, IfOk, IfSome, IfNone, OnSome};
ghost use Rattle.book_model.specs.Book.{contents_of};
ghost use Rattle.book_model.specs.Reading.{status};
ghost use Rattle.desk_book.specs.Serving.{AreRomLogs, with_call};

use crate::call::Call;
use crate::naming::{BlankLedger, Refusals, Tickets};
use crate::pool::Pool;
use crate::share::Share;
use book_core::Core;
use book_model::{DiskNext, RomNext, RomOutcome, Status};
use sii_words::History;
use site_core::DeviceFault;
use station_jobs::{CycleNotes, Notes};
use std::alloc::{AllocError, Global};
use std::marker::Model;
use std::sync::ledger::Book;

/// A book with its history of calls, the ledgers of its tickets and refusals, and the jobs that were handed out.
#[derive(Drop)]
pub struct Served<T: Tickets, R: Refusals> {
    pub(crate) alloc: Global,
    pub(crate) core: Core,
    pub(crate) history: History<Call>,
    /// Whether the jobs have stopped for want of memory.
    pub(crate) is_out_of_memory: bool,
    pub(crate) tickets: Book<T>,
    pub(crate) refusals: Book<R>,
    pub(crate) refused: u64,
    pub(crate) pool: Pool<T, R>,
    pub(crate) disk: Notes<DiskNext, Result<(), DeviceFault>>,
    pub(crate) slaves: Vec<Notes<RomNext, RomOutcome>>,
    pub(crate) cycle: CycleNotes,
    /// The status that `progress` answered last.
    pub(crate) seen: Status,
}

impl<T: Tickets, R: Refusals> Model for Served<T, R> {
    ghost use Rattle.std.specs.Prelude.{◌≡◌};
    ghost use Rattle.desk_book.specs.Serving.{Serving, IsReplayed, AreCounted, AreLogs, IsEach};

    ghost Value = { Serving };

    ghost view = { λ s. record {
      calls = s.history;
      tickets = s.tickets.total;
      refusals = s.refusals.total;
      pool = s.pool;
      has_stopped = s.is_out_of_memory;
      seen = s.seen;
    } };

    ghost invariant = { λ s. IsReplayed T.opened s.core s.history × AreCounted s.core s.history s.tickets.total s.refusals.total
        × (s.refused ≡ s.refusals.total) × AreLogs s.history s.disk.entries s.slaves.items s.cycle.entries
        × IsEach T.opened s.slaves.items };
}

/// Notes for `count` slaves, to which nothing was handed out yet.
fn no_notes(alloc: Global, count: usize) -> Result<Vec<Notes<RomNext, RomOutcome>>, AllocError>
    ensures none { IfOk result (λ notes. AreRomLogs [] notes.items) }
    ensures count { IfOk result (λ notes. length notes.items ≡ count) }
{
    let mut notes = Vec::with_capacity(alloc, count)?;
    for _made in 0..count {
        notes.push(Notes::new(alloc))?;
    }
    Ok(notes)
}

impl<T: Tickets, R: Refusals> Served<T, R> {
    /// A book with an empty history, no jobs handed out and no shares given out.
    ///
    /// The book has to be `T.opened` and to have accepted no command yet. The ledgers have to be those of `T` and `R`, with as many parts
    /// as these say.
    ///
    /// # Errors
    ///
    /// `AllocError`: memory was refused. The book is dropped.
    pub fn of(
        alloc: Global,
        core: Core,
        tickets: BlankLedger,
        refusals: BlankLedger,
    ) -> Result<Served<T, R>, AllocError>
        requires core { core ≡ T.opened }
        requires none { core.accepted ≡ [] }
        requires tickets { (tickets.name ≡ T.name) × (tickets.count ≡ T.parts) }
        requires refusals { (refusals.name ≡ R.name) × (refusals.count ≡ R.parts) }
        ensures { IfOk result (λ served. served ≡ record {
          calls = [];
          tickets = 0;
          refusals = 0;
          pool = record { tickets = tickets.count; refusals = refusals.count; given = 0 };
          has_stopped = false;
          seen = status T.opened;
        }) }
    {
        let Ok(slaves) = no_notes(alloc, core.contents().len()) else {
            drop(core);
            return Err(AllocError);
        };
        Ok(Served::with_notes(alloc, core, slaves, tickets, refusals))
    }

    /// Such a book, made with empty notes for each of its slaves.
    fn with_notes(
        alloc: Global,
        core: Core,
        slaves: Vec<Notes<RomNext, RomOutcome>>,
        tickets: BlankLedger,
        refusals: BlankLedger,
    ) -> Served<T, R>
        requires core { core ≡ T.opened }
        requires none { core.accepted ≡ [] }
        requires notes { AreRomLogs [] slaves.items }
        requires count { length slaves.items ≡ length (contents_of core) }
        requires tickets { (tickets.name ≡ T.name) × (tickets.count ≡ T.parts) }
        requires refusals { (refusals.name ≡ R.name) × (refusals.count ≡ R.parts) }
        ensures { result ≡ record {
          calls = [];
          tickets = 0;
          refusals = 0;
          pool = record { tickets = tickets.count; refusals = refusals.count; given = 0 };
          has_stopped = false;
          seen = status T.opened;
        } }
    {
        let (ticket_book, refusal_book, pool) = Pool::open(tickets, refusals);
        let seen = core.status();
        Served {
            alloc,
            core,
            history: History::new(),
            is_out_of_memory: false,
            tickets: ticket_book,
            refusals: refusal_book,
            refused: 0,
            pool,
            disk: Notes::new(alloc),
            slaves,
            cycle: CycleNotes::new(alloc),
            seen,
        }
    }

    /// Gives out a share with one part of each ledger. `None`, with nothing changed, if one of them has at most one part left.
    pub fn share(&mut self) -> Option<Share<T, R>>
        ensures share { IfSome result (λ share. share ≡ record { tickets = 0; refusals = 0 }) }
        ensures given { OnSome result (self.new ≡ record self.old {
          pool = record { tickets = self.old.pool.tickets - 1; refusals = self.old.pool.refusals - 1; given = self.old.pool.given + 1 };
        }) }
        ensures none { IfNone result ((self.old.pool.tickets ≤ 1) ⊎ (self.old.pool.refusals ≤ 1)) }
        ensures same { IfNone result (self.new ≡ self.old) }
    {
        self.pool.share()
    }

    /// Accepts no more commands. Those that were accepted are still carried out.
    pub fn finish(&mut self)
        ensures { self.new ≡ with_call self.old Call.Finished }
    {
        self.core.finish();
        self.history.note(&Call::Finished);
    }
}
