ghost use Rattle.std.specs.Prelude.{◌≡◌};

use crate::step::Step;
use book_model::Fault;
use book_parts::{Area, Ledger, LineWork, Shown};
use jrn_format::{Entry, Form};
use sii_edit::Command;
use sii_words::{History, Plant};
use std::alloc::Global;
use std::marker::Model;
use std::snapshot::Snapshot;

/// The book of a line: it accepts commands, and decides what is appended to the journal, written to the slaves and retired.
///
/// Contracts see it as a `Book`. In memory it keeps the accepted commands, the contents after them, the entries that aren't durable
/// yet, and the words that live batches name.
#[derive(Drop)]
pub struct Core {
    pub(crate) alloc: Global,
    /// The words as they were read at the open, for contracts alone.
    pub(crate) words: Snapshot<Plant>,
    /// The entries that were live at the open, for contracts alone.
    pub(crate) found: History<Entry>,
    pub(crate) area: Area,
    pub(crate) step: Step,
    pub(crate) is_handed_out: bool,
    pub(crate) ledger: Ledger,
    pub(crate) work: LineWork,
    pub(crate) shown: Shown,
    pub(crate) is_finished: bool,
    pub(crate) is_migrating: bool,
    pub(crate) fault: Option<Fault>,
}

impl Model for Core {
    ghost use Rattle.book_model.specs.Book.{Book};

    ghost Value = { Book };

    ghost use Rattle.book_core.specs.Parts.{book_of};

    ghost view = { book_of };

    ghost use Rattle.book_core.specs.Stands.{Stands};

    ghost invariant = { Stands };
}

impl Core {
    ghost use Rattle.sii_edit.specs.Fold.{AreAccepted};
    ghost use Rattle.book_model.specs.Book.{base_of, contents_of};
    ghost use Rattle.book_model.specs.Open.{finish, migrate};
    ghost use Rattle.book_model.specs.Reading.{applied, live_bytes, status};
    ghost use Rattle.book_core.specs.Appending.{AppendsNext};

    /// Closes the book: every further command is refused as `Closed`. Accepted commands are still appended and written.
    pub fn finish(&mut self)
        ensures { self.new ≡ finish self.old }
    {
        self.is_finished = true;
    }

    /// Asks for the migration of an old journal to version 2, which begins once nothing is live.
    ///
    /// Returns false and changes nothing if the book is finished, has a fault, or is on a journal of version 2 already.
    pub fn migrate(&mut self) -> bool
        ensures answer { result ≡ (migrate self.old).0 }
        ensures book { self.new ≡ (migrate self.old).1 }
    {
        if self.is_finished || self.fault.is_some() || self.area.form() == Form::Two {
            return false;
        }
        self.is_migrating = true;
        true
    }

    /// The commands accepted since the open, in order. Each is valid on the contents after those before it. Those that are being
    /// appended are the ones right after the durable ones.
    pub fn accepted(&self) -> &[Command]
        ensures commands { result.now ≡ self.now.accepted }
        ensures each { AreAccepted (base_of self.now) self.now.accepted }
        ensures appending { AppendsNext self.now }
    {
        self.ledger.accepted()
    }

    /// The contents after all accepted commands.
    pub fn contents(&self) -> &Plant
        ensures { result.now ≡ contents_of self.now }
    {
        self.ledger.contents()
    }

    /// The first fault of the book, which has closed it for good; `None` without a fault.
    pub fn fault(&self) -> Option<Fault>
        ensures { result ≡ self.now.fault }
    {
        self.fault
    }

    /// How many bytes the live batches take in the journal, each with its open gate.
    pub fn live_bytes(&self) -> u64
        ensures { result ≡ live_bytes self.now }
    {
        self.area.live_bytes()
    }
}
