ghost use Rattle.std.specs.Prelude.{◌≡◌, ◌++◌, ◌<◌, ℕ, [], true, length, map, IfOk, OnOk};

use crate::naming::name_entries;
use crate::opening::open_slaves;
use crate::reserving::{reserve_all, words_named};
use crate::retiring::{all_settled, make_older, retire_all};
use crate::unsettled::least_unsettled;
use crate::work::{Operation, SlaveWork, issue, word_is_written};
use jrn_format::Entry;
use sii_words::{History, Plant};
use std::alloc::{AllocError, Global};
use std::marker::Model;
use std::mem::replace;

/// What remains to be written to the slaves of a line, numbered from 0.
///
/// Contracts see what is known of each slave's words, the live entries of both halves, and how much memory is reserved.
#[derive(Drop)]
pub struct LineWork {
    works: Vec<SlaveWork>,
    older: History<Entry>,
    newer: History<Entry>,
}

impl Model for LineWork {
    ghost use Rattle.book_parts.specs.Line.{LineState};
    ghost use Rattle.book_parts.specs.Works.{line_of, LineStands};

    ghost Value = { LineState };

    ghost view = { λ l. line_of l.works.items l.older l.newer };

    ghost invariant = { λ l. LineStands l.works.items l.older l.newer };
}

/// Notes the entries, in their order.
fn note_all(history: &mut History<Entry>, entries: &[Entry])
    ensures { history.new ≡ history.old ++ entries.now }
{
    for entry in entries {
        history.note(entry);
    }
}

impl LineWork {
    ghost use Rattle.book_model.specs.Entries.{runs_of};
    ghost use Rattle.book_model.specs.Book.{all_cells};
    ghost use Rattle.book_model.specs.Open.{opened_slave};
    ghost use Rattle.book_parts.specs.Line.{AreOfLine, NeverFall, HasRoom, SameButRooms, with_older, with_newer, is_settled, first_unsettled, OweNoMore, retired, slave_at, with_slave, to_do, with_issue, with_written};
    ghost use Rattle.book_parts.specs.Works.{operation_of};
    ghost use Rattle.book_model.specs.Cells.{since, cell_of};
    ghost use Rattle.book_model.specs.Pending.{first};

    /// The slaves of the plant with the words as they were read, and nothing live.
    ///
    /// # Errors
    ///
    /// Memory was refused.
    pub fn open(alloc: Global, plant: &Plant) -> Result<LineWork, AllocError>
        ensures slaves { IfOk result (λ line. line.slaves ≡ map opened_slave plant.now) }
        ensures older { IfOk result (λ line. line.older ≡ []) }
        ensures newer { IfOk result (λ line. line.newer ≡ []) }
    {
        Ok(LineWork {
            works: open_slaves(alloc, plant)?,
            older: History::new(),
            newer: History::new(),
        })
    }

    /// Reserves memory for the words that these entries name, so that the entries can go live without taking any. They must name words
    /// of the line.
    ///
    /// # Errors
    ///
    /// Memory was refused. With any answer, the slaves and the live entries stay as they are.
    pub fn reserve(&mut self, entries: &[Entry]) -> Result<(), AllocError>
        requires inside { AreOfLine self.old.slaves (runs_of entries.now) }
        ensures kept { SameButRooms self.old self.new }
        ensures room { OnOk result (HasRoom self.new (runs_of entries.now)) }
    {
        let counts = words_named(*self.works.allocator(), self.works.len(), entries)?;
        reserve_all(&mut self.works, &counts)
    }

    /// A batch with these entries goes live in the older half, while nothing is live in the newer one.
    ///
    /// Memory for its words must be reserved, and its entries' numbers must not be below those of the live ones.
    pub fn join_older(&mut self, entries: &[Entry])
        requires inside { AreOfLine self.old.slaves (runs_of entries.now) }
        requires room { HasRoom self.old (runs_of entries.now) }
        requires none { self.old.newer ≡ [] }
        requires order { NeverFall ((self.old.older ++ self.old.newer) ++ entries.now) }
        ensures { self.new ≡ with_older self.old entries.now }
    {
        name_entries(&mut self.works, entries);
        make_older(&mut self.works);
        note_all(&mut self.older, entries);
    }

    /// A batch with these entries goes live in the newer half.
    ///
    /// Memory for its words must be reserved, and its entries' numbers must not be below those of the live ones.
    pub fn join_newer(&mut self, entries: &[Entry])
        requires inside { AreOfLine self.old.slaves (runs_of entries.now) }
        requires room { HasRoom self.old (runs_of entries.now) }
        requires order { NeverFall ((self.old.older ++ self.old.newer) ++ entries.now) }
        ensures { self.new ≡ with_newer self.old entries.now }
    {
        name_entries(&mut self.works, entries);
        note_all(&mut self.newer, entries);
    }

    /// Whether all words that the older half's entries name are settled.
    pub fn is_settled(&self) -> bool
        ensures { result ≡ is_settled self.now }
    {
        all_settled(&self.works)
    }

    /// The number of the first live entry that isn't settled, the older half's entries first; `None` if all are settled.
    pub fn unsettled(&self) -> Option<u64>
        ensures owed { OweNoMore self.now.slaves (self.now.older ++ self.now.newer) }
        ensures number { result ≡ first_unsettled (all_cells self.now.slaves) (self.now.older ++ self.now.newer) }
    {
        least_unsettled(&self.works)
    }

    /// Retires the older half, which must be settled. The newer half becomes the older one.
    pub fn retire(&mut self)
        requires { is_settled self.old ≡ true }
        ensures { self.new ≡ retired self.old }
    {
        retire_all(&mut self.works);
        self.older = replace(&mut self.newer, History::new());
    }

    /// The number of slaves.
    pub fn len(&self) -> usize
        ensures { result ≡ length self.now.slaves }
    {
        self.works.len()
    }

    /// What is being done with a word of the slave, which must be one of the line.
    pub fn operation(&self, slave: usize) -> Operation
        requires { slave < length self.now.slaves }
        ensures { operation_of result ≡ (slave_at self.now slave).operation }
    {
        self.works[slave].operation
    }

    /// Sets what is being done with a word of the slave, which must be one of the line.
    pub fn set_operation(&mut self, slave: usize, operation: Operation)
        requires { slave < length self.old.slaves }
        ensures { self.new ≡ with_slave self.old slave (record (slave_at self.old slave) { operation = operation_of operation }) }
    {
        self.works[slave].operation = operation;
    }

    /// Hands out the slave's next word to be issued, with its value; `None` if there is none.
    ///
    /// The slave must be one of the line, and no word may have had 255 issues since its value was last known.
    pub fn issue(&mut self, slave: usize) -> Option<(u16, u16)>
        requires slave { slave < length self.old.slaves }
        requires few { (at : ℕ) → since (cell_of (slave_at self.old slave).cells at).known < 255 }
        ensures word { result ≡ first (to_do self.old slave) }
        ensures issued { self.new ≡ with_issue self.old slave (first (to_do self.old slave)) }
    {
        issue(&mut self.works[slave])
    }

    /// Records that the word, which must be one of the slave, now holds the value. Nothing more is done with it.
    pub fn written(&mut self, slave: usize, word: u16, value: u16)
        requires slave { slave < length self.old.slaves }
        requires word { word < length (slave_at self.old slave).cells }
        ensures { self.new ≡ with_written self.old slave word value }
    {
        word_is_written(&mut self.works[slave], word, value);
    }

    /// How often the word, which must be one of the slave, was issued since its value was last known.
    pub fn issues(&self, slave: usize, word: u16) -> u8
        requires slave { slave < length self.now.slaves }
        requires word { word < length (slave_at self.now slave).cells }
        ensures { result ≡ since (cell_of (slave_at self.now slave).cells word).known }
    {
        self.works[slave].queue.issues(word)
    }
}
