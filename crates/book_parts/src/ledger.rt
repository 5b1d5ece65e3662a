ghost use Rattle.std.specs.Prelude.{◌≡◌, ℕ, ◌≤◌, ◌<◌, ◌+◌, ◌^◌, ◌++◌, ◌∷◌, [], length, All, IfOk, IfErr, OnOk, OnErr};
ghost use Rattle.sii_words.specs.Plant.{words_of};

use crate::validating::entry_bytes;
use jrn_format::{Entry, RunList};
use sii_edit::{Change, Command, Refusal, changes};
use sii_image::Layout;
use sii_words::{Plant, redo};
use std::alloc::{AllocError, Global};
use std::marker::Model;
use std::mem::replace;
use std::snapshot::Snapshot;

/// How many bytes a batch has without any entries, its gate included.
const EMPTY_BATCH: u64 = 8;

/// The commands accepted since a book was opened, the contents after them, and the entries of those that aren't durable yet.
///
/// Contracts see the contents at the open, the commands, how many of them are durable, and how many after these are being
/// appended to the journal.
#[derive(Drop)]
pub struct Ledger {
    alloc: Global,
    base: Snapshot<Plant>,
    contents: Plant,
    layout: Layout,
    accepted: Vec<Command>,
    durable: u64,
    begun: Vec<Entry>,
    begun_bytes: u64,
    queue: Vec<Entry>,
    queue_bytes: u64,
}

impl Model for Ledger {
    ghost use Rattle.book_parts.specs.Ledger as ledger;
    ghost use Rattle.book_parts.specs.Stands.{ledger_of, Stands};

    ghost Value = { ledger.Ledger };

    ghost view = { λ l. ledger_of l.base.value l.accepted.items l.durable l.begun.items };

    ghost invariant = { λ l. Stands (ledger_of l.base.value l.accepted.items l.durable l.begun.items) l.contents l.layout
        l.begun.items l.begun_bytes l.queue.items l.queue_bytes };
}

/// No slave has more than 4,096 words, as the type of its words promises.
fn look_at_sizes(plant: &Plant)
    ensures { (slave : ℕ) → length (words_of plant.now slave) ≤ 4096 }
{
    for slave in 0..plant.len() {
        let _words = plant.slave(slave).len();
    }
}

impl Ledger {
    ghost use Rattle.std.specs.List.{AllByRecursion};
    ghost use Rattle.sii_edit.specs.Command.{outcome};
    ghost use Rattle.sii_edit.specs.Fold.{AreAccepted};
    ghost use Rattle.sii_edit.specs.Refusal.{IsRefusalOf};
    ghost use Rattle.jrn_format.specs.Batch.{AreCountedRuns, LieWithin};
    ghost use Rattle.jrn_format.specs.Halves.{entries_size};
    ghost use Rattle.book_model.specs.declared.refusal.TheConstants.{QUEUE};
    ghost use Rattle.book_model.specs.Entries.{sizes_of};
    ghost use Rattle.book_parts.specs.Change.{IsChangeOf};
    ghost use Rattle.book_parts.specs.Ledger.{contents_of, own, appended, queued, opened, with_command, all_begun, gone_durable};

    /// Opens a ledger over these contents, with nothing accepted.
    ///
    /// # Errors
    ///
    /// Memory was refused; the contents are dropped.
    pub fn open(alloc: Global, contents: Plant) -> Result<Ledger, AllocError>
        ensures { IfOk result (λ ledger. ledger ≡ opened contents) }
    {
        look_at_sizes(&contents);
        let layout = Layout::of(alloc, &contents)?;
        Ok(Ledger {
            alloc,
            base: Snapshot::of(&contents),
            contents,
            layout,
            accepted: Vec::new(alloc),
            durable: 0,
            begun: Vec::new(alloc),
            begun_bytes: EMPTY_BATCH,
            queue: Vec::new(alloc),
            queue_bytes: EMPTY_BATCH,
        })
    }

    /// The change that a command would make to the contents. Only the words of the slaves that the command names are read and copied.
    ///
    /// # Errors
    ///
    /// The command's refusal on the contents after all accepted commands. `Memory` may come in place of any answer.
    pub fn validate(&self, command: &Command) -> Result<Change, Refusal>
        ensures change { IfOk result (λ change. IsChangeOf (contents_of self.now) command.now change) }
        ensures refused { IfErr result (λ refusal. IsRefusalOf (outcome (contents_of self.now) command.now) refusal) }
    {
        changes(self.alloc, &self.contents, &self.layout, command)
    }

    /// Accepts a command with the change that `validate` gave for it on these contents, and queues its entry. Returns its number, counted
    /// from 0.
    ///
    /// The change must have fewer than 65,536 runs, and fewer than `QUEUE` entries may be queued.
    ///
    /// # Errors
    ///
    /// Memory was refused. The ledger stays as it is.
    pub fn accept(&mut self, command: &Command, change: Change) -> Result<u64, AllocError>
        requires change { IsChangeOf (contents_of self.old) command.now change }
        requires count { length change.runs.items < 2 ^ 16 }
        requires room { length (queued self.old) < QUEUE }
        ensures number { IfOk result (λ number. number ≡ length self.old.accepted) }
        ensures accepted { OnOk result (self.new ≡ with_command self.old command.now) }
        ensures entry { OnOk result
            (queued self.new ≡ queued self.old ++ record { number = length self.old.accepted; runs = change.runs.items } ∷ []) }
        ensures refused { OnErr result (self.new ≡ self.old) }
    {
        let number = self.accepted.len() as u64;
        let bytes = entry_bytes(&change);
        let copy = command.try_copy()?;
        self.queue.reserve(1)?;
        self.accepted.push(copy)?;
        redo(&mut self.contents, &change.runs);
        self.layout.put_all(change.layouts);
        self.queue.push_reserved(Entry {
            number,
            runs: RunList::from_vec(change.runs),
        });
        self.queue_bytes += u64::from(bytes);
        Ok(number)
    }

    /// From now on the whole queue is being appended. No append may be in progress. Takes no memory.
    pub fn begin(&mut self)
        requires { self.old.begun ≡ 0 }
        ensures { self.new ≡ all_begun self.old }
    {
        self.begun = replace(&mut self.queue, Vec::new(self.alloc));
        self.begun_bytes = replace(&mut self.queue_bytes, EMPTY_BATCH);
    }

    /// The entries that are being appended become durable, and are returned. Takes no memory.
    pub fn go_durable(&mut self) -> Vec<Entry>
        ensures entries { result.items ≡ appended self.old }
        ensures durable { self.new ≡ gone_durable self.old }
        ensures length { length (appended self.old) ≡ self.old.begun }
        ensures counted { All (λ entry. AreCountedRuns entry.runs) (appended self.old) }
        ensures within { AllByRecursion (LieWithin (sizes_of self.old.base)) (appended self.old) }
    {
        self.durable += self.begun.len() as u64;
        self.begun_bytes = EMPTY_BATCH;
        replace(&mut self.begun, Vec::new(self.alloc))
    }

    /// The entries that are being appended. Each count fits its field in the journal, and the runs name words of the line.
    pub fn appended(&self) -> &[Entry]
        ensures entries { result.now ≡ appended self.now }
        ensures length { length (appended self.now) ≡ self.now.begun }
        ensures few { self.now.begun ≤ QUEUE }
        ensures counted { All (λ entry. AreCountedRuns entry.runs) (appended self.now) }
        ensures within { AllByRecursion (LieWithin (sizes_of self.now.base)) (appended self.now) }
    {
        &self.begun
    }

    /// How many bytes a batch of the appended entries has, its gate included.
    pub fn appended_bytes(&self) -> u64
        ensures { result ≡ entries_size (appended self.now) }
    {
        self.begun_bytes
    }

    /// The queued entries. Each count fits its field in the journal, and the runs name words of the line.
    pub fn queued(&self) -> &[Entry]
        ensures entries { result.now ≡ queued self.now }
        ensures few { length (queued self.now) ≤ QUEUE }
        ensures bytes { entries_size (queued self.now) < 2 ^ 48 }
        ensures counted { All (λ entry. AreCountedRuns entry.runs) (queued self.now) }
        ensures within { AllByRecursion (LieWithin (sizes_of self.now.base)) (queued self.now) }
    {
        &self.queue
    }

    /// How many bytes a batch of the queued entries has, its gate included.
    pub fn queued_bytes(&self) -> u64
        ensures { result ≡ entries_size (queued self.now) }
    {
        self.queue_bytes
    }

    /// The accepted commands, in order. Each is valid on the contents after those before it.
    pub fn accepted(&self) -> &[Command]
        ensures commands { result.now ≡ self.now.accepted }
        ensures each { AreAccepted self.now.base self.now.accepted }
    {
        &self.accepted
    }

    /// The contents after all accepted commands.
    pub fn contents(&self) -> &Plant
        ensures { result.now ≡ contents_of self.now }
    {
        &self.contents
    }

    /// How many commands were accepted.
    pub fn len(&self) -> u64
        ensures { result ≡ length self.now.accepted }
    {
        self.accepted.len() as u64
    }

    /// How many commands are durable: a prefix of the accepted ones. Those that are being appended follow them.
    pub fn durable(&self) -> u64
        ensures durable { result ≡ self.now.durable }
        ensures most { self.now.durable + self.now.begun ≤ length self.now.accepted }
    {
        self.durable
    }
}
