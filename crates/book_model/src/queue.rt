ghost use Rattle.std.specs.Prelude.{◌≡◌, ◌<◌, ◌≤◌, ◌↔◌, ℕ, [], length, map, IfOk, IsTrue, OnOk, if◌then◌else◌};
ghost use Rattle.book_model.specs.Cells.{Unsure, next_issue, is_held, opened};
ghost use Rattle.book_model.specs.Cells.{cell_of, since};
ghost use Rattle.book_model.specs.Queue.{known_of, word_read};
ghost use Rattle.book_model.specs.Pending.{values_of, to_do, first, issued, word_written, word_named, retired, unsettled, can_retire};

use crate::down::{namings_down, words_down};
use crate::due::{Held, Naming, Word, first_due, mark_after, settled_from};
use std::alloc::{AllocError, Global};
use std::marker::Model;

/// The most namings that are live at once, so that a place takes 32 bits.
const MOST_NAMINGS: usize = u32::MAX as usize;

/// The live namings of a slave's words, and the values that each word is still owed.
#[derive(Drop)]
pub struct SlaveQueue {
    words: Vec<Word>,
    namings: Vec<Naming>,
    cursor: usize,
    settled: usize,
}

impl Model for SlaveQueue {
    ghost use Rattle.std.specs.Prelude.{length};
    ghost use Rattle.std.specs.Vec.{vec_capacity};
    ghost use Rattle.book_model.specs.Pending.{Pending};
    ghost use Rattle.book_model.specs.Queue.{pending_of, room_in, Stands, Cursor, SettledTo, IsInReach};

    ghost Value = { Pending };

    ghost view = { λ q. pending_of q.namings.items q.words.items (room_in (vec_capacity q.namings) (length q.namings.items)) };

    ghost invariant = { λ q. Stands q.namings.items q.words.items × Cursor q.cursor q.namings.items q.words.items
        × SettledTo q.settled q.namings.items q.words.items × IsInReach q.namings.items };
}

/// One more issue since the word's value was known.
fn one_more(held: Held) -> Held
    requires { since (known_of held) < 255 }
    ensures { known_of result ≡ Unsure (next_issue (known_of held)) }
{
    match held {
        Held::Value(_) => Held::Issued(1),
        Held::Issued(issues) => Held::Issued(issues + 1),
    }
}

/// The mark of a word after one more naming: if it is known to hold the value, all its namings are settled.
fn mark_named(word: Word, value: u16, end: u32) -> u32
    ensures { result ≡ (if is_held (known_of word.held) value then end else word.mark) }
{
    match word.held {
        Held::Value(holds) if holds == value => end,
        _ => word.mark,
    }
}

/// The words as they were read, without namings.
fn read_words(alloc: Global, words: &[u16]) -> Result<Vec<Word>, AllocError>
    ensures { IfOk result (λ read. read.items ≡ map word_read words.now) }
{
    let mut read = Vec::with_capacity(alloc, words.len())?;
    for value in words {
        read.push(Word {
            held: Held::Value(*value),
            end: 0,
            mark: 0,
        })?;
    }
    Ok(read)
}

impl SlaveQueue {
    /// Opens the queue of a slave whose words were read as `words`, with nothing live.
    ///
    /// # Errors
    ///
    /// `AllocError` if memory was refused.
    pub fn open(alloc: Global, words: &[u16]) -> Result<SlaveQueue, AllocError>
        ensures cells { IfOk result (λ queue. queue.cells ≡ map opened words.now) }
        ensures live { IfOk result (λ queue. queue.live ≡ []) }
        ensures numbers { IfOk result (λ queue. queue.numbers ≡ []) }
    {
        Ok(SlaveQueue {
            words: read_words(alloc, words)?,
            namings: Vec::new(alloc),
            cursor: 0,
            settled: 0,
        })
    }

    /// Returns the next word to issue and its value, and counts the issue; or `None` if no word remains to be written.
    ///
    /// It requires fewer than 255 issues of each word since its value was known.
    pub fn next_issue(&mut self) -> Option<(u16, u16)>
        requires { (at : ℕ) → since (cell_of self.old.cells at).known < 255 }
        ensures result { result ≡ first (to_do self.old.cells self.old.live) }
        ensures asked { self.new ≡ issued self.old (first (to_do self.old.cells self.old.live)) }
    {
        self.cursor = first_due(&self.namings, &self.words, self.cursor);
        if self.cursor == self.namings.len() {
            return None;
        }
        let naming = self.namings[self.cursor];
        let word = self.words[naming.word as usize];
        self.words[naming.word as usize] = Word {
            held: one_more(word.held),
            ..word
        };
        Some((naming.word, naming.value))
    }

    /// Records that a word is known to hold `value`. It requires that the slave has the word.
    pub fn written(&mut self, word: u16, value: u16)
        requires { word < length self.old.cells }
        ensures { self.new ≡ word_written self.old word value }
    {
        let mark = mark_after(&self.namings, &self.words, word as usize, value);
        let end = self.words[word as usize].end;
        self.words[word as usize] = Word {
            held: Held::Value(value),
            end,
            mark,
        };
        self.settled = settled_from(&self.namings, &self.words, self.settled);
    }

    /// Reserves room for `count` more namings.
    ///
    /// # Errors
    ///
    /// `AllocError` if memory was refused, or with them there were more than 4,294,967,295; namings and words stay as they are.
    pub fn reserve(&mut self, count: usize) -> Result<(), AllocError>
        ensures cells { self.new.cells ≡ self.old.cells }
        ensures live { self.new.live ≡ self.old.live }
        ensures numbers { self.new.numbers ≡ self.old.numbers }
        ensures room { OnOk result (count ≤ self.new.room) }
    {
        match self.namings.len().checked_add(count) {
            Some(end) if end <= MOST_NAMINGS => self.namings.reserve(count),
            _ => Err(AllocError),
        }
    }

    /// Adds a live naming of a word, from the entry with this number.
    ///
    /// It requires that the slave has the word, and that there is reserved room.
    pub fn name(&mut self, word: u16, value: u16, number: u64)
        requires inside { word < length self.old.cells }
        requires room { 0 < self.old.room }
        ensures { self.new ≡ word_named self.old word value number }
    {
        let old = self.words[word as usize];
        self.namings.push_reserved(Naming {
            word,
            value,
            entry: number,
            before: old.end,
        });
        let end = self.namings.len() as u32;
        self.words[word as usize] = Word {
            held: old.held,
            end,
            mark: mark_named(old, value, end),
        };
        self.settled = settled_from(&self.namings, &self.words, self.settled);
    }

    /// Removes the first `count` namings, as they are retired. It requires that `can_retire` holds of them.
    pub fn retire(&mut self, count: usize)
        requires inside { count ≤ length self.old.live }
        requires settled { IsTrue (can_retire self.old count) }
        ensures { self.new ≡ retired self.old count }
    {
        words_down(&self.namings, &mut self.words, count);
        namings_down(&mut self.namings, count);
        let rest = self.namings.len() - count;
        self.namings.truncate(rest);
        self.cursor = self.cursor.saturating_sub(count);
        self.settled = self.settled.saturating_sub(count);
    }

    /// The number of live namings.
    pub fn len(&self) -> usize
        ensures { result ≡ length self.now.live }
    {
        self.namings.len()
    }

    /// The number of the first entry with a naming that isn't settled, or `None` if all are.
    ///
    /// No word is owed more values than live namings give it.
    pub fn unsettled(&self) -> Option<u64>
        ensures number { result ≡ unsettled self.now }
        ensures owed { (at : ℕ) → length (cell_of self.now.cells at).owed ≤ length (values_of at self.now.live) }
    {
        if self.settled < self.namings.len() {
            Some(self.namings[self.settled].entry)
        } else {
            None
        }
    }

    /// Whether the first `count` namings are all settled, so that they can be retired. It requires that many namings.
    pub fn can_retire(&self, count: usize) -> bool
        requires { count ≤ length self.now.live }
        ensures { result ≡ can_retire self.now count }
    {
        count <= self.settled
    }

    /// The number of issues of a word since its value was known. It requires that the slave has the word.
    pub fn issues(&self, word: u16) -> u8
        requires { word < length self.now.cells }
        ensures { result ≡ since (cell_of self.now.cells word).known }
    {
        match self.words[word as usize].held {
            Held::Value(_) => 0,
            Held::Issued(issues) => issues,
        }
    }
}
