//! Which naming is issued next, and which namings are settled.

ghost use Rattle.std.specs.Prelude.{◌≡◌, ◌<◌, ◌≤◌, ◌+◌, [], IsTrue, length, drop};
ghost use Rattle.book_model.specs.Cells.{Holds, all_named};
ghost use Rattle.book_model.specs.Pending.{values_of};
ghost use Rattle.book_model.specs.Queue.{Stands, Cursor, IsDue, IsSettled, SettledTo, naming_at, word_at, live_of};

/// A naming: one mention of a word, with its value, in a live batch.
#[derive(Clone, Copy)]
pub(crate) struct Naming {
    pub(crate) word: u16,
    pub(crate) value: u16,
    /// One more than the place of the word's previous naming, or 0 if there is none.
    pub(crate) before: u32,
    /// The number of the entry that it comes from.
    pub(crate) entry: u64,
}

/// The value that a word is known to hold, or the number of issues since it was known.
#[derive(Clone, Copy)]
pub(crate) enum Held {
    Value(u16),
    Issued(u8),
}

/// What is known of a word, and its namings.
#[derive(Clone, Copy)]
pub(crate) struct Word {
    pub(crate) held: Held,
    /// One more than the place of its last naming, or 0 if there is none.
    pub(crate) end: u32,
    /// All its namings before this place are settled.
    pub(crate) mark: u32,
}

/// Whether the naming at `place` is to be issued: its word's last one, and not settled.
fn is_due(namings: &[Naming], words: &[Word], place: usize) -> bool
    requires place { place < length namings.now }
    requires inside { (naming_at namings.now place).word < length words.now }
    ensures due { IsTrue result → IsDue namings.now words.now place }
    ensures not { IsDue namings.now words.now place → IsTrue result }
{
    let word = words[namings[place].word as usize];
    word.end as usize == place + 1 && word.mark as usize <= place
}

/// The first place at or after `from` whose naming is to be issued, or the number of namings if there is none.
pub(crate) fn first_due(namings: &[Naming], words: &[Word], from: usize) -> usize
    requires stands { Stands namings.now words.now }
    requires cursor { Cursor from namings.now words.now }
    ensures cursor { Cursor result namings.now words.now }
    ensures due { result < length namings.now → IsDue namings.now words.now result }
{
    let mut place = from;
    while place < namings.len() && !is_due(namings, words, place) {
        place += 1;
    }
    place
}

/// The mark of word `at` once it holds `value`: one more than the place of its last naming with this value that isn't settled,
/// or the old mark if there is none.
pub(crate) fn mark_after(namings: &[Naming], words: &[Word], at: usize, value: u16) -> u32
    requires stands { Stands namings.now words.now }
    requires inside { at < length words.now }
    ensures inside { result ≤ (word_at words.now at).end }
    ensures grows { (word_at words.now at).mark ≤ result }
    ensures owed { values_of at (drop result (live_of namings.now))
        ≡ all_named (Holds value) [] (values_of at (drop (word_at words.now at).mark (live_of namings.now))) }
{
    let word = words[at];
    let mut place = word.end;
    while word.mark < place && namings[place as usize - 1].value != value {
        place = namings[place as usize - 1].before;
    }
    if word.mark < place { place } else { word.mark }
}

/// The first place at or after `from` whose naming isn't settled, or the number of namings if there is none.
pub(crate) fn settled_from(namings: &[Naming], words: &[Word], from: usize) -> usize
    requires stands { Stands namings.now words.now }
    requires settled { IsSettled from namings.now words.now }
    ensures { SettledTo result namings.now words.now }
{
    let mut place = from;
    while place < namings.len() && place < words[namings[place].word as usize].mark as usize {
        place += 1;
    }
    place
}
