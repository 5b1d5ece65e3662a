ghost use Rattle.std.specs.Prelude.{◌≡◌, ◌<◌, ℕ, length};
ghost use Rattle.book_model.specs.Cells.{since, cell_of};
ghost use Rattle.book_parts.specs.Works.{work_to_do, work_issued, work_written};

use book_model::SlaveQueue;
use sii_words::History;

/// What is being done with a word of a slave.
#[derive(Clone, Copy, Drop)]
pub enum Operation {
    /// Nothing is being done.
    NoOperation,
    /// `value` is handed out to be issued to `word`.
    Issuing { word: u16, value: u16 },
    /// `word` was issued `value`, and must be settled next. `taken`: the slave took the datagram, as far as is known.
    Unsettled { word: u16, value: u16, taken: bool },
    /// `word`, which was issued `value`, is handed out to be settled. `taken` as in `Unsettled`.
    Settling { word: u16, value: u16, taken: bool },
}

/// A slave: the live writes of its words, of which the first `older` belong to the older half.
#[derive(Drop)]
pub(crate) struct SlaveWork {
    pub(crate) queue: SlaveQueue,
    pub(crate) older: usize,
    pub(crate) operation: Operation,
    /// The words that were handed out to be issued.
    pub(crate) issued: History<u16>,
}

/// Hands out the slave's next word to be issued, with its value.
pub(crate) fn issue(work: &mut SlaveWork) -> Option<(u16, u16)>
    requires { (at : ℕ) → since (cell_of work.old.queue.cells at).known < 255 }
    ensures word { result ≡ work_to_do work.old }
    ensures issued { work.new ≡ work_issued work.old (work_to_do work.old) }
{
    let (word, value) = work.queue.next_issue()?;
    work.operation = Operation::Issuing { word, value };
    work.issued.note(&word);
    Some((word, value))
}

/// Records that the word holds the value.
pub(crate) fn word_is_written(work: &mut SlaveWork, word: u16, value: u16)
    requires { word < length work.old.queue.cells }
    ensures { work.new ≡ work_written work.old word value }
{
    work.queue.written(word, value);
    work.operation = Operation::NoOperation;
}
