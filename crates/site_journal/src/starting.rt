//! A book that was just opened is recovering, and how many device calls are left then.

ghost use Rattle.std.specs.Prelude.{◌≡◌, ◌≤◌, ◌<◌, ◌+◌, ◌*◌, ℕ, List, length};
ghost use Rattle.jrn_format.specs.declared.journal.Journal.{Journal};
ghost use Rattle.jrn_format.specs.Live.{CanBeLive};
ghost use Rattle.book_model.specs.Book.{Book};
ghost use Rattle.book_model.specs.Entries.{entries_of};
ghost use Rattle.book_model.specs.Open.{open_book};
ghost use Rattle.site_journal.specs.Left.{calls_left, migration_calls, words_named, words_issued};
ghost use Rattle.site_journal.specs.Recovering.{IsRecovering};

/// A book that was just opened is recovering, and no word was issued. The device calls left are at most two for each half, those of a
/// migration, and for each named word three issues with their settles, 10,002 calls each.
pub fn a_book_that_was_opened_is_recovering()
    ensures recovering { (words : List (List ℕ)) (capacity : ℕ) (journal : Journal) → IsRecovering (open_book words capacity journal) }
    ensures calls { (words : List (List ℕ)) (capacity : ℕ) (journal : Journal)
        → calls_left (open_book words capacity journal) ≤ 4 + migration_calls journal.form + 30006 * words_named journal.batches }
    ensures none { (words : List (List ℕ)) (capacity : ℕ) (journal : Journal) → words_issued (open_book words capacity journal).slaves ≡ 0 }
{}

/// What is live fits into the area: counting one byte for each batch and each command, and two for each word that they name.
pub fn little_is_found()
    ensures { (capacity : ℕ) (sizes : List ℕ) (journal : Journal) → CanBeLive journal.form capacity sizes journal.batches
        → length journal.batches + length (entries_of journal.batches) + 2 * words_named journal.batches ≤ capacity }
{}
