//! Laws of redo: whatever a power cut leaves of the words, redo of the live batches gives the contents after the durable commands.

ghost use Rattle.std.specs.Prelude.{◌≡◌, ◌+◌, ℕ, List, [], ◌∷◌, ◌++◌, length, take, drop};
ghost use Rattle.sii_words.specs.declared.run.Run.{Run};
ghost use Rattle.sii_words.specs.Redo.{redone};
ghost use Rattle.jrn_format.specs.declared.journal.Batch.{Batch};
ghost use Rattle.jrn_format.specs.Halves.{live};
ghost use Rattle.book_model.specs.Entries.{live_runs};
ghost use Rattle.book_model.specs.Book.{Book, base_of, own, all_cells};
ghost use Rattle.book_model.specs.Plants.{MayHoldAll, AllSettled};
ghost use Rattle.book_model.specs.Fits.{BookFits, after_entries};

/// Redo of all live batches gives the contents after the durable commands.
pub fn live_batches_lead()
    ensures { (book : Book) (gone : List Run) (left : List (List ℕ)) → BookFits book gone → MayHoldAll book.words (all_cells book.slaves) left
        → redone left (live_runs (live book.halves)) ≡ after_entries (base_of book) (own book) book.durable }
{}

/// Redo of the live batches and of the batch that is being appended gives the contents after that batch's commands too.
pub fn the_next_batch_leads()
    ensures { (book : Book) (gone : List Run) (left : List (List ℕ)) (batch : Batch) → BookFits book gone
        → MayHoldAll book.words (all_cells book.slaves) left
        → take (length batch.entries) (drop book.durable (own book)) ≡ batch.entries
        → redone left (live_runs (live book.halves ++ batch ∷ []))
        ≡ after_entries (base_of book) (own book) (book.durable + length batch.entries) }
{}

/// Redo of the newer half alone gives the contents after the durable commands, if the older half is settled.
pub fn the_newer_half_leads()
    ensures { (book : Book) (gone : List Run) (left : List (List ℕ)) → BookFits book gone → MayHoldAll book.words (all_cells book.slaves) left
        → AllSettled book.words (live_runs book.halves.newer) (all_cells book.slaves)
        → redone left (live_runs book.halves.newer) ≡ after_entries (base_of book) (own book) book.durable }
{}
