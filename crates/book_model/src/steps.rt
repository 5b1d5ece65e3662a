//! Laws of the book's calls: `BookFits` stays true, so that redo still gives the contents.

ghost use Rattle.std.specs.Prelude.{◌≡◌, ◌≤◌, ◌<◌, ◌+◌, ℕ, true, List, [], ◌++◌, length, take, drop};
ghost use Rattle.sii_words.specs.declared.run.Run.{Run};
ghost use Rattle.jrn_format.specs.declared.journal.Entry.{Entry};
ghost use Rattle.jrn_format.specs.Halves.{Place, InOlder};
ghost use Rattle.book_model.specs.Cells.{cell_of};
ghost use Rattle.book_model.specs.Entries.{live_runs};
ghost use Rattle.book_model.specs.Book.{Book, OpenSync, CloseSync, own, all_cells, slave_at};
ghost use Rattle.book_model.specs.DiskSteps.{went_on};
ghost use Rattle.book_model.specs.RomSteps.{with_issue, with_written};
ghost use Rattle.book_model.specs.Reading.{runs_settled};
ghost use Rattle.book_model.specs.Owed.{IsUnsure};
ghost use Rattle.book_model.specs.Fits.{BookFits, SameCells};

/// `BookFits` stays true when the second sync of an append makes its batch live.
pub fn going_live()
    ensures { (book : Book) (gone : List Run) (place : Place) (entries : List Entry) → BookFits book gone
        → SameCells book.words (all_cells book.slaves)
        → (place ≡ InOlder → book.halves.newer ≡ []) → take (length entries) (drop book.durable (own book)) ≡ entries
        → book.durable + length entries ≤ length (own book)
        → BookFits (went_on book (OpenSync place entries)) gone }
{}

/// `BookFits` stays true when the sync of a retire succeeds, if the test before it held.
pub fn retiring()
    ensures { (book : Book) (gone : List Run) → BookFits book gone → SameCells book.words (all_cells book.slaves)
        → runs_settled (all_cells book.slaves) (live_runs book.halves.newer) (live_runs book.halves.older) ≡ true
        → BookFits (went_on book CloseSync) (gone ++ live_runs book.halves.older) }
{}

/// `BookFits` stays true when a word that is owed something is issued.
pub fn issuing()
    ensures { (book : Book) (gone : List Run) (i : ℕ) (w : ℕ × ℕ) → BookFits book gone → i < length book.slaves
        → w.0 < length (slave_at book i).cells
        → 0 < length (cell_of (slave_at book i).cells w.0).owed → BookFits (with_issue book i w) gone }
{}

/// `BookFits` stays true when an issued word is known to be written.
pub fn writing()
    ensures { (book : Book) (gone : List Run) (i word value : ℕ) → BookFits book gone → i < length book.slaves
        → word < length (slave_at book i).cells
        → IsUnsure (cell_of (slave_at book i).cells word).known → BookFits (with_written book i word value) gone }
{}
