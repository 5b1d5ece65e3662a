//! Law of a power cut, for every form of the journal.

ghost use Rattle.std.specs.Prelude.{ℕ, List};
ghost use Rattle.sii_words.specs.declared.run.Run.{Run};
ghost use Rattle.site_core.specs.Disk.{Disk, StopImage};
ghost use Rattle.book_model.specs.Book.{Book, all_cells};
ghost use Rattle.book_model.specs.Machine.{Machine};
ghost use Rattle.book_model.specs.Kept.{Kept};
ghost use Rattle.book_model.specs.Plants.{MayHoldAll};
ghost use Rattle.book_model.specs.Fits.{BookFits};
ghost use Rattle.book_model.specs.Frame.{JournalFrame};
ghost use Rattle.book_model.specs.Keeping.{IsOfBook, IsOfLine};
ghost use Rattle.book_model.specs.OldDoing.{JournalFits};

/// Whatever the journal's form and the book's action, with a fault or without, each disk image and words that a power cut may leave are
/// recoverable (`Kept`).
pub fn each_stop_is_kept()
    ensures { (frame : JournalFrame) (book : Book) (machine : Machine) (gone : List Run) (disk : Disk) (image : List ℕ) (left : List (List ℕ))
        → IsOfLine frame book → IsOfBook book machine → BookFits book gone → JournalFits frame book disk
        → MayHoldAll book.words (all_cells book.slaves) left → StopImage disk image → Kept image left machine }
{}
