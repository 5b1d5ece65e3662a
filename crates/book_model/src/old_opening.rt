//! Law of the open: it establishes `JournalFits`.

ghost use Rattle.std.specs.Prelude.{◌≡◌, ◌≤◌, ℕ, List, [], length};
ghost use Rattle.std.specs.Int.{w32};
ghost use Rattle.jrn_format.specs.declared.journal.Journal.{Journal};
ghost use Rattle.jrn_format.specs.Header.{field_at};
ghost use Rattle.jrn_format.specs.Journal.{IsJournal};
ghost use Rattle.site_core.specs.Disk.{Disk};
ghost use Rattle.book_model.specs.Entries.{sizes_of};
ghost use Rattle.book_model.specs.Open.{open_book};
ghost use Rattle.book_model.specs.Frame.{JournalFrame};
ghost use Rattle.book_model.specs.Keeping.{IsOfLine};
ghost use Rattle.book_model.specs.OldDoing.{JournalFits};

/// Opening a book on a synced journal of any form establishes `JournalFits`.
pub fn a_book_is_opened()
    ensures { (words : List (List ℕ)) (journal : Journal) (disk : Disk) → IsJournal disk.bytes (sizes_of words) journal → disk.unsynced ≡ []
        → length disk.bytes ≤ disk.synced_length
        → let book = open_book words (field_at w32 4 disk.bytes) journal in
        (frame : JournalFrame) × IsOfLine frame book × JournalFits frame book disk }
{}
