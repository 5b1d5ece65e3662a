//! A recovery gets to its end, and what the slaves hold then.

ghost use Rattle.std.specs.Prelude.{◌≡◌, ◌≢◌, ◌<◌, ◌↔◌, ℕ, Bool, List, [], false, is_some, length};
ghost use Rattle.site_core.specs.State.{State, Pair, Leaves};
ghost use Rattle.jrn_format.specs.Halves.{live};
ghost use Rattle.book_model.specs.declared.next.DiskNext.TheVariants as disk;
ghost use Rattle.book_model.specs.declared.next.RomNext.TheVariants as rom;
ghost use Rattle.book_model.specs.Book.{Book, base_of};
ghost use Rattle.book_model.specs.DiskSteps.{disk_next};
ghost use Rattle.book_model.specs.RomSteps.{rom_next};
ghost use Rattle.book_model.specs.Reading.{live_bytes, planned};
ghost use Rattle.book_model.specs.Machine.{Machine};
ghost use Rattle.book_model.specs.Frame.{JournalFrame};
ghost use Rattle.book_model.specs.Up.{Up};
ghost use Rattle.site_journal.specs.Recovering.{HasNothingToDo, IsRecovering};

/// Without a fault, a recovering book never answers `Stop`, for the disk or for a slave.
pub fn nobody_stops_on_the_way()
    ensures disk { (book : Book) → IsRecovering book → is_some book.fault ≡ false → (disk_next book).0 ≢ disk.Stop }
    ensures slave { (book : Book) (i : ℕ) → IsRecovering book → is_some book.fault ≡ false → i < length book.slaves
        → (rom_next book i).0 ≢ rom.Stop }
{}

/// Without a fault, a recovering book with nothing to do has nothing live, and no migration was asked for.
pub fn something_is_to_be_done_until_the_end()
    ensures { (book : Book) → IsRecovering book → is_some book.fault ≡ false → HasNothingToDo book
        → (live book.halves ≡ []) × (book.is_migrating ≡ false) }
{}

/// Nothing is live exactly if the live batches take no bytes.
pub fn nothing_is_live_without_a_byte()
    ensures { (book : Book) → (live_bytes book ≡ 0) ↔ (live book.halves ≡ []) }
{}

/// At the end a power cut leaves the contents that the book was opened with in the slaves, and the plan is made of these.
pub fn at_the_end_the_slaves_hold_the_base()
    ensures words { (frame : JournalFrame) (book : Book) (state : State) (took : List Bool) (machine : Machine) (pair : Pair)
        → Up frame book state took machine → book.accepted ≡ [] → live book.halves ≡ []
        → Leaves state pair → pair.words ≡ base_of book }
    ensures plan { (book : Book) → book.accepted ≡ [] → planned book ≡ base_of book }
{}
