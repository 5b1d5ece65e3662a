//! Each action that ends brings the end of a recovery nearer.

ghost use Rattle.std.specs.Prelude.{◌≡◌, ◌<◌, ◌≤◌, ◌*◌, ℕ, Bool, List, Result, Ok, length};
ghost use Rattle.std.specs.List.{sum_by};
ghost use Rattle.sii_words.specs.declared.run.Run.{Run};
ghost use Rattle.site_core.specs.declared.fault.DeviceFault.{DeviceFault};
ghost use Rattle.site_core.specs.State.{State};
ghost use Rattle.book_model.specs.declared.next.RomNext.TheVariants as next;
ghost use Rattle.book_model.specs.declared.next.RomOutcome.{RomOutcome};
ghost use Rattle.book_model.specs.Entries.{runs_of};
ghost use Rattle.book_model.specs.Book.{Book};
ghost use Rattle.book_model.specs.Open.{migrate};
ghost use Rattle.book_model.specs.DiskSteps.{disk_next, disk_done};
ghost use Rattle.book_model.specs.RomSteps.{rom_next, rom_done};
ghost use Rattle.book_model.specs.Machine.{Machine};
ghost use Rattle.book_model.specs.Frame.{JournalFrame};
ghost use Rattle.book_model.specs.Up.{Up};
ghost use Rattle.site_journal.specs.Left.{words_issued};
ghost use Rattle.site_journal.specs.Recovering.{GetsNearer, HasAction, IsOfIssue, IsOfSettle, IsRecovering, MayFail, fault_after};

/// Asking for a migration changes nothing in the count: its device calls were counted already.
pub fn a_migration_is_asked_for()
    ensures { (book : Book) → IsRecovering book → GetsNearer 0 0 book (migrate book).1 }
{}

/// An action of the disk that succeeds leaves at least one device call fewer. A failed one gives the book its fault.
pub fn an_action_of_the_disk_comes_back()
    ensures well { (frame : JournalFrame) (book : Book) (state : State) (took : List Bool) (machine : Machine) → Up frame book state took machine
        → IsRecovering book → HasAction book
        → GetsNearer 1 0 book (disk_done (disk_next book).1 (Ok tt)) }
    ensures fault { (book : Book) (result : Result (Unit {0}) DeviceFault) → IsRecovering book → HasAction book
        → (disk_done (disk_next book).1 result).fault ≡ fault_after result book.fault }
{}

/// An issue, with any outcome, leaves at least one device call fewer, and counts as one more word issued.
pub fn an_issue_comes_back()
    ensures { (frame : JournalFrame) (book : Book) (state : State) (took : List Bool) (machine : Machine) (i word value : ℕ) (outcome : RomOutcome)
        → Up frame book state took machine → IsRecovering book
        → i < length book.slaves → (rom_next book i).0 ≡ next.Issue word value → IsOfIssue outcome
        → GetsNearer 1 1 book (rom_done (rom_next book i).1 i outcome)
        × MayFail i outcome book.fault (rom_done (rom_next book i).1 i outcome).fault }
{}

/// A settle, with any outcome, leaves at least 10,001 device calls fewer.
pub fn a_settle_comes_back()
    ensures { (frame : JournalFrame) (book : Book) (state : State) (took : List Bool) (machine : Machine) (i : ℕ) (taken : Bool)
        (outcome : RomOutcome) → Up frame book state took machine → IsRecovering book
        → i < length book.slaves → (rom_next book i).0 ≡ next.Settle taken → IsOfSettle outcome
        → GetsNearer 10001 0 book (rom_done (rom_next book i).1 i outcome)
        × MayFail i outcome book.fault (rom_done (rom_next book i).1 i outcome).fault }
{}

/// At most three words were issued for each word that the entries found at the open name.
pub fn few_words_are_issued()
    ensures { (book : Book) → IsRecovering book
        → words_issued book.slaves ≤ 3 * sum_by (λ (run : Run). length run.words) (runs_of book.found) }
{}
