//! Laws of wear: a slave gets at most three issues for each word that entries name for it, since each call keeps `Worn` true.

ghost use Rattle.std.specs.Prelude.{◌≡◌, ◌<◌, ◌≤◌, ◌*◌, ◌++◌, ℕ, Bool, List, length, Result};
ghost use Rattle.sii_edit.specs.declared.command.Command.{Command};
ghost use Rattle.jrn_format.specs.declared.journal.Journal.{Journal};
ghost use Rattle.site_core.specs.declared.fault.DeviceFault.{DeviceFault};
ghost use Rattle.site_core.specs.State.{State};
ghost use Rattle.book_model.specs.declared.next.RomOutcome.{RomOutcome};
ghost use Rattle.book_model.specs.Book.{Book, own, slave_at};
ghost use Rattle.book_model.specs.Open.{open_book, finish, migrate};
ghost use Rattle.book_model.specs.Submit.{with_command};
ghost use Rattle.book_model.specs.DiskSteps.{disk_next, disk_done};
ghost use Rattle.book_model.specs.RomSteps.{rom_next, rom_done};
ghost use Rattle.book_model.specs.Machine.{Machine};
ghost use Rattle.book_model.specs.Frame.{JournalFrame};
ghost use Rattle.book_model.specs.Up.{Up};
ghost use Rattle.book_model.specs.Worn.{named_for, Worn};

/// Since the open a slave was issued at most three words for each word that the entries found then and the accepted commands name for
/// it.
pub fn issues_of_a_slave_are_few()
    ensures { (book : Book) (i : ℕ) → Worn book → i < length book.slaves
        → (slave_at book i).issues ≤ 3 * named_for (book.found ++ own book) i }
{}

/// An open establishes `Worn`.
pub fn worn_as_it_is_opened()
    ensures { (words : List (List ℕ)) (capacity : ℕ) (journal : Journal) → Worn (open_book words capacity journal) }
{}

/// `Worn` stays true when a command is accepted, and when a finish or a migration is asked for.
pub fn worn_as_callers_ask()
    ensures command { (frame : JournalFrame) (book : Book) (state : State) (took : List Bool) (machine : Machine) (command : Command)
        → Up frame book state took machine → Worn book → Worn (with_command book command) }
    ensures finish { (book : Book) → Worn book → Worn (finish book) }
    ensures migrate { (book : Book) → Worn book → Worn (migrate book).1 }
{}

/// `Worn` stays true when an action on the disk begins, and when it ends.
pub fn worn_as_the_disk_works()
    ensures begins { (book : Book) → Worn book → Worn (disk_next book).1 }
    ensures ends { (frame : JournalFrame) (book : Book) (state : State) (took : List Bool) (machine : Machine)
        (result : Result (Unit {0}) DeviceFault) → Up frame book state took machine → Worn book → Worn (disk_done book result) }
{}

/// `Worn` stays true when an action on a slave begins, and when it ends.
pub fn worn_as_a_slave_works()
    ensures begins { (frame : JournalFrame) (book : Book) (state : State) (took : List Bool) (machine : Machine) (i : ℕ)
        → Up frame book state took machine → i < length book.slaves → Worn book → Worn (rom_next book i).1 }
    ensures ends { (frame : JournalFrame) (book : Book) (state : State) (took : List Bool) (machine : Machine) (i : ℕ) (outcome : RomOutcome)
        → Up frame book state took machine → i < length book.slaves → Worn book
        → Worn (rom_done book i outcome) }
{}
