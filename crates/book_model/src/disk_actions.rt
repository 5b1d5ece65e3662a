//! Laws of the book's actions on the disk, for a journal of version 2: `DiskFits` stays true.

ghost use Rattle.std.specs.Prelude.{◌≡◌, true, Ok, Some};
ghost use Rattle.site_core.specs.Disk.{Disk};
ghost use Rattle.book_model.specs.declared.fault.Fault.{Fault};
ghost use Rattle.book_model.specs.Book.{Book, with_fault};
ghost use Rattle.book_model.specs.DiskSteps.{disk_next, disk_done};
ghost use Rattle.book_model.specs.Frame.{JournalFrame};
ghost use Rattle.book_model.specs.Doing.{DiskFits};
ghost use Rattle.book_model.specs.Events.{begun_on, ended_on, FailsOn, in_progress, rested};
ghost use Rattle.book_model.specs.Queued.{CanBegin};

/// `DiskFits` stays true when the book hands out its next action on the disk, or none, and the disk begins it.
pub fn an_action_begins()
    ensures { (frame : JournalFrame) (book : Book) (disk : Disk) → CanBegin frame book → DiskFits frame book disk
        → DiskFits frame (disk_next book).1 (begun_on (Some (disk_next book).0) disk) }
{}

/// `DiskFits` stays true when the action that is handed out succeeds.
pub fn an_action_ends()
    ensures { (frame : JournalFrame) (book : Book) (disk : Disk) → book.capacity ≡ frame.capacity → book.is_handed_out ≡ true
        → DiskFits frame book disk
        → DiskFits frame (disk_done book (Ok tt)) (ended_on (in_progress book) disk) }
{}

/// `DiskFits` stays true when the action that is handed out fails, or the site stops.
pub fn an_action_fails()
    ensures { (frame : JournalFrame) (book : Book) (disk new : Disk) (fault : Fault) → book.capacity ≡ frame.capacity
        → book.is_handed_out ≡ true
        → DiskFits frame book disk
        → FailsOn (in_progress book) disk new → DiskFits frame (with_fault (rested book) fault) new }
{}
