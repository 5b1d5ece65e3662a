//! Laws of the actions on the disk: `Up` stays true.

ghost use Rattle.std.specs.Prelude.{◌≡◌, Bool, List, Some, Ok, true};
ghost use Rattle.site_core.specs.Disk.{Disk};
ghost use Rattle.site_core.specs.State.{State};
ghost use Rattle.book_model.specs.declared.fault.Fault.{Fault};
ghost use Rattle.book_model.specs.Book.{Book, with_fault};
ghost use Rattle.book_model.specs.DiskSteps.{disk_next, disk_done};
ghost use Rattle.book_model.specs.Machine.{Machine};
ghost use Rattle.book_model.specs.Frame.{JournalFrame};
ghost use Rattle.book_model.specs.Events.{begun_on, ended_on, FailsOn, in_progress, rested};
ghost use Rattle.book_model.specs.Steps.{acknowledged_by};
ghost use Rattle.book_model.specs.Up.{Up};

/// `Up` stays true when the book hands out its next action on the disk, or none, and the disk begins it.
pub fn up_as_an_action_begins()
    ensures { (frame : JournalFrame) (book : Book) (state : State) (took : List Bool) (machine : Machine) → Up frame book state took machine
        → Up frame (disk_next book).1 (record state { disk = begun_on (Some (disk_next book).0) state.disk }) took machine }
{}

/// `Up` stays true when the action on the disk succeeds, with all commands that are durable then acknowledged.
pub fn up_as_an_action_ends()
    ensures { (frame : JournalFrame) (book : Book) (state : State) (took : List Bool) (machine : Machine) → Up frame book state took machine
        → book.is_handed_out ≡ true
        → Up frame (disk_done book (Ok tt)) (record state { disk = ended_on (in_progress book) state.disk }) took
        (acknowledged_by (disk_done book (Ok tt)) machine) }
{}

/// `Up` stays true when the action on the disk fails, or the site stops.
pub fn up_as_an_action_fails()
    ensures { (frame : JournalFrame) (book : Book) (state : State) (took : List Bool) (machine : Machine) (new : Disk) (fault : Fault)
        → Up frame book state took machine → book.is_handed_out ≡ true
        → FailsOn (in_progress book) state.disk new → Up frame (with_fault (rested book) fault) (record state { disk = new }) took machine }
{}
