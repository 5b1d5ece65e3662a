//! What each kind of device call keeps.

ghost use Rattle.std.specs.Prelude.{◌≡◌, ℕ, ◌<◌, ◌≤◌, Bool, List, Result, length};
ghost use Rattle.esc_rom.specs.Access.{IssuesWord, SettlesSlave};
ghost use Rattle.site_core.specs.declared.answers.Issued.{Issued};
ghost use Rattle.site_core.specs.declared.answers.Settled.{Settled};
ghost use Rattle.site_core.specs.declared.fault.DeviceFault.{DeviceFault};
ghost use Rattle.site_core.specs.State.{Seen};
ghost use Rattle.book_model.specs.declared.next.DiskNext.TheVariants as disk;
ghost use Rattle.book_model.specs.declared.next.RomNext.TheVariants as next;
ghost use Rattle.book_model.specs.Book.{Book};
ghost use Rattle.book_model.specs.DiskSteps.{disk_next};
ghost use Rattle.book_model.specs.RomSteps.{rom_next};
ghost use Rattle.book_model.specs.Machine.{Machine};
ghost use Rattle.book_model.specs.Frame.{JournalFrame};
ghost use Rattle.book_model.specs.Up.{Up};
ghost use Rattle.site_journal.specs.Running.{CallsDisk, KeepsAll, UpAfterDisk, UpAfterIssue, UpAfterSettle};

/// During a write or sync that the book has handed out, a power cut leaves only what is kept. Afterwards the station's invariant holds, unless
/// the site has stopped.
pub fn an_action_of_the_disk_runs()
    ensures { (frame : JournalFrame) (book : Book) (took : List Bool) (machine : Machine) (old new : Seen) (result : Result (Unit {0}) DeviceFault)
        → Up frame book old.state took machine
        → CallsDisk (disk_next book).0 old result new → KeepsAll machine old new × UpAfterDisk frame (disk_next book).1 took machine new result }
{}

/// A write that the book hands out begins inside the disk or right after its last byte, as a site requires.
pub fn an_action_of_the_disk_lies_inside()
    ensures bytes { (frame : JournalFrame) (book : Book) (took : List Bool) (machine : Machine) (old : Seen) (at : ℕ) (written : List ℕ)
        → Up frame book old.state took machine
        → (disk_next book).0 ≡ disk.Write at written → at ≤ length old.state.disk.bytes }
    ensures gate { (frame : JournalFrame) (book : Book) (took : List Bool) (machine : Machine) (old : Seen) (at : ℕ) (closed : Bool)
        → Up frame book old.state took machine
        → (disk_next book).0 ≡ disk.Gate at closed → at ≤ length old.state.disk.bytes }
{}

/// During an issue that the book has handed out, a power cut leaves only what is kept. Afterwards the station's invariant holds, unless
/// the site has stopped.
pub fn an_issue_runs()
    ensures { (frame : JournalFrame) (book : Book) (took : List Bool) (machine : Machine) (old new : Seen) (i word value : ℕ)
        (result : Result Issued DeviceFault) → Up frame book old.state took machine
        → i < length book.slaves → (rom_next book i).0 ≡ next.Issue word value → IssuesWord old i word value result new
        → KeepsAll machine old new × UpAfterIssue frame (rom_next book i).1 took machine i new result }
{}

/// During a settle that the book has handed out, a power cut leaves only what is kept. Afterwards the station's invariant holds, unless
/// the site has stopped.
pub fn a_settle_runs()
    ensures { (frame : JournalFrame) (book : Book) (took : List Bool) (machine : Machine) (old new : Seen) (i : ℕ) (taken : Bool)
        (result : Result Settled DeviceFault) → Up frame book old.state took machine
        → i < length book.slaves → (rom_next book i).0 ≡ next.Settle taken → SettlesSlave old i taken result new
        → KeepsAll machine old new × UpAfterSettle frame (rom_next book i).1 took machine i new result }
{}
