//! A station stays ready for its next device call, whatever the outcome of the last one.

ghost use Rattle.std.specs.Prelude.{◌≡◌, ℕ, ◌<◌, Bool, List, Result, length};
ghost use Rattle.jrn_format.specs.declared.journal.Journal.{Journal};
ghost use Rattle.esc_rom.specs.Access.{IssuesWord, SettlesSlave};
ghost use Rattle.site_core.specs.declared.answers.Issued.{Issued};
ghost use Rattle.site_core.specs.declared.answers.Settled.{Settled};
ghost use Rattle.site_core.specs.declared.fault.DeviceFault.{DeviceFault};
ghost use Rattle.site_core.specs.State.{Seen};
ghost use Rattle.book_model.specs.declared.next.RomNext.TheVariants as next;
ghost use Rattle.book_model.specs.Book.{Book};
ghost use Rattle.book_model.specs.DiskSteps.{disk_done, disk_next};
ghost use Rattle.book_model.specs.RomSteps.{rom_done, rom_next};
ghost use Rattle.book_model.specs.Opening.{IsFound, book_on};
ghost use Rattle.site_journal.specs.Ready.{IsReady, issue_outcome, settle_outcome};
ghost use Rattle.site_journal.specs.Running.{CallsDisk};

/// A station that was just opened is ready.
pub fn ready_once_opened()
    ensures { (journal : Journal) (seen : Seen) (took : List Bool) → length took ≡ length seen.state.halves
        → IsFound journal seen.state → IsReady (book_on seen.state journal) seen }
{}

/// After an action of the disk, with any outcome, the station is ready again.
pub fn ready_after_an_action_of_the_disk()
    ensures { (book : Book) (old new : Seen) (result : Result (Unit {0}) DeviceFault) → IsReady book old
        → CallsDisk (disk_next book).0 old result new
        → IsReady (disk_done (disk_next book).1 result) new }
{}

/// After an issue, with any outcome, the station is ready again.
pub fn ready_after_an_issue()
    ensures { (book : Book) (old new : Seen) (i word value : ℕ) (result : Result Issued DeviceFault) → IsReady book old
        → i < length book.slaves → (rom_next book i).0 ≡ next.Issue word value
        → IssuesWord old i word value result new → IsReady (rom_done (rom_next book i).1 i (issue_outcome result)) new }
{}

/// After a settle, with any outcome, the station is ready again.
pub fn ready_after_a_settle()
    ensures { (book : Book) (old new : Seen) (i : ℕ) (taken : Bool) (result : Result Settled DeviceFault) → IsReady book old
        → i < length book.slaves → (rom_next book i).0 ≡ next.Settle taken
        → SettlesSlave old i taken result new → IsReady (rom_done (rom_next book i).1 i (settle_outcome result)) new }
{}
