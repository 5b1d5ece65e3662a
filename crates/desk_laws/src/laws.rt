ghost use Rattle.std.specs.Prelude.{◌≡◌, ◌↔◌, ◌<◌, ℕ, List, Some, Err, length, true};
ghost use Rattle.std.specs.List.{AllByRecursion};
ghost use Rattle.site_core.specs.State.{Seen};
ghost use Rattle.site_core.specs.declared.fault.DeviceFault.TheVariants as device;
ghost use Rattle.book_model.specs.Book.{Book, Resting, base_of};
ghost use Rattle.station_jobs.specs.Flushing.{IsFlushed};
ghost use Rattle.station_jobs.specs.Working.{IsWorked};
ghost use Rattle.world_law.specs.World.{Reported, World};
ghost use Rattle.world_law.specs.Happenings.{HappensUp};
ghost use Rattle.desk_book.specs.declared.call.Call.{Call};
ghost use Rattle.desk_book.specs.declared.call.Call.TheVariants.{DiskReported};
ghost use Rattle.desk_book.specs.Calls.{after, AreAnswered, IsAnswered, replayed};
ghost use Rattle.desk_book.specs.Closing.{is_served};
ghost use Rattle.desk_book.specs.Logs.{DiskEntry, cycle_log, rom_log};
ghost use Rattle.desk_laws.specs.Events.{CanHappen, IsOfItsJob, NoneIsLost, event_of};
ghost use Rattle.desk_laws.specs.Slaves.{IsJustOpened, IsAsOpened, ReadsAsContents};
ghost use Rattle.desk_laws.specs.Turns.{IsTurnOf, NeverFall, AppendsNext};

/// Each call of a book under its lock is an event of the main law.
///
/// If the event happens in a world with this book, then whatever disk and slaves do in it, the book afterwards is the one that the
/// history has after the call.
pub fn desk_calls_are_events()
    ensures { (book : Book) (call : Call) (world later : World) (reported : Reported) → world.book ≡ Some book → IsAnswered book call
        → HappensUp (event_of call) book world reported later → later.book ≡ Some (after book call) }
{}

/// There is a world of the book in which the event of an answered call happens, exactly if the outcome that it reports is of its job's kind.
pub fn answered_calls_can_happen()
    ensures { (book : Book) (call : Call) → IsAnswered book call → (CanHappen (event_of call) book ↔ IsOfItsJob book call) }
{}

/// A disk that is told `Lost` is no event. It leaves the book as it is: the action stays handed out, and the disk gets no other.
///
/// No work done on a site comes to that: none of the disk's actions ends with `Lost`.
pub fn a_lost_disk_changes_nothing()
    ensures same { (book : Book) → after book (DiskReported (Err device.Lost)) ≡ book }
    ensures never { (log : List DiskEntry) (old new : Seen) → IsFlushed log old new → NoneIsLost log }
{}

/// Each process data cycle that was handed out has the process image of the contents after a prefix of the accepted commands.
pub fn turns_have_their_images()
    ensures { (opened : Book) (calls : List Call) → AreAnswered opened calls
        → AllByRecursion (IsTurnOf (base_of opened) (replayed opened calls).accepted) (cycle_log calls) }
{}

/// From one process data cycle that was handed out to the next, the prefix of its commands never becomes shorter.
///
/// If the desk began while an append was in progress, that has to be of the book's next commands.
pub fn turns_never_fall()
    ensures { (opened : Book) (calls : List Call) → AppendsNext opened → AreAnswered opened calls → NeverFall (cycle_log calls) }
{}

/// A book that is doing nothing with the disk meets the condition of `turns_never_fall`.
pub fn resting_appends_next()
    ensures { (book : Book) → book.doing ≡ Resting → AppendsNext book }
{}

/// Once everything is settled and the book has no fault, a slave reads as the contents after all accepted commands.
///
/// The slave was idle when its worker began, with the words that the book was opened with, and the worker did the jobs that the calls
/// handed out.
pub fn served_slaves_read_as_the_contents()
    ensures { (opened : Book) (calls : List Call) (slave : ℕ) (old new : Seen) → IsJustOpened opened → AreAnswered opened calls
        → is_served (replayed opened calls) ≡ true → slave < length opened.words → IsWorked slave (rom_log slave calls) old new
        → IsAsOpened opened old.state slave → ReadsAsContents (replayed opened calls) new.state slave }
{}
