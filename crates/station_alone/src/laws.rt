//! Laws of every station on one thread. A function here does nothing: its contract is the law.

ghost use Rattle.std.specs.Prelude.{◌≡◌, ◌≤◌, ℕ, false, is_some, length, Ok, IsTrue};
ghost use Rattle.std.specs.List.{AllByRecursion};
ghost use Rattle.jrn_format.specs.Header.{IsCapacity};
ghost use Rattle.esc_model.specs.WordAccess.{IsIdle};
ghost use Rattle.site_core.specs.State.{Seen};
ghost use Rattle.site_core.specs.Passes.{LeavesOnly};
ghost use Rattle.site_journal.specs.Formatting.{Formats};
ghost use Rattle.book_model.specs.Machine.{Machine};
ghost use Rattle.book_model.specs.Opening.{words_in};
ghost use Rattle.station_alone.specs.Station.{Station, Stands};
ghost use Rattle.station_alone.specs.Keeping.{KeptFor};
ghost use Rattle.station_alone.specs.Formatted.{IsBlank};
ghost use Rattle.station_alone.specs.Settled.{HasSettled, HoldsContents, ReadAsContents};

/// After `format` succeeded on a line with idle slaves, a power cut leaves only what is kept for a machine that holds the words of
/// these slaves and has accepted nothing. That is what `Alone::open` and `recover` need to begin its first session.
pub fn a_formatted_line_is_kept()
    ensures { (capacity : ℕ) (machine : Machine) (old new : Seen) → IsCapacity capacity → length old.state.halves ≤ 64
        → AllByRecursion IsIdle old.state.halves → Formats (length old.state.halves) capacity old (Ok tt) new
        → IsBlank (words_in old.state.halves) machine → LeavesOnly (KeptFor machine) new.state }
{}

/// Once everything found at the open and everything accepted is settled, a power cut leaves the contents after all accepted commands
/// in the slaves. That holds unless the site has stopped, also after a disk fault or with a dead slave.
pub fn settled_slaves_hold_the_contents()
    ensures going { (s : Station) → Stands s → ¬ IsTrue s.seen.is_stopped → HasSettled s.book → HoldsContents s }
    ensures no_fault { (s : Station) → Stands s → is_some s.book.fault ≡ false → HasSettled s.book → HoldsContents s }
{}

/// Then each slave reads as these contents too.
pub fn settled_slaves_read_as_the_contents()
    ensures going { (s : Station) → Stands s → ¬ IsTrue s.seen.is_stopped → HasSettled s.book → ReadAsContents s }
    ensures no_fault { (s : Station) → Stands s → is_some s.book.fault ≡ false → HasSettled s.book → ReadAsContents s }
{}
