//! Laws of jobs that were done. A function here does nothing: its contract is the law.

ghost use Rattle.std.specs.Prelude.{ℕ, List, Result};
ghost use Rattle.site_core.specs.declared.fault.DeviceFault.{DeviceFault};
ghost use Rattle.site_core.specs.State.{Seen};
ghost use Rattle.book_model.specs.declared.next.DiskNext.{DiskNext};
ghost use Rattle.book_model.specs.declared.next.RomNext.{RomNext};
ghost use Rattle.book_model.specs.declared.next.RomOutcome.{RomOutcome};
ghost use Rattle.station_jobs.specs.declared.log.Assignment.{Assignment};
ghost use Rattle.station_jobs.specs.Jobs.{DoneInTurn};
ghost use Rattle.station_jobs.specs.Left.{CameBackInTurn};
ghost use Rattle.station_jobs.specs.Flushing.{DoesAction, ActionReturns};
ghost use Rattle.station_jobs.specs.Working.{CallsSlave, SlaveReturns};

/// The actions of a flusher, done one after another, changed the disk as the events of the main law do.
pub fn actions_are_events()
    ensures { (log : List (Assignment DiskNext (Result (Unit {0}) DeviceFault))) (old new : Seen) → DoneInTurn DoesAction log old new
        → CameBackInTurn ActionReturns log old.state new.state }
{}

/// The calls of a worker, done one after another, changed its slave as the events of the main law do.
pub fn calls_are_events()
    ensures { (slave : ℕ) (log : List (Assignment RomNext RomOutcome)) (old new : Seen) → DoneInTurn (CallsSlave slave) log old new
        → CameBackInTurn (SlaveReturns slave) log old.state new.state }
{}
