//! Device calls in a row keep what each of them keeps.

ghost use Rattle.std.specs.Prelude.{ℕ, ◌≤◌, ◌++◌, List};
ghost use Rattle.sii_edit.specs.declared.command.Command.{Command};
ghost use Rattle.site_core.specs.State.{Leaves, Pair, Seen};
ghost use Rattle.site_core.specs.Passes.{AddsNothing};
ghost use Rattle.book_model.specs.Kept.{Kept};
ghost use Rattle.book_model.specs.Machine.{Machine};
ghost use Rattle.site_journal.specs.Running.{KeepsAll, KeepsWith, with_commands};

/// Calls keep what was kept if a power cut in them leaves nothing that it couldn't leave before. Reads and syncs are such calls.
pub fn what_adds_nothing_keeps()
    ensures { (machine : Machine) (old new : Seen) → AddsNothing old new
        → ((pair : Pair) → Leaves old.state pair → Kept pair.disk pair.words machine) → KeepsAll machine old new }
{}

/// Two runs one after another keep what each of them keeps, also while commands are accepted on the way.
pub fn runs_in_a_row_keep()
    ensures all { (machine : Machine) (first mid last : Seen) → KeepsAll machine first mid → KeepsAll machine mid last
        → KeepsAll machine first last }
    ensures with_commands { (machine : Machine) (commands : List Command) (first mid last : Seen) → KeepsWith machine commands first mid
        → KeepsWith machine commands mid last → KeepsWith machine commands first last }
{}

/// A run that keeps everything with all these commands accepted also keeps it with a prefix of them.
pub fn a_run_with_commands_keeps()
    ensures { (machine : Machine) (commands : List Command) (count : ℕ) (old new : Seen) → machine.acknowledged ≤ count
        → KeepsAll (with_commands machine commands count) old new
        → KeepsWith machine commands old new }
{}

/// What is kept while these commands are accepted stays kept if more are accepted after them.
pub fn more_commands_may_come()
    ensures { (machine : Machine) (commands more : List Command) (old new : Seen) → KeepsWith machine commands old new
        → KeepsWith machine (commands ++ more) old new }
{}
