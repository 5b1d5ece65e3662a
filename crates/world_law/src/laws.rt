ghost use Rattle.std.specs.Prelude.{◌≡◌, Bool, List, length, None};
ghost use Rattle.std.specs.List.{AllByRecursion};
ghost use Rattle.sii_edit.specs.Fitting.{PlantFits};
ghost use Rattle.esc_model.specs.WordAccess.{IsIdle};
ghost use Rattle.site_core.specs.State.{State};
ghost use Rattle.book_model.specs.Opening.{IsAllSynced, words_in};
ghost use Rattle.world_law.specs.World.{Step, World};
ghost use Rattle.world_law.specs.Law.{EventFits, IsFormatted, Runs, Session, Starts, StaysKept, blank};

/// The main law: whatever events happen, in any order and with power cuts anywhere, a recovery that completes leaves the slaves with
/// the contents after a prefix of the accepted commands, with every acknowledged command in it.
///
/// At each moment of a run from a world that starts as it should, in terms of what callers were told so far:
///
/// - the disk and the words that a power cut may leave are recoverable (`Kept`);
/// - a station that is down, or closed by a fault with nothing handed out, can be opened once no slave is busy;
/// - if a recovery is complete, the slaves hold the contents that the session began with: those after a prefix of the last session's
///   commands, with every acknowledged one in it;
/// - while the station is up, its accepted commands are those that callers were told of, and its durable ones are acknowledged;
/// - since the open, each slave was issued at most three words for each word that the entries found then and the accepted commands
///   name for it.
pub fn law()
    ensures { (world : World) (session : Session) (steps : List Step) → Starts world session.machine → Runs world steps
        → AllByRecursion (λ (step : Step). EventFits step.event) steps → StaysKept world session steps }
{}

/// A formatted and synced disk, with idle slaves that hold any words, is a world from which the law starts, with no command
/// accepted yet.
pub fn a_formatted_line_starts()
    ensures { (state : State) (took : List Bool) → IsFormatted (length state.halves) state.disk.bytes → IsAllSynced state.disk
        → AllByRecursion IsIdle state.halves
        → length took ≡ length state.halves → PlantFits (words_in state.halves)
        → Starts (record { book = None; state = state; took = took }) (blank (words_in state.halves)) }
{}
