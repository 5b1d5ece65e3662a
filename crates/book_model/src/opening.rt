//! Law of the open: it establishes `Up`.

ghost use Rattle.std.specs.Prelude.{◌≡◌, ℕ, Bool, List, length};
ghost use Rattle.jrn_format.specs.declared.journal.Journal.{Journal};
ghost use Rattle.site_core.specs.State.{State};
ghost use Rattle.book_model.specs.Machine.{Machine, reopened, MayKeep};
ghost use Rattle.book_model.specs.Kept.{Kept};
ghost use Rattle.book_model.specs.Frame.{JournalFrame};
ghost use Rattle.book_model.specs.Up.{Up};
ghost use Rattle.book_model.specs.Opening.{words_in, IsFound, book_on};

/// Opening a book on a recoverable disk and words, whatever the journal's form, establishes `Up` for a new session, which begins with a
/// prefix of the last session's commands that has every acknowledged one in it.
pub fn up_as_it_is_opened()
    ensures { (journal : Journal) (state : State) (took : List Bool) (machine : Machine) → IsFound journal state
        → length took ≡ length state.halves
        → Kept state.disk.bytes (words_in state.halves) machine
        → (k : ℕ) × MayKeep machine k × ((frame : JournalFrame) × Up frame (book_on state journal) state took (reopened machine k)) }
{}
