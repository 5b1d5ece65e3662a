//! Laws of `Up`: it implies that what a power cut leaves is recoverable, and steps of a slave keep it true.

ghost use Rattle.std.specs.Prelude.{◌≡◌, ◌<◌, ℕ, Bool, List, length, Some, slice_get, slice_set};
ghost use Rattle.esc_model.specs.SlaveHalf.{SlaveHalf, MayRest};
ghost use Rattle.site_core.specs.State.{State, Pair, Leaves, with_half};
ghost use Rattle.book_model.specs.Cells.{cell_of};
ghost use Rattle.book_model.specs.declared.fault.Fault.{Fault};
ghost use Rattle.book_model.specs.Book.{Book, Operation, slave_at, with_fault};
ghost use Rattle.book_model.specs.RomSteps.{with_issue, with_operation};
ghost use Rattle.book_model.specs.Machine.{Machine};
ghost use Rattle.book_model.specs.Kept.{Kept};
ghost use Rattle.book_model.specs.Owed.{IsAmong};
ghost use Rattle.book_model.specs.Frame.{JournalFrame};
ghost use Rattle.book_model.specs.Slaves.{SlaveFits};
ghost use Rattle.book_model.specs.Steps.{TakesOrNot};
ghost use Rattle.book_model.specs.Up.{Up};

/// If `Up` holds, whatever a power cut may leave of disk and slaves is recoverable (`Kept`).
pub fn each_pair_is_kept()
    ensures { (frame : JournalFrame) (book : Book) (state : State) (took : List Bool) (machine : Machine) (pair : Pair)
        → Up frame book state took machine
        → Leaves state pair → Kept pair.disk pair.words machine }
{}

/// `Up` stays true when a busy slave becomes idle.
pub fn up_while_a_slave_rests()
    ensures { (frame : JournalFrame) (book : Book) (state : State) (took : List Bool) (machine : Machine) (i : ℕ) (half later : SlaveHalf)
        → Up frame book state took machine
        → slice_get state.halves i ≡ Some half → MayRest half later → Up frame book (with_half state i later) took machine }
{}

/// `Up` stays true when a fault closes the book.
pub fn up_in_a_fault()
    ensures { (frame : JournalFrame) (book : Book) (state : State) (took : List Bool) (machine : Machine) (fault : Fault)
        → Up frame book state took machine → Up frame (with_fault book fault) state took machine }
{}

/// `Up` stays true when a word is issued with a value that it is owed, whether the slave takes the datagram or not.
pub fn up_while_a_word_is_issued()
    ensures { (frame : JournalFrame) (book : Book) (state : State) (took : List Bool) (machine : Machine) (i : ℕ)
        (half later : SlaveHalf) (w : ℕ × ℕ)
        (t : Bool) → Up frame book state took machine
        → i < length book.slaves → slice_get state.halves i ≡ Some half → w.0 < length (slave_at book i).cells
        → IsAmong w.1 (cell_of (slave_at book i).cells w.0).owed
        → TakesOrNot t i w.0 w.1 half later → Up frame (with_issue book i w) (with_half state i later) (slice_set took i t) machine }
{}

/// `Up` stays true when the book begins another action on a slave whose state fits that action.
pub fn up_on_another_operation()
    ensures { (frame : JournalFrame) (book : Book) (state : State) (took : List Bool) (machine : Machine) (i : ℕ) (later : SlaveHalf)
        (operation : Operation) (t : Bool) → Up frame book state took machine
        → i < length book.slaves → SlaveFits i later operation t (slave_at book i).cells
        → Up frame (with_operation book i operation) (with_half state i later) (slice_set took i t) machine }
{}
