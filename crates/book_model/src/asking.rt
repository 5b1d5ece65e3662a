//! Laws of the calls that hand out an action on a slave and take its outcome: `Up` stays true.

ghost use Rattle.std.specs.Prelude.{◌≡◌, ◌<◌, ℕ, Bool, false, List, length, Some, slice_get, slice_index_or};
ghost use Rattle.esc_model.specs.SlaveHalf.{SlaveHalf};
ghost use Rattle.site_core.specs.State.{State, with_half};
ghost use Rattle.book_model.specs.declared.next.RomOutcome.{RomOutcome};
ghost use Rattle.book_model.specs.Book.{Book, slave_at};
ghost use Rattle.book_model.specs.RomSteps.{rom_next, rom_done};
ghost use Rattle.book_model.specs.Machine.{Machine};
ghost use Rattle.book_model.specs.Frame.{JournalFrame};
ghost use Rattle.book_model.specs.Steps.{MayBegin, took_after, MayComeBack};
ghost use Rattle.book_model.specs.Up.{Up};

/// `Up` stays true when the book hands out its next action on a slave, or none, and the slave begins it.
pub fn up_as_a_slave_is_asked()
    ensures { (frame : JournalFrame) (book : Book) (state : State) (took : List Bool) (machine : Machine) (i : ℕ)
        (half later : SlaveHalf) (taken : Bool)
        → Up frame book state took machine
        → i < length book.slaves → slice_get state.halves i ≡ Some half → MayBegin (rom_next book i).0 i taken half later
        → Up frame (rom_next book i).1 (with_half state i later) (took_after (rom_next book i).0 took i taken) machine }
{}

/// `Up` stays true when an action on a slave ends with any outcome that the slave allows.
pub fn up_as_a_slave_answers()
    ensures { (frame : JournalFrame) (book : Book) (state : State) (took : List Bool) (machine : Machine) (i : ℕ) (half later : SlaveHalf)
        (outcome : RomOutcome) → Up frame book state took machine
        → i < length book.slaves → slice_get state.halves i ≡ Some half
        → MayComeBack (slice_index_or took i false) (slave_at book i).operation outcome half later
        → Up frame (rom_done book i outcome) (with_half state i later) took machine }
{}
