//! Laws of the single actions on a slave and their outcomes: `Up` stays true.

ghost use Rattle.std.specs.Prelude.{◌≡◌, ◌⊎◌, ◌<◌, ℕ, Bool, true, false, List, ◌∷◌, length, Some, slice_get, slice_set, slice_index_or};
ghost use Rattle.esc_model.specs.SlaveHalf.{SlaveHalf};
ghost use Rattle.esc_model.specs.WordAccess.{IsWell, OnlyRests};
ghost use Rattle.site_core.specs.declared.answers.Issued.{Issued};
ghost use Rattle.site_core.specs.declared.answers.Settled.TheVariants as settled;
ghost use Rattle.site_core.specs.State.{State, with_half};
ghost use Rattle.book_model.specs.declared.next.RomOutcome.TheVariants as outcomes;
ghost use Rattle.book_model.specs.Book.{Book, NoOperation, Issuing, Unsettled, Settling, slave_at};
ghost use Rattle.book_model.specs.RomSteps.{to_do, with_operation, with_issue, was_taken, rom_next, rom_done};
ghost use Rattle.book_model.specs.Machine.{Machine};
ghost use Rattle.book_model.specs.Frame.{JournalFrame};
ghost use Rattle.book_model.specs.Steps.{TakesOrNot};
ghost use Rattle.book_model.specs.Up.{Up};

/// `Up` stays true when the next word of a slave is issued, whether the slave takes the datagram or not.
pub fn up_as_the_next_word_is_issued()
    ensures { (frame : JournalFrame) (book : Book) (state : State) (took : List Bool) (machine : Machine) (i : ℕ)
        (half later : SlaveHalf) (w : ℕ × ℕ)
        (others : List (ℕ × ℕ)) (t : Bool) → Up frame book state took machine
        → i < length book.slaves → slice_get state.halves i ≡ Some half → to_do book i ≡ w ∷ others → TakesOrNot t i w.0 w.1 half later
        → Up frame (with_issue book i w) (with_half state i later) (slice_set took i t) machine }
{}

/// `Up` stays true when an issue ends with an outcome that says *taken* only if the slave took the datagram.
pub fn up_as_an_issue_comes_back()
    ensures { (frame : JournalFrame) (book : Book) (state : State) (took : List Bool) (machine : Machine) (i word value : ℕ) (issued : Issued)
        → Up frame book state took machine
        → i < length book.slaves → (slave_at book i).operation ≡ Issuing word value
        → (was_taken issued ≡ true → slice_index_or took i false ≡ true)
        → Up frame (rom_done book i (outcomes.Issued issued)) state took machine }
{}

/// `Up` stays true when the settle of an issued word is handed out.
pub fn up_as_a_settle_is_handed_out()
    ensures { (frame : JournalFrame) (book : Book) (state : State) (took : List Bool) (machine : Machine) (i word value : ℕ) (taken : Bool)
        → Up frame book state took machine
        → i < length book.slaves → (slave_at book i).operation ≡ Unsettled word value taken → Up frame (rom_next book i).1 state took machine }
{}

/// `Up` stays true when a settle answers *written*, if the datagram was taken and the slave is well: idle, without an error bit.
pub fn up_as_a_word_is_written()
    ensures { (frame : JournalFrame) (book : Book) (state : State) (took : List Bool) (machine : Machine) (i : ℕ)
        (half : SlaveHalf) (word value : ℕ)
        → Up frame book state took machine
        → i < length book.slaves → slice_get state.halves i ≡ Some half → (slave_at book i).operation ≡ Settling word value true
        → IsWell half
        → Up frame (rom_done book i (outcomes.Settled settled.Written)) state took machine }
{}

/// `Up` stays true when the book is done with a slave, which may have become idle and had its registers changed.
pub fn up_as_a_slave_is_freed()
    ensures { (frame : JournalFrame) (book : Book) (state : State) (took : List Bool) (machine : Machine) (i : ℕ) (half later : SlaveHalf)
        → Up frame book state took machine
        → i < length book.slaves → slice_get state.halves i ≡ Some half → OnlyRests half later
        → Up frame (with_operation book i NoOperation) (with_half state i later) took machine }
{}

/// `Up` stays true when a settle answers *again* or *dead*, or when the site stops.
pub fn up_as_a_word_is_not_written()
    ensures again { (frame : JournalFrame) (book : Book) (state : State) (took : List Bool) (machine : Machine) (i word value : ℕ) (taken : Bool)
        (half later : SlaveHalf) → Up frame book state took machine
        → i < length book.slaves → slice_get state.halves i ≡ Some half → OnlyRests half later
        → (slave_at book i).operation ≡ Settling word value taken
        → Up frame (rom_done book i (outcomes.Settled settled.Again)) (with_half state i later) took machine }
    ensures dead { (frame : JournalFrame) (book : Book) (state : State) (took : List Bool) (machine : Machine) (i word value : ℕ) (taken : Bool)
        (half later : SlaveHalf) → Up frame book state took machine
        → i < length book.slaves → slice_get state.halves i ≡ Some half → OnlyRests half later
        → (slave_at book i).operation ≡ Settling word value taken
        → Up frame (rom_done book i (outcomes.Settled settled.Dead)) (with_half state i later) took machine }
    ensures stopped { (frame : JournalFrame) (book : Book) (state : State) (took : List Bool) (machine : Machine) (i word value : ℕ) (taken : Bool)
        (half later : SlaveHalf) → Up frame book state took machine
        → i < length book.slaves → slice_get state.halves i ≡ Some half → OnlyRests half later
        → ((slave_at book i).operation ≡ Issuing word value) ⊎ ((slave_at book i).operation ≡ Settling word value taken)
        → Up frame (rom_done book i outcomes.Stopped) (with_half state i later) took machine }
{}
