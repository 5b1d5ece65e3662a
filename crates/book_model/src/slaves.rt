//! Laws of the steps of one slave: `SlaveFits` stays true.

ghost use Rattle.std.specs.Prelude.{◌<◌, ℕ, Bool, true, false, List, length, slice_set};
ghost use Rattle.esc_model.specs.SlaveHalf.{SlaveHalf, MayRest};
ghost use Rattle.esc_model.specs.WordAccess.{IsWell, OnlyRests, TakesWord};
ghost use Rattle.book_model.specs.Cells.{Cell, asked, written, cell_of};
ghost use Rattle.book_model.specs.Book.{Operation, NoOperation, Issuing, Settling};
ghost use Rattle.book_model.specs.Owed.{IsAmong};
ghost use Rattle.book_model.specs.Slaves.{SlaveFits};

/// `SlaveFits` stays true when a busy slave becomes idle.
pub fn a_slave_rests()
    ensures { (slave : ℕ) (half later : SlaveHalf) (operation : Operation) (took : Bool) (cells : List Cell) → MayRest half later
        → SlaveFits slave half operation took cells → SlaveFits slave later operation took cells }
{}

/// `SlaveFits` stays true when a word is issued, whether the slave takes the datagram or not.
pub fn a_word_is_issued()
    ensures taken { (slave : ℕ) (half later : SlaveHalf) (operation : Operation) (took : Bool) (cells : List Cell) (word value : ℕ)
        → TakesWord slave word value half later → word < length cells
        → IsAmong value (cell_of cells word).owed → SlaveFits slave half operation took cells
        → SlaveFits slave later (Issuing word value) true (slice_set cells word (asked (cell_of cells word))) }
    ensures not_taken { (slave : ℕ) (half later : SlaveHalf) (operation : Operation) (took : Bool) (cells : List Cell) (word value : ℕ)
        → MayRest half later → word < length cells
        → IsAmong value (cell_of cells word).owed → SlaveFits slave half operation took cells
        → SlaveFits slave later (Issuing word value) false (slice_set cells word (asked (cell_of cells word))) }
{}

/// `SlaveFits` stays true when a word whose datagram was taken is known to be written, because the slave is well.
pub fn a_word_is_written()
    ensures { (slave : ℕ) (half : SlaveHalf) (took now : Bool) (cells : List Cell) (word value : ℕ) → IsWell half
        → SlaveFits slave half (Settling word value true) took cells
        → SlaveFits slave half NoOperation now (slice_set cells word (written (cell_of cells word) value)) }
{}

/// `SlaveFits` stays true when the book is done with the slave, whose registers may then change too.
pub fn a_slave_is_freed()
    ensures { (slave : ℕ) (half later : SlaveHalf) (operation : Operation) (took now : Bool) (cells : List Cell) → OnlyRests half later
        → SlaveFits slave half operation took cells → SlaveFits slave later NoOperation now cells }
{}
