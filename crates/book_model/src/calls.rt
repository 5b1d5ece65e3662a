//! Laws of the calls of the station's callers: `Up` stays true.

ghost use Rattle.std.specs.Prelude.{◌≡◌, ℕ, Bool, false, true, List, Ok};
ghost use Rattle.sii_edit.specs.declared.command.Command.{Command};
ghost use Rattle.sii_edit.specs.Fitting.{PlantFits};
ghost use Rattle.site_core.specs.State.{State};
ghost use Rattle.book_model.specs.Book.{Book, contents_of, is_version_2};
ghost use Rattle.book_model.specs.Submit.{submit, with_command};
ghost use Rattle.book_model.specs.Open.{finish, migrate};
ghost use Rattle.book_model.specs.Machine.{Machine, accepts};
ghost use Rattle.book_model.specs.Frame.{JournalFrame};
ghost use Rattle.book_model.specs.Up.{Up};

/// `Up` stays true when a command is accepted, if the contents after it are 16-bit words.
pub fn up_with_a_command_more()
    ensures { (frame : JournalFrame) (book : Book) (state : State) (took : List Bool) (machine : Machine) (command : Command) (number : ℕ)
        → Up frame book state took machine
        → submit book command ≡ Ok number → PlantFits (contents_of (with_command book command))
        → Up frame (with_command book command) state took (accepts machine command) }
{}

/// `Up` stays true when the book is finished, so that it accepts no more commands.
pub fn up_once_finished()
    ensures { (frame : JournalFrame) (book : Book) (state : State) (took : List Bool) (machine : Machine) → Up frame book state took machine
        → Up frame (finish book) state took machine }
{}

/// `Up` stays true when a migration is asked for. On a journal of version 2 it is refused and changes nothing.
pub fn up_as_a_migration_is_asked_for()
    ensures kept { (frame : JournalFrame) (book : Book) (state : State) (took : List Bool) (machine : Machine) → Up frame book state took machine
        → Up frame (migrate book).1 state took machine }
    ensures refused { (book : Book) → is_version_2 book.form ≡ true → migrate book ≡ (false, book) }
{}
