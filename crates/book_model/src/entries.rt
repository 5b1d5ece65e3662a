//! Laws of accepted commands as entries of a journal.

ghost use Rattle.std.specs.Prelude.{◌≡◌, ℕ, List};
ghost use Rattle.sii_edit.specs.declared.command.Command.{Command};
ghost use Rattle.sii_edit.specs.Fold.{contents_after};
ghost use Rattle.book_model.specs.Entries.{entries_from};
ghost use Rattle.book_model.specs.Fits.{after_entries};

/// Redo of the first k entries gives the contents after the first k commands.
pub fn entries_give_contents()
    ensures { (number : ℕ) (base : List (List ℕ)) (commands : List Command) (k : ℕ)
        → after_entries base (entries_from number base commands) k ≡ contents_after base commands k }
{}
