//! Laws of what is settled.

ghost use Rattle.std.specs.Prelude.{◌≡◌, ◌≤◌, ℕ, List, true, length, ◌++◌};
ghost use Rattle.sii_words.specs.declared.run.Run.{Run};
ghost use Rattle.jrn_format.specs.declared.journal.Entry.{Entry};
ghost use Rattle.book_model.specs.Cells.{Cell};
ghost use Rattle.book_model.specs.Entries.{runs_of};
ghost use Rattle.book_model.specs.Reading.{runs_settled, settled_prefix};
ghost use Rattle.book_model.specs.Plants.{AllFit, AllSettled};
ghost use Rattle.book_model.specs.Fits.{SameCells, OwesNoMore};

/// If the test before a retire holds, the newer half names all that is still owed, so that the older half can be retired.
pub fn the_test_before_a_retire()
    ensures { (plant : List (List ℕ)) (gone older newer : List Run) (cells : List (List Cell)) → SameCells plant cells
        → AllFit plant gone (older ++ newer) cells
        → runs_settled cells newer older ≡ true → AllSettled plant newer cells }
{}

/// The settled prefix never gets shorter, if each word is owed at most as many values more as new entries name it.
pub fn the_settled_prefix_never_falls()
    ensures { (cells later : List (List Cell)) (entries next : List Entry) → length later ≡ length cells → OwesNoMore cells later (runs_of next)
        → settled_prefix cells entries ≤ settled_prefix later (entries ++ next) }
{}
