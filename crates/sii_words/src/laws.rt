// Laws of runs and redo. The contract of each function is a theorem, and its body is empty.
ghost use Rattle.std.specs.Prelude.{◌≡◌, ◌<◌, ℕ, None, ◌++◌, List, length, slice_index, All, AllPairs};
ghost use Rattle.sii_words.specs.Plant.{words_of};
ghost use Rattle.sii_words.specs.Run.{runs_between, StandsBefore, change};
ghost use Rattle.sii_words.specs.Redo.{redone, last_given, AreSeparate, LiesInside, SameShape, AgreeElsewhere};
ghost use Rattle.sii_words.specs.declared.run.Run.{Run};

/// Redo of a list of runs with another after it is redo of the first list, and then of the other.
pub fn redo_of_appended()
    ensures { (plant : List (List ℕ)) (xs ys : List Run) → redone plant (xs ++ ys) ≡ redone (redone plant xs) ys }
{}

/// Redo depends only on the value that each word is given last.
pub fn redo_of_same_values()
    ensures { (plant : List (List ℕ)) (xs ys : List Run)
        → ((slave at : ℕ) → last_given xs slave at ≡ last_given ys slave at) → redone plant xs ≡ redone plant ys }
{}

/// The result of redo doesn't depend on what the words held that some run names.
pub fn redo_over_anything()
    ensures { (plant other : List (List ℕ)) (runs : List Run) → AgreeElsewhere runs plant other → redone other runs ≡ redone plant runs }
{}

/// If redo of a part of the live runs gives the contents, redo of all live runs gives them too. The part may be any runs that
/// name only words which the live runs name.
pub fn redo_of_part()
    ensures { (plant base : List (List ℕ)) (live part : List Run)
        → ((slave at : ℕ) → last_given live slave at ≡ None → last_given part slave at ≡ None)
        → redone plant part ≡ redone base live → redone plant live ≡ redone base live }
{}

/// Redo keeps the number of slaves, and the number of words of each.
pub fn redo_keeps_the_shape()
    ensures { (plant : List (List ℕ)) (runs : List Run) → SameShape plant (redone plant runs) }
{}

/// Redo of the runs between two plants of one shape leads from the old plant to the new one.
pub fn redo_of_runs_between()
    ensures { (old new : List (List ℕ)) → SameShape old new → redone old (runs_between old new) ≡ new }
{}

/// The runs between two plants name only words of the old plant.
pub fn runs_lie_inside()
    ensures { (old new : List (List ℕ)) → All (LiesInside old) (runs_between old new) }
{}

/// Each run between two plants has at least one word.
pub fn runs_have_words()
    ensures { (old new : List (List ℕ)) → All (λ run. 0 < length run.words) (runs_between old new) }
{}

/// The runs between two plants come in rising order, and at least one word lies between two runs of a slave. So none could be
/// longer.
pub fn runs_rise()
    ensures { (old new : List (List ℕ)) → AllPairs StandsBefore (runs_between old new) }
{}

/// The runs between two plants of one shape name exactly the words that differ, with their new values.
pub fn runs_name_the_differences()
    ensures { (old new : List (List ℕ)) (slave at : ℕ) → SameShape old new → slave < length old → at < length (words_of old slave)
        → last_given (runs_between old new) slave at ≡ change (slice_index (words_of old slave) at) (slice_index (words_of new slave) at) }
{}

/// The runs between two plants name no word twice.
pub fn runs_name_words_once()
    ensures { (old new : List (List ℕ)) → AllPairs AreSeparate (runs_between old new) }
{}
