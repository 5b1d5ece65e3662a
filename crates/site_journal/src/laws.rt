//! Laws of a disk that was formatted. A function here does nothing: its contract is the law.

ghost use Rattle.std.specs.Prelude.{ℕ, ◌<◌, ◌^◌, List, replicate, length};
ghost use Rattle.jrn_format.specs.Header.{IsCapacity};
ghost use Rattle.jrn_format.specs.Migration.{IsEmptyJournal};
ghost use Rattle.jrn_format.specs.declared.journal.Form.TheVariants.{Two};
ghost use Rattle.site_journal.specs.Formatting.{formatted, HasClosedHalves};

/// In an area of zeros both halves begin with a closed gate.
pub fn halves_of_zeros_are_closed()
    ensures { (capacity : ℕ) → IsCapacity capacity → HasClosedHalves (replicate capacity 0) }
{}

/// A formatted disk holds a journal of version 2 in which nothing is live.
pub fn a_formatted_disk_is_an_empty_journal()
    ensures { (sizes bytes : List ℕ) (capacity : ℕ) → length sizes < 2 ^ 16 → IsCapacity capacity
        → IsEmptyJournal (formatted (length sizes) capacity bytes) sizes Two }
{}
