//! Laws about calls in a row, and about word access in steps. The functions here do nothing: the contract of each is the law.

ghost use Rattle.esc_rom.specs.Laws.{IssuedInSteps, OpenedInSteps, ReadInSteps, SettledInSteps, WrittenStays};

/// If a slave took a word and the next `settle` reports it as written, every power cut leaves its value in it.
pub fn written_stays()
    ensures { WrittenStays }
{}

/// Whoever sends a slave the datagrams of an access of `rom_steps`, each alone in a frame and nothing between them, comes to an end that
/// says what the call of this crate answers, and leaves the slave as that call does.
pub fn steps_do_as_calls()
    ensures opened { OpenedInSteps }
    ensures read { ReadInSteps }
    ensures issued { IssuedInSteps }
    ensures settled { SettledInSteps }
{}
