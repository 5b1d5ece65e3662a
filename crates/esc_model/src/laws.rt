//! Laws that hold for the EEPROM half of every slave. The functions here do nothing: the contract of each is the law.

ghost use Rattle.esc_model.specs.Laws.{RestAddsNothing, RestsOnce, StopAddsNothing, IdleLeavesWords, IssueBegins, TakenThenWell};

/// Becoming idle adds nothing to what a power cut may leave, and becoming idle twice in a row is the same as once.
pub fn rest_adds_nothing()
    ensures nothing { RestAddsNothing }
    ensures once { RestsOnce }
{}

/// A power cut adds nothing to what a later one may leave. Of an idle half it leaves exactly the words.
pub fn stop_adds_nothing()
    ensures nothing { StopAddsNothing }
    ensures idle { IdleLeavesWords }
{}

/// An idle half that isn't offered to the PDI takes the command to write a word, and then has just that word and value in flight. Once it
/// is idle again, without an error, a power cut leaves that word with that value.
pub fn word_is_written()
    ensures begins { IssueBegins }
    ensures settles { TakenThenWell }
{}
