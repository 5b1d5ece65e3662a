//! Taking in what came back.

ghost use Rattle.std.specs.Prelude.{◌≡◌, ℕ, Result, Err};
ghost use Rattle.ecat_frame.specs.Frame.{Pdu};
ghost use Rattle.site_core.specs.declared.fault.DeviceFault.{DeviceFault};
ghost use Rattle.site_core.specs.declared.fault.DeviceFault.TheVariants as device;
ghost use Rattle.rom_steps.specs.After.{after};
ghost use Rattle.rom_steps.specs.Back.{IsBack};
ghost use Rattle.rom_steps.specs.Remaining.{Moves};

use crate::back::{Back, is_counted, read_issued, read_pair, read_rest};
use crate::datagram::next_of;
use crate::opening::{cleared, forced, freed, waited_to_clear};
use crate::reading::{commanded, fetched, waited_to_fetch};
use crate::settling::waited_to_settle;
use crate::step::{End, Step};
use crate::waiting::waited;
use site_core::Settled;

fn after(step: Step, back: Back) -> Step
    ensures { result ≡ after step back }
{
    match step {
        Step::Forces { more } => forced(more, is_counted(back)),
        Step::Frees { more } => freed(more, is_counted(back)),
        Step::WaitsToClear { more } => waited_to_clear(more, read_rest(back)),
        Step::Clears { more } => cleared(more, is_counted(back)),
        Step::Waits { more } => waited(more, read_rest(back)),
        Step::Commands { word, tries } => commanded(word, tries, is_counted(back)),
        Step::WaitsToFetch { word, tries, more } => waited_to_fetch(
            word,
            tries,
            more,
            read_rest(back),
        ),
        Step::Fetches { word, tries } => fetched(word, tries, read_pair(back)),
        Step::Issues { .. } => Step::Ended(End::Issued(read_issued(back))),
        Step::WaitsToSettle { taken, more } => waited_to_settle(taken, more, read_rest(back)),
        Step::Tidies => Step::Ended(End::Settled(Settled::Again)),
        Step::Ended(end) => Step::Ended(end),
        Step::Stopped => Step::Stopped,
    }
}

/// Takes in what came back for the datagram of a step, and returns the step after it. An access that has ended stays as it is.
pub fn take(step: Step, back: Back) -> Step
    ensures { (slave : ℕ) → (came : Result Pdu DeviceFault) → IsBack back came → Moves slave step came result }
{
    after(step, back)
}

/// Ends an access where the line has stopped for good, and the datagram of the step didn't come back. An access that has ended stays
/// as it is.
pub fn stop(step: Step) -> Step
    ensures { (slave : ℕ) → Moves slave step (Err device.Stopped) result }
{
    match next_of(step) {
        Some(_) => Step::Stopped,
        None => step,
    }
}
