ghost use Rattle.std.specs.Prelude.{◌≡◌};
ghost use Rattle.sii_edit.specs.Fitting.{CommandFits};
ghost use Rattle.site_core.specs.Line.{Line};
ghost use Rattle.site_core.specs.State.{Seen};
ghost use Rattle.station_alone.specs.Station.{station};
ghost use Rattle.station_alone.specs.Steps.{Submits, reported_number};

use crate::choice::Answer;
use book_core::Core;
use book_model::SubmitRefusal;
use sii_edit::{Cause, Command, Refusal, command_fits};

/// The answer to a command that was submitted: its number, `NoMemory` if memory was refused, or the refusal.
fn reported_number(came: Result<u64, SubmitRefusal>) -> Answer
    ensures { result ≡ reported_number came }
{
    match came {
        Ok(number) => Answer::Accepted(number),
        Err(
            SubmitRefusal::Command(
                Refusal {
                    cause: Cause::Memory,
                    ..
                },
            ),
        ) => Answer::NoMemory,
        Err(refusal) => Answer::Refused(refusal),
    }
}

/// Submits the command, whose words have 16 bits. The site has no part in it.
pub(crate) fn do_submit(core: &mut Core, command: &Command) -> Answer
    ensures submits { (line : Line) (seen : Seen) → Submits command.now (station core.old line seen) result (station core.new line seen) }
    ensures fits { CommandFits command.now }
{
    command_fits(command);
    reported_number(core.submit(command))
}
