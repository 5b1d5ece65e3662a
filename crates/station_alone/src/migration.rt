ghost use Rattle.site_core.specs.Line.{Line};
ghost use Rattle.site_core.specs.State.{Seen};
ghost use Rattle.station_alone.specs.Station.{station};
ghost use Rattle.station_alone.specs.Steps.{AsksMigration};

use crate::choice::Answer;
use book_core::Core;

/// Asks for the migration of an old journal. The site has no part in it.
pub(crate) fn ask_migration(core: &mut Core) -> Answer
    ensures { (line : Line) (seen : Seen) → AsksMigration (station core.old line seen) result (station core.new line seen) }
{
    if core.migrate() {
        Answer::Did
    } else {
        Answer::Idle
    }
}
