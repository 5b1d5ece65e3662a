ghost use Rattle.std.specs.Prelude.{◌≡◌};
ghost use Rattle.book_model.specs.RomSteps.{rom_next};
ghost use Rattle.site_journal.specs.Ready.{issue_outcome, settle_outcome};
ghost use Rattle.station_alone.specs.Station.{station, Stands};
ghost use Rattle.station_alone.specs.Steps.{Serves};

use crate::choice::Answer;
use crate::disk::outcome;
use book_core::Core;
use book_model::{RomNext, RomOutcome};
use esc_rom::{issue, settle};
use site_core::{DeviceFault, Issued, Settled, Site};

/// The outcome of an issue that is reported to the book.
fn issue_outcome(came: Result<Issued, DeviceFault>) -> RomOutcome
    ensures { result ≡ issue_outcome came }
{
    match came {
        Ok(issued) => RomOutcome::Issued(issued),
        Err(_) => RomOutcome::Stopped,
    }
}

/// The outcome of a settle that is reported to the book.
fn settle_outcome(came: Result<Settled, DeviceFault>) -> RomOutcome
    ensures { result ≡ settle_outcome came }
{
    match came {
        Ok(settled) => RomOutcome::Settled(settled),
        Err(_) => RomOutcome::Stopped,
    }
}

/// Carries out the book's next action for a slave, and reports its outcome to the book. Also returns what was handed out.
pub(crate) fn do_rom<S: Site>(core: &mut Core, site: &mut S, slave: u16) -> (RomNext, Answer)
    requires { Stands (station core.old (S.line site.old) (S.seen site.old)) }
    ensures next { result.0 ≡ (rom_next core.old slave).0 }
    ensures serves { Serves (rom_next core.old slave).0 slave (station core.old (S.line site.old) (S.seen site.old)) result.1
        (station core.new (S.line site.new) (S.seen site.new)) }
    ensures line { S.line site.new ≡ S.line site.old }
{
    let next = core.rom_next(slave);
    match next {
        RomNext::Issue { word, value } => {
            let issued = issue(site, slave, word, value);
            core.rom_done(slave, issue_outcome(issued));
        }
        RomNext::Settle { taken } => {
            let settled = settle(site, slave, taken);
            core.rom_done(slave, settle_outcome(settled));
        }
        RomNext::Idle => return (next, Answer::Idle),
        RomNext::Stop => return (next, Answer::Ended),
    }
    (next, outcome(core))
}
