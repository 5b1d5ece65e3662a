ghost use Rattle.std.specs.Prelude.{◌≡◌};
ghost use Rattle.station_alone.specs.Station.{station, Stands};
ghost use Rattle.station_alone.specs.Steps.{StepsDisk, done_with, reported_at_once};

use crate::choice::Answer;
use book_core::Core;
use book_model::{CoreFault, DiskNext};
use site_core::Site;
use site_journal::do_action;

/// The answer if there is no action for the disk; `None` if there is one.
fn reported_at_once(action: &DiskNext) -> Option<Answer>
    ensures { result ≡ reported_at_once action.now }
{
    match action {
        DiskNext::Idle => Some(Answer::Idle),
        DiskNext::Stop => Some(Answer::Ended),
        DiskNext::Write { .. } | DiskNext::Gate { .. } | DiskNext::Sync => None,
    }
}

/// Carries out the book's next action for the disk, and reports its outcome to the book.
pub(crate) fn do_disk<S: Site>(core: &mut Core, site: &mut S) -> Answer
    requires { Stands (station core.old (S.line site.old) (S.seen site.old)) }
    ensures steps { StepsDisk (station core.old (S.line site.old) (S.seen site.old)) result (station core.new (S.line site.new) (S.seen site.new)) }
    ensures line { S.line site.new ≡ S.line site.old }
{
    let action = match core.disk_next() {
        Ok(action) => action,
        Err(CoreFault::Memory) => return Answer::NoMemory,
    };
    if let Some(reported) = reported_at_once(&action) {
        return reported;
    }
    let result = do_action(site, &action);
    core.disk_done(result);
    outcome(core)
}

/// The answer after an action was carried out: the fault of the book, if it has one now.
pub(crate) fn outcome(core: &Core) -> Answer
    ensures { result ≡ done_with core.now.fault }
{
    match core.fault() {
        Some(fault) => Answer::Failed(fault),
        None => Answer::Did,
    }
}
