ghost use Rattle.std.specs.Prelude.{◌≡◌, true, map};
ghost use Rattle.book_parts.specs.Works.{AreOlder, all_older, all_older_settled, work_retired};

use crate::work::SlaveWork;

/// Whether all words that the older half names are settled.
pub(crate) fn all_settled(works: &[SlaveWork]) -> bool
    requires { AreOlder works.now }
    ensures { result ≡ all_older_settled works.now }
{
    for at in 0..works.len() {
        let work = &works[at];
        if !work.queue.can_retire(work.older) {
            return false;
        }
    }
    true
}

/// Retires the older half; what is left is the older half now.
pub(crate) fn retire_all(works: &mut [SlaveWork])
    requires older { AreOlder works.old }
    requires settled { all_older_settled works.old ≡ true }
    ensures { works.new ≡ map work_retired works.old }
{
    for at in 0..works.len() {
        let work = &mut works[at];
        work.queue.retire(work.older);
        work.older = work.queue.len();
    }
}

/// Everything live belongs to the older half now.
pub(crate) fn make_older(works: &mut [SlaveWork])
    ensures { works.new ≡ map all_older works.old }
{
    for at in 0..works.len() {
        let work = &mut works[at];
        work.older = work.queue.len();
    }
}
