ghost use Rattle.std.specs.Prelude.{◌≡◌, length, map};
ghost use Rattle.book_parts.specs.Works.{unsettled_of, smaller, least, OweLive};

use crate::work::SlaveWork;

/// The smaller of two numbers, either of which may be missing.
fn smaller(one: Option<u64>, other: Option<u64>) -> Option<u64>
    ensures { result ≡ smaller one other }
{
    match (one, other) {
        (Some(a), Some(b)) => Some(a.min(b)),
        (Some(a), None) => Some(a),
        (None, number) => number,
    }
}

/// The least number of an entry with a word that isn't settled.
pub(crate) fn least_unsettled(works: &[SlaveWork]) -> Option<u64>
    ensures number { result ≡ least (map unsettled_of works.now) }
    ensures owed { OweLive works.now (length works.now) }
{
    let mut least = None;
    for work in works {
        least = smaller(least, work.queue.unsettled());
    }
    least
}
