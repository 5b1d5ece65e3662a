//! How many words were issued to the slaves of a line at a desk.

ghost use Rattle.std.specs.Prelude.{◌≡◌};
ghost use Rattle.script_session.specs.Parts.{IsCount, is_issue, issues_in, issues_of};

use book_model::RomNext;
use site_shadow::{Device, ShadowSite};
use station_jobs::{End, RomEntry, SlaveLog};

/// Whether the job is the issue of a word.
fn is_issue(job: RomNext) -> bool
    ensures { result ≡ is_issue job }
{
    matches!(job, RomNext::Issue { .. })
}

/// The number of issues among these jobs.
fn issues_in(jobs: &[RomEntry]) -> usize
    ensures { result ≡ issues_in jobs.now }
{
    jobs.iter().filter(|entry| is_issue(entry.job)).count()
}

/// The number of issues in the logs of these workers; `u64::MAX` where there are more.
pub(crate) fn issues_of<D: Device>(workers: &[End<ShadowSite<D>, SlaveLog>]) -> u64
    ensures { IsCount (issues_of workers.now) result }
{
    let mut words: u64 = 0;
    for place in 0..workers.len() {
        let issues = issues_in(workers[place].log().jobs.as_slice());
        words = words.saturating_add(issues as u64);
    }
    words
}
