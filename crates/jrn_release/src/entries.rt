//! Entries without the runs of one slave.
ghost use Rattle.std.specs.Prelude.{◌≡◌, map, IfOk};
ghost use Rattle.jrn_release.specs.Without.{entry_without, runs_without};

use jrn_format::{Entry, RunList};
use sii_words::Run;
use std::alloc::{AllocError, Global};

/// The runs that aren't for this slave.
fn runs_without(alloc: Global, runs: &[Run], slave: u16) -> Result<Vec<Run>, AllocError>
    ensures { IfOk result (λ kept. kept.items ≡ runs_without slave runs.now) }
{
    let mut kept = Vec::new(alloc);
    for run in runs {
        if run.slave != slave {
            kept.push(run.try_copy()?)?;
        }
    }
    Ok(kept)
}

/// The entries without their runs for this slave.
pub(crate) fn entries_without(
    alloc: Global,
    entries: &[Entry],
    slave: u16,
) -> Result<Vec<Entry>, AllocError>
    ensures { IfOk result (λ kept. kept.items ≡ map (entry_without slave) entries.now) }
{
    let mut kept = Vec::new(alloc);
    for entry in entries {
        let runs = runs_without(alloc, entry.runs.as_slice(), slave)?;
        kept.push(Entry {
            number: entry.number,
            runs: RunList::from_vec(runs),
        })?;
    }
    Ok(kept)
}
