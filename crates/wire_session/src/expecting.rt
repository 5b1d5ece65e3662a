//! How much a run will write.
ghost use Rattle.std.specs.Prelude.{◌≤◌, length};

use line_watch::Watch;
use sii_edit::{Command, apply};
use sii_words::{MAX_SLAVES, Plant, Words};
use std::alloc::{AllocError, Global};
use std::io::Write;
use std::sync::Wait;
use wire_scan::{copies_of, require_empty};

/// Tells the progress, if there is one, how many words each slave is to write for these commands, where the slaves have these words. Where something
/// is live in the journal, which is written too, nothing is told.
pub(crate) fn expect_words<T: Write, R: Wait + AllocGlobal>(
    watch: Watch<'_, T, R>,
    journal: &[u8],
    slaves: &[Words],
    commands: &[Command],
)
    requires some { 1 ≤ length slaves.now }
    requires most { length slaves.now ≤ 64 }
{
    let Some(progress) = watch.progress else {
        return;
    };
    let alloc = watch.rt.alloc();
    if require_empty(alloc, journal, slaves).is_err() {
        return;
    }
    if let Ok(words) = words_written(alloc, slaves, commands) {
        progress.expect_words(watch.rt, words);
    }
}

/// How many words each slave writes for these commands, where the slaves have these words. For a command that is refused none is written.
fn words_written(
    alloc: Global,
    slaves: &[Words],
    commands: &[Command],
) -> Result<[u32; MAX_SLAVES], AllocError>
    requires some { 1 ≤ length slaves.now }
    requires most { length slaves.now ≤ 64 }
{
    let mut plant = Plant::of(copies_of(alloc, slaves)?);
    let mut words = [0u32; MAX_SLAVES];
    for command in commands {
        let Ok((next, runs)) = apply(alloc, &plant, command) else {
            continue;
        };
        for run in &runs {
            if let Some(count) = words.get_mut(usize::from(run.slave)) {
                let length = u32::try_from(run.words.as_slice().len()).unwrap_or(u32::MAX);
                *count = count.saturating_add(length);
            }
        }
        plant = next;
    }
    Ok(words)
}
