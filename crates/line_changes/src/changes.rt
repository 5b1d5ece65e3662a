//! The words in which two contents of a line differ.
ghost use Rattle.std.specs.Prelude.{◌≡◌, ◌≤◌, ◌++◌, length, IfOk, OnOk};
ghost use Rattle.line_changes.specs.Changes.{change_at, changes_between, changes_of};

use sii_words::Plant;
use station_rows::{Rows, Value, data, said, said_place};
use std::alloc::{AllocError, Global};

/// The longest run of words that is printed word by word.
pub const MOST_PRINTED: usize = 8;

/// A word of a slave that gets another value.
#[derive(Clone, Copy)]
pub struct ChangedWord {
    /// The slave's position on the line, from 0.
    pub slave: u16,
    /// The word's address, from 0.
    pub at: u16,
    /// Its old value.
    pub old: u16,
    /// Its new value.
    pub new: u16,
}

/// The words in which two contents of a line differ: slave by slave, by rising address.
pub fn changed_words(
    alloc: Global,
    old: &Plant,
    new: &Plant,
) -> Result<Vec<ChangedWord>, AllocError>
    ensures { IfOk result (λ changes. changes.items ≡ changes_between old.now new.now) }
{
    let mut changes = Vec::new(alloc);
    for slave in 0..old.len().min(new.len()) {
        let before = old.slave(slave).as_slice();
        let after = new.slave(slave).as_slice();
        note_slave(&mut changes, slave as u16, before, after)?;
    }
    Ok(changes)
}

/// Notes the words of a slave that differ.
fn note_slave(
    changes: &mut Vec<ChangedWord>,
    slave: u16,
    old: &[u16],
    new: &[u16],
) -> Result<(), AllocError>
    requires { length old.now ≤ 65536 }
    ensures { OnOk result (changes.new.items ≡ changes.old.items ++ changes_of slave old.now new.now) }
{
    for at in 0..old.len().min(new.len()) {
        note_word(changes, slave, at as u16, old[at], new[at])?;
    }
    Ok(())
}

/// Notes a word if its values differ.
fn note_word(
    changes: &mut Vec<ChangedWord>,
    slave: u16,
    at: u16,
    old: u16,
    new: u16,
) -> Result<(), AllocError>
    ensures { OnOk result (changes.new.items ≡ changes.old.items ++ change_at slave at old new) }
{
    if old == new {
        return Ok(());
    }
    changes.push(ChangedWord {
        slave,
        at,
        old,
        new,
    })?;
    Ok(())
}

/// Puts a row for each changed word. Text has a line for each run of them with consecutive addresses, and of a long run only its number of
/// words.
pub fn put_changes(rows: &mut Rows, changes: &[ChangedWord]) -> Result<(), AllocError> {
    let runs = changes.chunk_by(|one, next| {
        one.slave == next.slave && one.at.checked_add(1) == Some(next.at)
    });
    for run in runs {
        for change in run {
            let row = [
                data("slave", change.slave),
                data("word", change.at),
                data("old", change.old),
                data("new", change.new),
            ];
            rows.put("change", &row)?;
        }
        say_run(rows, run)?;
    }
    Ok(())
}

/// Says a run of changed words on a line.
fn say_run(rows: &mut Rows, run: &[ChangedWord]) -> Result<(), AllocError> {
    let Some(first) = run.first() else {
        return Ok(());
    };
    let alloc = rows.alloc();
    let olds: Vec<u16> = run.iter().map(|word| word.old).collect(alloc)?;
    let news: Vec<u16> = run.iter().map(|word| word.new).collect(alloc)?;
    let slave = said("slave", first.slave);
    let [from, to] = said_place(first.at, run.len());
    if run.len() > MOST_PRINTED {
        return rows.say(&[slave, from, to, said("count", run.len())]);
    }
    let old = said("old", Value::Words(&olds));
    let new = said("new", Value::Words(&news));
    rows.say(&[slave, from, to, old, new])
}
