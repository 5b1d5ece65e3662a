//! What a journal's file holds, as rows.

use jrn_format::{
    AREA_START, Batch, Entry, Form, Journal, OPEN, capacity, gate, slave_count, version,
};
use line_changes::MOST_PRINTED;
use station_rows::{Rows, Value, data, named, said, said_place};
use std::alloc::AllocError;

/// Puts what a journal's file says in its header, and then how full each half is of the journal that it is, if it is one, or the area of version 1,
/// and the live batches.
pub(crate) fn put_journal(
    rows: &mut Rows,
    file: &[u8],
    journal: Option<&Journal>,
) -> Result<(), AllocError> {
    if file.len() < AREA_START || gate(file) != OPEN {
        return Ok(());
    }
    let area = capacity(file);
    let row = [
        said("", "journal"),
        named("version", version(file)),
        named("slaves", slave_count(file)),
        named("area", area),
    ];
    rows.put("journal", &row)?;
    let Some(journal) = journal else {
        return Ok(());
    };
    let area = area as usize;
    match journal.form {
        Form::One => put_half(rows, journal, None, area)?,
        Form::Two => {
            put_half(rows, journal, Some(0), area / 2)?;
            put_half(rows, journal, Some(1), area / 2)?;
        }
        Form::Moving => rows.put("migration", &[said("", "migration interrupted")])?,
    }
    put_batches(rows, journal, area)
}

/// Puts the number of batches in a half of `room` bytes, and how many of its bytes they take and leave.
fn put_half(
    rows: &mut Rows,
    journal: &Journal,
    half: Option<u8>,
    room: usize,
) -> Result<(), AllocError> {
    let (mut batches, mut live) = (0usize, 0usize);
    for batch in journal.batches.as_slice() {
        if batch.half == half.unwrap_or(0) {
            batches = batches.saturating_add(1);
            live = live.saturating_add(batch_bytes(journal.form, batch));
        }
    }
    let (name, place) = match half {
        Some(half) => ("half", named("half", half)),
        None => ("area", said("", "area")),
    };
    let row = [
        place,
        named("batches", batches),
        named("live", live),
        named("free", room.saturating_sub(live)),
    ];
    rows.put(name, &row)
}

/// The length of a batch, in bytes.
fn batch_bytes(form: Form, batch: &Batch) -> usize {
    let mut bytes = match form {
        Form::One => 7usize,
        Form::Two | Form::Moving => 8,
    };
    for entry in batch.entries.as_slice() {
        bytes = bytes.saturating_add(10);
        for run in entry.runs.as_slice() {
            let words = run.words.as_slice().len();
            bytes = bytes.saturating_add(words.saturating_mul(2).saturating_add(6));
        }
    }
    bytes
}

/// Puts the live batches, in the order in which a recovery redoes them.
fn put_batches(rows: &mut Rows, journal: &Journal, area: usize) -> Result<(), AllocError> {
    let mut places = [AREA_START, AREA_START.saturating_add(area / 2)];
    for (number, batch) in journal.batches.as_slice().iter().enumerate() {
        let half = usize::from(batch.half.min(1));
        let bytes = batch_bytes(journal.form, batch);
        let (numbered, generation) = match journal.form {
            Form::One => (None, None),
            Form::Two | Form::Moving => (Some(batch.half), Some(batch.generation)),
        };
        let row = [
            named("batch", number),
            named("half", numbered),
            named("generation", generation),
            named("at", places[half]),
            named("bytes", bytes),
            named("commands", batch.entries.as_slice().len()),
        ];
        rows.put("batch", &row)?;
        put_commands(rows, batch.entries.as_slice())?;
        places[half] = places[half].saturating_add(bytes);
    }
    Ok(())
}

/// Puts the commands of a batch, and the runs of words that they change. Text names a command with each of its runs, and of a long run has only the
/// number of its words.
fn put_commands(rows: &mut Rows, entries: &[Entry]) -> Result<(), AllocError> {
    for entry in entries {
        let runs = entry.runs.as_slice();
        let number = entry.number;
        if runs.is_empty() {
            rows.say(&[named("command", number), said("", "no words")])?;
        }
        let row = [data("command", number), data("runs", runs.len())];
        rows.put("command", &row)?;
        for run in runs {
            let words = run.words.as_slice();
            let [from, to] = said_place(run.first, words.len());
            let (count, new) = if words.len() > MOST_PRINTED {
                (words.len().into(), data("new", Value::Words(words)))
            } else {
                (Value::Absent, named("new", Value::Words(words)))
            };
            let row = [
                named("command", number),
                named("slave", run.slave),
                from,
                to,
                data("word", run.first),
                said("count", count),
                new,
            ];
            rows.put("run", &row)?;
        }
    }
    Ok(())
}
