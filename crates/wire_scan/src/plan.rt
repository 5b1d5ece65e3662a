//! Which files a backup writes, and what may be there of them already.
ghost use Rattle.std.specs.Prelude.{◌≡◌, length, map, vec_len, IfOk, IfSome, IsSome, OnOk, false, true};
ghost use Rattle.std.specs.List.{AllZip};
ghost use Rattle.station_files.specs.FileNames.{IsLineSeparate, spelt};
ghost use Rattle.station_files.specs.Files.{IsAbsent, Known};
ghost use Rattle.wire_scan.specs.Backup.{HasNoPast, IsPlanned, MayStay};

use crate::journals::require_empty;
use sii_words::Words;
use station_files::{
    Entry, Fault, MOST_OF_JOURNAL, Place, Store, Wrong, keep_line_separate, load_line, read_file,
};
use station_text::{LineFile, read_line};
use std::alloc::Global;
use std::io;
use wire_faults::WireFault;

/// The files of a backup.
#[derive(Drop)]
pub(crate) struct Plan {
    /// The line whose image files are to be written.
    pub(crate) line: LineFile,
    /// The text of the line file, where there is none yet.
    pub(crate) text: Option<String>,
}

/// Plans the backup of a line of so many slaves: by the line file `name`, or by a new one where there is none. No file is written.
///
/// # Errors
///
/// As for `load_line`; `BadLine` where a line file can't spell names beside `name`; as for `keep_line_separate`; `OtherCount` where the line file
/// names another number of slaves; `Memory`.
pub(crate) fn plan_backup<S: Store>(
    alloc: Global,
    name: &str,
    slaves: usize,
    store: &mut S,
) -> Result<Plan, WireFault>
    ensures planned { IfOk result (λ plan. IsPlanned (S.files store.old) name.now plan.line plan.text) }
    ensures separate { IfOk result (λ plan. IsLineSeparate S.leads plan.line name.now) }
    ensures count { IfOk result (λ plan. vec_len plan.line.images ≡ slaves) }
    ensures same { S.files store.new ≡ S.files store.old }
{
    let plan = plan_line(alloc, name, slaves, store)?;
    match keep_line_separate(alloc, &plan.line, name, store) {
        Ok(()) if plan.line.images.len() == slaves => Ok(plan),
        Ok(()) => Err(WireFault::OtherCount { slaves }),
        Err(fault) => Err(WireFault::Station(fault)),
    }
}

/// The line of the line file, or that of a new one for so many slaves where there is none.
fn plan_line<S: Store>(
    alloc: Global,
    name: &str,
    slaves: usize,
    store: &mut S,
) -> Result<Plan, Fault>
    ensures planned { IfOk result (λ plan. IsPlanned (S.files store.old) name.now plan.line plan.text) }
    ensures same { S.files store.new ≡ S.files store.old }
{
    if is_there(name, store)? {
        let line = load_line(alloc, name, store)?;
        Ok(Plan { line, text: None })
    } else {
        new_plan(alloc, name, slaves)
    }
}

/// Whether the name leads to a file, or to anything else. Nothing is read.
///
/// # Errors
///
/// It leads to a folder, or the system can't tell.
pub(crate) fn is_there<S: Store>(name: &str, store: &mut S) -> io::Result<bool>
    ensures absent { IfOk result (λ there. there ≡ false → IsAbsent (S.files store.old) name.now) }
    ensures there { IfOk result (λ there. there ≡ true → IfSome (S.files store.old name.now) (λ held. IsSome held)) }
    ensures same { S.files store.new ≡ S.files store.old }
{
    match store.look(name)? {
        Entry::Absent => Ok(false),
        Entry::File { .. } | Entry::Other => Ok(true),
    }
}

/// The line that a backup of so many slaves makes where the line file `name` isn't there, and the text of that, which names the journal and the
/// image file of each slave beside it.
///
/// # Errors
///
/// `BadLine` where a line file can't spell names beside `name`; `Memory`.
pub(crate) fn new_plan(alloc: Global, name: &str, slaves: usize) -> Result<Plan, Fault>
    ensures { IfOk result (λ plan. (files : Known) → IsAbsent files name.now → IsPlanned files name.now plan.line plan.text) }
{
    let stem = name.strip_suffix(".toml").unwrap_or(name);
    let mut text = format!(in alloc; "journal = '{stem}-journal.bin'\n")?;
    for slave in 0..slaves {
        let table = format!(in alloc; "[[slave]]\nimage = '{stem}-s{slave}.bin'\n")?;
        text.push_str(table.as_str())?;
    }
    let line = read_line(alloc, text.as_str())?;
    if line.images.len() != slaves {
        return Err(Fault::BadLine);
    }
    Ok(Plan {
        line,
        text: Some(text),
    })
}

/// Looks whether each of these image files isn't there, or has the words of its slave. No file changes.
///
/// # Errors
///
/// `Exists` for the first one that holds anything else; `NotAFile`; `File` where the store fails; `Memory`.
pub(crate) fn validate_images<S: Store>(
    alloc: Global,
    names: &[String],
    slaves: &[Words],
    store: &mut S,
) -> Result<(), Fault>
    requires { length names.now ≡ length slaves.now }
    ensures validated { OnOk result (AllZip (MayStay (S.files store.old)) (spelt names.now) slaves.now) }
    ensures same { S.files store.new ≡ S.files store.old }
{
    for slave in 0..names.len() {
        validate_image(alloc, names[slave].as_str(), &slaves[slave], store)?;
    }
    Ok(())
}

/// Looks whether this image file isn't there, or has these words.
fn validate_image<S: Store>(
    alloc: Global,
    name: &str,
    words: &Words,
    store: &mut S,
) -> Result<(), Fault>
    ensures validated { OnOk result (MayStay (S.files store.old) name.now words.now) }
    ensures same { S.files store.new ≡ S.files store.old }
{
    if !is_there(name, store)? {
        return Ok(());
    }
    let bytes = words.to_bytes()?;
    match read_file(alloc, name, bytes.len() as u64, store) {
        Ok(held) if held.as_slice() == bytes.as_slice() => Ok(()),
        Ok(_) | Err(Fault::TooLong) => Err(taken(name, store)),
        Err(fault) => Err(fault),
    }
}

/// Looks whether the journal's file isn't there, or `require_empty` takes it. No file changes.
///
/// # Errors
///
/// The same; `TooLong`.
pub(crate) fn validate_journal_file<S: Store>(
    alloc: Global,
    name: &str,
    slaves: &[Words],
    store: &mut S,
) -> Result<(), Fault>
    ensures validated { OnOk result (HasNoPast (S.files store.old) name.now (map length slaves.now)) }
    ensures same { S.files store.new ≡ S.files store.old }
{
    if !is_there(name, store)? {
        return Ok(());
    }
    let journal = read_file(alloc, name, MOST_OF_JOURNAL, store)?;
    match require_empty(alloc, &journal, slaves) {
        Ok(()) => Ok(()),
        Err(Fault::Exists) => Err(taken(name, store)),
        Err(fault) => Err(fault),
    }
}

/// The fault for a file of this name that is there with other contents, which is noted.
fn taken<S: Store>(name: &str, store: &mut S) -> Fault
    ensures { S.files store.new ≡ S.files store.old }
{
    let fault = Fault::Exists;
    store.note(fault.code(), Place::File(name), &Wrong::Exists);
    fault
}
