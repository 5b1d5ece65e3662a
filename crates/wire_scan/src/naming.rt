//! Keeps the files of a call separate: none may be lost where another one is written.
ghost use Rattle.std.specs.Prelude.{◌≡◌, [], ◌∷◌, ◌++◌, length, None, OnOk};
ghost use Rattle.station_files.specs.FileNames.{files_with, written_of};
ghost use Rattle.station_files.specs.Locations.{AreSeparate};

use crate::plan::{is_there, new_plan};
use sii_words::MAX_SLAVES;
use station_files::{Fault, FileNames, Store, keep_separate, load_line};
use station_text::LineFile;
use std::alloc::Global;

/// The names of the line file and of the script of a run, as it is given them.
#[derive(Clone, Copy)]
pub struct Named<'a> {
    /// The line file.
    pub line: &'a str,
    /// The script.
    pub script: &'a str,
}

/// Refuses a script that is a file of the line, as `keep_separate` does. Nothing is written.
///
/// # Errors
///
/// `SameFile`; `File` where a name can't be followed; `Memory`.
pub fn keep_script_separate<S: Store>(
    alloc: Global,
    line: &LineFile,
    named: Named<'_>,
    store: &mut S,
) -> Result<(), Fault>
    ensures separate { OnOk result (AreSeparate S.leads (length (written_of None line.now))
        (files_with None line.now named.entry.line.now ++ named.entry.script.now ∷ [])) }
    ensures same { S.files store.new ≡ S.files store.old }
{
    let files = FileNames::of_line(alloc, line, named.line, None)?;
    let all = files.with_script(alloc, named.script)?;
    keep_separate(alloc, &all, store)
}

/// The names that a call on a line is given, where it is to be captured.
#[derive(Clone, Copy)]
pub struct CaptureNames<'a> {
    /// The capture.
    pub capture: &'a str,
    /// The line file.
    pub line: &'a str,
    /// The script, if one is read.
    pub script: Option<&'a str>,
}

/// Refuses a capture that is a file of the line or the script, as `keep_separate` does. Where the line file isn't there, its files are those that
/// a backup would write. Of a line file that describes no line nothing is said here. Nothing is written.
///
/// # Errors
///
/// `Exists` where the capture is one of these files; `SameFile` where two others are one; `File` where a name can't be followed or the line file
/// can't be read; `Memory`.
pub fn keep_capture_separate<S: Store>(
    alloc: Global,
    names: CaptureNames<'_>,
    store: &mut S,
) -> Result<(), Fault>
    ensures { S.files store.new ≡ S.files store.old }
{
    let planned = if is_there(names.line, store)? {
        load_line(alloc, names.line, store)
    } else {
        new_plan(alloc, names.line, MAX_SLAVES).map(|plan| plan.line)
    };
    let line = match planned {
        Ok(line) => line,
        Err(Fault::Memory) => return Err(Fault::Memory),
        Err(_) => return Ok(()),
    };
    let files = FileNames::of_line(alloc, &line, names.line, Some(names.capture))?;
    match names.script {
        Some(script) => keep_separate(alloc, &files.with_script(alloc, script)?, store),
        None => keep_separate(alloc, &files, store),
    }
}
