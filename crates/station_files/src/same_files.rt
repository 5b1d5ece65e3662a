//! Refuses files of which one would be lost where another one is written, and an output that goes to a file which is read.
ghost use Rattle.std.specs.Prelude.{◌≡◌, ◌≤◌, ◌<◌, ◌∷◌, ◌++◌, [], length, is_some, option_map, string_bytes, vec_len, IfErr, IfOk, MatchOption, OnOk, ◌⊎◌};
ghost use Rattle.std.specs.List.{AllByRecursion, AllZip, HoldsAt};
ghost use Rattle.station_files.specs.Faults.{IsOfStream};
ghost use Rattle.station_files.specs.FileNames.{fault_for, files_with, listed, spelt, written_of, IsLineSeparate, RefusesLineNames, RefusesNames};
ghost use Rattle.station_files.specs.Locations.{AreSeparate, IsClash, LeadsTo, MeetAt, Meets, NoneMeet, place_of, OutputIsSeparate};
ghost use Rattle.station_files.specs.declared.faults.Fault.TheVariants as faults;

use crate::faults::Fault;
use crate::location::Location;
use crate::notes::{Place, Wrong};
use crate::store::{Entry, Store};
use station_listing::Code;
use station_text::LineFile;
use std::alloc::{AllocError, Global};
use thiserror::Error;

/// Two files of a list, by their places in it, of which one would be lost where the other is written or replaced.
#[derive(Clone, Copy)]
pub(crate) struct Clash {
    /// The place of the first, from 0. It may be written.
    pub one: usize,
    /// The place of the second.
    pub other: usize,
}

/// The files of a subcommand on a line, by their names: first those that it may write, and then those that it only reads.
#[derive(Drop)]
pub struct FileNames {
    /// The names: the capture, if there is one, the journal, the slaves' image files in order, the line file, and then the script, if one is read.
    pub names: Vec<String>,
    /// How many of them may be written.
    pub written: usize,
    /// Whether the first one is a capture.
    pub has_capture: bool,
    ghost within: { written ≤ vec_len names },
}

impl FileNames {
    /// The files of the line that this line file describes, and the file of a capture, if one is named.
    ///
    /// # Errors
    ///
    /// Memory was refused.
    pub fn of_line(
        alloc: Global,
        line: &LineFile,
        line_file: &str,
        capture: Option<&str>,
    ) -> Result<FileNames, AllocError>
        ensures names { IfOk result (λ files. spelt files.names.items
            ≡ files_with (option_map (λ given. given.now) capture.entry) line.now line_file.now) }
        ensures written { IfOk result (λ files. files.written ≡ length (written_of (option_map (λ given. given.now) capture.entry) line.now)) }
        ensures capture { IfOk result (λ files. files.has_capture ≡ is_some capture.entry) }
    {
        let mut names = captured(alloc, capture)?;
        push_name(alloc, line.journal.as_str(), &mut names)?;
        push_names(alloc, &line.images, &mut names)?;
        let written = names.len();
        push_name(alloc, line_file, &mut names)?;
        Ok(FileNames {
            names,
            written,
            has_capture: capture.is_some(),
        })
    }

    /// The same files, with a script. The images that it names are read before anything is written, so each may be any file.
    ///
    /// # Errors
    ///
    /// Memory was refused.
    pub fn with_script(self, alloc: Global, script: &str) -> Result<FileNames, AllocError>
        ensures names { IfOk result (λ files. spelt files.names.items ≡ spelt self.names.items ++ script.now ∷ []) }
        ensures written { IfOk result (λ files. files.written ≡ self.written) }
        ensures capture { IfOk result (λ files. files.has_capture ≡ self.has_capture) }
    {
        let FileNames {
            mut names,
            written,
            has_capture,
        } = self;
        push_name(alloc, script, &mut names)?;
        Ok(FileNames {
            names,
            written,
            has_capture,
        })
    }

    /// How two of them meet, which were found there.
    fn meeting(&self, clash: Clash, found: &[Location]) -> Meeting<'_> {
        let how = match (found.get(clash.one), found.get(clash.other)) {
            (Some(one), Some(other)) if one.is_same(other) => " are the same file",
            _ => ": one has the name that the other takes while it is replaced",
        };
        Meeting {
            one: self.reported(clash.one),
            other: self.reported(clash.other),
            how,
        }
    }

    /// The file at this place, as it is reported.
    fn reported(&self, place: usize) -> Reported<'_> {
        let role = match place.checked_sub(usize::from(self.has_capture)) {
            None => Role::Capture,
            Some(_) if place > self.written => Role::Script,
            Some(_) if place == self.written => Role::LineFile,
            Some(0) => Role::Journal,
            Some(after) => Role::Slave(after - 1),
        };
        let name = self.names.get(place).map_or("", |name| name.as_str());
        Reported { role, name }
    }
}

/// The name of a capture, if there is one.
fn captured(alloc: Global, capture: Option<&str>) -> Result<Vec<String>, AllocError>
    ensures { IfOk result (λ names. spelt names.items ≡ listed (option_map (λ given. given.now) capture.entry)) }
{
    let mut names = Vec::new(alloc);
    if let Some(capture) = capture {
        push_name(alloc, capture, &mut names)?;
    }
    Ok(names)
}

/// Appends a name.
fn push_name(alloc: Global, name: &str, names: &mut Vec<String>) -> Result<(), AllocError>
    ensures { OnOk result (spelt names.new.items ≡ spelt names.old.items ++ name.now ∷ []) }
{
    names.push(String::from_str(alloc, name)?)?;
    Ok(())
}

/// Appends names.
fn push_names(alloc: Global, others: &[String], names: &mut Vec<String>) -> Result<(), AllocError>
    ensures { OnOk result (spelt names.new.items ≡ spelt names.old.items ++ spelt others.now) }
{
    for other in others {
        push_name(alloc, other.as_str(), names)?;
    }
    Ok(())
}

/// Refuses files of which one would be lost where another one is written: two names of the same file, under no link of either kind, or a
/// name that another file takes while it is replaced, where one of the two may be written. Nothing is written.
///
/// # Errors
///
/// `Exists` where the first two such files are the capture and another one; `SameFile` where they are others; `File` where a name can't be
/// followed; `Memory`.
pub fn keep_separate<S: Store>(alloc: Global, files: &FileNames, store: &mut S) -> Result<(), Fault>
    ensures separate { OnOk result (AreSeparate S.leads files.now.written (spelt files.now.names.items)) }
    ensures refused { IfErr result (RefusesNames S.leads files.now.has_capture files.now.written (spelt files.now.names.items)) }
    ensures same { S.files store.new ≡ S.files store.old }
{
    let found = locate_all(alloc, &files.names, store)?;
    match clash_in(&found, files.written) {
        None => Ok(()),
        Some(clash) => {
            let fault = fault_for(files.has_capture, clash.one);
            let meeting = files.meeting(clash, &found);
            store.note(fault.code(), Place::Named, &meeting);
            Err(fault)
        }
    }
}

/// The fault for a clash whose first file has this place.
fn fault_for(has_capture: bool, one: usize) -> Fault
    ensures { result ≡ fault_for has_capture one }
{
    if has_capture && one == 0 {
        Fault::Exists
    } else {
        Fault::SameFile
    }
}

/// Refuses a line of which two files are the same, as `keep_separate` does: its journal and its images may be written, and its line file is read.
///
/// # Errors
///
/// `SameFile`; `File` where a name can't be followed; `Memory`.
pub fn keep_line_separate<S: Store>(
    alloc: Global,
    line: &LineFile,
    line_file: &str,
    store: &mut S,
) -> Result<(), Fault>
    ensures separate { OnOk result (IsLineSeparate S.leads line.now line_file.now) }
    ensures refused { IfErr result (RefusesLineNames S.leads line.now line_file.now) }
    ensures same { S.files store.new ≡ S.files store.old }
{
    let files = FileNames::of_line(alloc, line, line_file, None)?;
    keep_separate(alloc, &files, store)
}

/// Where the files of these names are.
fn locate_all<S: Store>(
    alloc: Global,
    names: &[String],
    store: &mut S,
) -> Result<Vec<Location>, Fault>
    ensures found { IfOk result (λ found. AllZip (LeadsTo S.leads) (spelt names.now) found.items) }
    ensures failed { IfErr result IsOfStream }
    ensures same { S.files store.new ≡ S.files store.old }
{
    let mut found = Vec::new(alloc);
    for one in names {
        found.push(store.locate(alloc, one.as_str())?)?;
    }
    Ok(found)
}

/// The first two that meet, of which the first is one of the first `written`.
fn clash_in(found: &[Location], written: usize) -> Option<Clash>
    requires { written ≤ length found.now }
    ensures { MatchOption result (NoneMeet written found.now) (MeetAt written found.now) }
{
    for one in 0..written {
        if let Some(at) = first_met(&found[one], &found[one + 1..]) {
            return Some(Clash {
                one,
                other: one + 1 + at,
            });
        }
    }
    None
}

/// The place of the first of the others that meets this one.
fn first_met(one: &Location, others: &[Location]) -> Option<usize>
    ensures { MatchOption result (AllByRecursion (λ other. ¬ Meets (place_of one.now) (place_of other)) others.now)
        (λ at. (at < length others.now) × HoldsAt (λ other. Meets (place_of one.now) (place_of other)) others.now at) }
{
    for at in 0..others.len() {
        if one.meets(&others[at]) {
            return Some(at);
        }
    }
    None
}

/// What a file is to a subcommand on a line.
#[derive(Clone, Copy, Debug, Error)]
enum Role {
    #[error("capture")]
    Capture,
    #[error("journal")]
    Journal,
    /// The image of a slave, by its position on the line, from 0.
    #[error("slave {0}'s image")]
    Slave(usize),
    #[error("line file")]
    LineFile,
    #[error("script")]
    Script,
}

/// A file: what it is, and its name.
#[derive(Clone, Copy, Debug, Error)]
#[error("{role} {name:?}")]
struct Reported<'a> {
    pub role: Role,
    pub name: &'a str,
}

/// Two files that meet.
#[derive(Clone, Copy, Debug, Error)]
#[error("{one} and {other}{how}")]
struct Meeting<'a> {
    pub one: Reported<'a>,
    pub other: Reported<'a>,
    /// How they do, as the end of a sentence.
    pub how: &'static str,
}

/// The file that standard output goes to.
const STANDARD_OUTPUT: &str = "/dev/fd/1";

/// The file that standard input comes from.
pub const STANDARD_INPUT: &str = "/dev/fd/0";

/// Refuses a standard output that goes to the file of this name, which is to be read. A terminal, a pipe or a device may be both. Nothing is read or
/// written.
///
/// # Errors
///
/// `SameFile`; `File` where a name can't be followed; `Memory`.
#[tactic(auto, using(crate::proofs::Separate::output_separate, crate::proofs::Separate::absent_output, crate::proofs::Separate::other_output))]
pub fn keep_output_separate<S: Store>(alloc: Global, name: &str, store: &mut S) -> Result<(), Fault>
    ensures separate { OnOk result (OutputIsSeparate (S.files store.old) S.leads name.now) }
    ensures refused { IfErr result (λ fault. (fault ≡ faults.SameFile) ⊎ IsOfStream fault) }
    ensures same { S.files store.new ≡ S.files store.old }
{
    let output = store.locate(alloc, STANDARD_OUTPUT)?;
    let read = store.locate(alloc, name)?;
    if !output.is_same(&read) {
        return Ok(());
    }
    match store.look(name) {
        Ok(Entry::Absent) => Ok(()),
        Ok(Entry::Other) => Ok(()),
        _ => {
            store.note(Code::SameFile, Place::File(name), &Wrong::Output);
            Err(Fault::SameFile)
        }
    }
}
