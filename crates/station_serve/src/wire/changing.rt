//! The subcommands that change one slave, without a line file: `alias` and `write`. Each is a run on the line that is found, whose files lie in a
//! folder of the station's.

ghost use Rattle.std.specs.Prelude.{◌<◌, ◌≤◌, length, IfOk};

use crate::serving::Host;
use crate::wire::backups::dated_name;
use crate::wire::one_slave::{Which, find_slaves};
use crate::wire::serving::all_done;
use line_changes::{Before, changes_since, put_changes};
use line_watch::Watch;
use sii_words::{ImageFile, Plant, Words};
use station_files::{Entry, ExitStatus, Fault, Place, Store, load_line, read_image};
use station_listing::Code;
use station_rows::{Rows, named, said};
use std::alloc::{AllocError, Global};
use std::io::Write;
use std::rt::Clock;
use wire_bringup::{Sizes, look_along};
use wire_faults::WireFault;
use wire_frames::{NumberedWire, Wire};
use wire_scan::{
    Named, ScanOptions, save_backup, validate_image, validate_measures, validate_states,
};
use wire_session::{RunOrder, begin_journal, run_script};

/// A change of one slave.
#[derive(Clone, Copy)]
pub struct Change<'a> {
    pub which: Which,
    /// The sizes of EEPROMs, as far as they are given.
    pub sizes: Sizes,
    /// What it gets.
    pub new: New<'a>,
    /// The folder for the journal and for what is kept.
    pub folder: &'a str,
    /// What is asked for that isn't done where nothing is said.
    pub asked: ScanOptions,
}

/// What a slave gets.
#[derive(Clone, Copy)]
pub enum New<'a> {
    /// This configured station alias.
    Alias(u16),
    /// The image in this file.
    Image(&'a str),
}

/// What is there for a run: the names of the line file and of the script, and the words of the slaves.
#[derive(Drop)]
struct Ready {
    line: String,
    script: String,
    words: Plant,
}

/// What is noted of a line on which a call was cut.
const CUT: &str =
    "an earlier call was cut: recover, without a line file, ends it; of another line, name another folder by --state";

/// The name of the line file of the last call that changed a slave, in this folder.
pub(crate) fn last_line(alloc: Global, folder: &str) -> Result<String, AllocError> {
    format!(in alloc; "{folder}/line.toml")
}

/// Changes one slave of the line on this wire: writes what a run needs into the folder, under names with the date and the time, and runs it. Prints
/// the name of the file with the image of the slave as it was, the answers of the run, and, if it ends well, the words that have changed, and that
/// all is done. Returns the exit status. Where `make_ready` fails, no word of a slave is written.
pub(crate) fn change_slave<H: Host, W: Wire + Send + Drop, S: Store, O: Write, T: Write>(
    watch: Watch<'_, T, H>,
    wire: NumberedWire<W>,
    change: Change<'_>,
    store: &mut S,
    output: &mut O,
) -> Result<ExitStatus, WireFault> {
    let mut wire = wire;
    let ready = make_ready(watch.rt, &mut wire, change, store, output)?;
    let asked = change.asked;
    let order = RunOrder {
        named: Named {
            line: ready.line.as_str(),
            script: ready.script.as_str(),
        },
        asked,
    };
    let ended = run_script(watch, wire, order, store, output).into_ended();
    if !matches!(ended, Ok(ExitStatus::Done)) {
        return ended;
    }
    let alloc = watch.rt.alloc();
    let Ready { line, words, .. } = ready;
    let line = load_line(alloc, line.as_str(), store)?;
    let report = changes_since(alloc, &Before { line, words }, store)?;
    let mut rows = Rows::new(alloc, asked.tells.form);
    put_changes(&mut rows, &report.changes)?;
    let row = [said("", "done"), named("words", report.changes.len())];
    rows.put("done", &row)?;
    all_done(rows.write(output))
}

/// Looks whether an earlier call was cut, finds the line and the slave that is meant, and writes into the folder: the image of the slave as it is,
/// whose name is printed; a backup of the line with an empty journal; and a script. The line file is the last one of the folder then. No word of a
/// slave is written. It is `Exists` where an earlier call was cut, and `NotOne` where not one slave is meant.
fn make_ready<H: Clock + AllocGlobal, W: Wire, S: Store, O: Write>(
    rt: &H,
    wire: &mut NumberedWire<W>,
    change: Change<'_>,
    store: &mut S,
    output: &mut O,
) -> Result<Ready, WireFault> {
    let alloc = rt.alloc();
    require_ended(alloc, change.folder, store)?;
    let mut nothing: &[u8] = &[];
    let image = match change.new {
        New::Image(file) => Some(read_image(alloc, false, Some(file), &mut nothing, store)?),
        New::Alias(_) => None,
    };
    let Meant { slaves, place } = find_meant(rt, wire, change, image)?;
    let stem = dated_name(rt, change.folder, true)?;
    let before = format!(in alloc; "{stem}-before.bin")?;
    store.write(before.as_str(), &slaves[place].to_bytes()?)?;
    writeln!(output, "kept {before}")?;
    output.flush()?;
    let script = write_script(alloc, stem.as_str(), place, change.new, store)?;
    let line = begin_line(alloc, change.folder, stem.as_str(), &slaves, store)?;
    let words = Plant::of(slaves);
    Ok(Ready {
        line,
        script,
        words,
    })
}

/// The words of the slaves of a line, and the place of the one that is meant.
#[derive(Drop)]
struct Meant {
    slaves: Vec<Words>,
    place: usize,
}

/// Finds the line on this wire, of 64 slaves at most, and the slave that is meant, which may get this image.
fn find_meant<H: Clock + AllocGlobal, W: Wire>(
    rt: &H,
    wire: &mut NumberedWire<W>,
    change: Change<'_>,
    image: Option<ImageFile>,
) -> Result<Meant, WireFault>
    ensures place { IfOk result (λ meant. meant.place < length meant.slaves.items) }
    ensures slaves { IfOk result (λ meant. length meant.slaves.items ≤ 64) }
{
    if !change.asked.is_forced && !wire.is_lent() {
        let seen = look_along(wire)?;
        validate_states(&seen.states, usize::from(seen.slaves))?;
    }
    let found = find_slaves(rt, wire, &change.sizes)?;
    let place = change.which.place_in(&found)?;
    validate_measures(&found, &change.sizes)?;
    let slaves = found.into_words(rt.alloc())?;
    match &image {
        Some(image) if !change.asked.any_device => {
            validate_image(place, &slaves[place], image)?;
        }
        _ => {}
    }
    Ok(Meant { slaves, place })
}

/// Writes the script that gives the slave at this place what it is to get, and returns its name.
fn write_script<S: Store>(
    alloc: Global,
    stem: &str,
    place: usize,
    new: New<'_>,
    store: &mut S,
) -> Result<String, Fault> {
    let text = match new {
        New::Alias(value) => {
            format!(in alloc; "[[command]]\nalias = {{ slave = {place}, value = {value} }}\n")?
        }
        New::Image(file) => {
            let file = spelt(alloc, file)?;
            format!(in alloc; "[[command]]\nimage = {{ slave = {place}, file = \"{file}\" }}\n")?
        }
    };
    let script = format!(in alloc; "{stem}-script.toml")?;
    store.write(script.as_str(), text.as_bytes())?;
    Ok(script)
}

/// Looks whether the last call that changed a slave has left nothing to do in the folder: `Exists` where it was cut. In a folder that can't be
/// read there was none.
pub(crate) fn require_ended<S: Store>(
    alloc: Global,
    folder: &str,
    store: &mut S,
) -> Result<(), WireFault> {
    let line = last_line(alloc, folder)?;
    if !matches!(store.look(line.as_str()), Ok(Entry::File { .. })) {
        return Ok(());
    }
    let mut unseen: Vec<u8> = Vec::new(alloc);
    let ended = begin_journal(alloc, line.as_str(), store, &mut unseen);
    if let Err(WireFault::Station(Fault::Exists)) = ended {
        store.note(Code::Exists, Place::File(line.as_str()), &CUT);
    }
    ended
}

/// A text as it stands between double quotes in TOML.
fn spelt(alloc: Global, text: &str) -> Result<String, AllocError> {
    let mut spelt = String::new(alloc);
    for letter in text.chars() {
        if letter.is_control() || letter == '"' || letter == '\\' {
            let code = letter as u32;
            let escape = format!(in alloc; "\\u{code:04x}")?;
            spelt.push_str(escape.as_str())?;
        } else {
            spelt.push(letter)?;
        }
    }
    Ok(spelt)
}

/// Writes a backup of these slaves, and an empty journal; and makes its line file the last one of the folder. Returns the name of that.
fn begin_line<S: Store>(
    alloc: Global,
    folder: &str,
    stem: &str,
    slaves: &[Words],
    store: &mut S,
) -> Result<String, WireFault> {
    let line = format!(in alloc; "{stem}.toml")?;
    save_backup(alloc, line.as_str(), slaves, store)?;
    let mut unseen: Vec<u8> = Vec::new(alloc);
    begin_journal(alloc, line.as_str(), store, &mut unseen)?;
    let text = store.read(alloc, line.as_str())?.ok_or(Fault::File)?;
    store.write(last_line(alloc, folder)?.as_str(), &text)?;
    Ok(line)
}
