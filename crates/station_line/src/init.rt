//! The subcommand `init`.
ghost use Rattle.std.specs.Prelude.{◌≡◌, length, vec_len, IfErr, IfOk, OnOk, ⊤};
ghost use Rattle.station_files.specs.Faults.{IsOfStream};
ghost use Rattle.station_files.specs.Files.{ChangesAmong};
ghost use Rattle.station_files.specs.FileNames.{IsLineSeparate};
ghost use Rattle.station_line.specs.Init.{Formats, HoldsEmpty, IsOfFormatting, IsUnformatted, RefusesInit, RefusesUnformatted};
ghost use Rattle.station_line.specs.Site.{files_of};

use crate::faults::of_device;
use crate::site::{save_site, site_of};
use sii_words::Words;
use site_journal::format;
use site_mem::FaultPlan;
use station_files::{
    Entry, Fault, Place, Store, Wrong, keep_line_separate, load_line, load_slaves,
};
use station_listing::Code;
use station_text::LineFile;
use std::alloc::Global;
use std::io::Write;

/// A line without a journal, and the contents of its slaves.
#[derive(Drop)]
struct Unformatted {
    line: LineFile,
    slaves: Vec<Words>,
}

/// Makes an empty journal for the line whose line file is `name`, and prints the size of its area. The journal's file must not exist yet.
/// The slaves' image files keep their words.
///
/// # Errors
///
/// As for `load_line` and `load_slaves`; then as for `keep_line_separate`; `File` where the store can't tell whether the journal's file exists;
/// `Exists` where it does. Nothing is written up to there. Then `Disk` or `Stopped`, as the disk in memory answers; the files are saved
/// nevertheless. Then `File` or `Memory`, where a file can't be written or the output fails.
pub fn init_line<S: Store, W: Write>(
    alloc: Global,
    name: &str,
    store: &mut S,
    output: &mut W,
) -> Result<(), Fault>
    ensures formatted { OnOk result (Formats ⊤ (S.files store.old) (S.files store.new) name.now) }
    ensures refused { IfErr result (RefusesInit (S.files store.old) (S.files store.new) S.leads name.now) }
{
    let given = load_unformatted(alloc, name, store)?;
    match format_line(alloc, &given.line, &given.slaves, store) {
        Ok(()) => print_formatted(given.line.area, output),
        Err(fault) => Err(fault),
    }
}

fn print_formatted<W: Write>(area: u32, output: &mut W) -> Result<(), Fault>
    ensures { IfErr result IsOfStream }
{
    writeln!(output, "formatted {area}")?;
    output.flush()?;
    Ok(())
}

/// Reads the line file and then the images of the slaves. Each of the files has to be another one, and the journal's must not exist.
fn load_unformatted<S: Store>(
    alloc: Global,
    name: &str,
    store: &mut S,
) -> Result<Unformatted, Fault>
    ensures given { IfOk result (λ given. IsUnformatted (S.files store.old) name.now given.line given.slaves.items) }
    ensures count { IfOk result (λ given. vec_len given.slaves ≡ vec_len given.line.images) }
    ensures separate { IfOk result (λ given. IsLineSeparate S.leads given.line name.now) }
    ensures refused { IfErr result (RefusesUnformatted (S.files store.old) S.leads name.now) }
    ensures same { S.files store.new ≡ S.files store.old }
{
    let line = load_line(alloc, name, store)?;
    let slaves = load_slaves(alloc, &line, store)?;
    keep_line_separate(alloc, &line, name, store)?;
    match store.look(line.journal.as_str())? {
        Entry::Absent => Ok(Unformatted { line, slaves }),
        _ => {
            store.note(
                Code::Exists,
                Place::File(line.journal.as_str()),
                &Wrong::Exists,
            );
            Err(Fault::Exists)
        }
    }
}

/// Makes an empty journal in memory, and saves it with the words of the slaves, also after a fault of the disk.
fn format_line<S: Store>(
    alloc: Global,
    line: &LineFile,
    slaves: &[Words],
    store: &mut S,
) -> Result<(), Fault>
    requires { length slaves.now ≡ vec_len line.now.images }
    ensures saved { OnOk result (HoldsEmpty (S.files store.new) line.now slaves.now) }
    ensures others { ChangesAmong (S.files store.old) (S.files store.new) (files_of line.now) }
    ensures failed { IfErr result IsOfFormatting }
{
    let mut site = site_of(alloc, slaves, Vec::new(alloc), FaultPlan::none())?;
    let formatted = format(&mut site, line.area);
    let saved = save_site(alloc, line, site, store);
    match formatted {
        Ok(()) => saved,
        Err(fault) => Err(of_device(fault)),
    }
}
