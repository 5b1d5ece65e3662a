//! Finds a line on a wire and its journal in a file, and makes the site of both.
ghost use Rattle.std.specs.Prelude.{◌≡◌, ◌≤◌, ◌⊎◌, length, map, string_bytes, IfErr, IfOk, OnOk};
ghost use Rattle.sii_words.specs.Words.{bytes_of};
ghost use Rattle.station_files.specs.Files.{ChangesAmong, HasBytes};
ghost use Rattle.station_files.specs.FileNames.{IsLineSeparate, RefusesLineNames, spelt};
ghost use Rattle.station_files.specs.LineFiles.{SpellsLine, names_of};
ghost use Rattle.station_files.specs.Faults as station;
ghost use Rattle.station_line.specs.Validating.{HasJournal};
ghost use Rattle.station_line.specs.OpenFiles.{AreOpenedAs};
ghost use Rattle.station_line.specs.Site.{files_of};
ghost use Rattle.wire_scan.specs.Keeping.{AreMends, AreOfImages, KeepsImages, MendsFiles, MendsImages};
ghost use Rattle.wire_scan.specs.Opening.{IsFound, IsOfWire, RefusesFound, RefusesLock, RefusesRead};

use crate::asked::{ScanOptions, Tells};
use crate::backup::write_missing;
use crate::journals::validate_journal;
use crate::keeping::{Kept, load_images, sizes_of, validate_kept};
use crate::validating::{validate_slaves, validate_states};
use sii_edit::Command;
use sii_words::{MAX_SLAVES, Words};
use site_file::OpenFiles;
use station_files::{
    Entry, Fault, MOST_OF_JOURNAL, Place, Store, Wrong, keep_line_separate, load_line, read_file,
};
use station_line::open_images;
use station_text::LineFile;
use std::alloc::{AllocError, Global};
use std::rt::Clock;
use wire_bringup::{FoundLine, SlaveState, bring_up, hand_back, look_along};
use wire_faults::WireFault;
use wire_frames::{NumberedWire, Wire};

/// A line that was found on a wire, and its journal.
#[derive(Drop)]
pub struct FoundWire<L> {
    /// The line file.
    pub line: LineFile,
    /// The words of the slaves, in the order of the line.
    pub slaves: Vec<Words>,
    /// The words that each image file is to hold as the work begins.
    pub images: Vec<Words>,
    /// The commands that write image files to their slaves, as was said.
    pub mends: Vec<Command>,
    /// What the slaves were in as they were found.
    pub states: [SlaveState; MAX_SLAVES],
    /// The bytes of the journal's file.
    pub journal: Vec<u8>,
    /// The lock of the journal, which keeps other stations away.
    pub lock: L,
    /// What is to be reported of the work.
    pub tells: Tells,
}

/// Reads the line file `name`, locks the journal, brings up the line on this wire, and reads and validates the journal. No file changes, and no
/// word of a slave is written. Each slave has the size of its image file, where there is one. After a fault the EEPROMs are handed back.
///
/// # Errors
///
/// As for `load_line`; `Busy` where another station has locked the journal, `File` where it is absent or the system can't lock it, `NotAFile`;
/// as for `keep_line_separate`; as for `load_images`; unless slaves in any state are allowed or the wire is lent, as for `validate_states`, before an
/// EEPROM is taken; as for `bring_up`; as for `validate_slaves`; as for `read_file` of the journal; `NotAJournal`, `BadVersion`, `WrongLine` or
/// `BadJournal` where it isn't a journal of these slaves; `OtherWords` for the first slave that has other words than its image file, outside of those
/// that a recovery writes, unless something is said of it. `Memory` may come at any point.
pub fn find_line<R: Clock + AllocGlobal, W: Wire, S: Store>(
    rt: &R,
    wire: &mut NumberedWire<W>,
    name: &str,
    asked: ScanOptions,
    store: &mut S,
) -> Result<FoundWire<S::Lock>, WireFault>
    ensures found { IfOk result (λ found. IsFound (S.files store.old) name.now found.line found.slaves.items found.journal.items) }
    ensures validated { IfOk result (λ found. HasJournal (map length found.slaves.items) found.journal.items) }
    ensures separate { IfOk result (λ found. IsLineSeparate S.leads found.line name.now) }
    ensures kept { IfOk result (λ found. AreOfImages (S.files store.old) found.line asked.mends found.journal.items found.slaves.items) }
    ensures images { IfOk result (λ found. length found.images.items ≡ length found.slaves.items) }
    ensures mends { IfOk result (λ found. AreMends asked.mends found.mends.items) }
    ensures mended { IfOk result (λ found.
        MendsFiles (S.files store.old) found.line asked.mends found.journal.items found.slaves.items found.images.items found.mends.items) }
    ensures some { IfOk result (λ found. 1 ≤ length found.slaves.items) }
    ensures most { IfOk result (λ found. length found.slaves.items ≤ 64) }
    ensures refused { IfErr result (RefusesFound (S.files store.old) S.leads name.now asked.mends) }
    ensures same { S.files store.new ≡ S.files store.old }
{
    let line = load_line(rt.alloc(), name, store)?;
    let lock = lock_journal(rt.alloc(), name, &line, store)?;
    let images = load_images(rt.alloc(), &line.images, store)?;
    let brought = bring_up_validated(rt, wire, &images, asked)?;
    let states = brought.states();
    match read_found(rt.alloc(), &line, &images, brought, asked, store) {
        Ok(read) => {
            let Read {
                slaves,
                journal,
                kept: Kept { images, commands },
            } = read;
            Ok(FoundWire {
                line,
                slaves,
                images,
                mends: commands,
                states,
                journal,
                lock,
                tells: asked.tells,
            })
        }
        Err(fault) => {
            hand_back(wire, &states);
            Err(fault)
        }
    }
}

/// Brings up a line. Each slave has the size of its image file, where there is one.
fn bring_up_validated<R: Clock + AllocGlobal, W: Wire>(
    rt: &R,
    wire: &mut NumberedWire<W>,
    images: &[Option<Words>],
    asked: ScanOptions,
) -> Result<FoundLine, WireFault>
    ensures some { IfOk result (λ found. 1 ≤ length found.slaves.items) }
    ensures most { IfOk result (λ found. length found.slaves.items ≤ 64) }
    ensures failed { IfErr result IsOfWire }
{
    let sizes = sizes_of(images, asked.trusts_images);
    // On a wire that is lent slaves may be in any state, and who has their EEPROMs is looked at as they are opened.
    if !asked.is_forced && !wire.is_lent() {
        let seen = look_along(wire)?;
        validate_states(&seen.states, usize::from(seen.slaves))?;
    }
    let found = bring_up(rt.alloc(), wire, rt, &sizes)?;
    Ok(found)
}

/// What was read of a line that was brought up.
#[derive(Drop)]
struct Read {
    /// The words of the slaves.
    slaves: Vec<Words>,
    /// The bytes of the journal's file.
    journal: Vec<u8>,
    kept: Kept,
}

/// The words of the slaves of a line that was brought up, and the bytes of its journal, which is one of these slaves. They are those of their image
/// files, but for what was said.
fn read_found<S: Store>(
    alloc: Global,
    line: &LineFile,
    images: &[Option<Words>],
    found: FoundLine,
    asked: ScanOptions,
    store: &mut S,
) -> Result<Read, WireFault>
    requires some { 1 ≤ length found.slaves.items }
    requires most { length found.slaves.items ≤ 64 }
    requires images { length images.now ≡ length line.now.images.items }
    ensures count { IfOk result (λ read. length read.slaves.items ≡ length line.now.images.items) }
    ensures found { IfOk result (λ read. length read.slaves.items ≡ length found.slaves.items) }
    ensures journal { IfOk result (λ read. HasBytes (S.files store.old) (string_bytes line.now.journal) read.journal.items) }
    ensures validated { IfOk result (λ read. HasJournal (map length read.slaves.items) read.journal.items) }
    ensures kept { IfOk result (λ read. KeepsImages asked.mends read.journal.items read.slaves.items images.now) }
    ensures wanted { IfOk result (λ read. length read.kept.images.items ≡ length read.slaves.items) }
    ensures mends { IfOk result (λ read. AreMends asked.mends read.kept.commands.items) }
    ensures mended { IfOk result (λ read.
        MendsImages asked.mends read.journal.items read.slaves.items images.now read.kept.images.items read.kept.commands.items) }
    ensures refused { IfErr result (RefusesRead (S.files store.old) line.now asked.mends images.now) }
    ensures same { S.files store.new ≡ S.files store.old }
{
    let slaves = validate_slaves(alloc, found, line.images.len())?;
    let journal = read_file(alloc, line.journal.as_str(), MOST_OF_JOURNAL, store)?;
    let live = validate_journal(alloc, line.journal.as_str(), &journal, &slaves, store)?;
    let kept = validate_kept(
        alloc,
        &slaves,
        images,
        live.batches.as_slice(),
        &asked.mends,
    )?;
    Ok(Read {
        slaves,
        journal,
        kept,
    })
}

/// Locks the journal's file, and refuses a line of which two files are the same.
fn lock_journal<S: Store>(
    alloc: Global,
    name: &str,
    line: &LineFile,
    store: &mut S,
) -> Result<S::Lock, Fault>
    ensures separate { OnOk result (IsLineSeparate S.leads line.now name.now) }
    ensures refused { IfErr result (λ fault. RefusesLock (S.files store.old) (string_bytes line.now.journal) fault
        ⊎ RefusesLineNames S.leads line.now name.now fault) }
    ensures same { S.files store.new ≡ S.files store.old }
{
    let journal = line.journal.as_str();
    let Some(lock) = store.lock(journal)? else {
        if !matches!(store.look(journal)?, Entry::Other) {
            return Err(Fault::File);
        }
        let fault = Fault::NotAFile;
        store.note(fault.code(), Place::File(journal), &Wrong::NotAFile);
        return Err(fault);
    };
    keep_line_separate(alloc, line, name, store)?;
    Ok(lock)
}

/// Opens the journal's file, of which these bytes were read, and the image files of slaves with these words, for work on them in place. An image
/// file that isn't there is made. Each is replaced first by a new file with these contents, as `Store::open` says.
///
/// # Errors
///
/// `File` where one can't be written, replaced or synced, or the journal's is absent; `Memory`.
pub fn open_line<S: Store>(
    alloc: Global,
    line: &LineFile,
    slaves: &[Words],
    journal: &[u8],
    store: &mut S,
) -> Result<OpenFiles<S::File>, Fault>
    requires { length slaves.now ≡ length line.now.images.items }
    ensures journal { IfOk result (λ files. S.opened files.journal (string_bytes line.now.journal) journal.now) }
    ensures images { IfOk result (λ files. AreOpenedAs S.opened (names_of line.now) (map bytes_of slaves.now) files.images.items) }
    ensures others { ChangesAmong (S.files store.old) (S.files store.new) (files_of line.now) }
    ensures failed { IfErr result station.IsOfStream }
{
    let contents = bytes_of_all(alloc, slaves)?;
    make_images(&line.images, &contents, store)?;
    let opened = store.open(line.journal.as_str(), journal)?;
    let images = open_images(alloc, &line.images, &contents, store)?;
    Ok(OpenFiles {
        journal: opened,
        images,
    })
}

/// The bytes of an image file for each of these slaves.
fn bytes_of_all(alloc: Global, slaves: &[Words]) -> Result<Vec<Vec<u8>>, AllocError>
    ensures { IfOk result (λ files. map (λ file. file.items) files.items ≡ map bytes_of slaves.now) }
{
    let mut files = Vec::new(alloc);
    for words in slaves {
        files.push(words.to_bytes()?)?;
    }
    Ok(files)
}

/// Writes these contents to the image files that aren't there.
fn make_images<S: Store>(names: &[String], contents: &[Vec<u8>], store: &mut S) -> Result<(), Fault>
    requires { length names.now ≡ length contents.now }
    ensures others { ChangesAmong (S.files store.old) (S.files store.new) (spelt names.now) }
    ensures failed { IfErr result station.IsOfStream }
{
    for slave in 0..names.len() {
        write_missing(names[slave].as_str(), &contents[slave], store)?;
    }
    Ok(())
}
