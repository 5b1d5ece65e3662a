//! Makes a line in memory of the words and bytes that its files hold, and saves a line to its files.
ghost use Rattle.std.specs.Prelude.{◌≡◌, ◌∷◌, ◌≤◌, length, map, IfErr, IfOk, IsTrue, OnOk};
ghost use Rattle.std.specs.List.{AllByRecursion};
ghost use Rattle.sii_words.specs.Words.{bytes_of, IsDeviceSize};
ghost use Rattle.site_shadow.specs.Line.{half_of, halves_of};
ghost use Rattle.station_files.specs.Faults.{IsOfStream};
ghost use Rattle.station_files.specs.Files.{ChangesAmong, HoldsAll};
ghost use Rattle.station_line.specs.Site.{IsFollowed, IsSiteOf, powered_up_from, files_of, HoldsSite};

use esc_model::{FIRST_STATION, RomHalf};
use sii_words::Words;
use site_core::Site;
use site_shadow::{Device, Parts, ShadowSite};
use station_files::{Fault, Store, prepare_files, write_files};
use station_text::LineFile;
use std::alloc::{AllocError, Global};
use std::io;

/// How many datagrams a slave stays busy with an EEPROM command.
const DELAY: u32 = 1;

/// Makes a line, just switched on, of slaves with these words and a disk with these bytes, and `device` behind it. Requires 1 to 64 slaves.
///
/// # Errors
///
/// Memory was refused. The disk's bytes and the device are dropped.
pub fn site_of<D: Device + Drop>(
    alloc: Global,
    slaves: &[Words],
    disk: Vec<u8>,
    device: D,
) -> Result<ShadowSite<D>, AllocError>
    requires some { 1 ≤ length slaves.now }
    requires most { length slaves.now ≤ 64 }
    ensures { IfOk result (λ site. IsSiteOf slaves.now disk.items site) }
{
    let sizes = sizes_of(alloc, slaves)?;
    let halves = power_up(alloc, slaves)?;
    let parts = Parts {
        sizes,
        disk: Some(disk),
        halves,
        process: None,
    };
    Ok(ShadowSite::of_parts(alloc, parts, device))
}

/// The number of words of each slave.
pub(crate) fn sizes_of(alloc: Global, slaves: &[Words]) -> Result<Vec<u16>, AllocError>
    ensures counts { IfOk result (λ sizes. sizes.items ≡ map length slaves.now) }
    ensures devices { IfOk result (λ sizes. AllByRecursion IsDeviceSize sizes.items) }
{
    let mut sizes = Vec::new(alloc);
    for words in slaves {
        sizes.push(words.len() as u16)?;
    }
    Ok(sizes)
}

/// The EEPROM halves of the slaves, just switched on.
fn power_up(alloc: Global, slaves: &[Words]) -> Result<Vec<Option<RomHalf>>, AllocError>
    requires { length slaves.now ≤ 64 }
    ensures { IfOk result (λ halves. halves_of halves.items ≡ powered_up_from 4097 slaves.now) }
{
    let mut halves = Vec::new(alloc);
    for (slave, words) in slaves.iter().enumerate() {
        let station = FIRST_STATION + slave as u16;
        halves.push(Some(RomHalf::power_up(words.try_copy()?, station, DELAY)))?;
    }
    Ok(halves)
}

/// Writes the bytes of the disk to the journal's file, and the words of each slave to its image file. A word in flight is saved with its
/// old value. Requires a site with a disk and one slave for each image of the line file.
///
/// # Errors
///
/// `Memory`, or `File` where a name can't be resolved, before any file is written; then `File` or `Memory`, as the store answers, with the
/// files before that one written. The site is dropped.
pub fn save_site<S: Store, D: Device + Drop>(
    alloc: Global,
    line: &LineFile,
    site: ShadowSite<D>,
    store: &mut S,
) -> Result<(), Fault>
    requires disk { IsTrue site.line.has_disk }
    requires slaves { length site.line.sizes ≡ length line.now.images.items }
    ensures saved { OnOk result (HoldsSite (S.files store.new) line.now site.seen.state) }
    ensures others { ChangesAmong (S.files store.old) (S.files store.new) (files_of line.now) }
    ensures failed { IfErr result IsOfStream }
    ensures followed { IsFollowed D.follows site.seen }
{
    let _count = site.slaves();
    let (parts, _device) = site.into_parts();
    let Parts { disk, halves, .. } = parts;
    let journal = disk.unwrap();
    save_parts(alloc, line, &journal, &halves, store)
}

/// Writes these bytes to the journal's file, and the words of these EEPROM halves to the slaves' image files.
pub fn save_parts<S: Store>(
    alloc: Global,
    line: &LineFile,
    journal: &[u8],
    halves: &[Option<RomHalf>],
    store: &mut S,
) -> Result<(), Fault>
    requires { length line.now.images.items ≡ length halves.now }
    ensures saved { OnOk result (HoldsAll (S.files store.new) (files_of line.now)
        (journal.now ∷ map (λ half. bytes_of half.words) (halves_of halves.now))) }
    ensures others { ChangesAmong (S.files store.old) (S.files store.new) (files_of line.now) }
    ensures failed { IfErr result IsOfStream }
{
    let slaves = spell_halves(alloc, halves)?;
    prepare_line(line, store)?;
    write_line(line, journal, &slaves, store)?;
    Ok(())
}

/// Takes the memory that the store needs to write the journal's file and the slaves' image files. No file changes.
fn prepare_line<S: Store>(line: &LineFile, store: &mut S) -> io::Result<()>
    ensures same { S.files store.new ≡ S.files store.old }
{
    store.prepare(line.journal.as_str())?;
    prepare_files(&line.images, store)
}

/// Writes these bytes to the journal's file and to the slaves' image files.
fn write_line<S: Store>(
    line: &LineFile,
    journal: &[u8],
    slaves: &[Vec<u8>],
    store: &mut S,
) -> io::Result<()>
    requires { length line.now.images.items ≡ length slaves.now }
    ensures written { OnOk result (HoldsAll (S.files store.new) (files_of line.now) (journal.now ∷ map (λ file. file.items) slaves.now)) }
    ensures others { ChangesAmong (S.files store.old) (S.files store.new) (files_of line.now) }
{
    store.write(line.journal.as_str(), journal)?;
    write_files(&line.images, slaves, store)
}

/// The bytes of each slave's words.
pub(crate) fn spell_halves(
    alloc: Global,
    halves: &[Option<RomHalf>],
) -> Result<Vec<Vec<u8>>, AllocError>
    ensures { IfOk result (λ files. map (λ file. file.items) files.items ≡ map (λ half. bytes_of half.words) (halves_of halves.now)) }
{
    let mut files = Vec::new(alloc);
    for half in halves {
        files.push(spell_half(alloc, half)?)?;
    }
    Ok(files)
}

/// The bytes of a slave's words; none where its half is absent.
fn spell_half(alloc: Global, half: &Option<RomHalf>) -> Result<Vec<u8>, AllocError>
    ensures { IfOk result (λ file. file.items ≡ bytes_of (half_of half.now).words) }
{
    match half {
        Some(half) => half.words().to_bytes(),
        None => Ok(Vec::new(alloc)),
    }
}
