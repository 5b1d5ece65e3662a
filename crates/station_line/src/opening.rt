//! Opens the files of a line, for work on them in place, and a station on a line.
ghost use Rattle.std.specs.Prelude.{◌≡◌, length, map, string_bytes, IfErr, IfOk, IsTrue, MatchResult};
ghost use Rattle.station_files.specs.Faults.{IsOfStream};
ghost use Rattle.station_files.specs.Files.{ChangesAmong};
ghost use Rattle.station_line.specs.OpenFiles.{AreOpened, AreOpenedAs};
ghost use Rattle.station_line.specs.Site.{files_of};
ghost use Rattle.esc_rom.specs.Owned.{OwnsAll};
ghost use Rattle.station_line.specs.Opened.{GoesKept, IsMigrated, StartsFrom};

use crate::site::spell_halves;
use site_core::Site;
use site_file::OpenFiles;
use site_shadow::{Device, ShadowSite};
use station_alone::{Alone, OpenFault, recover};
use station_files::{Fault, Store};
use station_text::LineFile;
use std::alloc::Global;

/// Opens the journal's file, and then the image files of the slaves in order, each once and under its own name. Each is replaced first by a new
/// file with what the site holds, which was read of it, as `Store::open` says. Requires a slave for each image of the line file.
///
/// # Errors
///
/// `File` where one is absent, or can't be written, replaced or synced; `Memory` at any point. The files opened before are closed.
pub fn open_files<D: Device, S: Store>(
    alloc: Global,
    line: &LineFile,
    site: &ShadowSite<D>,
    store: &mut S,
) -> Result<OpenFiles<S::File>, Fault>
    requires slaves { length site.now.line.sizes ≡ length line.now.images.items }
    ensures opened { IfOk result (AreOpened S.opened line.now site.now.seen.state) }
    ensures others { ChangesAmong (S.files store.old) (S.files store.new) (files_of line.now) }
    ensures failed { IfErr result IsOfStream }
{
    let _slaves = site.slaves();
    let contents = spell_halves(alloc, site.halves())?;
    let journal = store.open(line.journal.as_str(), site.disk_bytes())?;
    let images = open_images(alloc, &line.images, &contents, store)?;
    Ok(OpenFiles { journal, images })
}

/// Opens the files `names` with these contents, in order, each as `Store::open` says.
///
/// # Errors
///
/// As for `open_files`.
pub fn open_images<S: Store>(
    alloc: Global,
    names: &[String],
    contents: &[Vec<u8>],
    store: &mut S,
) -> Result<Vec<Option<S::File>>, Fault>
    requires { length names.now ≡ length contents.now }
    ensures opened { IfOk result (λ images. AreOpenedAs S.opened (map (λ name. string_bytes name) names.now) (map (λ bytes. bytes.items) contents.now)
        images.items) }
    ensures others { ChangesAmong (S.files store.old) (S.files store.new) (map (λ name. string_bytes name) names.now) }
    ensures failed { IfErr result IsOfStream }
{
    let mut images = Vec::with_capacity(alloc, names.len())?;
    for slave in 0..names.len() {
        let image = store.open(names[slave].as_str(), &contents[slave])?;
        images.push(Some(image))?;
    }
    Ok(images)
}

/// Opens the station. A journal that isn't of version 2, as `is_old` says, is recovered and migrated first.
///
/// # Errors
///
/// As for `migrated` and `Alone::open`, with the site as they hand it back.
pub fn open_station<D: Device + Drop>(
    alloc: Global,
    site: ShadowSite<D>,
    is_old: bool,
) -> Result<Alone<ShadowSite<D>>, (ShadowSite<D>, OpenFault)>
    requires disk { IsTrue site.line.has_disk }
    requires owned { OwnsAll site.line }
    ensures line { MatchResult result (λ alone. alone.line ≡ site.line) (λ back. back.0.line ≡ site.line) }
    ensures starts { IfOk result (λ alone. StartsFrom is_old site alone) }
    ensures goes { MatchResult result (λ alone. GoesKept site.seen alone.seen) (λ back. GoesKept site.seen back.0.seen) }
{
    if is_old {
        let left = migrated(alloc, site)?;
        return Alone::open(alloc, left);
    }
    Alone::open(alloc, site)
}

/// Recovers a line, and migrates its journal to version 2.
///
/// # Errors
///
/// As for `recover`, with the site as it hands it back.
pub fn migrated<D: Device + Drop>(
    alloc: Global,
    site: ShadowSite<D>,
) -> Result<ShadowSite<D>, (ShadowSite<D>, OpenFault)>
    requires disk { IsTrue site.line.has_disk }
    requires owned { OwnsAll site.line }
    ensures line { MatchResult result (λ left. left.line ≡ site.line) (λ back. back.0.line ≡ site.line) }
    ensures migrated { IfOk result (λ left. IsMigrated site.seen left.line left.seen) }
    ensures goes { MatchResult result (λ left. GoesKept site.seen left.seen) (λ back. GoesKept site.seen back.0.seen) }
{
    match recover(alloc, site) {
        Ok((alone, _recovered)) => {
            let (core, left) = alone.into_parts();
            drop(core);
            Ok(left)
        }
        Err(back) => Err(back),
    }
}
