//! Whether each slave is the one that its image file was written of, and what is to become of one that isn't.
ghost use Rattle.std.specs.Prelude.{◌≡◌, ◌<◌, ◌≤◌, [], length, map, Some, IfErr, IfOk, OnOk};
ghost use Rattle.std.specs.List.{AllByRecursion, AllZip};
ghost use Rattle.sii_words.specs.Redo.{redone};
ghost use Rattle.jrn_format.specs.Batch.{IsWithin};
ghost use Rattle.book_model.specs.Entries.{live_runs};
ghost use Rattle.station_files.specs.FileNames.{spelt};
ghost use Rattle.station_files.specs.LineFiles.{RefusesWords};
ghost use Rattle.station_files.specs.declared.faults.Fault.TheVariants.{Memory};
ghost use Rattle.wire_scan.specs.Keeping.{AreKept, AreMends, ArePassed, AreRedone, AreSeen, IsEditOf, IsImageOf, IsOwn, IsRefusal, IsSeen, KeepsEach, Mends, MendsAll, may_differ};
ghost use Rattle.wire_scan.specs.Keeping.{refusal_of, said_of, together, with_edit, wanted_words, with_serial};
ghost use Rattle.wire_scan.specs.Opening.{RefusesImages};

use crate::asked::{Mend, Mends};
use crate::plan::is_there;
use crate::validating::copies_of;
use jrn_format::Batch;
use sii_edit::{Command, Edit, EditList};
use sii_words::{ImageFile, MIN_WORDS, Plant, Words};
use slave_match::{Difference, Reason, difference_between, is_same_type, reason_of, redo_batches};
use station_files::{Fault, Store, load_slave};
use std::alloc::{AllocError, Global};
use wire_bringup::Sizes;
use wire_faults::WireFault;

/// A line whose slaves are those of their image files, but for what was said.
#[derive(Drop)]
pub(crate) struct Kept {
    /// What each image file holds as the work begins.
    pub(crate) images: Vec<Words>,
    /// The command that writes image files to their slaves, if there is one.
    pub(crate) commands: Vec<Command>,
}

/// The words of these image files. None where one isn't there.
pub(crate) fn load_images<S: Store>(
    alloc: Global,
    names: &[String],
    store: &mut S,
) -> Result<Vec<Option<Words>>, Fault>
    ensures images { IfOk result (λ images. AllZip (IsImageOf (S.files store.old)) (spelt names.now) images.items) }
    ensures count { IfOk result (λ images. length images.items ≡ length names.now) }
    ensures refused { IfErr result (RefusesImages (S.files store.old) (spelt names.now)) }
    ensures same { S.files store.new ≡ S.files store.old }
{
    let mut images = Vec::new(alloc);
    for name in names {
        match load_image(alloc, name.as_str(), store) {
            Ok(image) => images.push(image)?,
            Err(fault) => return Err(fault),
        }
    }
    Ok(images)
}

/// The words of this image file. None where it isn't there.
fn load_image<S: Store>(alloc: Global, name: &str, store: &mut S) -> Result<Option<Words>, Fault>
    ensures image { IfOk result (IsImageOf (S.files store.old) name.now) }
    ensures refused { IfErr result (RefusesWords (S.files store.old) name.now) }
    ensures same { S.files store.new ≡ S.files store.old }
{
    if !is_there(name, store)? {
        return Ok(None);
    }
    Ok(Some(load_slave(alloc, name, store)?))
}

/// The sizes of the slaves with these image files. Of one whose file isn't there nothing is known.
///
/// # Errors
///
/// `File` where a file can't be read; `NotAFile`; `OddLength` and `BadSize` where one is no EEPROM image of 64 to 4,096 words, a multiple of
/// 64; `Memory`.
pub fn sizes_of_images<S: Store>(
    alloc: Global,
    names: &[String],
    is_trusted: bool,
    store: &mut S,
) -> Result<Sizes, Fault>
    ensures { S.files store.new ≡ S.files store.old }
{
    let images = load_images(alloc, names, store)?;
    Ok(sizes_of(&images, is_trusted))
}

/// The sizes of the slaves whose image files have these words.
pub(crate) fn sizes_of(images: &[Option<Words>], is_trusted: bool) -> Sizes {
    let mut sizes = Sizes {
        is_trusted,
        ..Sizes::unknown()
    };
    for (slot, image) in sizes.given.iter_mut().zip(images) {
        if let Some(words) = image {
            *slot = u16::try_from(words.len()).ok();
        }
    }
    sizes
}

/// Looks whether each slave has the words of its image file, where there is one, outside of those that a recovery with these live batches writes.
/// What is said of a slave counts in place of that.
pub(crate) fn validate_kept(
    alloc: Global,
    slaves: &[Words],
    images: &[Option<Words>],
    batches: &[Batch],
    mends: &Mends,
) -> Result<Kept, WireFault>
    requires some { 1 ≤ length slaves.now }
    requires most { length slaves.now ≤ 64 }
    requires count { length images.now ≡ length slaves.now }
    requires within { AllByRecursion (IsWithin (map length slaves.now)) batches.now }
    ensures kept { OnOk result (AreKept mends.now (live_runs batches.now) slaves.now images.now) }
    ensures passed { OnOk result (ArePassed mends.now (live_runs batches.now) slaves.now images.now (length slaves.now)) }
    ensures refused { IfErr result (IsRefusal mends.now batches.now slaves.now images.now) }
    ensures images { IfOk result (λ kept. length kept.images.items ≡ length slaves.now) }
    ensures commands { IfOk result (λ kept. AreMends mends.now kept.commands.items) }
    ensures mends { IfOk result (λ kept. Mends mends.now (live_runs batches.now) slaves.now images.now kept.images.items kept.commands.items) }
{
    let both = recover_both(alloc, slaves, images, batches)?;
    require_alike(slaves, images, batches, &both, mends)?;
    Ok(mended(alloc, slaves, &both.found, &both.kept, mends)?)
}

/// What is seen of a slave beside its image file.
#[derive(Clone, Copy)]
pub(crate) enum Beside {
    /// There is no image file.
    Absent,
    /// It has the words of its image file, but for those that a recovery writes, or what is said of it lets it differ.
    Same,
    /// It has others, which is refused; and what that usually is.
    Differs {
        difference: Difference,
        reason: Reason,
    },
}

/// What is seen of each slave beside its image file, where these batches are live in the journal.
pub(crate) fn compare_all(
    alloc: Global,
    slaves: &[Words],
    images: &[Option<Words>],
    batches: &[Batch],
) -> Result<Vec<Beside>, Fault>
    requires some { 1 ≤ length slaves.now }
    requires most { length slaves.now ≤ 64 }
    requires count { length images.now ≡ length slaves.now }
    requires within { AllByRecursion (IsWithin (map length slaves.now)) batches.now }
    ensures count { IfOk result (λ seen. length seen.items ≡ length slaves.now) }
    ensures seen { IfOk result (λ seen. AreSeen batches.now slaves.now images.now (length slaves.now) seen.items) }
{
    let both = recover_both(alloc, slaves, images, batches)?;
    let mut seen = Vec::new(alloc);
    for slave in 0..slaves.len() {
        let one = seen_of(slave, slaves, images, batches, &both, Mend::Unsaid);
        seen.push(one)?;
    }
    Ok(seen)
}

/// What a recovery makes of the slaves of a line, and of their image files.
#[derive(Drop)]
struct Redone {
    found: Plant,
    kept: Plant,
}

/// What a recovery with these live batches makes of the slaves of a line, and of their image files.
fn recover_both(
    alloc: Global,
    slaves: &[Words],
    images: &[Option<Words>],
    batches: &[Batch],
) -> Result<Redone, Fault>
    requires some { 1 ≤ length slaves.now }
    requires most { length slaves.now ≤ 64 }
    requires count { length images.now ≡ length slaves.now }
    requires within { AllByRecursion (IsWithin (map length slaves.now)) batches.now }
    ensures redone { IfOk result (λ both. AreRedone (live_runs batches.now) slaves.now images.now both.found both.kept) }
    ensures failed { IfErr result (λ fault. fault ≡ Memory) }
{
    let copies = copies_of(alloc, slaves)?;
    let own = kept_words(alloc, slaves, images)?;
    Ok(Redone {
        found: recovered(copies, batches),
        kept: recovered(own, batches),
    })
}

/// What a recovery with these live batches makes of slaves with these words.
pub(crate) fn recovered(words: Vec<Words>, batches: &[Batch]) -> Plant
    requires some { 1 ≤ length words.items }
    requires most { length words.items ≤ 64 }
    requires within { AllByRecursion (IsWithin (map length words.items)) batches.now }
    ensures plant { result ≡ redone words.items (live_runs batches.now) }
    ensures count { length result ≡ length words.items }
{
    let mut plant = Plant::of(words);
    redo_batches(&mut plant, batches);
    plant
}

/// Looks whether no slave is refused. `OtherWords` comes for the first one that is.
fn require_alike(
    slaves: &[Words],
    images: &[Option<Words>],
    batches: &[Batch],
    both: &Redone,
    mends: &Mends,
) -> Result<(), WireFault>
    requires count { length images.now ≡ length slaves.now }
    requires redone { AreRedone (live_runs batches.now) slaves.now images.now both.now.found both.now.kept }
    ensures passed { OnOk result (ArePassed mends.now (live_runs batches.now) slaves.now images.now (length slaves.now)) }
    ensures refused { IfErr result (IsRefusal mends.now batches.now slaves.now images.now) }
{
    for slave in 0..slaves.len() {
        match seen_of(slave, slaves, images, batches, both, said_of(mends, slave)) {
            Beside::Absent | Beside::Same => {}
            Beside::Differs { difference, reason } => {
                return Err(WireFault::OtherWords {
                    slave,
                    difference,
                    reason,
                });
            }
        }
    }
    Ok(())
}

/// What is said of a slave.
fn said_of(mends: &Mends, slave: usize) -> Mend
    ensures { result ≡ said_of mends.now slave }
{
    mends.get(slave).copied().unwrap_or(Mend::Unsaid)
}

/// What is seen of the slave at this place beside its image file, where this is said of it.
fn seen_of(
    slave: usize,
    slaves: &[Words],
    images: &[Option<Words>],
    batches: &[Batch],
    both: &Redone,
    mend: Mend,
) -> Beside
    requires inside { slave < length slaves.now }
    requires count { length images.now ≡ length slaves.now }
    requires redone { AreRedone (live_runs batches.now) slaves.now images.now both.now.found both.now.kept }
    ensures { IsSeen batches.now mend slaves.now images.now slave result }
{
    let Some(image) = &images[slave] else {
        return Beside::Absent;
    };
    let (found, kept) = (both.found.slave(slave), both.kept.slave(slave));
    match refused(&slaves[slave], image, found, kept, mend) {
        None => Beside::Same,
        Some(difference) => Beside::Differs {
            difference,
            reason: reason_of(slave, slaves, images, batches),
        },
    }
}

/// In what a slave differs from its image file, if that is refused, where a recovery makes `found` and `kept` of them.
fn refused(
    words: &Words,
    image: &Words,
    found: &Words,
    kept: &Words,
    mend: Mend,
) -> Option<Difference>
    ensures { result ≡ refusal_of mend words.now (Some image.now) found.now kept.now }
{
    if may_differ(mend, words, image) {
        return None;
    }
    if image.len() == words.len() {
        difference_between(found.as_slice(), kept.as_slice())
    } else {
        difference_between(words.as_slice(), image.as_slice())
    }
}

/// Whether what is said of a slave lets it differ from its image file.
fn may_differ(mend: Mend, words: &Words, image: &Words) -> bool
    ensures { result ≡ may_differ mend words.now image.now }
{
    let is_as_long = image.len() == words.len();
    match mend {
        Mend::Unsaid => false,
        Mend::Slave => true,
        Mend::File => is_as_long,
        Mend::Exchanged => is_as_long && is_same_type(words.identity(), image.identity()),
    }
}

/// The words of each image file, or those of its slave where it isn't there or has another number of them.
fn kept_words(
    alloc: Global,
    slaves: &[Words],
    images: &[Option<Words>],
) -> Result<Vec<Words>, AllocError>
    requires { length images.now ≡ length slaves.now }
    ensures sizes { IfOk result (λ kept. map length kept.items ≡ map length slaves.now) }
    ensures each { IfOk result (λ kept. KeepsEach slaves.now images.now kept.items) }
{
    let mut kept = Vec::new(alloc);
    for slave in 0..slaves.len() {
        let own = kept_of(&slaves[slave], &images[slave])?;
        kept.push(own)?;
    }
    Ok(kept)
}

/// The words of an image file, or those of its slave where it isn't there or has another number of them.
fn kept_of(words: &Words, image: &Option<Words>) -> Result<Words, AllocError>
    ensures size { IfOk result (λ own. length own ≡ length words.now) }
    ensures own { IfOk result (IsOwn words.now image.now) }
{
    match image {
        Some(image) if image.len() == words.len() => image.try_copy(),
        _ => words.try_copy(),
    }
}

/// What each image file of a line holds as the work begins, and the command for its slaves, where a recovery makes `found` of the slaves and `kept` of
/// their image files.
fn mended(
    alloc: Global,
    slaves: &[Words],
    found: &Plant,
    kept: &Plant,
    mends: &Mends,
) -> Result<Kept, Fault>
    requires most { length slaves.now ≤ 64 }
    requires found { length found.now ≡ length slaves.now }
    requires kept { length kept.now ≡ length slaves.now }
    ensures failed { IfErr result (λ fault. fault ≡ Memory) }
    ensures images { IfOk result (λ kept. length kept.images.items ≡ length slaves.now) }
    ensures commands { IfOk result (λ kept. AreMends mends.now kept.commands.items) }
    ensures all { IfOk result (λ begun. MendsAll mends.now slaves.now found.now kept.now begun.images.items begun.commands.items) }
{
    let mut images = Vec::new(alloc);
    let mut edits = Vec::new(alloc);
    for slave in 0..slaves.len() {
        let mend = said_of(mends, slave);
        let (has, own) = (found.slave(slave), kept.slave(slave));
        let words = wanted(&slaves[slave], has, own, mend)?;
        push_edit(&mut edits, written(alloc, slave, has, &words, mend)?)?;
        images.push(words)?;
    }
    Ok(Kept {
        images,
        commands: grouped(alloc, edits)?,
    })
}

/// Puts an edit behind these, if there is one.
fn push_edit(edits: &mut Vec<Edit>, edit: Option<Edit>) -> Result<(), AllocError>
    ensures { OnOk result (edits.new.items ≡ with_edit edits.old.items edit) }
{
    if let Some(edit) = edit {
        edits.push(edit)?;
    }
    Ok(())
}

/// One command with all these edits, if there are any: so that none of them is validated on slaves that the others have yet to mend.
fn grouped(alloc: Global, edits: Vec<Edit>) -> Result<Vec<Command>, AllocError>
    ensures { IfOk result (λ commands. commands.items ≡ together edits.items) }
{
    let mut commands = Vec::new(alloc);
    if !edits.is_empty() {
        commands.push(Command::Group(EditList::from_vec(edits)))?;
    }
    Ok(commands)
}

/// What the image file of a slave with these words holds as the work begins.
fn wanted(words: &Words, found: &Words, kept: &Words, mend: Mend) -> Result<Words, AllocError>
    ensures { IfOk result (λ image. image ≡ wanted_words words.now found.now kept.now mend) }
{
    match mend {
        Mend::Unsaid | Mend::Slave => words.try_copy(),
        Mend::File => kept.try_copy(),
        Mend::Exchanged => own_serial(found, kept),
    }
}

/// The words of an image file, with the serial number of its slave (ETG.1000.6: words 14 and 15).
fn own_serial(found: &Words, kept: &Words) -> Result<Words, AllocError>
    ensures { IfOk result (λ image. image ≡ with_serial found.now kept.now) }
{
    let mut image = kept.try_copy()?;
    if found.len() >= MIN_WORDS && image.len() >= MIN_WORDS {
        image.set(14, found.get(14));
        image.set(15, found.get(15));
    }
    Ok(image)
}

/// The edit that writes its image file to a slave of which a recovery makes `found`, if that is said and changes anything.
fn written(
    alloc: Global,
    slave: usize,
    found: &Words,
    image: &Words,
    mend: Mend,
) -> Result<Option<Edit>, AllocError>
    ensures { IfOk result (IsEditOf slave found.now image.now mend) }
{
    if !matches!(mend, Mend::File | Mend::Exchanged) {
        return Ok(None);
    }
    if difference_between(found.as_slice(), image.as_slice()).is_none() {
        return Ok(None);
    }
    let bytes = image.to_bytes()?;
    match (u16::try_from(slave), ImageFile::from_bytes(alloc, &bytes)) {
        (Ok(slave), Ok(image)) => Ok(Some(Edit::Image { slave, image })),
        (_, Err(_)) | (Err(_), _) => Err(AllocError),
    }
}
