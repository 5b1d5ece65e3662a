//! The subcommand `backup`.
ghost use Rattle.std.specs.Prelude.{◌≡◌, ◌⊎◌, length, map, string_bytes, vec_len, IfErr, OnOk};
ghost use Rattle.std.specs.List.{AllZip};
ghost use Rattle.station_files.specs.Faults.{IsOfStream};
ghost use Rattle.station_files.specs.FileNames.{IsLineSeparate, spelt};
ghost use Rattle.station_files.specs.Files.{ChangesAmong, ChangesOnly, HasBytes, IsAbsent};
ghost use Rattle.station_files.specs.LineFiles.{SpellsWords, names_of};
ghost use Rattle.wire_scan.specs.Backup.{AreDistinct, Backs, HasNoPast, IsBackedUp, IsPlanned, KeepsAll, MayStay};

use crate::plan::{Plan, is_there, plan_backup, validate_images, validate_journal_file};
use sii_words::Words;
use station_files::{Fault, Store};
use std::alloc::Global;
use std::io::{self, Write};
use std::rt::Clock;
use wire_bringup::{FoundLine, Sizes, bring_up, hand_back};
use wire_faults::WireFault;
use wire_frames::{LineFault, NumberedWire, Wire};
use wire_words::{Extent, SizeFound};

/// Brings up the line on this wire, and writes the words of each slave to its image file. The line file `name` says which that is. Where
/// it isn't there it is written too, after the image files, and then names `STEM-s0.bin`, `STEM-s1.bin` and so on, and `STEM-journal.bin`,
/// where `STEM` is its name without `.toml`. An image file that is there with its slave's words counts as written. So a backup that failed, or
/// was cut, can be repeated while the slaves keep their words. No word of a slave is written, and the EEPROMs are handed back. Prints a line
/// for each slave whose word 0x3E tells another size than the one that it is backed up with.
///
/// No file that is there already changes, whatever happens. No journal is written. One that is there is of this line, and has nothing left to
/// do.
///
/// # Errors
///
/// As for `bring_up`; for the first slave, `Line` where it can't be worked on, and `UnknownSize` where its size can't be found and isn't among
/// the given ones; as for `load_line` and `keep_line_separate`; `OtherCount` where the line file names another number of slaves; `Exists` for the
/// first image file that is there with other words, and then for a journal that is there and is that of another number of slaves, or damaged,
/// or has live batches. Nothing is written up to there. Then `File` or `Memory`, as the store answers.
#[tactic(auto, using(crate::proofs::Kept::unchanged, crate::proofs::Kept::unchanged_at))]
pub fn backup_line<R: Clock + AllocGlobal, W: Wire, S: Store, O: Write>(
    rt: &R,
    wire: &mut NumberedWire<W>,
    sizes: &Sizes,
    name: &str,
    store: &mut S,
    output: &mut O,
) -> Result<(), WireFault>
    ensures { Backs result (S.files store.old) (S.files store.new) name.now }
{
    let found = bring_up(rt.alloc(), wire, rt, sizes)?;
    hand_back(wire, &found.states());
    validate_measures(&found, sizes)?;
    print_measures(&found, output)?;
    let slaves = found.into_words(rt.alloc())?;
    save_backup(rt.alloc(), name, &slaves, store)
}

/// Writes the files of a backup of slaves with these words, as `backup_line` does, if what is there of them may stay.
///
/// # Errors
///
/// As for `backup_line`, after those of the line.
#[tactic(auto, using(crate::proofs::Kept::unchanged, crate::proofs::Kept::unchanged_at))]
pub fn save_backup<S: Store>(
    alloc: Global,
    name: &str,
    slaves: &[Words],
    store: &mut S,
) -> Result<(), WireFault>
    ensures { Backs result (S.files store.old) (S.files store.new) name.now }
{
    let plan = plan_backup(alloc, name, slaves.len(), store)?;
    validate_images(alloc, &plan.line.images, slaves, store)?;
    validate_journal_file(alloc, plan.line.journal.as_str(), slaves, store)?;
    match write_plan(name, &plan, slaves, store) {
        Ok(()) => Ok(()),
        Err(fault) => Err(WireFault::Station(fault)),
    }
}

/// Writes the files of a plan that aren't there: the image files, and then the line file, if it has a text.
fn write_plan<S: Store>(
    name: &str,
    plan: &Plan,
    slaves: &[Words],
    store: &mut S,
) -> Result<(), Fault>
    requires count { vec_len plan.now.line.images ≡ length slaves.now }
    requires planned { IsPlanned (S.files store.old) name.now plan.now.line plan.now.text }
    requires separate { IsLineSeparate S.leads plan.now.line name.now }
    requires images { AllZip (MayStay (S.files store.old)) (names_of plan.now.line) slaves.now }
    requires journal { HasNoPast (S.files store.old) (string_bytes plan.now.line.journal) (map length slaves.now) }
    ensures kept { KeepsAll (S.files store.old) (S.files store.new) }
    ensures done { OnOk result (IsBackedUp (S.files store.new) name.now) }
    ensures failed { IfErr result IsOfStream }
{
    match write_images(&plan.line.images, slaves, store) {
        Ok(()) => {}
        Err(fault) => return Err(fault),
    }
    match &plan.text {
        Some(text) => write_missing(name, text.as_bytes(), store),
        None => Ok(()),
    }
}

/// Writes the words of each slave to its image file, where it isn't there.
fn write_images<S: Store>(images: &[String], slaves: &[Words], store: &mut S) -> Result<(), Fault>
    requires count { length images.now ≡ length slaves.now }
    requires distinct { AreDistinct images.now }
    requires may_stay { AllZip (MayStay (S.files store.old)) (spelt images.now) slaves.now }
    ensures kept { KeepsAll (S.files store.old) (S.files store.new) }
    ensures written { OnOk result (AllZip (SpellsWords (S.files store.new)) (spelt images.now) slaves.now) }
    ensures others { ChangesAmong (S.files store.old) (S.files store.new) (spelt images.now) }
    ensures failed { IfErr result IsOfStream }
{
    for slave in 0..images.len() {
        let bytes = slaves[slave].to_bytes()?;
        write_missing(images[slave].as_str(), &bytes, store)?;
    }
    Ok(())
}

/// Writes a file, where it isn't there.
#[tactic(auto, using(crate::proofs::Kept::kept_by_one, crate::proofs::Kept::kept_same))]
pub(crate) fn write_missing<S: Store>(name: &str, bytes: &[u8], store: &mut S) -> Result<(), Fault>
    ensures kept { KeepsAll (S.files store.old) (S.files store.new) }
    ensures written { OnOk result (IsAbsent (S.files store.old) name.now ⊎ HasBytes (S.files store.old) name.now bytes.now
        → HasBytes (S.files store.new) name.now bytes.now) }
    ensures others { ChangesOnly (S.files store.old) (S.files store.new) name.now }
    ensures failed { IfErr result IsOfStream }
{
    if !is_there(name, store)? {
        store.write(name, bytes)?;
    }
    Ok(())
}

/// Looks whether each slave can be worked on, and has a size that can be found or was given.
///
/// # Errors
///
/// For the first slave: `Line` where it can't be worked on, and `UnknownSize` where its words are all alike, and its word 0x3E tells another
/// size than the words that would be backed up.
pub fn validate_measures(found: &FoundLine, sizes: &Sizes) -> Result<(), WireFault> {
    for (slave, each) in (0u16..).zip(&found.slaves) {
        if let Err(why) = each.words {
            return Err(WireFault::Line(LineFault::Slave { slave, why }));
        }
        let place = usize::from(slave);
        let is_given = sizes.given.get(place).copied().flatten().is_some();
        match each.size {
            Some(size) if !is_given && is_unknown(size) => {
                return Err(WireFault::UnknownSize {
                    slave: place,
                    says: size.says,
                });
            }
            _ => {}
        }
    }
    Ok(())
}

/// Whether nothing tells how large the EEPROM is.
fn is_unknown(size: SizeFound) -> bool {
    size.extent == Extent::Uniform && size.says != u32::from(size.words)
}

/// Prints a line for each slave whose EEPROM is worked on with another size than its word 0x3E tells.
pub(crate) fn print_measures<O: Write>(found: &FoundLine, output: &mut O) -> io::Result<()> {
    for (slave, each) in found.slaves.iter().enumerate() {
        match each.size {
            Some(size) if size.says != u32::from(size.words) => {
                let (words, says) = (size.words, size.says);
                let larger = if size.is_larger { " larger" } else { "" };
                writeln!(output, "slave {slave} words {words} says {says}{larger}")?;
            }
            _ => {}
        }
    }
    output.flush()
}
