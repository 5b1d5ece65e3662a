ghost use Rattle.std.specs.Prelude.{◌≡◌, ◌+◌, ◌<◌, ◌^◌, All, length, IfOk, IfErr, IsTrue};
ghost use Rattle.sii_edit.specs.Fitting.{IsWord, WordsFit, PlantFits};
ghost use Rattle.book_model.specs.Entries.{entries_of};
ghost use Rattle.esc_rom.specs.Owned.{OwnsAll};
ghost use Rattle.station_alone.specs.Station.{station, Stands};
ghost use Rattle.station_alone.specs.Opening.{CountsFound, FailsToOpen, OpensCounted, ReadsFound};

use crate::fault::OpenFault;
use book_core::Core;
use esc_rom::{line_sizes, read_slaves};
use jrn_format::{Batch, Journal};
use sii_words::{Plant, Words};
use site_core::Site;
use site_journal::read_journal;
use std::alloc::Global;

/// What was live in the journal when a station was opened on it.
#[derive(Clone, Copy)]
pub struct Found {
    /// Number of live batches.
    pub batches: u64,
    /// Number of commands in these batches.
    pub commands: u64,
}

/// What was read at the open: the length of the journal's area in bytes, the journal, and the words of all slaves.
struct Reading {
    capacity: u32,
    journal: Journal,
    words: Vec<Words>,
}

/// The words have 16 bits.
fn words_fit(words: &[u16])
    ensures { All IsWord words.now }
{}

/// The words of a slave have 16 bits, and their number too.
fn slave_fits(words: &Words)
    ensures { WordsFit words.now }
{
    let _count = words.len();
    words_fit(words.as_slice());
}

/// This holds of each slave of a line.
fn plant_fits(plant: &Plant)
    ensures { PlantFits plant.now }
{
    for slave in 0..plant.len() {
        slave_fits(plant.slave(slave));
    }
}

/// Counts the batches and their commands.
fn count_found(batches: &[Batch]) -> Found
    requires { length batches.now + length (entries_of batches.now) < 2 ^ 64 }
    ensures batches { result.batches ≡ length batches.now }
    ensures commands { result.commands ≡ length (entries_of batches.now) }
{
    let mut commands = 0;
    for batch in batches {
        commands += batch.entries.as_slice().len() as u64;
    }
    Found {
        batches: batches.len() as u64,
        commands,
    }
}

/// Reads the journal from the disk, and then the words of the slaves.
fn read_found<S: Site>(alloc: Global, site: &mut S) -> Result<Reading, OpenFault>
    requires disk { IsTrue (S.line site.old).has_disk }
    requires slaves { OwnsAll (S.line site.old) }
    ensures reads { IfOk result (λ reading. ReadsFound (S.line site.old) (S.seen site.old) reading (S.seen site.new)) }
    ensures fails { IfErr result (λ fault. FailsToOpen (S.line site.old) (S.seen site.old) fault (S.line site.new) (S.seen site.new)) }
    ensures line { S.line site.new ≡ S.line site.old }
{
    let sizes = line_sizes(alloc, site)?;
    let (capacity, journal) = read_journal(alloc, site, &sizes)?;
    let words = read_slaves(alloc, site)?;
    Ok(Reading {
        capacity,
        journal,
        words,
    })
}

/// Reads the disk and the slaves, and opens a book on what they hold.
pub(crate) fn open_core<S: Site>(alloc: Global, site: &mut S) -> Result<(Core, Found), OpenFault>
    requires disk { IsTrue (S.line site.old).has_disk }
    requires slaves { OwnsAll (S.line site.old) }
    ensures opens { IfOk result
        (λ opened. OpensCounted (S.line site.old) (S.seen site.old) (station opened.0 (S.line site.new) (S.seen site.new)) opened.1) }
    ensures stands { IfOk result (λ opened. Stands (station opened.0 (S.line site.new) (S.seen site.new))) }
    ensures fails { IfErr result (λ fault. FailsToOpen (S.line site.old) (S.seen site.old) fault (S.line site.new) (S.seen site.new)) }
{
    let reading = read_found(alloc, site)?;
    let Reading {
        capacity,
        journal,
        words,
    } = reading;
    let found = count_found(journal.batches.as_slice());
    let core = Core::open(alloc, words, capacity, journal)?;
    plant_fits(core.contents());
    Ok((core, found))
}
