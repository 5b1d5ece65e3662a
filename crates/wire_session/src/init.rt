//! The subcommand `init`.
ghost use Rattle.std.specs.Prelude.{◌≡◌, IfErr, OnOk, ⊤};
ghost use Rattle.station_line.specs.Init.{Formats};
ghost use Rattle.wire_session.specs.Recovery.{BeginsJournal, IsBegun, RefusesInit};

use station_files::{Fault, MOST_OF_JOURNAL, Store, load_line, load_slaves, read_file};
use station_line::init_line;
use std::alloc::Global;
use std::io::Write;
use std::rt::Clock;
use wire_bringup::{bring_up, hand_back};
use wire_faults::WireFault;
use wire_frames::{NumberedWire, Wire};
use wire_scan::{ScanOptions, require_empty, sizes_of_images, validate_slaves};

/// Makes an empty journal for the line on this wire, whose line file is `name`, and prints the size of its area. The line file has to name
/// as many image files as the line has slaves, and these have to be there, as a backup leaves them; they keep their words. The journal's file
/// must not exist yet. No word of a slave is written. Each slave has the size of its image file, and its EEPROM is handed back.
///
/// # Errors
///
/// As for `load_line` and `sizes_of_images`; as for `bring_up` and `validate_slaves`. Nothing is written up to there.
/// Then as for `station_line::init_line`.
#[tactic(auto, using(crate::proofs::Recovering::formats_after, crate::proofs::Recovering::refuses_after, crate::proofs::Recovering::refuses_early))]
pub fn init_on_wire<R: Clock + AllocGlobal, W: Wire, S: Store, O: Write>(
    rt: &R,
    wire: &mut NumberedWire<W>,
    name: &str,
    asked: ScanOptions,
    store: &mut S,
    output: &mut O,
) -> Result<(), WireFault>
    ensures formatted { OnOk result (Formats ⊤ (S.files store.old) (S.files store.new) name.now) }
    ensures refused { IfErr result (RefusesInit (S.files store.old) (S.files store.new) S.leads name.now) }
{
    match validate_line(rt, wire, name, asked, store) {
        Ok(()) => match init_line(rt.alloc(), name, store, output) {
            Ok(()) => Ok(()),
            Err(fault) => Err(WireFault::Station(fault)),
        },
        Err(fault) => Err(fault),
    }
}

/// Makes an empty journal for the line whose line file is `name`, and prints the size of its area. An empty journal of the line that is there
/// stays as it is, and nothing is printed. The image files have to be there; they keep their words.
///
/// # Errors
///
/// As for `station_line::init_line`, but `Exists` only where `require_empty` doesn't take the journal that is there; `NotAFile` and `TooLong`
/// for one that isn't read.
#[tactic(auto, using(crate::proofs::Recovering::begun_before, crate::proofs::Recovering::refused_before))]
pub fn begin_journal<S: Store, O: Write>(
    alloc: Global,
    name: &str,
    store: &mut S,
    output: &mut O,
) -> Result<(), WireFault>
    ensures begun { OnOk result (BeginsJournal (S.files store.old) (S.files store.new) name.now) }
    ensures refused { IfErr result (RefusesInit (S.files store.old) (S.files store.new) S.leads name.now) }
{
    match init_line(alloc, name, store, output) {
        Ok(()) => Ok(()),
        Err(Fault::Exists) => validate_begun(alloc, name, store),
        Err(fault) => Err(WireFault::Station(fault)),
    }
}

/// Looks whether the journal that is there is an empty one of the line whose line file is `name`.
fn validate_begun<S: Store>(alloc: Global, name: &str, store: &mut S) -> Result<(), WireFault>
    ensures begun { OnOk result (IsBegun (S.files store.old) name.now) }
    ensures same { S.files store.new ≡ S.files store.old }
{
    let line = load_line(alloc, name, store)?;
    let slaves = load_slaves(alloc, &line, store)?;
    let journal = read_file(alloc, line.journal.as_str(), MOST_OF_JOURNAL, store)?;
    require_empty(alloc, &journal, &slaves)?;
    Ok(())
}

/// Looks whether the line on this wire has as many slaves as the line file names. No file changes.
fn validate_line<R: Clock + AllocGlobal, W: Wire, S: Store>(
    rt: &R,
    wire: &mut NumberedWire<W>,
    name: &str,
    asked: ScanOptions,
    store: &mut S,
) -> Result<(), WireFault>
    ensures { S.files store.new ≡ S.files store.old }
{
    let line = load_line(rt.alloc(), name, store)?;
    let sizes = sizes_of_images(rt.alloc(), &line.images, asked.trusts_images, store)?;
    let found = bring_up(rt.alloc(), wire, rt, &sizes)?;
    hand_back(wire, &found.states());
    let _slaves = validate_slaves(rt.alloc(), found, line.images.len())?;
    Ok(())
}
