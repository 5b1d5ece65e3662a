//! Taking the EEPROMs of a line's slaves and reading them, before there is a shadow to compare with.
ghost use Rattle.std.specs.Prelude.{◌≡◌, ◌<◌, ◌≤◌, true, length, slice_index, IfOk, OnOk, IsErr};
ghost use Rattle.std.specs.List.{All};
ghost use Rattle.wire_words.specs.Reading.{NothingReported, AllKept};
ghost use Rattle.wire_bringup.specs.Lines.{WordsCame, FoundCame, AllCame};

use crate::found::{FoundLine, FoundSlave, Sizes, SlaveState};
use crate::handing_back::hand_back;
use crate::looking::{LineStates, look_along, read_access};
use rom_steps::ACCESS;
use sii_words::Words;
use std::alloc::Global;
use std::rt::Clock;
use wire_frames::{LineFault, NumberedWire, SlaveFault, Stations, Wire, sight};
use wire_words::{
    Ahead, Hitch, Reader, Readers, SizeFound, measure, nothing_ahead, put, read_in_step,
    validate_size, words_at,
};

/// Takes the EEPROM from the PDI by force.
fn force<W: Wire>(wire: &mut NumberedWire<W>, slave: u16) -> Result<(), Hitch>
    requires slave { slave < 64 }
    requires allowed { wire.old.is_lent ≡ true → wire.old.is_forced ≡ true }
    ensures { wire.new.stations ≡ wire.old.stations }
{
    put(wire, slave, ACCESS, &[0x02])?;
    put(wire, slave, ACCESS, &[0x00])
}

/// Takes the EEPROM back that was offered to the PDI, unless that one has it and isn't to lose it.
fn ask_for<W: Wire>(wire: &mut NumberedWire<W>, slave: u16) -> Result<(), Hitch>
    requires { slave < 64 }
    ensures { wire.new.stations ≡ wire.old.stations }
{
    put(wire, slave, ACCESS, &[0x00])?;
    let access = read_access(wire, slave)?;
    let left = SlaveState {
        al_status: None,
        access,
    };
    if left.is_with_pdi() {
        return Err(Hitch::Held);
    }
    Ok(())
}

/// Takes the EEPROM, whether the slave is busy or not. On a wire that is lent nothing is done to take one that isn't the PDI's.
fn take<W: Wire>(wire: &mut NumberedWire<W>, slave: u16, state: SlaveState) -> Result<(), Hitch>
    requires { slave < 64 }
    ensures { wire.new.stations ≡ wire.old.stations }
{
    if !wire.is_lent() || (wire.is_forced() && !state.is_ours()) {
        force(wire, slave)
    } else if !state.is_ours() {
        ask_for(wire, slave)
    } else {
        Ok(())
    }
}

/// What is known of the slaves of a line before the turn of each comes.
#[derive(Drop)]
struct OpenedLine {
    states: [SlaveState; 64],
    /// Why an EEPROM can't be taken.
    hitches: [Option<Hitch>; 64],
    /// The readers, as they ended.
    readers: Readers,
    /// The words that they read.
    ahead: Ahead,
}

impl OpenedLine {
    /// Why a slave can't be worked on, as far as is known.
    fn hitch(&self, slave: u16) -> Option<Hitch>
        requires { slave < 64 }
    {
        self.hitches[usize::from(slave)].or(self.readers[usize::from(slave)].hitch())
    }
}

/// Takes the EEPROMs of so many slaves. Gives for each why that can't be done, if so.
fn take_all<W: Wire>(
    wire: &mut NumberedWire<W>,
    slaves: u16,
    states: &[SlaveState; 64],
) -> Result<[Option<Hitch>; 64], LineFault>
    requires { slaves ≤ 64 }
    ensures { OnOk result (wire.new.stations ≡ wire.old.stations) }
{
    let mut hitches = [None; 64];
    for slave in 0..slaves {
        match take(wire, slave, states[usize::from(slave)]) {
            Ok(()) => {}
            Err(Hitch::Silent) => return Err(LineFault::Silent),
            Err(hitch) => hitches[usize::from(slave)] = Some(hitch),
        }
    }
    Ok(hitches)
}

/// Readers of so many slaves whose EEPROMs were taken.
fn readers_of(
    stations: &Stations,
    slaves: u16,
    hitches: &[Option<Hitch>; 64],
    sizes: &Sizes,
) -> Readers
    requires { slaves ≤ 64 }
    ensures { All NothingReported result }
{
    let mut readers = [Reader::ended(); 64];
    for slave in 0..slaves {
        let hitch = hitches[usize::from(slave)];
        readers[usize::from(slave)] = reader_of(
            stations.of_slave(slave),
            hitch,
            sizes.of_slave(slave),
        );
    }
    readers
}

/// The reader of a slave, if its EEPROM was taken.
fn reader_of(station: u16, hitch: Option<Hitch>, given: Option<u16>) -> Reader
    ensures { NothingReported result }
{
    match hitch {
        Some(_) => Reader::ended(),
        None => Reader::of_slave(station, given),
    }
}

/// Takes the EEPROMs of so many slaves, and reads their words side by side, as far as each gives them.
fn open_line<W: Wire, C: Clock>(
    alloc: Global,
    wire: &mut NumberedWire<W>,
    clock: &C,
    slaves: u16,
    states: &[SlaveState; 64],
    sizes: &Sizes,
) -> Result<OpenedLine, LineFault>
    requires { slaves ≤ 64 }
    ensures same { OnOk result (wire.new.stations ≡ wire.old.stations) }
    ensures kept { IfOk result (λ opened. AllKept W.gives opened.ahead) }
{
    let hitches = take_all(wire, slaves, states)?;
    let mut ahead = nothing_ahead::<W>(alloc, slaves)?;
    let readers = readers_of(wire.stations(), slaves, &hitches, sizes);
    let readers = read_in_step(wire, clock, readers, &mut ahead)?;
    Ok(OpenedLine {
        states: *states,
        hitches,
        readers,
        ahead,
    })
}

/// Reads so many words of a slave, but for those that were read ahead.
fn read_words<W: Wire, C: Clock>(
    alloc: Global,
    wire: &mut NumberedWire<W>,
    clock: &C,
    slave: u16,
    words: u16,
    ahead: &Ahead,
) -> Result<Words, Hitch>
    requires slave { slave < 64 }
    requires words { words ≤ 4096 }
    requires kept { AllKept W.gives ahead.now }
    ensures same { wire.new.stations ≡ wire.old.stations }
    ensures read { IfOk result (WordsCame W.gives (slice_index wire.old.stations.by_slave slave)) }
{
    let mut bytes = Vec::new(alloc);
    let mut next = None;
    for place in 0..words / 2 {
        let read = words_at(wire, clock, slave, 2 * place, next, ahead)?;
        bytes.extend_from_slice(&read.pair)?;
        next = read.next;
    }
    match Words::from_bytes(alloc, &bytes) {
        Ok(words) => Ok(words),
        Err(_) => Err(Hitch::Memory),
    }
}

/// A slave that can't be worked on.
fn given_up<W: Wire>(
    wire: &mut NumberedWire<W>,
    slave: u16,
    state: SlaveState,
    size: Option<SizeFound>,
    hitch: Hitch,
) -> Result<FoundSlave, LineFault>
    ensures same { wire.new.stations ≡ wire.old.stations }
    ensures none { IfOk result (λ found. IsErr found.words) }
{
    match hitch {
        Hitch::Memory => Err(LineFault::Memory),
        Hitch::Silent => Err(LineFault::Silent),
        Hitch::Held => Ok(FoundSlave {
            state,
            size,
            words: Err(SlaveFault::Held),
        }),
        Hitch::Stuck(last) => Ok(FoundSlave {
            state,
            size,
            words: Err(SlaveFault::Dead(sight(wire, slave, last))),
        }),
    }
}

/// Finds how large the EEPROM of a slave is that was taken, and reads its words.
fn find_slave<W: Wire, C: Clock>(
    alloc: Global,
    wire: &mut NumberedWire<W>,
    clock: &C,
    slave: u16,
    sizes: &Sizes,
    opened: &OpenedLine,
) -> Result<FoundSlave, LineFault>
    requires slave { slave < 64 }
    requires kept { AllKept W.gives opened.now.ahead }
    ensures same { wire.new.stations ≡ wire.old.stations }
    ensures words { IfOk result (FoundCame W.gives (slice_index wire.old.stations.by_slave slave)) }
{
    let state = opened.states[usize::from(slave)];
    if let Some(hitch) = opened.hitch(slave) {
        return given_up(wire, slave, state, None, hitch);
    }
    let measured = match measure(wire, clock, slave, &opened.ahead) {
        Ok(measured) => measured,
        Err(hitch) => return given_up(wire, slave, state, None, hitch),
    };
    let size = match validate_size(measured, sizes.of_slave(slave), sizes.is_trusted) {
        Ok(size) => size,
        Err(fault) => {
            return Ok(FoundSlave {
                state,
                size: None,
                words: Err(fault),
            });
        }
    };
    match read_words(alloc, wire, clock, slave, size.words, &opened.ahead) {
        Ok(words) => Ok(FoundSlave {
            state,
            size: Some(size),
            words: Ok(words),
        }),
        Err(hitch) => given_up(wire, slave, state, Some(size), hitch),
    }
}

/// So many slaves, as they are found.
fn find_slaves<W: Wire, C: Clock>(
    alloc: Global,
    wire: &mut NumberedWire<W>,
    clock: &C,
    slaves: u16,
    states: &[SlaveState; 64],
    sizes: &Sizes,
) -> Result<Vec<FoundSlave>, LineFault>
    requires { slaves ≤ 64 }
    ensures count { IfOk result (λ found. length found.items ≡ slaves) }
    ensures same { OnOk result (wire.new.stations ≡ wire.old.stations) }
    ensures words { IfOk result (λ found. AllCame W.gives wire.old.stations.by_slave 0 found.items) }
{
    let opened = open_line(alloc, wire, clock, slaves, states, sizes)?;
    let mut found = Vec::new(alloc);
    for slave in 0..slaves {
        found.push(find_slave(alloc, wire, clock, slave, sizes, &opened)?)?;
    }
    Ok(found)
}

/// Brings up a line (ETG.1000.4): counts its slaves, ends addressing by alias, gives each its station address, looks what it is in, takes
/// its EEPROM from the PDI, finds how large that is, and reads its words. The words of all slaves are read side by side, by frames with a
/// datagram for each slave. What a slave doesn't give so is read by frames of one datagram. A read gives two words, and four where the slave
/// shows that it loads eight bytes (bit 6 of control and status); its words count once none of their first four bytes is the one that was put
/// there before. Gives the slaves in the order of the line. Each whose words were read is idle then, with bits 13 and 14 of control and status
/// clear.
///
/// On a wire that is lent the slaves keep their addresses, also those by alias, their AL states aren't read, and a frame has as many datagrams
/// for slaves as the wire has room for (`Room`). An EEPROM that its PDI has is taken by force only where that is allowed, and else it is one that
/// can't be worked on.
///
/// A command that a slave doesn't acknowledge is tried again for half a second, its error cleared before. Polls of busy slaves have pauses.
/// Slaves that are busy yet once no slave has got further in 10,000 frames are given up, all at once. Nothing is written to an EEPROM.
///
/// # Errors
///
/// `Silent` where a frame doesn't come back; `NoSlaves` and `TooManySlaves` where the line hasn't 1 to 64 slaves; `Memory`. On a wire that is
/// lent: `Unaddressed` and `SharedAddress` where a slave has no station address of its own, and `Slave` for the first one whose address can't
/// be read. The EEPROMs are handed back then. Of a slave that can't be worked on the others are found all the same.
pub fn bring_up<W: Wire, C: Clock>(
    alloc: Global,
    wire: &mut NumberedWire<W>,
    clock: &C,
    sizes: &Sizes,
) -> Result<FoundLine, LineFault>
    ensures some { IfOk result (λ line. 1 ≤ length line.slaves.items) }
    ensures most { IfOk result (λ line. length line.slaves.items ≤ 64) }
    ensures words { IfOk result (λ line. AllCame W.gives wire.new.stations.by_slave 0 line.slaves.items) }
{
    let LineStates { slaves, states } = look_along(wire)?;
    match find_slaves(alloc, wire, clock, slaves, &states, sizes) {
        Ok(slaves) => Ok(FoundLine { slaves }),
        Err(fault) => {
            hand_back(wire, &states);
            Err(fault)
        }
    }
}
