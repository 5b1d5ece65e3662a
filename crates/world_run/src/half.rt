//! The EEPROM half of one slave in a world: between datagrams it is idle, or a word is in flight.
ghost use Rattle.std.specs.Prelude.{◌≡◌, ◌++◌, ◌<◌, ◌↔◌, IsTrue};
ghost use Rattle.std.specs.Int.{w16, w32, to_le_bytes};
ghost use Rattle.esc_model.specs.SlaveHalf.{in_flight, MayRest, MayStop};
ghost use Rattle.esc_model.specs.WordAccess.{IsAt, IsIdle, IsWell, TakesWord};
ghost use Rattle.world_run.specs.Left.{torn_half, ended_half};
ghost use Rattle.world_run.specs.Sides.{StandsAt, HandsTo};

use ecat_frame::{Command, fp};
use esc_model::{Rest, RomHalf, station_address};
use rom_steps::{CONTROL, write_content};

/// From this value on, the high byte of the control and status register shows an error (bit 13 or 14) or a busy slave (bit 15).
const NOT_WELL: u8 = 0x20;

/// How a word in flight ends.
#[derive(Clone, Copy)]
pub enum WordEnd {
    /// The word holds its value.
    Well,
    /// Bit 13 of the control and status register is set, and the word holds `left`.
    Failed { left: u16 },
}

/// An idle half takes the datagram that writes this value to this word.
fn hand_word(half: &mut RomHalf, slave: u16, word: u16, value: u16)
    requires near { slave < 64 }
    requires here { IsAt slave half.old }
    requires idle { IsIdle half.old }
    ensures { TakesWord slave word value half.old half.new }
{
    let mut content = write_content(word, value);
    let address = fp(station_address(slave), CONTROL);
    let _counted = half.take(Command::Fpwr, address, &mut content);
}

/// Issues a word to a half, which takes it if `takes` says so and the half is idle. Returns whether it took it.
pub(crate) fn issue(half: &mut RomHalf, slave: u16, takes: bool, word: u16, value: u16) -> bool
    requires near { slave < 64 }
    requires stands { StandsAt slave half.old }
    ensures { HandsTo slave takes word value half.old result half.new }
{
    if !takes || half.in_flight().is_some() {
        return false;
    }
    hand_word(half, slave, word, value);
    true
}

/// Whether an idle half shows bits 13 and 14 clear. A poll leaves it as it is.
fn shows_well(half: &mut RomHalf, slave: u16) -> bool
    requires near { slave < 64 }
    requires here { IsAt slave half.old }
    requires idle { IsIdle half.old }
    ensures well { IsTrue result ↔ IsWell half.old }
    ensures same { half.new ≡ half.old }
{
    let mut content = [0u8, 0];
    let address = fp(station_address(slave), CONTROL);
    let _counted = half.take(Command::Fprd, address, &mut content);
    content[1] < NOT_WELL
}

/// Whether a half is idle.
pub(crate) fn is_idle(half: &RomHalf, slave: u16) -> bool
    requires { StandsAt slave half.now }
    ensures { IsTrue result ↔ IsIdle half.now }
{
    half.in_flight().is_none()
}

/// Whether a half is idle with bits 13 and 14 clear.
pub(crate) fn is_well(half: &mut RomHalf, slave: u16) -> bool
    requires near { slave < 64 }
    requires stands { StandsAt slave half.old }
    ensures well { IsTrue result ↔ IsWell half.old }
    ensures same { half.new ≡ half.old }
{
    if !is_idle(half, slave) {
        return false;
    }
    shows_well(half, slave)
}

/// Ends the word in flight, if there is one.
pub(crate) fn end_word(half: &mut RomHalf, end: WordEnd)
    ensures exact { half.new ≡ ended_half end (in_flight half.old.activity) half.old }
    ensures rests { MayRest half.old half.new }
{
    match end {
        WordEnd::Well => half.rest(Rest::Well),
        WordEnd::Failed { left } => half.rest(Rest::Failed(left)),
    }
}

/// A power cut leaves `left` in the word in flight. Without either, nothing changes.
pub(crate) fn tear_word(half: &mut RomHalf, left: Option<u16>)
    ensures exact { half.new ≡ torn_half left (in_flight half.old.activity) half.old }
    ensures stops { MayStop half.old half.new }
{
    if let Some(left) = left {
        half.rest(Rest::Torn(left));
    }
}
