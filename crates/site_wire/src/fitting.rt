//! Which datagrams go to a slave.
ghost use Rattle.std.specs.Prelude.{◌≡◌, ◌≤◌, ◌%◌, ◌↔◌, ◌∷◌, [], length, slice_index, IsTrue, IfSome};
ghost use Rattle.ecat_frame.specs.Frame.{pdu};
ghost use Rattle.site_wire.specs.Due.{IsFit, NamesInside, WritesControl, begins_work, is_command};
ghost use Rattle.wire_frames.specs.Sending.{IsForEeprom};
ghost use Rattle.site_wire.specs.Known.{IsKnown};
ghost use Rattle.esc_model.specs.Bytes.{double_word_at};
ghost use Rattle.esc_model.specs.SlaveHalf.{is_busy};

use ecat_frame::{Datagram, Frame};
use esc_model::RomHalf;
use rom_steps::{ACCESS, CONTENT, CONTROL};
use wire_frames::{FPRD, FPWR, register_of};

/// Whether a busy slave takes nothing of the datagram: it writes to control and status or after them.
pub(crate) fn waits_for_rest(datagram: Datagram<'_>) -> bool
    ensures { IsTrue result ↔ WritesControl (pdu datagram.entry) }
{
    let end = register_of(datagram.address) + datagram.content.len();
    datagram.command.code() == FPWR && end > usize::from(CONTROL)
}

/// Whether a slave that takes the datagram is busy then: it writes a command other than 000 to control and status.
pub(crate) fn begins_work(datagram: Datagram<'_>) -> bool
    ensures { result ≡ begins_work (pdu datagram.entry) }
{
    let high = match datagram.content.get(1) {
        Some(high) => *high,
        None => 0,
    };
    is_command(datagram) && high % 8 != 0
}

/// Whether the half is busy, and takes nothing of the datagram.
pub(crate) fn is_ignored(half: &RomHalf, datagram: Datagram<'_>) -> bool
    ensures { IsTrue result ↔ (IsTrue (is_busy half.now.activity) × WritesControl (pdu datagram.entry)) }
{
    half.is_at_work() && waits_for_rest(datagram)
}

/// Whether the datagram has a command for the EEPROM: it writes both bytes of control and status.
fn is_command(datagram: Datagram<'_>) -> bool
    ensures { result ≡ is_command (pdu datagram.entry) }
{
    let register = register_of(datagram.address);
    datagram.command.code() == FPWR
        && register <= usize::from(CONTROL)
        && register + datagram.content.len() >= usize::from(CONTROL) + 2
}

/// Whether the datagram reads or writes registers of the EEPROM of one slave: 0x0500 to 0x050F.
pub(crate) fn is_for_eeprom(datagram: Datagram<'_>) -> bool
    ensures { IsTrue result ↔ IsForEeprom (pdu datagram.entry) }
{
    let code = datagram.command.code();
    let register = register_of(datagram.address);
    (code == FPRD || code == FPWR)
        && register >= usize::from(ACCESS)
        && register + datagram.content.len() <= usize::from(ACCESS) + 16
}

/// The datagram of a frame that has just one.
pub(crate) fn only_datagram(frame: &Frame) -> Option<Datagram<'_>>
    ensures { IfSome result (λ datagram. frame.now ≡ pdu datagram ∷ []) }
{
    if frame.count() != 1 {
        return None;
    }
    Some(frame.datagram(0))
}

/// Whether the datagram, which is fit, tells of the slave only what its shadow knows, so that it needn't be sent: no word is in flight, and it
/// is the command to read words, or a read of the data register, or, while the half reads, of any.
pub(crate) fn is_known(half: &RomHalf, datagram: Datagram<'_>) -> bool
    ensures { IsTrue result ↔ IsKnown half.now (pdu datagram.entry) }
{
    if half.in_flight().is_some() {
        return false;
    }
    if datagram.command.code() == FPRD {
        return half.is_at_work() || register_of(datagram.address) >= usize::from(CONTENT);
    }
    is_command(datagram) && is_read_command(datagram.content)
}

/// Whether these bytes, from control and status on, are the command to read words.
fn is_read_command(content: &[u8]) -> bool
    ensures { IsTrue result ↔ (2 ≤ length content.now) × (slice_index content.now 1 % 8 ≡ 1) }
{
    match content {
        [_, command, ..] => command % 8 == 1,
        _ => false,
    }
}

/// Whether the datagram may go to the slave of this half. If it has a command, that begins at control and status, is one of 000, 001 and 010,
/// and has the number of the word and its value with it; the slave has that word, and of a read the next one.
pub(crate) fn is_fit(half: &RomHalf, datagram: Datagram<'_>) -> bool
    ensures { IsTrue result ↔ IsFit half.now (pdu datagram.entry) }
{
    !is_command(datagram)
        || (register_of(datagram.address) == usize::from(CONTROL)
            && is_named(half, datagram.content))
}

/// Whether these bytes, from control and status on, are a command that names words of this half, if it names any.
fn is_named(half: &RomHalf, content: &[u8]) -> bool
    ensures { IsTrue result ↔ NamesInside half.now content.now }
{
    if content.len() < 2 {
        return false;
    }
    match content[1] % 8 {
        0 => true,
        1 => content.len() >= 6 && word_in(content) + 1 < half.words().len(),
        2 => content.len() >= 8 && word_in(content) < half.words().len(),
        _ => false,
    }
}

/// The number of the word in the bytes of a command, from control and status on.
fn word_in(content: &[u8]) -> usize
    requires { 6 ≤ length content.now }
    ensures { result ≡ double_word_at content.now 2 }
{
    u32::from_le_bytes([content[2], content[3], content[4], content[5]]) as usize
}
