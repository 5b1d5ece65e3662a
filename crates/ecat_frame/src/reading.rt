//! Reading a frame's header, and the datagram at the front of its bytes.

ghost use Rattle.std.specs.Prelude.{◌≡◌, ◌+◌, ◌-◌, ◌≤◌, IfOk, IfErr, IfSome, IfNone, length};
ghost use Rattle.ecat_frame.specs.Fault.{NoDatagram, IsFaultOf};
ghost use Rattle.ecat_frame.specs.Reading.{TakesDatagram, HasInside};

use crate::command::Command;
use crate::datagram::Datagram;
use crate::fault::FrameFault;

/// The type of a frame that holds datagrams: bits 12 to 15 of its header.
const TYPE: u16 = 1;

/// The greatest length that a header may state, in bytes.
const MAX_INSIDE: usize = 1498;

/// Bits 0 to 10 of the header and of a datagram's length word: the length, in bytes.
const LENGTH: u16 = 0x07ff;

/// Bit 15 of a datagram's length word: another datagram follows.
const MORE: u16 = 0x8000;

/// The bytes inside the stated length, after the header.
pub(crate) fn inside_of(bytes: &[u8]) -> Result<&[u8], FrameFault>
    ensures ok { IfOk result (λ inside. HasInside bytes.now inside.now) }
    ensures err { IfErr result (IsFaultOf bytes.now) }
{
    let [low, high, after @ ..] = bytes else {
        return Err(FrameFault::BadFrame { at: 0 });
    };
    let header = u16::from_le_bytes([*low, *high]);
    if header >> 12 != TYPE {
        return Err(FrameFault::BadFrame { at: 1 });
    }
    let stated = (header & LENGTH) as usize;
    if stated > MAX_INSIDE || stated > after.len() {
        return Err(FrameFault::BadFrame { at: 0 });
    }
    Ok(&after[..stated])
}

/// The fault at the first byte of `rest`, the end of the bytes inside the stated length.
pub(crate) fn fault_at(inside: &[u8], rest: &[u8]) -> FrameFault
    requires { length rest.now ≤ length inside.now }
    ensures { result ≡ FrameFault.BadFrame (2 + length inside.now - length rest.now) }
{
    FrameFault::BadFrame {
        at: 2 + inside.len() - rest.len(),
    }
}

/// The datagram at the front, whether another follows it, and the bytes after it. None if it is cut off.
pub(crate) fn first_datagram(bytes: &[u8]) -> Option<(Datagram<'_>, bool, &[u8])>
    ensures entire { IfSome result (λ taken. TakesDatagram bytes.now taken.0 taken.1 taken.2.now) }
    ensures none { IfNone result (NoDatagram bytes.now) }
{
    let [command, index, a, b, c, d, low, high, _, _, after @ ..] = bytes else {
        return None;
    };
    let word = u16::from_le_bytes([*low, *high]);
    let length = (word & LENGTH) as usize;
    if after.len() < length + 2 {
        return None;
    }
    let (content, after) = after.split_at(length);
    let (counter, rest) = after.split_at(2);
    let datagram = Datagram {
        command: Command::from(*command),
        index: *index,
        address: u32::from_le_bytes([*a, *b, *c, *d]),
        content,
        counter: u16::from_le_bytes([counter[0], counter[1]]),
    };
    Some((datagram, word & MORE != 0, rest))
}
