//! Writing into the bytes of a frame.

ghost use Rattle.std.specs.Prelude.{◌≡◌, ◌+◌, ◌-◌, ◌≤◌, ◌++◌, false, length, take, drop, slice_index, slice_set, bit_or};
ghost use Rattle.std.specs.Int.{w16, to_le_bytes};
ghost use Rattle.arrayvec.specs.ArrayVec.{array_vec_len};
ghost use Rattle.ecat_frame.specs.Frame.{pdu, Fits, spelled_datagram, header_word};

use crate::datagram::Datagram;
use arrayvec::ArrayVec;

/// The greatest length of a frame, in bytes: what one Ethernet frame carries.
pub const MAX_LEN: usize = 1500;

/// The bytes of a datagram besides its content: ten before it, and the two of its working counter.
pub(crate) const OVERHEAD: usize = 12;

/// Bit 7 of a length word's high byte: another datagram follows.
const MORE: u8 = 0x80;

/// Appends bytes, for which there must be room.
pub(crate) fn put(bytes: &mut ArrayVec<u8, MAX_LEN>, part: &[u8])
    requires { array_vec_len bytes.old + length part.now ≤ MAX_LEN }
    ensures { bytes.new.items ≡ bytes.old.items ++ part.now }
{
    match bytes.try_extend_from_slice(part) {
        Ok(()) => {}
        Err(_) => unreachable!(),
    }
}

/// Overwrites the bytes from `at` on.
pub(crate) fn overwrite(bytes: &mut ArrayVec<u8, MAX_LEN>, at: usize, part: &[u8])
    requires { at + length part.now ≤ array_vec_len bytes.old }
    ensures { bytes.new.items
        ≡ take at bytes.old.items ++ part.now ++ drop (at + length part.now) bytes.old.items }
{
    bytes.as_mut_slice()[at..at + part.len()].copy_from_slice(part);
}

/// Appends a datagram as the last one, with bit 15 of its length word and its IRQ word clear.
pub(crate) fn put_datagram(bytes: &mut ArrayVec<u8, MAX_LEN>, datagram: Datagram<'_>)
    requires { array_vec_len bytes.old + 12 + length datagram.content.now ≤ MAX_LEN }
    ensures written { bytes.new.items ≡ bytes.old.items ++ spelled_datagram (pdu datagram.entry) false }
    ensures fits { Fits (pdu datagram.entry) }
{
    let [a, b, c, d] = datagram.address.to_le_bytes();
    let [low, high] = (datagram.content.len() as u16).to_le_bytes();
    let command = datagram.command.code();
    put(
        bytes,
        &[command, datagram.index, a, b, c, d, low, high, 0, 0],
    );
    put(bytes, datagram.content);
    put(bytes, &datagram.counter.to_le_bytes());
}

/// Sets bit 15 of the length word of the datagram that begins at `at`, if there is one: another follows.
pub(crate) fn promise_more(bytes: &mut ArrayVec<u8, MAX_LEN>, at: usize)
    requires { at ≤ MAX_LEN }
    ensures { let high = slice_index bytes.old.items (at + 7)
        in bytes.new.items ≡ slice_set bytes.old.items (at + 7) (bit_or high 128) }
{
    if let Some(high) = bytes.get_mut(at + 7) {
        *high |= MORE;
    }
}

/// Writes the header, with the length of the bytes after it.
pub(crate) fn state_length(bytes: &mut ArrayVec<u8, MAX_LEN>)
    requires { 2 ≤ array_vec_len bytes.old }
    ensures { let stated = array_vec_len bytes.old - 2
        in bytes.new.items ≡ to_le_bytes w16 (header_word stated 0 1) ++ drop 2 bytes.old.items }
{
    let header = 0x1000 | (bytes.len() - 2) as u16;
    overwrite(bytes, 0, &header.to_le_bytes());
}
