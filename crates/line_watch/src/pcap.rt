//! The bytes of a capture file: each EtherCAT frame in an Ethernet frame, as a record.
ghost use Rattle.std.specs.Prelude.{◌≡◌, ◌+◌, ◌-◌, ◌≤◌, ◌++◌, [], ◌∷◌, length};
ghost use Rattle.std.specs.List.{repeat};
ghost use Rattle.arrayvec.specs.ArrayVec.{array_vec_len};
ghost use Rattle.line_watch.specs.Ethernet.{header, packet};
ghost use Rattle.line_watch.specs.Pcap.{file_header, record_bytes};

use arrayvec::ArrayVec;
use ecat_frame::MAX_LEN;

/// How many bytes a capture file begins with.
pub(crate) const BEGIN: usize = 24;

/// How many bytes stand before an EtherCAT frame: destination, source and EtherType.
const BEFORE: usize = 14;

/// The fewest bytes of an Ethernet frame, without its check sequence.
const SHORTEST: usize = 60;

/// The most of them.
const PACKET: usize = BEFORE + MAX_LEN;

/// The most bytes of a record: 16 before the packet, and the longest packet.
pub(crate) const LONGEST: usize = 16 + PACKET;

const ZEROS: [u8; SHORTEST] = [0; SHORTEST];

/// Which way a frame went.
#[derive(Clone, Copy)]
pub enum Way {
    /// To the slaves.
    Out,
    /// Back from them.
    Back,
}

/// What a capture file begins with.
pub(crate) fn file_header() -> [u8; BEGIN]
    ensures { result ≡ file_header }
{
    [
        0x4d, 0x3c, 0xb2, 0xa1, 2, 0, 4, 0, 0, 0, 0, 0, 0, 0, 0, 0, 0xea, 0x05, 0, 0, 1, 0, 0, 0,
    ]
}

/// The record of a frame with these bytes, 1,500 at most, that went this way so many seconds and nanoseconds after the beginning of 1970.
pub(crate) fn record_of(seconds: u32, nanos: u32, way: Way, frame: &[u8]) -> ArrayVec<u8, LONGEST>
    requires { length frame.now ≤ MAX_LEN }
    ensures { result.items ≡ record_bytes seconds nanos (packet way frame.now) }
{
    let packet = packet_of(way, frame);
    let length = packet.len() as u32;
    let mut bytes = ArrayVec::new();
    put(&mut bytes, &seconds.to_le_bytes());
    put(&mut bytes, &nanos.to_le_bytes());
    put(&mut bytes, &length.to_le_bytes());
    put(&mut bytes, &length.to_le_bytes());
    put(&mut bytes, packet.as_slice());
    bytes
}

/// The Ethernet frame of an EtherCAT frame with these bytes, that goes this way.
fn packet_of(way: Way, frame: &[u8]) -> ArrayVec<u8, PACKET>
    requires { length frame.now ≤ MAX_LEN }
    ensures { result.items ≡ packet way frame.now }
{
    let mut bytes = ArrayVec::new();
    put(&mut bytes, &header(way));
    put(&mut bytes, frame);
    let after = padding(bytes.len());
    put(&mut bytes, after);
    bytes
}

/// What stands before an EtherCAT frame that went this way.
fn header(way: Way) -> [u8; BEFORE]
    ensures { result ≡ header way }
{
    let mark = match way {
        Way::Out => 0x00,
        Way::Back => 0x02,
    };
    [
        0xff, 0xff, 0xff, 0xff, 0xff, 0xff, mark, 0x10, 0x20, 0x30, 0x40, 0x50, 0x88, 0xa4,
    ]
}

/// Appends bytes, for which there must be room.
fn put<const N: usize>(bytes: &mut ArrayVec<u8, N>, part: &[u8])
    requires { array_vec_len bytes.old + length part.now ≤ N }
    ensures { bytes.new.items ≡ bytes.old.items ++ part.now }
{
    match bytes.try_extend_from_slice(part) {
        Ok(()) => {}
        Err(_) => unreachable!(),
    }
}

/// The zeros after an Ethernet frame of which there are so many bytes.
fn padding(count: usize) -> &'static [u8]
    ensures zeros { result.now ≡ repeat (60 - count) (0 ∷ []) }
    ensures length { length result.now ≡ 60 - count }
{
    &ZEROS[..SHORTEST.saturating_sub(count)]
}
