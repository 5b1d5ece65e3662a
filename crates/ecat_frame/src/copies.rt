//! Copies of frames and of their datagrams.

ghost use Rattle.std.specs.Prelude.{◌≡◌, ◌+◌, ◌≤◌, ◌<◌, take, length, slice_get, Some, IfSome, IfNone};
ghost use Rattle.ecat_frame.specs.Frame.{Pdu, spelling};
ghost use Rattle.ecat_frame.specs.Copies.{IsCopyOf, IsOnly, IsShort};

use crate::bytes::MAX_LEN;
use crate::command::Command;
use crate::frame::Frame;

/// A datagram without its content (ETG.1000.4).
#[derive(Clone, Copy)]
pub struct DatagramHeader {
    /// What the slaves are to do.
    pub command: Command,
    /// A logical address, or ADP in the low 16 bits and ADO in the high 16.
    pub address: u32,
    /// The working counter.
    pub counter: u16,
    /// The length of the content, in bytes.
    pub count: usize,
}

/// A copy of the only datagram of a frame.
#[derive(Clone, Copy)]
pub struct OnlyDatagram {
    /// All but the content.
    pub header: DatagramHeader,
    /// The content, at the front.
    pub content: [u8; 16],
}

/// A copy of a frame.
pub fn copy_of(frame: &Frame) -> Frame
    ensures { result ≡ frame.now }
{
    match Frame::parse(frame.as_bytes()) {
        Ok(copy) => copy,
        Err(_) => unreachable!(),
    }
}

/// Copies the content of the datagram at index `k`, which must be below `count`, to the front of `buffer`, and returns the rest of the
/// datagram.
pub fn copy_content(frame: &Frame, k: usize, buffer: &mut [u8; MAX_LEN]) -> DatagramHeader
    requires { k < length frame.now }
    ensures { IsCopyOf frame.now k result buffer.new }
{
    let _fits = frame.as_bytes();
    let datagram = frame.datagram(k);
    let count = datagram.content.len();
    buffer[..count].copy_from_slice(datagram.content);
    DatagramHeader {
        command: datagram.command,
        address: datagram.address,
        counter: datagram.counter,
        count,
    }
}

/// A copy of the only datagram of a frame. None if there are more, or its content is longer than 16 bytes.
pub fn only_short(frame: &Frame) -> Option<OnlyDatagram>
    ensures only { IfSome result (λ only. IsOnly frame.now only.header only.content) }
    ensures none { IfNone result (¬ IsShort frame.now) }
{
    if frame.count() != 1 {
        return None;
    }
    let datagram = frame.datagram(0);
    let count = datagram.content.len();
    if count > 16 {
        return None;
    }
    let mut content = [0u8; 16];
    content[..count].copy_from_slice(datagram.content);
    let header = DatagramHeader {
        command: datagram.command,
        address: datagram.address,
        counter: datagram.counter,
        count,
    };
    Some(OnlyDatagram { header, content })
}
