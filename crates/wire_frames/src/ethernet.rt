//! EtherCAT frames in Ethernet frames.

use crate::wire::Wire;
use ecat_frame::MAX_LEN;
use std::io;
use std::io::{Read, Write};

/// How many bytes stand before an EtherCAT frame: destination, source and EtherType.
const BEFORE: usize = 14;

/// To all, from an address of our own, EtherType 0x88A4 (ETG.1000.4).
const HEADER: [u8; BEFORE] = [
    0xff, 0xff, 0xff, 0xff, 0xff, 0xff, 0x00, 0x10, 0x20, 0x30, 0x40, 0x50, 0x88, 0xa4,
];

/// The fewest bytes of an Ethernet frame, without its check sequence.
const SHORTEST: usize = 60;

/// The most bytes of an Ethernet frame, without its check sequence.
const LONGEST: usize = BEFORE + MAX_LEN;

/// A wire of which each read gives one Ethernet frame, and each write sends one, as of a raw socket. A read that waits too long is
/// to end in an error.
#[derive(Drop)]
pub struct EthernetWire<R, W> {
    input: R,
    output: W,
}

impl<R: Read, W: Write> EthernetWire<R, W> {
    /// The wire that is read and written by these two.
    pub fn new(input: R, output: W) -> EthernetWire<R, W> {
        EthernetWire { input, output }
    }
}

/// The EtherCAT frame in an Ethernet frame, with what pads it. Nothing where that has another EtherType.
fn frame_in(packet: &[u8]) -> &[u8] {
    if packet.len() < BEFORE || packet[12] != HEADER[12] || packet[13] != HEADER[13] {
        return &[];
    }
    &packet[BEFORE..]
}

impl<R: Read, W: Write> Wire for EthernetWire<R, W> {
    ghost gives = { λ _. Unit {0} };

    fn send(&mut self, frame: &[u8]) -> io::Result<()> {
        if frame.len() > MAX_LEN {
            return Err(io::Error::other("the frame is too long"));
        }
        let mut packet = [0u8; LONGEST];
        let end = BEFORE + frame.len();
        packet[..BEFORE].copy_from_slice(&HEADER);
        packet[BEFORE..end].copy_from_slice(frame);
        let length = end.max(SHORTEST);
        if self.output.write(&packet[..length])? < length {
            return Err(io::Error::other("the frame was sent in part"));
        }
        Ok(())
    }

    fn receive(&mut self, bytes: &mut [u8]) -> io::Result<usize> {
        let mut packet = [0u8; LONGEST];
        let count = self.input.read(&mut packet)?;
        let frame = frame_in(&packet[..count]);
        let length = frame.len().min(bytes.len());
        bytes[..length].copy_from_slice(&frame[..length]);
        Ok(length)
    }
}
