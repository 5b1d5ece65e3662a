//! How much room a frame has for datagrams.
ghost use Rattle.std.specs.Prelude.{◌≡◌, ◌⊎◌, ◌↔◌, length, IsTrue};
ghost use Rattle.wire_frames.specs.Room.{HasRoom};

use ecat_frame::Frame;

/// The bytes that a frame has for datagrams: 1,500, less its header of two and the twelve of its number.
pub const FRAME_BYTES: u16 = 1486;

/// How many datagrams for slaves a frame may have, and how many bytes they may take, each with its header of ten bytes and its working counter of
/// two (ETG.1000.4). The number of the frame isn't counted. A datagram that is alone may be of any length.
#[derive(Clone, Copy)]
pub struct Room {
    /// How many datagrams.
    pub datagrams: u16,
    /// How many bytes.
    pub bytes: u16,
}

impl Room {
    /// A datagram for each of 64 slaves, as far as they fit a frame.
    pub fn entire() -> Room {
        Room {
            datagrams: 64,
            bytes: FRAME_BYTES,
        }
    }

    /// One datagram.
    pub fn one() -> Room
        ensures { result.datagrams ≡ 1 }
    {
        Room {
            datagrams: 1,
            bytes: FRAME_BYTES,
        }
    }

    /// Whether a datagram with so many bytes of content may stand behind those of this frame.
    pub fn takes(self, frame: &Frame, content: u16) -> bool
        ensures { IsTrue result ↔ ((length frame.now ≡ 0) ⊎ HasRoom self content frame.now) }
    {
        let count = frame.count();
        let size = frame.as_bytes().len() + usize::from(content) + 10;
        count == 0 || (count < usize::from(self.datagrams) && size <= usize::from(self.bytes))
    }
}
