//! Devices for the parts of a line.

use crate::device::Device;

/// A part of a line that has a site of its own, and a device.
#[derive(Clone, Copy)]
pub enum LinePart {
    /// The disk.
    Disk,
    /// The EEPROM half of the slave with this number.
    Slave(usize),
    /// The process halves of all slaves.
    Process,
}

/// A device of a whole line that lends each part a device of its own. What belongs to a part goes with the part's device, until that is taken back.
pub trait Lends: Device + Drop {
    /// What is told of the calls of a device.
    type Logged: Drop;

    /// This is told of what a device was asked since it was put behind its site.
    ghost tells: { Self → Self.Logged → Type 0 };

    /// Makes the device for a part of the line.
    fn lend(&mut self, part: LinePart) -> Self;

    /// Takes back what was lent, and tells what the lent device was asked.
    fn take_back(&mut self, lent: Self) -> Self::Logged
        ensures { tells lent result };

    /// Tells what the device was asked. It is then as one that has asked nothing yet.
    fn tell(&mut self) -> Self::Logged
        ensures { tells self.old result };
}
