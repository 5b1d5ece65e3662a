ghost use Rattle.std.specs.Prelude.{◌↔◌, ◌≡◌, false};
ghost use Rattle.std.specs.List.{AllByRecursion};
ghost use Rattle.site_core.specs.Disk.{IsOutside};
ghost use Rattle.world_run.specs.Left.{HoldsLeft};

use std::marker::Model;

/// The value chosen for a byte of the disk that may hold anything.
#[derive(Clone, Copy)]
pub struct LeftByte {
    /// The byte's place on the disk, from 0.
    pub at: usize,
    /// Its value.
    pub byte: u8,
}

/// The value chosen for a word in flight.
#[derive(Clone, Copy)]
pub struct LeftWord {
    /// The slave of the word, numbered from 0.
    pub slave: u16,
    /// The value that the word is left with.
    pub word: u16,
}

/// A range of bytes that was written.
#[derive(Drop)]
pub(crate) struct Stretch {
    pub(crate) start: usize,
    pub(crate) count: usize,
}

impl Model for Stretch {
    ghost use Rattle.site_core.specs.Disk.{Range};

    ghost Value = { Range };

    ghost view = { λ s. record { start = s.start; count = s.count } };
}

impl Stretch {
    fn contains(&self, at: usize) -> bool
        ensures { (result ≡ false) ↔ IsOutside at self.now }
    {
        at >= self.start && at - self.start < self.count
    }
}

/// Whether the byte lies in one of the ranges.
fn is_open(ranges: &[Stretch], at: usize) -> bool
    ensures { (result ≡ false) ↔ AllByRecursion (IsOutside at) ranges.now }
{
    for range in ranges {
        if range.contains(at) {
            return true;
        }
    }
    false
}

/// Gives each byte in the ranges the value that is chosen for it. Other choices are ignored.
pub(crate) fn leave(bytes: &mut [u8], ranges: &[Stretch], choice: &[LeftByte])
    ensures { HoldsLeft ranges.now choice.now bytes.old bytes.new }
{
    for left in choice {
        if left.at < bytes.len() && is_open(ranges, left.at) {
            bytes[left.at] = left.byte;
        }
    }
}
