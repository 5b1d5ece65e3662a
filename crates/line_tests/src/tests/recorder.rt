//! A site that records the bytes of each frame, loses some, and hands the others on to a site in memory.

ghost use Rattle.std.specs.Prelude.{◌≡◌};

use ecat_frame::Frame;
use site_core::{DeviceFault, Site};
use site_mem::MemSite;
use std::alloc::Global;

pub(super) struct Recorder {
    pub(super) site: MemSite,
    // The bytes of all frames, one frame after another.
    sent: Vec<u8>,
    // Whether memory was refused for none of them.
    is_complete: bool,
    // How many frames pass, and how many are lost then.
    passing: u32,
    losing: u32,
}

impl Recorder {
    pub(super) fn of(alloc: Global, site: MemSite, passing: u32, losing: u32) -> Recorder {
        Recorder {
            site,
            sent: Vec::new(alloc),
            is_complete: true,
            passing,
            losing,
        }
    }

    // Plans for the next frame to be lost, if it is to be.
    fn plan(&mut self)
        ensures { self.new.site ≡ self.old.site }
    {
        if self.passing > 0 {
            self.passing -= 1;
        } else if self.losing > 0 {
            self.losing -= 1;
            self.site.fail_once(0);
        }
    }

    // Records a frame that is to be sent.
    fn note(&mut self, frame: &Frame)
        ensures { self.new.site ≡ self.old.site }
    {
        let recorded = self.sent.extend_from_slice(frame.as_bytes());
        self.is_complete &= recorded.is_ok();
        self.plan();
    }

    // Whether these bytes were sent, and no others.
    pub(super) fn has_sent(&self, pieces: &[&[u8]]) -> bool {
        let mut left = self.sent.as_slice();
        for piece in pieces {
            match left.strip_prefix(*piece) {
                Some(rest) => left = rest,
                None => return false,
            }
        }
        left.is_empty() && self.is_complete
    }

    // Lets go of the recorder, and of its site.
    pub(super) fn end(self) {
        let Recorder {
            site,
            sent,
            is_complete: _,
            passing: _,
            losing: _,
        } = self;
        drop(sent);
        drop(site.into_parts());
    }
}

impl Site for Recorder {
    ghost line = { λ r. r.site.line };

    ghost seen = { λ r. r.site.seen };

    fn slaves(&self) -> u16 {
        self.site.slaves()
    }

    fn words_of(&self, slave: u16) -> u16 {
        self.site.words_of(slave)
    }

    fn has_disk(&self) -> bool {
        self.site.has_disk()
    }

    fn owns(&self, slave: u16) -> bool {
        self.site.owns(slave)
    }

    fn has_process(&self) -> bool {
        self.site.has_process()
    }

    fn disk_len(&mut self) -> Result<usize, DeviceFault> {
        self.site.disk_len()
    }

    fn disk_read(&mut self, at: usize, bytes: &mut [u8]) -> Result<(), DeviceFault> {
        self.site.disk_read(at, bytes)
    }

    fn disk_write(&mut self, at: usize, bytes: &[u8]) -> Result<(), DeviceFault> {
        self.site.disk_write(at, bytes)
    }

    fn disk_sync(&mut self) -> Result<(), DeviceFault> {
        self.site.disk_sync()
    }

    fn exchange(&mut self, slave: u16, frame: &mut Frame) -> Result<(), DeviceFault> {
        self.note(frame);
        self.site.exchange(slave, frame)
    }

    fn cycle(&mut self, frame: &mut Frame) -> Result<(), DeviceFault> {
        self.note(frame);
        self.site.cycle(frame)
    }
}
