//! A device whose work is counted.
ghost use Rattle.std.specs.Prelude.{◌≡◌, ◌++◌, ℕ, List, length, Some};
ghost use Rattle.jrn_format.specs.Batch.{PayloadFits, spelt_after};
ghost use Rattle.jrn_format.specs.declared.journal.Entry.{Entry};

use crate::progress::Progress;
use ecat_frame::Frame;
use esc_model::RomHalf;
use jrn_format::{AREA_START, OPEN, Spelling};
use site_shadow::{Device, Lends, LinePart, Passing, Pattern, Resting};
use std::io::Write;
use std::rt::Clock;
use std::sync::atomic::Ordering::SeqCst;

/// A device, and the progress for which its work counts, if there is one. It answers each call as the device does.
///
/// A command is durable once the gate of its batch is opened and synced. A slave is busy from the datagram that starts a write to the moment
/// its word is written. The line is drawn after a word or a sync, and never after a frame of process data, which is to wait for no terminal.
#[derive(Drop)]
pub struct Watched<'p, D, T, R> {
    device: D,
    progress: Option<&'p Progress<T>>,
    rt: &'p R,
    /// How many commands the batch has that was written last and isn't live yet.
    appended: u16,
    /// Whether its gate was opened, and the journal wasn't synced since.
    is_open: bool,
}

/// How many commands a batch has, whose bytes after its gate begin so: bytes 5 and 6, after the generation and the payload's length. None
/// where there are fewer bytes.
fn commands_in(bytes: &[u8]) -> Option<u16>
    ensures { (generation : ℕ) (entries : List Entry) (rest : List ℕ) → PayloadFits entries
        → bytes.now ≡ spelt_after Spelling.WithGeneration generation entries ++ rest → result ≡ Some (length entries) }
{
    match bytes {
        [_, _, _, _, _, low, high, ..] => Some(u16::from_le_bytes([*low, *high])),
        _ => None,
    }
}

impl<'p, D, T: Write, R: Clock> Watched<'p, D, T, R> {
    /// Makes the device whose work counts for this progress.
    pub fn new(device: D, progress: Option<&'p Progress<T>>, rt: &'p R) -> Watched<'p, D, T, R> {
        Watched {
            device,
            progress,
            rt,
            appended: 0,
            is_open: false,
        }
    }

    /// The device whose work counts.
    pub fn device(&self) -> &D
        ensures { result.now ≡ self.now.device }
    {
        &self.device
    }

    /// The device whose work was counted.
    pub fn into_device(self) -> D
        ensures { result ≡ self.entry.device }
    {
        self.device
    }

    /// Something was written to the journal from `at` on: a gate, a batch or a header.
    fn note_write(&mut self, at: usize, bytes: &[u8])
        ensures { self.new.device ≡ self.old.device }
    {
        if at < AREA_START {
            return;
        }
        match commands_in(bytes) {
            Some(commands) => self.appended = commands,
            None => self.is_open = bytes == [OPEN].as_slice(),
        }
    }

    /// The journal was synced.
    fn note_sync(&mut self, progress: &Progress<T>)
        ensures { self.new.device ≡ self.old.device }
    {
        if self.is_open {
            progress
                .counts
                .durable
                .fetch_add(u64::from(self.appended), SeqCst);
            self.appended = 0;
            self.is_open = false;
        }
        progress.look(self.rt);
    }
}

impl<'p, D: Device, T: Write, R: Clock> Device for Watched<'p, D, T, R> {
    ghost follows = { λ watched. D.follows watched.device };

    ghost well = { λ watched. D.well watched.device };

    fn begin(&mut self, is_new: bool) {
        self.device.begin(is_new)
    }

    fn len(&mut self, length: usize) -> Passing {
        self.device.len(length)
    }

    fn read(&mut self, at: usize, held: &[u8]) -> Passing {
        self.device.read(at, held)
    }

    fn write(&mut self, at: usize, bytes: &[u8]) -> Passing {
        self.note_write(at, bytes);
        self.device.write(at, bytes)
    }

    fn sync(&mut self) -> Passing {
        let passing = self.device.sync();
        if let (Some(progress), Passing::Passes) = (self.progress, passing) {
            self.note_sync(progress);
        }
        passing
    }

    fn exchange(&mut self, slave: usize, half: &RomHalf, frame: &Frame) -> Passing {
        self.device.exchange(slave, half, frame)
    }

    fn rest(&mut self, slave: usize, half: &RomHalf, frame: &Frame, k: usize) -> Resting {
        let resting = self.device.rest(slave, half, frame, k);
        let word = half.in_flight();
        if let (Some(progress), Some(_), Resting::Well) = (self.progress, word, resting) {
            progress.counts.words.fetch_add(1, SeqCst);
            progress.set_busy(slave, false);
            progress.look(self.rt);
        }
        resting
    }

    fn taken(
        &mut self,
        slave: usize,
        half: &RomHalf,
        answer: &Frame,
        k: usize,
        added: u16,
    ) -> Option<Pattern> {
        if let Some(progress) = self.progress {
            progress.set_busy(slave, half.in_flight().is_some());
        }
        self.device.taken(slave, half, answer, k, added)
    }

    fn cycle(&mut self, frame: &Frame) -> Passing {
        self.device.cycle(frame)
    }

    fn is_well(&self) -> bool {
        self.device.is_well()
    }

    ghost goes_on = { λ watched. D.goes_on watched.device };
}

/// The device inside lends and takes back. What is lent counts for the same progress.
impl<'p, D: Lends, T: Write, R: Clock> Lends for Watched<'p, D, T, R> {
    /// What is reported of the device inside.
    type Logged = D::Logged;

    ghost tells = { λ watched. D.tells watched.device };

    fn lend(&mut self, part: LinePart) -> Self {
        Watched::new(self.device.lend(part), self.progress, self.rt)
    }

    fn take_back(&mut self, lent: Self) -> D::Logged {
        let Watched { device, .. } = lent;
        self.device.take_back(device)
    }

    fn tell(&mut self) -> D::Logged {
        self.device.tell()
    }
}
