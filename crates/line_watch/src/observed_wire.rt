//! A wire whose frames are written down and counted.
ghost use Rattle.std.specs.Prelude.{◌≡◌, ◌≤◌, length, take};

use crate::capture::Capture;
use crate::pcap::Way;
use crate::progress::Progress;
use ecat_frame::{Command, Datagram, Frame, MAX_LEN};
use sii_words::{MAX_SLAVES, MAX_WORDS};
use site_file::RandomAccessFile;
use std::io::{self, Write};
use std::rt::Clock;
use std::sync::Wait;
use std::sync::atomic::Ordering::SeqCst;
use wire_frames::Wire;

/// The register of control and status of an EEPROM (ETG.1000.4).
const CONTROL: u32 = 0x0502;

/// The word that tells the size of an EEPROM in KiBit, less one (ETG.1000.6, slave information interface).
const SIZE: u16 = 0x3e;

/// What was seen of the slave with this station address.
#[derive(Clone, Copy, Default)]
struct SeenSlave {
    station: u16,
    /// How many of its words were read, from word 0 on.
    read: u16,
    /// Where it was told to read last.
    at: u16,
    /// How many words it has by its word 0x3E; 0 until that was read.
    size: u16,
    /// How many words it is to write still, as far as that is known.
    left: u32,
}

/// A wire, the capture in which its frames are written down, and the progress for which they count, if there are these. It answers each call as
/// the wire does.
///
/// A frame is written down once it is sent, and as one is received, so the capture has what a tap on the wire sees: each sending of a frame
/// that is sent again, and each EtherCAT frame that comes, also one that is late, falsified or of somebody else. A frame that can't be sent
/// isn't written down.
///
/// A slave is busy from the command to read or write a word to the poll that shows it idle. A word that is written again counts again, and one that
/// is read again doesn't. The words behind the size that word 0x3E tells don't count.
#[derive(Drop)]
pub struct ObservedWire<'o, W, F, T, R> {
    wire: W,
    capture: Option<&'o Capture<F>>,
    progress: Option<&'o Progress<T>>,
    rt: &'o R,
    /// The slaves that were told a command or polled, in that order.
    slaves: [SeenSlave; MAX_SLAVES],
    /// How many there are.
    reported: usize,
    /// Whether a slave was told to write a word.
    is_writing: bool,
}

/// So many of these bytes, from the first on, or all of them if there are fewer.
fn front_of(bytes: &[u8], count: usize) -> &[u8]
    ensures front { result.now ≡ take count bytes.now }
    ensures most { length result.now ≤ count }
{
    &bytes[..count.min(bytes.len())]
}

/// The frame of so many bytes at the front of these, up to its 1,500th byte.
fn frame_in(bytes: &[u8], count: usize) -> &[u8]
    ensures frame { result.now ≡ take count (take MAX_LEN bytes.now) }
    ensures fits { length result.now ≤ MAX_LEN }
{
    front_of(front_of(bytes, MAX_LEN), count)
}

impl<'o, W, F, T, R> ObservedWire<'o, W, F, T, R> {
    /// Makes the wire whose frames are written down in this capture, and count for this progress.
    pub fn new(
        wire: W,
        capture: Option<&'o Capture<F>>,
        progress: Option<&'o Progress<T>>,
        rt: &'o R,
    ) -> ObservedWire<'o, W, F, T, R> {
        ObservedWire {
            wire,
            capture,
            progress,
            rt,
            slaves: [SeenSlave::default(); MAX_SLAVES],
            reported: 0,
            is_writing: false,
        }
    }
}

impl<W: Wire, F: RandomAccessFile + Drop, T: Write, R: Wait + Clock> ObservedWire<'_, W, F, T, R> {
    /// Writes down the frame of so many bytes at the front of these.
    fn write_down(&self, way: Way, bytes: &[u8], count: usize) {
        if let Some(capture) = self.capture {
            capture.note(self.rt, way, frame_in(bytes, count));
        }
    }

    /// The place of a slave among those that were seen.
    fn place_of(&mut self, progress: &Progress<T>, station: u16) -> usize {
        let mut seen = self.slaves.iter().take(self.reported);
        if let Some(place) = seen.position(|slave| slave.station == station) {
            return place;
        }
        let place = self.reported;
        if let Some(slave) = self.slaves.get_mut(place) {
            slave.station = station;
            self.reported = place + 1;
            progress.counts.slaves.fetch_add(1, SeqCst);
        }
        place
    }

    /// A slave is told to read from this word on. It has read those before it.
    fn note_reading(&mut self, progress: &Progress<T>, place: usize, word: u16) {
        let Some(slave) = self.slaves.get_mut(place) else {
            return;
        };
        slave.at = word;
        let read = match slave.size {
            0 => word,
            size => word.min(size),
        };
        if read <= slave.read {
            return;
        }
        let more = u64::from(read - slave.read);
        progress.counts.read.fetch_add(more, SeqCst);
        slave.read = read;
        if read == slave.size && !self.is_writing {
            progress.counts.done.fetch_add(1, SeqCst);
        }
    }

    /// A slave shows these bytes behind control and status: the number of a word, and words from there on.
    fn note_words(&mut self, progress: &Progress<T>, place: usize, shown: &[u8]) {
        let Some(slave) = self.slaves.get_mut(place) else {
            return;
        };
        if slave.size > 0 || slave.at > SIZE {
            return;
        }
        let behind = 4 + 2 * usize::from(SIZE - slave.at);
        if let Some([low, high]) = shown.get(behind..behind + 2) {
            let said = 64 * (usize::from(u16::from_le_bytes([*low, *high])) + 1);
            let size = said.min(MAX_WORDS);
            slave.size = size as u16;
            progress.counts.to_read.fetch_add(size as u64, SeqCst);
        }
    }

    /// A slave is told to write a word.
    fn note_writing(&mut self, progress: &Progress<T>, place: usize) {
        progress.counts.words.fetch_add(1, SeqCst);
        if !self.is_writing {
            self.is_writing = true;
            self.begin_writing(progress);
        }
        match self.slaves.get_mut(place) {
            Some(slave) if slave.left > 0 => {
                slave.left -= 1;
                if slave.left == 0 {
                    progress.counts.done.fetch_add(1, SeqCst);
                }
            }
            _ => {}
        }
    }

    /// Notes how many words each slave is to write, if that is known. The slaves were seen in the order of the line.
    fn begin_writing(&mut self, progress: &Progress<T>) {
        let expected = progress.expected(self.rt);
        let (mut slaves, mut words) = (0u64, 0u64);
        for (slave, left) in self.slaves.iter_mut().zip(expected) {
            slave.left = left;
            slaves = slaves.saturating_add(u64::from(left > 0));
            words = words.saturating_add(u64::from(left));
        }
        progress.begin_writing(slaves, words);
    }

    /// Counts what a datagram says of a slave's words, as it goes or comes back: words are to be read, or one written; or the slave is idle, and
    /// shows words.
    fn count(&mut self, progress: &Progress<T>, way: Way, datagram: Datagram<'_>) {
        let register = datagram.address / 65536;
        let station = (datagram.address % 65536) as u16;
        match (way, datagram.command, register, datagram.content) {
            (Way::Out, Command::Fpwr, CONTROL, [_, command, low, high, _, _, ..]) => {
                let place = self.place_of(progress, station);
                match command % 8 {
                    1 => self.note_reading(progress, place, u16::from_le_bytes([*low, *high])),
                    2 => self.note_writing(progress, place),
                    _ => return,
                }
                progress.set_busy(place, true);
            }
            (Way::Back, Command::Fprd, CONTROL, [_, status, shown @ ..])
                if datagram.counter == 1 && *status < 0x80 => {
                let place = self.place_of(progress, station);
                progress.set_busy(place, false);
                self.note_words(progress, place, shown);
            }
            _ => {}
        }
    }

    /// Counts what a frame says, as it goes or comes.
    fn count_frame(&mut self, way: Way, bytes: &[u8]) {
        let Some(progress) = self.progress else {
            return;
        };
        if let Ok(frame) = Frame::parse(bytes) {
            for datagram in frame.datagrams() {
                self.count(progress, way, datagram);
            }
        }
        progress.look(self.rt);
    }
}

impl<'o, W: Wire, F: RandomAccessFile + Drop, T: Write, R: Wait + Clock> Wire
    for ObservedWire<'o, W, F, T, R> {
    ghost gives = { W.gives };

    fn send(&mut self, frame: &[u8]) -> io::Result<()> {
        self.count_frame(Way::Out, frame);
        self.wire.send(frame)?;
        self.write_down(Way::Out, frame, frame.len());
        Ok(())
    }

    /// What isn't an EtherCAT frame, whose length is 0, isn't written down.
    fn receive(&mut self, bytes: &mut [u8]) -> io::Result<usize> {
        let count = self.wire.receive(bytes)?;
        if count > 0 {
            self.write_down(Way::Back, bytes, count);
        }
        self.count_frame(Way::Back, &bytes[..count.min(bytes.len())]);
        Ok(count)
    }
}
