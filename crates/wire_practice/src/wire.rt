//! A wire in memory with slaves to practise on, on which frames have mishaps, for tests.

use crate::clock::PracticeClock;
use crate::line::PracticeLine;
use ecat_frame::Frame;
use site_shadow::Pattern;
use std::io;
use wire_frames::{Wire, number_of};

/// The most bytes of a frame that this wire carries: one with a datagram for each of six slaves.
const LONGEST: usize = 146;

/// How long a frame is on its way, in microseconds.
const ROUND_TRIP: u64 = 10;

/// How long a frame is waited for, in microseconds.
const TIME_OUT: u64 = 1_000;

/// What becomes of a frame.
#[derive(Clone, Copy)]
pub enum Fate {
    Passes,
    /// It is lost before the slaves.
    LostBefore,
    /// It is lost after them.
    LostAfter,
    /// It comes back twice.
    Doubled,
    /// It goes through the slaves twice, and comes back twice.
    SentTwice,
    /// It comes back before the answer to the next one.
    Delayed,
    /// Of the byte at this place these bits are turned on the way back.
    Turned(usize, u8),
}

/// The frames that meet a fate, of those that are sent from now on.
#[derive(Clone, Copy)]
pub struct Mishap {
    /// How many pass first.
    pub passing: u32,
    /// How many meet it then. The others pass.
    pub failing: u32,
    pub fate: Fate,
}

/// The bytes of a frame that is on its way back.
#[derive(Clone, Copy)]
struct Packet {
    bytes: [u8; LONGEST],
    length: usize,
}

/// A planned power cut of the slaves.
#[derive(Clone, Copy)]
struct Cut {
    /// Once they have begun to write more words than this.
    begun: u32,
    left: Pattern,
}

/// A wire in memory, with slaves to practise on. A frame comes back as it is sent, unless a mishap is planned. Frames have 146 bytes at most.
#[derive(Drop)]
pub struct PracticeWire<'c> {
    clock: &'c PracticeClock,
    line: PracticeLine,
    mishap: Mishap,
    cut: Option<Cut>,
    /// The frames that come back, in order.
    answers: [Option<Packet>; 4],
    /// The frame that comes back before the next one.
    late: Option<Packet>,
    /// The number of the last frame.
    number: Option<u32>,
    /// How many frames were sent that write to control and status of a busy slave.
    disturbing: u32,
}

fn packet_of(bytes: &[u8]) -> Packet {
    let mut packet = Packet {
        bytes: [0; LONGEST],
        length: bytes.len().min(LONGEST),
    };
    for (place, byte) in bytes.iter().enumerate() {
        if let Some(slot) = packet.bytes.get_mut(place) {
            *slot = *byte;
        }
    }
    packet
}

impl<'c> PracticeWire<'c> {
    /// A wire with these slaves, on which all goes well. A frame takes ten microseconds by this clock, and one that doesn't come back a
    /// thousand.
    pub fn new(line: PracticeLine, clock: &'c PracticeClock) -> PracticeWire<'c> {
        PracticeWire {
            clock,
            line,
            mishap: Mishap {
                passing: 0,
                failing: 0,
                fate: Fate::Passes,
            },
            cut: None,
            answers: [None; 4],
            late: None,
            number: None,
            disturbing: 0,
        }
    }

    /// The slaves.
    pub fn line(&self) -> &PracticeLine {
        &self.line
    }

    /// Plans a mishap from now on, in the place of the last one.
    pub fn plan(&mut self, mishap: Mishap) {
        self.mishap = mishap;
    }

    /// Plans a power cut of the slaves: this number of words are begun from now on, and it comes in the midst of the next one, which is left
    /// by the pattern.
    pub fn cut_after(&mut self, words: u32, left: Pattern) {
        let begun = self.line.begun().saturating_add(words);
        self.cut = Some(Cut { begun, left });
    }

    /// Plans no power cut.
    pub fn keep_power(&mut self) {
        self.cut = None;
    }

    /// How many frames were sent that write to control and status of a slave, or after them, while it was busy. A frame that is sent
    /// again doesn't count: the slave may be busy with what it says.
    pub fn disturbing(&self) -> u32 {
        self.disturbing
    }

    /// So many microseconds pass.
    fn pass_time(&mut self, time: u64) {
        self.clock.pass(time);
        self.line.pass_time(self.clock.now());
    }

    /// Counts a frame that is sent for the first time, if it disturbs a slave.
    fn note(&mut self, frame: &Frame) {
        let number = number_of(frame);
        if number != self.number && self.line.is_disturbed_by(frame) {
            self.disturbing = self.disturbing.saturating_add(1);
        }
        self.number = number;
    }

    /// The fate of the next frame.
    fn next_fate(&mut self) -> Fate {
        if self.mishap.passing > 0 {
            self.mishap.passing -= 1;
            return Fate::Passes;
        }
        if self.mishap.failing > 0 {
            self.mishap.failing -= 1;
            return self.mishap.fate;
        }
        Fate::Passes
    }

    /// A frame waits to be received. It is lost where four wait already.
    fn push(&mut self, packet: Packet) {
        for slot in &mut self.answers {
            if slot.is_none() {
                *slot = Some(packet);
                return;
            }
        }
    }

    fn pop(&mut self) -> Option<Packet> {
        let [first, second, third, fourth] = self.answers;
        self.answers = [second, third, fourth, None];
        first
    }

    /// The frame goes through the slaves. The power is cut in the word that the plan says.
    fn pass(&mut self, frame: &mut Frame) {
        self.line.take(frame);
        match self.cut {
            Some(cut) if self.line.begun() > cut.begun => {
                self.cut = None;
                self.line.cut_power(cut.left);
            }
            _ => {}
        }
    }

    /// The frame comes back with this fate.
    fn come_back(&mut self, fate: Fate, bytes: &[u8]) {
        let mut packet = packet_of(bytes);
        if let Some(late) = self.late {
            self.late = None;
            self.push(late);
        }
        match fate {
            Fate::LostBefore | Fate::LostAfter => return,
            Fate::Doubled | Fate::SentTwice => self.push(packet),
            Fate::Delayed => {
                self.late = Some(packet);
                return;
            }
            Fate::Turned(place, bits) => {
                if let Some(byte) = packet.bytes.get_mut(place) {
                    *byte ^= bits;
                }
            }
            Fate::Passes => {}
        }
        self.push(packet);
    }
}

impl Wire for PracticeWire<'_> {
    ghost gives = { λ _. Unit {0} };

    fn send(&mut self, bytes: &[u8]) -> io::Result<()> {
        let fate = self.next_fate();
        self.pass_time(ROUND_TRIP);
        let Ok(mut frame) = Frame::parse(bytes) else {
            return Err(io::Error::other("no frame"));
        };
        self.note(&frame);
        if let Fate::LostBefore = fate {
            return Ok(());
        }
        self.pass(&mut frame);
        if let (Fate::SentTwice, Ok(mut copy)) = (fate, Frame::parse(bytes)) {
            self.pass(&mut copy);
        }
        self.come_back(fate, frame.as_bytes());
        Ok(())
    }

    fn receive(&mut self, bytes: &mut [u8]) -> io::Result<usize> {
        let Some(packet) = self.pop() else {
            self.pass_time(TIME_OUT);
            return Err(io::Error::other("nothing comes"));
        };
        let length = packet.length.min(bytes.len()).min(LONGEST);
        bytes[..length].copy_from_slice(&packet.bytes[..length]);
        Ok(length)
    }
}
