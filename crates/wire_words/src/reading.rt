//! Words of a slave that are read by frames of one datagram.
ghost use Rattle.std.specs.Prelude.{◌≡◌, ◌↔◌, ◌/◌, ◌%◌, ◌<◌, ◌≤◌, true, drop, slice_index, take, IfOk};
ghost use Rattle.wire_words.specs.Words.{read_command, AreOther, WordsRead};
ghost use Rattle.wire_words.specs.Reading.{bytes_loaded, read_of};
ghost use Rattle.wire_words.specs.declared.reading.ReadSize.TheVariants.{Eight};

use crate::reader::{Reader, Stepped, step};
use crate::telling::Hitch;
use ecat_frame::Frame;
use rom_steps::POLLS;
use std::rt::Clock;
use wire_frames::{ATTEMPTS, KEPT, NumberedWire, Pace, Reply, Wire};

/// The content of a datagram that reads.
pub(crate) const EMPTY: [u8; KEPT] = [0; KEPT];

/// How many bytes a read command loads into the data register: bit 6 of control and status (ESC data sheet).
#[derive(Clone, Copy, PartialEq, Eq)]
pub(crate) enum ReadSize {
    Four,
    Eight,
}

impl ReadSize {
    /// As control and status shows.
    pub(crate) fn shown_by(status: u16) -> ReadSize
        ensures { (result ≡ Eight) ↔ ((status / 0x40) % 2 ≡ 1) }
    {
        if status / 0x40 % 2 == 1 {
            ReadSize::Eight
        } else {
            ReadSize::Four
        }
    }

    /// How many of them are fetched of a read from this word on. Eight are where it is a multiple of four: such a read ends before a chip does.
    pub(crate) fn fetched_at(self, word: u16) -> ReadSize
        ensures { (result ≡ Eight) ↔ ((self ≡ Eight) × (word % 4 ≡ 0)) }
    {
        if word % 4 == 0 { self } else { ReadSize::Four }
    }

    /// The number of bytes.
    pub(crate) fn bytes(self) -> usize
        ensures number { result ≡ bytes_loaded self }
        ensures most { result ≤ 8 }
    {
        match self {
            ReadSize::Four => 4,
            ReadSize::Eight => 8,
        }
    }
}

/// The words of a read: the one at which it begins and the next one, and the two after them, where eight bytes are fetched.
#[derive(Clone, Copy)]
pub struct Read {
    pub pair: [u8; 4],
    pub next: Option<[u8; 4]>,
}

impl Read {
    /// The words in these bytes of the data register.
    pub(crate) fn of_bytes(bytes: [u8; 8], size: ReadSize) -> Read
        ensures { result ≡ read_of size bytes }
    {
        let [a, b, c, d, e, f, g, h] = bytes;
        Read {
            pair: [a, b, c, d],
            next: match size {
                ReadSize::Four => None,
                ReadSize::Eight => Some([e, f, g, h]),
            },
        }
    }
}

/// The data register, in the reply to a read of it.
pub(crate) fn data_fetched(reply: &Reply) -> [u8; 8]
    ensures { result ≡ take 8 reply.now.content }
{
    let [a, b, c, d, e, f, g, h, ..] = reply.content;
    [a, b, c, d, e, f, g, h]
}

/// The data register, in the reply to a read of control and status, the word's number, and it.
pub(crate) fn data_polled(reply: &Reply) -> [u8; 8]
    ensures { result ≡ drop 6 reply.now.content }
{
    let [_, _, _, _, _, _, a, b, c, d, e, f, g, h] = reply.content;
    [a, b, c, d, e, f, g, h]
}

/// The content of the command to read words from this one on. It puts a byte four times where they come to stand.
pub(crate) fn read_content(word: u16, held: u8) -> [u8; 10]
    ensures { result ≡ read_command word held }
{
    let [a, b, c, d] = u32::from(word).to_le_bytes();
    [0x00, 0x01, a, b, c, d, held, held, held, held]
}

/// Whether none of the bytes of two words is this one.
#[tactic(auto, using(crate::proofs::Words::four_other))]
pub(crate) fn are_other(pair: [u8; 4], held: u8) -> bool
    ensures { result ≡ true → AreOther held pair }
{
    let [a, b, c, d] = pair;
    a != held && b != held && c != held && d != held
}

/// Reads words from this one on: two, or four where the slave loads eight bytes. A try that isn't acknowledged is followed by command 000, which
/// clears the error, and a pause; they are tried for half a second.
pub(crate) fn read_at<W: Wire, C: Clock>(
    wire: &mut NumberedWire<W>,
    clock: &C,
    slave: u16,
    word: u16,
) -> Result<Read, Hitch>
    requires { slave < 64 }
    ensures same { wire.new.stations ≡ wire.old.stations }
    ensures read { IfOk result (WordsRead W.gives (slice_index wire.old.stations.by_slave slave) word) }
{
    read_in_tries(wire, clock, slave, word, ATTEMPTS)
}

/// The same, in so many tries.
pub(crate) fn read_in_tries<W: Wire, C: Clock>(
    wire: &mut NumberedWire<W>,
    clock: &C,
    slave: u16,
    word: u16,
    tries: u32,
) -> Result<Read, Hitch>
    requires { slave < 64 }
    ensures same { wire.new.stations ≡ wire.old.stations }
    ensures read { IfOk result (WordsRead W.gives (slice_index wire.old.stations.by_slave slave) word) }
{
    let mut reader = Reader::of_words(wire.stations().of_slave(slave), word, tries);
    let mut polls = Pace::new();
    let mut retries = Pace::new();
    for _frame in 0..u32::MAX {
        let mut asked = Frame::new();
        reader.ask(&mut asked);
        if asked.count() == 0 || u32::from(polls.pauses()) >= POLLS {
            return Err(reader.why_not());
        }
        let Some(returned) = wire.pass_all(asked) else {
            return Err(Hitch::Silent);
        };
        let Stepped { reader: next, read } = step::<W>(reader, &returned.frame, 0);
        if let Some(read) = read {
            return Ok(read);
        }
        if next.stumbles > reader.stumbles {
            retries.retry(clock);
        }
        if next.phase == reader.phase {
            polls.poll(clock);
        } else {
            polls = Pace::new();
        }
        reader = next;
    }
    Err(reader.why_not())
}
