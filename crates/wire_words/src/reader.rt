//! Reading the words of a slave in steps: one datagram of it, and then the answer.
ghost use Rattle.std.specs.Prelude.{◌≡◌, ◌⊎◌, true, false, length, IfSome, None};
ghost use Rattle.ecat_frame.specs.Command.{code_of};
ghost use Rattle.ecat_frame.specs.declared.command.Command.TheVariants.{Fprd, Fpwr};
ghost use Rattle.wire_frames.specs.Came.{CameOver, Reported};
ghost use Rattle.wire_frames.specs.Room.{AddsOne};
ghost use Rattle.wire_frames.specs.Sending.{InEeprom, OnlyEeprom};
ghost use Rattle.wire_words.specs.Words.{AreOther, WordsRead};
ghost use Rattle.wire_words.specs.Reading.{has_reported, most_asked, GoesOn, StaysAt, IsUnderWay};
ghost use Rattle.wire_words.specs.declared.reader.Phase.TheVariants as phase;

use crate::reading::{EMPTY, Read, ReadSize, are_other, data_fetched, data_polled, read_content};
use crate::sizing::{block_after, words_ahead};
use crate::telling::Hitch;
use ecat_frame::{Command, Datagram, Frame, fp};
use rom_steps::{CONTENT, CONTROL};
use wire_frames::{Last, Reply, UNCOUNTED, Wire, reply_at};

/// How often a reader tries the same words that reads beside others.
const READINGS: u32 = 3;

/// How often words are fetched that aren't loaded yet, before they are read again. With the pauses between, that takes 0.09 seconds.
const FETCHES: u32 = 100;

/// What stands in the data register first, before words are loaded: a byte that EEPROMs seldom hold.
const HELD: u8 = 0xb9;

/// What is added to that byte as words are read again. Of five such bytes that follow one another one is none of four that are read.
const NEXT_HELD: u8 = 0x35;

/// What a reader does next.
#[derive(Clone, Copy, PartialEq, Eq)]
pub(crate) enum Phase {
    /// It tells the slave to read words.
    Tells,
    /// It polls until the slave has read them, with so many bytes of the data register behind control and status.
    Polls(ReadSize),
    /// It fetches so many bytes of them.
    Fetches(ReadSize),
    /// It polls likewise until the slave is idle: at first, and where something went amiss.
    Settles,
    /// It clears the slave's errors: command 000.
    Clears,
    /// It asks for nothing more.
    Ends,
}

/// One that reads words of a slave, two or four at a time. Of what it can't read in a few tries, and of all after that, nothing is read.
#[derive(Clone, Copy)]
pub struct Reader {
    /// The slave's station address.
    pub(crate) station: u16,
    /// The word from which on it reads.
    pub(crate) word: u16,
    /// How many words the slave has, if that is given.
    given: Option<u16>,
    /// It reads each word before this one, and after it the blocks at which chips may begin to repeat.
    all_before: u16,
    /// It reads no word from this one on.
    end: u16,
    pub(crate) phase: Phase,
    /// How often it tries the same words.
    tries: u32,
    /// How often it has stumbled at this word.
    pub(crate) stumbles: u32,
    /// The byte that its command puts where the words come to stand.
    pub(crate) held: u8,
    /// How many fetches in a row found that byte there yet.
    early: u32,
    /// How many bytes a read loads, as the slave showed it last.
    loads: ReadSize,
    /// How many polls in a row were not counted by one slave alone.
    uncounted: u32,
    /// The last poll that didn't find the slave idle.
    poll: Last,
    /// What it stumbled at last.
    stumble: Last,
}

/// Nothing was asked.
const NOTHING: Last = Last {
    command: Command::Fprd,
    register: CONTROL,
    counter: None,
    status: None,
};

/// A datagram for this register, and the counter that it came back with.
fn last_of(command: Command, register: u16, reply: &Reply) -> Last {
    Last {
        command,
        register,
        counter: Some(reply.counter),
        status: None,
    }
}

impl Reader {
    /// One that asks for nothing.
    pub fn ended() -> Reader
        ensures { has_reported result.phase ≡ false }
    {
        Reader {
            station: 0,
            word: 0,
            given: None,
            all_before: 0,
            end: 0,
            phase: Phase::Ends,
            tries: 0,
            stumbles: 0,
            held: HELD,
            early: 0,
            loads: ReadSize::Four,
            uncounted: 0,
            poll: NOTHING,
            stumble: NOTHING,
        }
    }

    /// One that waits until the slave with this station address is idle, clears its errors, and reads as many words as are given, or as its words
    /// 0x3E and 0x3F say that there are, 64 to 4,096; and after those the blocks up to word 4,159 at which chips may begin to repeat.
    pub fn of_slave(station: u16, given: Option<u16>) -> Reader
        ensures { has_reported result.phase ≡ false }
    {
        Reader {
            station,
            given,
            all_before: 64,
            end: 64,
            phase: Phase::Settles,
            tries: READINGS,
            ..Reader::ended()
        }
    }

    /// One that reads the words from this one on of the slave with this station address, in so many tries.
    pub(crate) fn of_words(station: u16, word: u16, tries: u32) -> Reader
        ensures reported { has_reported result.phase ≡ false }
        ensures station { result.station ≡ station }
        ensures word { result.word ≡ word }
    {
        Reader {
            station,
            word,
            phase: Phase::Tells,
            tries,
            ..Reader::ended()
        }
    }

    /// Whether it has something to ask.
    pub(crate) fn is_asking(self) -> bool {
        self.phase != Phase::Ends
    }

    /// Why the slave was given up, if it was while it had something to ask: it stayed busy.
    pub fn hitch(self) -> Option<Hitch> {
        if self.is_asking() {
            Some(Hitch::Stuck(self.poll))
        } else {
            None
        }
    }

    /// Why the words can't be read: the slave stayed busy, or it has stumbled too often.
    pub(crate) fn why_not(self) -> Hitch {
        self.hitch().unwrap_or(Hitch::Stuck(self.stumble))
    }

    /// The most bytes of content that its next datagram has.
    pub(crate) fn most_asked(self) -> u16
        ensures { result ≡ most_asked self.phase }
    {
        match self.phase {
            Phase::Polls(ReadSize::Eight) => 14,
            _ => 10,
        }
    }

    /// Puts its datagram after those of a frame, if there is room for it.
    pub(crate) fn ask(self, frame: &mut Frame)
        requires { OnlyEeprom frame.old }
        ensures only { OnlyEeprom frame.new }
        ensures adds { AddsOne (most_asked self.phase) frame.old frame.new }
    {
        let station = self.station;
        match self.phase {
            Phase::Tells => put_in(
                frame,
                Command::Fpwr,
                station,
                CONTROL,
                &read_content(self.word, self.held),
            ),
            Phase::Polls(size) => put_in(
                frame,
                Command::Fprd,
                station,
                CONTROL,
                &EMPTY[..6 + size.bytes()],
            ),
            Phase::Settles => put_in(frame, Command::Fprd, station, CONTROL, &EMPTY[..10]),
            Phase::Clears => put_in(frame, Command::Fpwr, station, CONTROL, &[0, 0]),
            Phase::Fetches(size) => {
                put_in(
                    frame,
                    Command::Fprd,
                    station,
                    CONTENT,
                    &EMPTY[..size.bytes()],
                )
            }
            Phase::Ends => {}
        }
    }

    /// It goes on with this.
    fn to(self, phase: Phase) -> Reader
        ensures phase { result.phase ≡ phase }
        ensures held { result.held ≡ self.held }
        ensures stays { StaysAt self result }
    {
        Reader {
            phase,
            early: 0,
            uncounted: 0,
            ..self
        }
    }

    /// It goes on behind the words that it has read, if it reads any there. Word 0x3E is among the first 64.
    fn after(self, read: Read) -> Reader
        ensures { has_reported result.phase ≡ false }
    {
        let words = if read.next.is_some() { 4 } else { 2 };
        let next = self.word.saturating_add(words);
        if next != 64 {
            return self.from_word(next);
        }
        Reader {
            all_before: words_ahead(read.next.unwrap_or(read.pair), self.given),
            end: 4160,
            ..self
        }
        .from_word(next)
    }

    /// It goes on from this word, or from the next block that it reads, if it reads any.
    fn from_word(self, next: u16) -> Reader
        ensures { has_reported result.phase ≡ false }
    {
        let word = if next < self.all_before || next % 64 != 0 {
            next
        } else {
            block_after(next)
        };
        if word >= self.end {
            return self.to(Phase::Ends);
        }
        Reader {
            word,
            stumbles: 0,
            held: HELD,
            ..self.to(Phase::Tells)
        }
    }

    /// Something went amiss: it waits until the slave is idle, clears its errors, and goes on from there.
    fn stumbled(self, stumble: Last) -> Reader
        ensures reported { has_reported result.phase ≡ false }
        ensures stays { StaysAt self result }
    {
        let stumbled = Reader {
            stumbles: self.stumbles.saturating_add(1),
            held: self.held.wrapping_add(NEXT_HELD),
            stumble,
            ..self
        };
        if self.stumbles > self.tries {
            return stumbled.to(Phase::Ends);
        }
        stumbled.to(Phase::Settles)
    }

    /// The slave's errors are clear: it tries these words again, or ends.
    fn cleared(self) -> Reader
        ensures reported { has_reported result.phase ≡ false }
        ensures stays { StaysAt self result }
    {
        if self.stumbles >= self.tries {
            return self.to(Phase::Ends);
        }
        self.to(Phase::Tells)
    }

    /// The slave has shown this control and status.
    fn polled(self, status: u16, poll: Last) -> Reader
        ensures { GoesOn status self result }
    {
        if status >= 0x8000 {
            self.waiting(0, poll)
        } else {
            self.idle(status, poll)
        }
    }

    /// The slave isn't idle, or so many polls in a row weren't counted.
    fn waiting(self, uncounted: u32, poll: Last) -> Reader
        ensures { GoesOn 0 self result }
    {
        if uncounted >= UNCOUNTED {
            return Reader {
                stumble: poll,
                ..self.to(Phase::Ends)
            };
        }
        Reader {
            uncounted,
            poll,
            ..self
        }
    }

    /// The slave is idle, and shows this.
    fn idle(self, status: u16, poll: Last) -> Reader
        ensures { GoesOn status self result }
    {
        if !matches!(self.phase, Phase::Polls(_)) {
            return self.to(Phase::Clears);
        }
        if status >= 0x2000 {
            return self.stumbled(poll);
        }
        let loads = ReadSize::shown_by(status);
        let fetches = self.to(Phase::Fetches(loads.fetched_at(self.word)));
        Reader { loads, ..fetches }
    }

    /// A byte of the words is the one that its command put there. Where that is so of the first word, they aren't loaded yet, and are fetched again.
    /// Else the EEPROM may hold that byte, and they are read again with another one.
    fn unsure(self, pair: [u8; 4], fetch: Last) -> Reader
        ensures { GoesOn 0 self result }
    {
        let [low, high, ..] = pair;
        if low == self.held && high == self.held && self.early < FETCHES {
            return Reader {
                early: self.early + 1,
                ..self
            };
        }
        self.stumbled(fetch)
    }
}

/// Puts a datagram for registers of the EEPROM of the slave with this station address after those of a frame, if there is room for it.
fn put_in(frame: &mut Frame, command: Command, station: u16, register: u16, content: &[u8])
    requires command { (command ≡ Fprd) ⊎ (command ≡ Fpwr) }
    requires eeprom { InEeprom register (length content.now) }
    requires only { OnlyEeprom frame.old }
    ensures only { OnlyEeprom frame.new }
    ensures adds { AddsOne (length content.now) frame.old frame.new }
{
    match frame.push(command, 0, fp(station, register), content) {
        Ok(()) => return,
        Err(_) => return,
    }
}

/// The answer of the reader's slave at this place of a frame to a datagram for this register, if there is one.
fn answer_to<W: Wire>(
    reader: Reader,
    command: Command,
    register: u16,
    content: &[u8],
    returned: &Frame,
    place: usize,
) -> Reply
    requires came { CameOver W.gives returned.now }
    requires command { (command ≡ Fprd) ⊎ (command ≡ Fpwr) }
    ensures { Reported W.gives reader.station (code_of command) register content.now result }
{
    let address = fp(reader.station, register);
    let asked = Datagram {
        command,
        index: 0,
        address,
        content,
        counter: 0,
    };
    reply_at(asked, address, returned, place)
}

/// The reader after the answer to its command to read.
fn after_command<W: Wire>(reader: Reader, returned: &Frame, place: usize) -> Reader
    requires { CameOver W.gives returned.now }
    ensures reported { IsUnderWay W.gives result }
    ensures stays { StaysAt reader result }
{
    let command = read_content(reader.word, reader.held);
    let taken = answer_to::<W>(reader, Command::Fpwr, CONTROL, &command, returned, place);
    if taken.counter == 1 {
        reader.to(Phase::Polls(reader.loads.fetched_at(reader.word)))
    } else {
        reader.stumbled(last_of(Command::Fpwr, CONTROL, &taken))
    }
}

/// The reader after the answer to the clearing of errors.
fn after_clearing<W: Wire>(reader: Reader, returned: &Frame, place: usize) -> Reader
    requires { CameOver W.gives returned.now }
    ensures reported { has_reported result.phase ≡ false }
    ensures stays { StaysAt reader result }
{
    let cleared = answer_to::<W>(reader, Command::Fpwr, CONTROL, &[0, 0], returned, place);
    if cleared.counter == 1 {
        reader.cleared()
    } else {
        reader.stumbled(last_of(Command::Fpwr, CONTROL, &cleared))
    }
}

/// What comes of an answer.
#[derive(Clone, Copy)]
pub(crate) struct Stepped {
    pub(crate) reader: Reader,
    /// The words that it has read, if it has.
    pub(crate) read: Option<Read>,
}

/// The reader with these words, once they are loaded.
fn with_words(reader: Reader, read: Read, last: Last) -> Stepped
    ensures reported { has_reported result.reader.phase ≡ true → GoesOn 0 reader result.reader }
    ensures stays { result.read ≡ None → StaysAt reader result.reader }
    ensures read { IfSome result.read (λ words. (words ≡ read) × AreOther reader.held read.pair) }
{
    if are_other(read.pair, reader.held) {
        Stepped {
            reader: reader.after(read),
            read: Some(read),
        }
    } else {
        Stepped {
            reader: reader.unsure(read.pair, last),
            read: None,
        }
    }
}

/// The reader after the answer to a poll with so many bytes of the data register.
fn after_poll<W: Wire>(reader: Reader, size: ReadSize, returned: &Frame, place: usize) -> Stepped
    requires came { CameOver W.gives returned.now }
    requires reported { IsUnderWay W.gives reader }
    ensures reported { IsUnderWay W.gives result.reader }
    ensures stays { result.read ≡ None → StaysAt reader result.reader }
    ensures read { IfSome result.read (WordsRead W.gives reader.station reader.word) }
{
    let empty = &EMPTY[..6 + size.bytes()];
    let shown = answer_to::<W>(reader, Command::Fprd, CONTROL, empty, returned, place);
    let poll = last_of(Command::Fprd, CONTROL, &shown);
    let Some(status) = shown.word() else {
        return Stepped {
            reader: reader.waiting(reader.uncounted.saturating_add(1), poll),
            read: None,
        };
    };
    let poll = Last {
        status: Some((status / 256) as u8),
        ..poll
    };
    let next = reader.polled(status, poll);
    if next.phase != Phase::Fetches(size) {
        return Stepped {
            reader: next,
            read: None,
        };
    }
    with_words(next, Read::of_bytes(data_polled(&shown), size), poll)
}

/// The reader after the fetch of so many bytes of what it read.
fn after_fetch<W: Wire>(reader: Reader, size: ReadSize, returned: &Frame, place: usize) -> Stepped
    requires came { CameOver W.gives returned.now }
    requires fetches { reader.phase ≡ phase.Fetches size }
    requires reported { IsUnderWay W.gives reader }
    ensures reported { IsUnderWay W.gives result.reader }
    ensures stays { result.read ≡ None → StaysAt reader result.reader }
    ensures read { IfSome result.read (WordsRead W.gives reader.station reader.word) }
{
    let empty = &EMPTY[..size.bytes()];
    let fetched = answer_to::<W>(reader, Command::Fprd, CONTENT, empty, returned, place);
    let fetch = last_of(Command::Fprd, CONTENT, &fetched);
    if fetched.counter != 1 {
        return Stepped {
            reader: reader.stumbled(fetch),
            read: None,
        };
    }
    with_words(reader, Read::of_bytes(data_fetched(&fetched), size), fetch)
}

/// The reader after the answer at this place of a frame that came back.
pub(crate) fn step<W: Wire>(reader: Reader, returned: &Frame, place: usize) -> Stepped
    requires came { CameOver W.gives returned.now }
    requires reported { IsUnderWay W.gives reader }
    ensures reported { IsUnderWay W.gives result.reader }
    ensures stays { result.read ≡ None → StaysAt reader result.reader }
    ensures read { IfSome result.read (WordsRead W.gives reader.station reader.word) }
{
    let next = match reader.phase {
        Phase::Fetches(size) => return after_fetch::<W>(reader, size, returned, place),
        Phase::Tells => after_command::<W>(reader, returned, place),
        Phase::Polls(size) => return after_poll::<W>(reader, size, returned, place),
        Phase::Settles => return after_poll::<W>(reader, ReadSize::Four, returned, place),
        Phase::Clears => after_clearing::<W>(reader, returned, place),
        Phase::Ends => reader,
    };
    Stepped {
        reader: next,
        read: None,
    }
}
