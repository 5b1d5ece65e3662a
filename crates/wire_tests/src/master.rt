//! A master in memory that lends its wire: it carries one message in a turn, and does with them what a master may do.

use ecat_frame::Frame;
use std::io;
use wire_frames::Wire;
use wire_practice::{PracticeClock, PracticeLine};

/// How long a turn is, in microseconds.
const TURN: u64 = 1_000;

/// For how many turns a station waits for an answer.
pub(crate) const TIME_OUT: u64 = 100;

/// The most bytes of a message: two datagrams, and its number.
const LONGEST: usize = 72;

/// How many answers a master keeps.
const ROOM: usize = 8;

/// What a master does with messages. Each message or answer is one whose number, from 1, is a multiple of this; 0: none.
#[derive(Clone, Copy)]
pub(crate) struct Habits {
    /// How many datagrams a message may have.
    pub carries: u16,
    /// Each message that it drops.
    pub drops: u32,
    /// For how many turns a message waits before it goes over the wire. A later one takes its place.
    pub waits: u64,
    /// Each answer that it drops.
    pub loses: u32,
    /// For how many turns an answer waits.
    pub holds: u64,
    /// Each answer that waits for this many turns more.
    pub delays: (u32, u64),
    /// Each answer that comes twice.
    pub doubles: u32,
    /// Whether of several answers the one that came last is given first.
    pub is_turned: bool,
    /// After how many messages it ends.
    pub ends: u32,
}

/// One that carries one datagram a message, and hands each answer back in the next turn.
pub(crate) const PROMPT: Habits = Habits {
    carries: 1,
    drops: 0,
    waits: 0,
    loses: 0,
    holds: 1,
    delays: (0, 0),
    doubles: 0,
    is_turned: false,
    ends: u32::MAX,
};

/// A message, or an answer.
#[derive(Clone, Copy)]
struct Message {
    bytes: [u8; LONGEST],
    length: usize,
    /// The turn in which it goes on.
    due: u64,
}

/// A master that lends its wire.
#[derive(Drop)]
pub(crate) struct Master<'c> {
    clock: &'c PracticeClock,
    /// The slaves.
    pub line: PracticeLine,
    habits: Habits,
    turn: u64,
    /// How many messages came, and how many went over the wire.
    pub messages: u32,
    answers: u32,
    /// The message that waits.
    waiting: Option<Message>,
    /// The answers that wait.
    ready: [Option<Message>; ROOM],
}

/// Whether this is a multiple of a number that isn't 0.
fn is_each(count: u32, each: u32) -> bool {
    count.checked_rem(each) == Some(0)
}

fn message_of(bytes: &[u8], due: u64) -> Message {
    let length = bytes.len().min(LONGEST);
    let mut message = Message {
        bytes: [0; LONGEST],
        length,
        due,
    };
    message.bytes[..length].copy_from_slice(&bytes[..length]);
    message
}

impl<'c> Master<'c> {
    /// A master of this line.
    pub(crate) fn new(line: PracticeLine, clock: &'c PracticeClock, habits: Habits) -> Master<'c> {
        Master {
            clock,
            line,
            habits,
            turn: 0,
            messages: 0,
            answers: 0,
            waiting: None,
            ready: [None; ROOM],
        }
    }

    /// Another master takes the line over, with nothing that waits.
    pub(crate) fn begin_anew(&mut self, habits: Habits) {
        self.habits = habits;
        self.messages = 0;
        self.answers = 0;
        self.waiting = None;
        self.ready = [None; ROOM];
    }

    /// Turns pass up to this one, if it isn't past.
    fn pass_to(&mut self, turn: u64) {
        let turns = turn.saturating_sub(self.turn);
        self.turn = turn.max(self.turn);
        self.clock.pass(turns.saturating_mul(TURN));
        self.line.pass_time(self.clock.now());
    }

    /// The message that waits goes over the wire and through the slaves, if its turn comes by this one.
    fn exchange(&mut self, until: u64) {
        match self.waiting {
            Some(message) if message.due <= until => {
                self.waiting = None;
                self.pass_to(message.due);
                let length = message.length.min(LONGEST);
                if let Ok(mut frame) = Frame::parse(&message.bytes[..length]) {
                    self.line.take(&mut frame);
                    self.come_back(frame.as_bytes());
                }
            }
            _ => {}
        }
    }

    /// An answer came back. It waits, once or twice, and is dropped where there is no room.
    fn come_back(&mut self, bytes: &[u8]) {
        self.answers = self.answers.saturating_add(1);
        if is_each(self.answers, self.habits.loses) {
            return;
        }
        let (each, more) = self.habits.delays;
        let more = if is_each(self.answers, each) { more } else { 0 };
        let due = self.turn.saturating_add(self.habits.holds);
        let answer = message_of(bytes, due.saturating_add(more));
        let mut copies = 1u32;
        if is_each(self.answers, self.habits.doubles) {
            copies = 2;
        }
        for place in 0..ROOM {
            if copies > 0 && self.ready[place].is_none() {
                self.ready[place] = Some(answer);
                copies = copies.saturating_sub(1);
            }
        }
    }

    /// Whether an answer stands here that comes by this turn.
    fn is_due(&self, place: usize, until: u64) -> bool {
        match self.ready.get(place) {
            Some(Some(answer)) => answer.due <= until,
            _ => false,
        }
    }

    /// The answer that is given next, if one comes by this turn.
    fn take_answer(&mut self, until: u64) -> Option<Message> {
        let mut found = None;
        for place in 0..ROOM {
            if self.is_due(place, until) && (found.is_none() || self.habits.is_turned) {
                found = Some(place);
            }
        }
        let slot = self.ready.get_mut(found?)?;
        slot.take()
    }
}

impl Wire for Master<'_> {
    ghost gives = { λ _. Unit {0} };

    fn send(&mut self, bytes: &[u8]) -> io::Result<()> {
        self.messages = self.messages.saturating_add(1);
        if self.messages > self.habits.ends {
            return Err(io::Error::other("it has ended"));
        }
        if !is_each(self.messages, self.habits.drops) {
            let due = self.turn.saturating_add(self.habits.waits);
            self.waiting = Some(message_of(bytes, due));
        }
        Ok(())
    }

    fn receive(&mut self, bytes: &mut [u8]) -> io::Result<usize> {
        if self.messages > self.habits.ends {
            return Err(io::Error::other("it has ended"));
        }
        let until = self.turn.saturating_add(TIME_OUT);
        self.exchange(until);
        let Some(answer) = self.take_answer(until) else {
            self.pass_to(until);
            return Err(io::Error::other("nothing comes"));
        };
        self.pass_to(answer.due);
        let length = answer.length.min(bytes.len()).min(LONGEST);
        bytes[..length].copy_from_slice(&answer.bytes[..length]);
        Ok(length)
    }
}
