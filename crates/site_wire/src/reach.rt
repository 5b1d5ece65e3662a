//! How a device reaches the slaves of a wire.
ghost use Rattle.std.specs.Prelude.{◌≡◌, ◌<◌, Some, None, IfSome, IsSome, IsTrue};
ghost use Rattle.wire_frames.specs.Sending.{OnlyEeprom};
ghost use Rattle.site_wire.specs.Due.{IsDue};
ghost use Rattle.site_wire.specs.Orders.{datagram_of};
ghost use Rattle.site_wire.specs.Reaching.{PassesAll};

use crate::answers::Answer;
use crate::faults::{LineSeen, OpenWord, StopReason};
use crate::joining::Board;
use crate::order::Order;
use ecat_frame::Frame;
use esc_model::{FIRST_STATION, RomHalf};
use std::alloc::AllocError;
use std::sync::{Condvar, Mutex, Wait};
use wire_frames::{Carried, Last, NumberedWire, Wire, sight};

/// A wire on which a line was brought up, as the devices reach it that work on its slaves.
pub trait Reach {
    ghost use Rattle.ecat_frame.specs.Frame.{Pdu};
    ghost use Rattle.std.specs.Prelude.{Option};
    ghost use Rattle.site_wire.specs.declared.answers.Answer.{Answer};

    /// A relation of the implementor's choice, which holds from before each passing of a datagram to after it, with what is told: none, unless it
    /// says so. What is said of a device holds for any choice, so also for the one that holds only from before a passing to after it.
    ghost passes: { Self → Self → Pdu → Option Answer → Type 0 } = { λ _ _ _ _. Unit {0} };

    /// Sends a datagram to the slave of this half until it comes back, three times at most. A command names words that the half has. While the half
    /// is busy, of what writes to control and status only that is sent which clears errors, reads words, or issues the word in flight again. None
    /// where it doesn't come back, and the line stops then; or where it has stopped, and nothing is sent.
    fn pass(&mut self, half: &RomHalf, order: &Order) -> Option<Answer>
        requires { IsDue half.now (datagram_of order.now) }
        ensures { passes self.old self.new (datagram_of order.now) result };

    /// Why the line has stopped, if it has.
    fn reason(&self) -> Option<StopReason>;

    /// What was seen of the slaves.
    fn seen(&self) -> LineSeen;

    /// Notes the word of this slave that wasn't seen as written last, if there is one.
    fn note(&mut self, slave: usize, word: Option<OpenWord>);

    /// The line stops with this reason, unless it has one already. It looks for the slave that the reason is about, which `about` names with
    /// its last answer.
    fn stop(&mut self, reason: StopReason, about: Option<(u16, Last)>);
}

/// A wire on which a line was brought up.
#[derive(Drop)]
pub struct LiveLine<W> {
    wire: NumberedWire<W>,
    reason: Option<StopReason>,
    seen: LineSeen,
}

impl<W: Wire> LiveLine<W> {
    /// The line that was brought up on this wire.
    pub fn new(wire: NumberedWire<W>) -> LiveLine<W> {
        LiveLine {
            wire,
            reason: None,
            seen: LineSeen {
                stopped: None,
                words: [None; 64],
            },
        }
    }

    /// The wire, as work on it ends.
    pub fn into_wire(self) -> NumberedWire<W> {
        let LiveLine { wire, .. } = self;
        wire
    }

    /// How many frames were sent, and how many of them had been sent before.
    pub fn frames(&self) -> (u64, u64) {
        (self.wire.sent(), self.wire.resent())
    }

    /// Sends a frame for the EEPROMs of several slaves until it comes back, three times at most. None where it doesn't, and the line stops
    /// then, with what is said about the slave that sent it; or where it has stopped, and nothing is sent.
    fn pass_all(&mut self, frame: Frame, about: (u16, Last)) -> Option<Carried>
        requires { OnlyEeprom frame }
        ensures out { PassesAll W.gives W.takes self.old self.new frame result }
        ensures stations { self.new.wire.stations ≡ self.old.wire.stations }
    {
        if self.reason.is_some() {
            return None;
        }
        match self.wire.pass_all(frame) {
            Some(carried) => return Some(carried),
            None => {
                self.stop(StopReason::Silent, Some(about));
                return None;
            }
        }
    }
}

impl<W: Wire> Reach for LiveLine<W> {
    ghost use Rattle.site_wire.specs.Reaching.{LooksFor, PassesOn};

    ghost passes = { PassesOn W.gives W.takes };

    fn pass(&mut self, _half: &RomHalf, order: &Order) -> Option<Answer> {
        if self.reason.is_some() {
            return None;
        }
        let asked = order.datagram();
        let Some(returned) = self.wire.pass(asked) else {
            self.stop(StopReason::Silent, Some(unanswered(order)));
            return None;
        };
        Answer::at(asked, returned.address, &returned.frame, 0, returned.again)
    }

    fn reason(&self) -> Option<StopReason> {
        self.reason
    }

    fn seen(&self) -> LineSeen {
        self.seen
    }

    fn note(&mut self, slave: usize, word: Option<OpenWord>)
        ensures { self.new.wire ≡ self.old.wire }
    {
        if slave < 64 {
            self.seen.words[slave] = word;
        }
    }

    fn stop(&mut self, reason: StopReason, about: Option<(u16, Last)>)
        ensures stays { IsSome self.old.reason → self.new ≡ self.old }
        ensures reason { self.old.reason ≡ None → self.new.reason ≡ Some reason }
        ensures looks { self.old.reason ≡ None → IfSome about (LooksFor W.takes self.old.wire self.new.wire) }
        ensures quiet { about ≡ None → self.new.wire ≡ self.old.wire }
        ensures stations { self.new.wire.stations ≡ self.old.wire.stations }
    {
        if self.reason.is_some() {
            return;
        }
        self.reason = Some(reason);
        if let Some((slave, last)) = about {
            self.seen.stopped = Some(sight(&mut self.wire, slave, last));
        }
    }
}

/// The slave to which a datagram went that didn't come back.
fn unanswered(order: &Order) -> (u16, Last) {
    let station = (order.address % 65536) as u16;
    let last = Last {
        command: order.command(),
        register: order.register(),
        counter: None,
        status: None,
    };
    (station.wrapping_sub(FIRST_STATION), last)
}

/// A line on a wire under a lock of its own, for the devices of several threads. The lock is held while one frame is exchanged. What the
/// others have to send meanwhile stands on a board, and the next frame takes as much of it as it has room for.
#[derive(Drop)]
pub struct LockedLine<W> {
    lock: Mutex<LiveLine<W>>,
    board: Mutex<Board>,
    /// Where those wait whose frame is under way.
    back: Condvar,
}

impl<W: Wire> LockedLine<W> {
    /// This line under a lock.
    pub fn new(line: LiveLine<W>) -> LockedLine<W> {
        let board = Board::new(*line.wire.stations(), line.wire.room());
        LockedLine {
            lock: Mutex::new(line),
            board: Mutex::new(board),
            back: Condvar::new(),
        }
    }

    /// The line, for a device.
    pub fn shared<'a, R: Wait>(&'a self, rt: &'a R) -> SharedLine<'a, R, W> {
        SharedLine {
            rt,
            lock: &self.lock,
            board: &self.board,
            back: &self.back,
        }
    }

    /// Why the line has stopped, if it has.
    pub fn reason<R: Wait>(&self, rt: &R) -> Option<StopReason> {
        self.lock.lock(rt).reason()
    }

    /// What was seen of the slaves.
    pub fn seen<R: Wait>(&self, rt: &R) -> LineSeen {
        self.lock.lock(rt).seen()
    }

    /// The line, as work on it ends.
    pub fn into_line(self) -> LiveLine<W> {
        self.lock.into_inner()
    }
}

/// A line that several devices share. One frame takes the datagrams of all that wait for it, as far as it has room: a message to a master that
/// lends the wire has as much as that carries.
#[derive(Drop)]
pub struct SharedLine<'a, R: Wait, W> {
    rt: &'a R,
    lock: &'a Mutex<LiveLine<W>>,
    board: &'a Mutex<Board>,
    back: &'a Condvar,
}

impl<'a, R: Wait, W> Copy for SharedLine<'a, R, W> {}

impl<'a, R: Wait, W> Clone for SharedLine<'a, R, W> {
    ghost use Rattle.std.specs.Prelude.{⊤};

    ghost is_infallible = { λ _. ⊤ };

    fn clone(&self) -> Result<Self, AllocError> {
        Ok(*self)
    }
}

impl<'a, R: Wait, W: Wire> SharedLine<'a, R, W> {
    /// Puts down the datagram of this slave, if a line may have it. Returns whether it stands there now.
    fn puts(&self, slave: usize, order: &Order) -> bool
        ensures { IsTrue result → slave < 64 }
    {
        if slave >= 64 {
            return false;
        }
        self.board.lock(self.rt).put(slave, *order)
    }

    /// The answer to the datagram of this slave, which was put down: it comes with another one's frame, or a frame of all that waits is sent.
    fn join(&self, slave: usize, about: (u16, Last)) -> Option<Answer>
        requires { slave < 64 }
    {
        let mut board = self
            .back
            .wait_while(self.rt, self.board.lock(self.rt), |board| {
                board.is_waiting(slave)
            });
        if board.is_answered(slave) {
            return board.take(slave);
        }
        let frame = board.collect(slave);
        drop(board);
        self.carry(frame, about);
        self.board.lock(self.rt).take(slave)
    }

    /// Sends a frame, puts the answers down, and wakes those who wait.
    fn carry(&self, frame: Frame, about: (u16, Last))
        requires { OnlyEeprom frame }
    {
        let carried = self.lock.lock(self.rt).pass_all(frame, about);
        self.board.lock(self.rt).answer(&carried);
        self.back.notify_all();
    }
}

impl<'a, R: Wait, W: Wire> Reach for SharedLine<'a, R, W> {
    fn pass(&mut self, half: &RomHalf, order: &Order) -> Option<Answer> {
        let about = unanswered(order);
        let slave = usize::from(about.0);
        if self.puts(slave, order) {
            return self.join(slave, about);
        }
        self.lock.lock(self.rt).pass(half, order)
    }

    fn reason(&self) -> Option<StopReason> {
        self.lock.lock(self.rt).reason()
    }

    fn seen(&self) -> LineSeen {
        self.lock.lock(self.rt).seen()
    }

    fn note(&mut self, slave: usize, word: Option<OpenWord>) {
        self.lock.lock(self.rt).note(slave, word);
    }

    fn stop(&mut self, reason: StopReason, about: Option<(u16, Last)>) {
        self.lock.lock(self.rt).stop(reason, about);
    }
}
