//! What the devices of a shared line have to send. One frame takes all that waits.
ghost use Rattle.std.specs.Prelude.{◌≡◌, ◌≢◌, ◌↔◌, ℕ, ◌<◌, true, false, replicate, IsTrue};
ghost use Rattle.std.specs.List.{All};
ghost use Rattle.site_wire.specs.declared.joining.Stage.TheVariants.{Vacant, Waits};
ghost use Rattle.site_wire.specs.Orders.{datagram_of};
ghost use Rattle.site_wire.specs.Joining.{Collects, ComesToRest, ReportedOf, Waited, WaitsNoMore, answer_in, is_at_end, stage_of};
ghost use Rattle.wire_frames.specs.Room.{Fits};
ghost use Rattle.wire_frames.specs.Sending.{OnlyEeprom};

use crate::answers::Answer;
use crate::order::Order;
use ecat_frame::Frame;
use wire_frames::{Carried, Room, Stations};

/// How many slaves a line has at most.
const SLAVES: usize = 64;

/// How far the datagram of a slave is.
#[derive(Clone, Copy)]
enum Stage {
    /// There is none.
    Vacant,
    /// It waits for a frame.
    Waits(Order),
    /// It is the one at this place of a frame under way, in which it went to this address.
    Sent(Order, u32, usize),
    /// Its frame is back, with this answer. None where it isn't.
    Answered(Option<Answer>),
}

/// What came back of a datagram that went to this address at this place of a frame. None where the frame didn't come back.
fn reported_of(
    order: &Order,
    address: u32,
    place: usize,
    carried: &Option<Carried>,
) -> Option<Answer>
    ensures { ReportedOf (datagram_of order.now) address place carried.now result }
{
    match carried {
        Some(back) => {
            return Answer::at(order.datagram(), address, &back.frame, place, back.again);
        }
        None => return None,
    }
}

/// What the devices of a line have to send, one datagram for each slave.
#[derive(Drop)]
pub(crate) struct Board {
    stages: [Stage; SLAVES],
    /// The station addresses of the slaves.
    stations: Stations,
    /// How much a frame may hold.
    room: Room,
    /// Whether a frame is under way.
    is_sending: bool,
}

impl Board {
    /// A board on which nothing stands, for a line with these station addresses, on which a frame may hold so much.
    pub(crate) fn new(stations: Stations, room: Room) -> Board
        ensures stations { result.stations ≡ stations }
        ensures room { result.room ≡ room }
        ensures vacant { result.stages ≡ replicate 64 Vacant }
    {
        Board {
            stages: [Stage::Vacant; SLAVES],
            stations,
            room,
            is_sending: false,
        }
    }

    /// Puts down a datagram of this slave's device. Returns whether there was none yet.
    pub(crate) fn put(&mut self, slave: usize, order: Order) -> bool
        requires { slave < 64 }
        ensures vacant { IsTrue result ↔ (stage_of self.old.stages slave ≡ Vacant) }
        ensures put { IsTrue result → stage_of self.new.stages slave ≡ Waits order }
        ensures others { (other : ℕ) → other ≢ slave → stage_of self.new.stages other ≡ stage_of self.old.stages other }
        ensures stations { self.new.stations ≡ self.old.stations }
    {
        match self.stages[slave] {
            Stage::Vacant => {
                self.stages[slave] = Stage::Waits(order);
                true
            }
            _ => false,
        }
    }

    /// The datagram of this slave is at an end: gives its answer, if it has one.
    pub(crate) fn take(&mut self, slave: usize) -> Option<Answer>
        requires { slave < 64 }
        ensures answer { result ≡ answer_in (stage_of self.old.stages slave) }
        ensures vacant { stage_of self.new.stages slave ≡ Vacant }
        ensures others { (other : ℕ) → other ≢ slave → stage_of self.new.stages other ≡ stage_of self.old.stages other }
        ensures stations { self.new.stations ≡ self.old.stations }
    {
        let stage = self.stages[slave];
        self.stages[slave] = Stage::Vacant;
        match stage {
            Stage::Answered(answer) => answer,
            _ => None,
        }
    }

    /// Whether the datagram of this slave has to wait: another frame is under way, and its own isn't back.
    pub(crate) fn is_waiting(&self, slave: usize) -> bool
        requires { slave < 64 }
        ensures { IsTrue result ↔ (IsTrue self.now.is_sending × ¬ IsTrue (is_at_end (stage_of self.now.stages slave))) }
    {
        self.is_sending && !self.is_answered(slave)
    }

    /// Whether the frame with the datagram of this slave is at an end.
    pub(crate) fn is_answered(&self, slave: usize) -> bool
        requires { slave < 64 }
        ensures { result ≡ is_at_end (stage_of self.now.stages slave) }
    {
        matches!(self.stages[slave], Stage::Answered(_))
    }

    /// A frame of what waits, as far as there is room, of the slaves from this one on, as if slave 0 came after the last one. It is under way.
    pub(crate) fn collect(&mut self, first: usize) -> Frame
        ensures only { OnlyEeprom result }
        ensures waiting { All (Waited self.old.stations.by_slave self.old.stages) result }
        ensures fits { Fits self.old.room result }
        ensures sending { self.new.is_sending ≡ true }
        ensures stations { self.new.stations ≡ self.old.stations }
    {
        let mut frame = Frame::new();
        for turn in 0..SLAVES {
            self.collect_one(first.wrapping_add(turn) % SLAVES, &mut frame);
        }
        self.is_sending = true;
        frame
    }

    /// How far the datagram of this slave is.
    fn stage(&self, slave: usize) -> Stage
        requires { slave < 64 }
        ensures { result ≡ stage_of self.now.stages slave }
    {
        self.stages[slave]
    }

    /// Puts the datagram of this slave into the frame, if it waits and there is room.
    #[tactic(auto, using(crate::proofs::Boards::leaves_it))]
    fn collect_one(&mut self, slave: usize, frame: &mut Frame)
        requires slave { slave < 64 }
        requires only { OnlyEeprom frame.old }
        requires fits { Fits self.old.room frame.old }
        ensures only { OnlyEeprom frame.new }
        ensures fits { Fits self.old.room frame.new }
        ensures same { self.new.room ≡ self.old.room }
        ensures stations { self.new.stations ≡ self.old.stations }
        ensures took { Collects self.old.stations.by_slave slave self.old.stages self.new.stages frame.old frame.new }
        ensures fewer { (other : ℕ) → WaitsNoMore (stage_of self.old.stages other) (stage_of self.new.stages other) }
    {
        if let Stage::Waits(order) = self.stage(slave) {
            if !self.room.takes(frame, order.length as u16) {
                return;
            }
            let address = self.stations.translated(order.datagram());
            let place = frame.count();
            if order.put_in(frame, address) {
                self.stages[slave] = Stage::Sent(order, address, place);
            }
        }
    }

    /// Each datagram of the frame under way has its answer in the one that came back, if it did.
    pub(crate) fn answer(&mut self, carried: &Option<Carried>)
        ensures sending { self.new.is_sending ≡ false }
        ensures rest { (slave : ℕ) → slave < 64 → ComesToRest carried.now (stage_of self.old.stages slave) (stage_of self.new.stages slave) }
        ensures stations { self.new.stations ≡ self.old.stations }
    {
        self.is_sending = false;
        for slave in 0..SLAVES {
            self.answer_one(slave, carried);
        }
    }

    /// The same of the datagram of this slave.
    #[tactic(auto, using(crate::proofs::Boards::comes_to, crate::proofs::Boards::stays_at))]
    fn answer_one(&mut self, slave: usize, carried: &Option<Carried>)
        requires { slave < 64 }
        ensures sending { self.new.is_sending ≡ self.old.is_sending }
        ensures rest { ComesToRest carried.now (stage_of self.old.stages slave) (stage_of self.new.stages slave) }
        ensures others { (other : ℕ) → other ≢ slave → stage_of self.new.stages other ≡ stage_of self.old.stages other }
        ensures stations { self.new.stations ≡ self.old.stations }
    {
        match self.stages[slave] {
            Stage::Sent(order, address, place) => {
                let answer = reported_of(&order, address, place, carried);
                self.stages[slave] = Stage::Answered(answer);
            }
            Stage::Vacant | Stage::Waits(_) | Stage::Answered(_) => {}
        }
    }
}
