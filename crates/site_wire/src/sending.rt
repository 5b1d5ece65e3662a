// What a device sends to the slaves of its line. Each datagram is noted: the contract of `Sender::pass` says what was sent and what came back, in
// which order, and how often the line passed it. What goes out over a wire for that is said by `LiveLine::pass`.
ghost use Rattle.std.specs.Prelude.{◌≡◌, ◌∷◌, [], true, false, length};
ghost use Rattle.std.specs.Option.{option_map};
ghost use Rattle.site_wire.specs.Due.{IsDue, begins_work};
ghost use Rattle.site_wire.specs.Answering.{found_of, IsUncounted};
ghost use Rattle.site_wire.specs.Orders.{datagram_of};
ghost use Rattle.site_wire.specs.Reaching.{Asks, MayAsk};
ghost use Rattle.site_wire.specs.declared.sending.Resend.TheVariants.{Never, AtOnce, AfterPolls};
ghost use Rattle.site_wire.specs.Sent.{exchanged, Notes, Sends};

use crate::answers::{Answer, is_answer};
use crate::fitting::begins_work;
use crate::order::Order;
use crate::reach::Reach;
use esc_model::RomHalf;
use sii_words::History;
use std::mem;
use std::snapshot::Snapshot;

/// A datagram that was sent until it came back, three times at most, and again where no slave counted it, and what came back last, if anything did.
/// In contracts alone: it takes no memory.
#[derive(Drop)]
pub struct Exchange {
    order: Snapshot<Order>,
    answer: Snapshot<Option<Answer>>,
}

/// All that was sent on a line, in order.
#[derive(Drop)]
struct SentLog {
    /// In contracts alone: it takes no memory.
    all: History<Exchange>,
    /// Whether it is empty.
    is_empty: bool,
    ghost empty: { is_empty ≡ true → length all ≡ 0 },
}

/// A line, and what was sent on it.
#[derive(Drop)]
pub(crate) struct Sender<L> {
    pub(crate) line: L,
    log: SentLog,
}

impl SentLog {
    /// Nothing was sent yet.
    fn new() -> SentLog
        ensures { result.all ≡ [] }
    {
        SentLog {
            all: History::new(),
            is_empty: true,
        }
    }

    /// Whether nothing was sent.
    fn is_empty(&self) -> bool
        ensures is { result ≡ self.now.is_empty }
        ensures empty { result ≡ true → self.now.all ≡ [] }
    {
        self.is_empty
    }

    /// Notes that this datagram was sent, and what came back.
    fn note(&mut self, order: &Order, answer: &Option<Answer>)
        ensures { Notes self.old.all order.now answer.now self.new.all }
    {
        self.is_empty = false;
        let exchange = Exchange {
            order: Snapshot::of(order),
            answer: Snapshot::of(answer),
        };
        self.all.note(&exchange);
    }

    /// All of it.
    fn into_all(self) -> History<Exchange>
        ensures { result ≡ self.all }
    {
        let SentLog { all, .. } = self;
        all
    }
}

impl<L> Sender<L> {
    /// Nothing has been sent on this line yet.
    pub(crate) fn new(line: L) -> Sender<L>
        ensures sent { result.log.all ≡ [] }
        ensures line { result.line ≡ line }
    {
        Sender {
            line,
            log: SentLog::new(),
        }
    }

    /// Whether nothing was sent.
    pub(crate) fn is_unsent(&self) -> bool
        ensures is { result ≡ self.now.log.is_empty }
        ensures empty { result ≡ true → self.now.log.all ≡ [] }
    {
        self.log.is_empty()
    }

    /// All that was sent. It is then as one that has sent nothing yet.
    pub(crate) fn tell(&mut self) -> History<Exchange>
        ensures reported { result ≡ self.old.log.all }
        ensures sent { self.new.log.all ≡ [] }
    {
        let log = mem::replace(&mut self.log, SentLog::new());
        log.into_all()
    }
}

impl<L: Drop> Sender<L> {
    /// All that was sent.
    pub(crate) fn into_sent(self) -> History<Exchange>
        ensures { result ≡ self.log.all }
    {
        let Sender { log, .. } = self;
        log.into_all()
    }
}

/// Whether a datagram is sent again.
#[derive(Clone, Copy)]
enum Resend {
    /// It isn't: what came back isn't its answer, or a slave counted it.
    Never,
    /// At once: no slave counted it.
    AtOnce,
    /// Not before polls show the slave idle: no slave counted it, but one that took it all the same is busy.
    AfterPolls,
}

impl Resend {
    /// Whether this datagram is sent again, where this came back.
    fn of(order: &Order, answer: &Answer) -> Resend
        ensures never { result ≡ Never → ¬ IsUncounted (datagram_of order.now) answer.now }
        ensures at_once { result ≡ AtOnce → (IsUncounted (datagram_of order.now) answer.now) × (begins_work (datagram_of order.now) ≡ false) }
        ensures polls { result ≡ AfterPolls → (IsUncounted (datagram_of order.now) answer.now) × (begins_work (datagram_of order.now) ≡ true) }
    {
        let asked = order.datagram();
        if answer.counter != 0 || !is_answer(asked, answer) {
            return Resend::Never;
        }
        if begins_work(asked) {
            Resend::AfterPolls
        } else {
            Resend::AtOnce
        }
    }
}

impl<L: Reach> Sender<L> {
    /// What came back of this datagram, or what comes back as it is sent again.
    #[tactic(auto, using(crate::proofs::Asking::may_none, crate::proofs::Asking::may_never))]
    fn counted(&mut self, half: &RomHalf, order: &Order, answer: Option<Answer>) -> Option<Answer>
        requires { IsDue half.now (datagram_of order.now) }
        ensures log { self.new.log ≡ self.old.log }
        ensures asks { MayAsk L.passes (datagram_of order.now) self.old.line self.new.line answer result }
    {
        let found = answer?;
        match Resend::of(order, &found) {
            Resend::Never => return Some(found),
            Resend::AtOnce => {
                let next = self.line.pass(half, order)?;
                return Some(next.marked());
            }
            Resend::AfterPolls => return Some(found.marked()),
        }
    }

    /// Sends a datagram, as `Reach::pass` does; where no slave counts it, three times at most, but once if it begins work.
    pub(crate) fn pass(&mut self, half: &RomHalf, order: &Order) -> Option<Answer>
        requires { IsDue half.now (datagram_of order.now) }
        ensures sends { Sends self.old.log.all self.new.log.all (exchanged (datagram_of order.now) (option_map found_of result) ∷ []) }
        ensures asks { Asks L.passes (datagram_of order.now) self.old.line self.new.line result }
    {
        let first = self.line.pass(half, order);
        let second = self.counted(half, order, first);
        let answer = self.counted(half, order, second);
        self.log.note(order, &answer);
        answer
    }
}
