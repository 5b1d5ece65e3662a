ghost use Rattle.std.specs.Prelude.{◌≡◌, length};

use crate::book::Core;
use book_model::Status;

impl Core {
    ghost use Rattle.book_model.specs.Reading.{applied, status};
    ghost use Rattle.book_core.specs.Settled.{is_settled};

    /// How many accepted commands are settled, from the first on without a gap; 0 until all entries found at the open are settled.
    pub fn applied(&self) -> u64
        ensures { result ≡ applied self.now }
    {
        match self.work.unsettled() {
            Some(number) => number,
            None => self.ledger.durable(),
        }
    }

    /// Whether everything is settled that was live at the open or has become durable since.
    pub fn is_settled(&self) -> bool
        ensures { result ≡ is_settled self.now }
    {
        self.work.unsettled().is_none()
    }

    /// Whether the book was finished: it accepts no more commands.
    pub fn is_finished(&self) -> bool
        ensures { result ≡ self.now.is_finished }
    {
        self.is_finished
    }

    /// The length of the journal's area in bytes.
    pub fn capacity(&self) -> u32
        ensures { result ≡ self.now.capacity }
    {
        self.area.capacity()
    }

    /// How many commands are accepted.
    pub fn accepted_count(&self) -> u64
        ensures { result ≡ length self.now.accepted }
    {
        self.ledger.len()
    }

    /// How many commands are durable. Unlike `status`, this looks at no slave.
    pub fn durable(&self) -> u64
        ensures { result ≡ self.now.durable }
    {
        self.ledger.durable()
    }

    /// How many commands are accepted, durable and settled, and how many bytes are live.
    pub fn status(&self) -> Status
        ensures { result ≡ status self.now }
    {
        Status {
            accepted: self.ledger.len(),
            durable: self.ledger.durable(),
            settled: self.applied(),
            live_bytes: self.live_bytes(),
        }
    }
}
