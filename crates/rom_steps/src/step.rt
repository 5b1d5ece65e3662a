//! How far a word access is.

ghost use Rattle.std.specs.Prelude.{◌≡◌};
ghost use Rattle.site_core.specs.declared.fault.DeviceFault.TheVariants as device;
ghost use Rattle.rom_steps.specs.Remaining.{Begins, left, IssueCourse, OpenCourse, ReadCourse, SettleCourse, WaitCourse};

use crate::back::Rested;
use crate::limits::{POLLS, TRIES};
use site_core::{DeviceFault, Issued, Settled};

/// The line has stopped for good, as when its link is down or the power is cut: the only fault that ends an access. A lost frame doesn't.
#[derive(Clone, Copy)]
pub struct Stop;

impl From<Stop> for DeviceFault {
    ghost from_gives = { λ _ fault. fault ≡ device.Stopped };

    fn from(_: Stop) -> Self {
        DeviceFault::Stopped
    }
}

/// How a word access ended.
#[derive(Clone, Copy)]
pub enum End {
    /// The slave is open: idle, without an error.
    Opened,
    /// A slave that was waited for is idle, and its last command ended so.
    Idle(Rested),
    /// The word that was to be read, and the next one.
    Read { first: u16, second: u16 },
    /// A word was issued, with this outcome.
    Issued(Issued),
    /// The slave was waited for after a word that was issued, with this outcome.
    Settled(Settled),
    /// The slave was given up in an opening, a waiting or a reading: a datagram was sent three times and never counted, three tries to
    /// read the words failed, or the slave wasn't seen idle in 10,000 polls.
    Dead,
}

/// How far a word access is: what is sent next, and how often.
///
/// `more` is the number of times that it is sent again at most, and `tries` the number of tries to read that are left after this one.
#[derive(Clone, Copy)]
pub enum Step {
    /// Opening: the datagram that forces ECAT access.
    Forces { more: u32 },
    /// Opening: the datagram that ends that again, so that access is free.
    Frees { more: u32 },
    /// Opening: polls.
    WaitsToClear { more: u32 },
    /// Opening: the datagram that clears errors.
    Clears { more: u32 },
    /// Waiting: polls.
    Waits { more: u32 },
    /// Reading: the command that reads a word and the next one.
    Commands { word: u16, tries: u32 },
    /// Reading: polls after that command.
    WaitsToFetch { word: u16, tries: u32, more: u32 },
    /// Reading: the datagram that fetches the words.
    Fetches { word: u16, tries: u32 },
    /// Issuing: the command that writes a word.
    Issues { word: u16, value: u16 },
    /// Settling: polls.
    WaitsToSettle { taken: bool, more: u32 },
    /// Settling: the datagram that clears errors, since the word isn't known to be written.
    Tidies,
    /// Nothing more is sent.
    Ended(End),
    /// The line has stopped for good. Nothing more is sent.
    Stopped,
}

/// Begins to open a slave: to take its EEPROM from the PDI, to wait until it is idle, and to clear its errors. It ends with `Opened` or
/// `Dead`, after 10,009 datagrams at most.
pub fn begin_opening() -> Step
    ensures course { Begins result OpenCourse }
    ensures bounded { left result ≡ 10009 }
{
    Step::Forces { more: TRIES - 1 }
}

/// Begins to wait until a slave is idle. It ends with `Idle` or `Dead`, after 10,000 datagrams at most.
pub fn begin_waiting() -> Step
    ensures course { Begins result WaitCourse }
    ensures bounded { left result ≡ 10000 }
{
    Step::Waits { more: POLLS - 1 }
}

/// Begins to read a word and the next one. It ends with `Read` or `Dead`, after 30,006 datagrams at most.
pub fn begin_reading(word: u16) -> Step
    ensures course { Begins result (λ slave. ReadCourse slave word) }
    ensures bounded { left result ≡ 30006 }
{
    Step::Commands {
        word,
        tries: TRIES - 1,
    }
}

/// Begins to issue a word: to send the command that writes it, once. It ends with `Issued`, after one datagram.
pub fn begin_issue(word: u16, value: u16) -> Step
    ensures course { Begins result (λ slave. IssueCourse slave word value) }
    ensures bounded { left result ≡ 1 }
{
    Step::Issues { word, value }
}

/// Begins to wait for a word that was issued. `taken` says whether that ended with `Taken`. It ends with `Settled`, after 10,001
/// datagrams at most.
pub fn begin_settling(taken: bool) -> Step
    ensures course { Begins result (λ slave. SettleCourse slave taken) }
    ensures bounded { left result ≡ 10001 }
{
    Step::WaitsToSettle {
        taken,
        more: POLLS - 1,
    }
}
