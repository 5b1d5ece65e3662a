//! How the commands of a script were answered.

ghost use Rattle.std.specs.Prelude.{◌≡◌, ◌≢◌};
ghost use Rattle.station_line.specs.Answers.{exit_status};

use station_files::{ExitStatus, Refused};
use station_listing::Code;

/// How the commands of a script were answered. The worst answer counts.
#[derive(Clone, Copy)]
pub enum Answered {
    /// All were accepted.
    AllAccepted,
    /// Some were refused.
    SomeRefused,
    /// Some were refused for want of memory.
    OutOfMemory,
}

impl Answered {
    /// The same with one more answer, which refuses a command so.
    pub(crate) fn and_refused(self, refused: Refused) -> Answered
        ensures { result ≢ Answered.AllAccepted }
    {
        match (self, refused.code) {
            (Answered::OutOfMemory, _) | (_, Code::Memory) => Answered::OutOfMemory,
            _ => Answered::SomeRefused,
        }
    }

    /// The exit status that these answers give.
    pub fn status(self) -> ExitStatus
        ensures { result ≡ exit_status self }
    {
        match self {
            Answered::AllAccepted => ExitStatus::Done,
            Answered::SomeRefused => ExitStatus::Refused,
            Answered::OutOfMemory => ExitStatus::Memory,
        }
    }
}
