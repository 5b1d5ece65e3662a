//! The datagram that is sent next.

ghost use Rattle.std.specs.Prelude.{◌≡◌, ◌≤◌, ℕ, [], ◌∷◌, length, take, MatchOption, IfSome};
ghost use Rattle.rom_steps.specs.Remaining.{IsNext, IsOver, IsZeroAfter, pdu_to};

use crate::registers::{ACCESS, CONTENT, CONTROL, read_content, write_content};
use crate::step::Step;

/// A datagram that is to be sent to a slave, with a working counter of 0 (ETG.1000.4).
#[repr(C)]
#[derive(Clone, Copy)]
pub struct ToSend {
    /// The code of its command: 4 (configured address physical read) or 5 (configured address physical write).
    pub command: u8,
    /// The number of bytes of its content, 1 to 8.
    pub length: u8,
    /// The address of the register: ADO.
    pub register: u16,
    /// Its content, and 0 after it.
    pub content: [u8; 8],
}

/// The command configured address physical read.
const FPRD: u8 = 4;

/// The command configured address physical write.
const FPWR: u8 = 5;

#[tactic(auto, using(crate::proofs::Numbered::taken_length))]
fn reads(register: u16, count: u8) -> ToSend
    requires { count ≤ 8 }
    ensures long { length (take result.length result.content) ≡ result.length }
    ensures is { result ≡ record {
      command = 4;
      length = count;
      register = register;
      content = 0 ∷ 0 ∷ 0 ∷ 0 ∷ 0 ∷ 0 ∷ 0 ∷ 0 ∷ [];
    } }
{
    ToSend {
        command: FPRD,
        length: count,
        register,
        content: [0; 8],
    }
}

#[tactic(auto, using(crate::proofs::Numbered::taken_length))]
fn writes(register: u16, count: u8, content: [u8; 8]) -> ToSend
    requires { count ≤ 8 }
    ensures long { length (take result.length result.content) ≡ result.length }
    ensures is { result ≡ record { command = 5; length = count; register = register; content = content } }
{
    ToSend {
        command: FPWR,
        length: count,
        register,
        content,
    }
}

/// The datagram that is sent next; `None` where the access has ended.
pub fn next_of(step: Step) -> Option<ToSend>
    ensures next { MatchOption result (IsOver step) (λ datagram. (slave : ℕ) → IsNext slave step (pdu_to slave datagram)) }
    ensures long { IfSome result (λ datagram. length (take datagram.length datagram.content) ≡ datagram.length) }
    ensures after { IfSome result (λ datagram. IsZeroAfter datagram) }
{
    match step {
        Step::Forces { .. } => Some(writes(ACCESS, 1, [2, 0, 0, 0, 0, 0, 0, 0])),
        Step::Frees { .. } => Some(writes(ACCESS, 1, [0; 8])),
        Step::WaitsToClear { .. } => Some(reads(CONTROL, 2)),
        Step::Clears { .. } => Some(writes(CONTROL, 2, [0; 8])),
        Step::Waits { .. } => Some(reads(CONTROL, 2)),
        Step::Commands { word, .. } => Some(writes(CONTROL, 6, read_content(word))),
        Step::WaitsToFetch { .. } => Some(reads(CONTROL, 2)),
        Step::Fetches { .. } => Some(reads(CONTENT, 4)),
        Step::Issues { word, value } => Some(writes(CONTROL, 8, write_content(word, value))),
        Step::WaitsToSettle { .. } => Some(reads(CONTROL, 2)),
        Step::Tidies => Some(writes(CONTROL, 2, [0; 8])),
        Step::Ended(_) => None,
        Step::Stopped => None,
    }
}
