//! Compares logs.

ghost use Rattle.std.specs.Prelude.{◌≡◌, ◌↔◌, IsTrue};

use crate::Assignment;
use book_model::{DiskNext, RomNext, RomOutcome};
use site_core::DeviceFault;

/// An action on the disk, with its outcome.
pub type DiskEntry = Assignment<DiskNext, Result<(), DeviceFault>>;

/// An issue or a settle of a slave, with its outcome.
pub type RomEntry = Assignment<RomNext, RomOutcome>;

/// Whether two actions on the disk are the same.
fn is_same_next(one: &DiskNext, other: &DiskNext) -> bool
    ensures { IsTrue result ↔ (one.now ≡ other.now) }
{
    match one {
        DiskNext::Write { at, bytes } => match other {
            DiskNext::Write { at: a, bytes: b } => at == a && bytes.as_slice() == b.as_slice(),
            _ => false,
        },
        DiskNext::Gate { at, closed } => match other {
            DiskNext::Gate { at: a, closed: b } => at == a && closed == b,
            _ => false,
        },
        DiskNext::Sync => matches!(other, DiskNext::Sync),
        DiskNext::Idle => matches!(other, DiskNext::Idle),
        DiskNext::Stop => matches!(other, DiskNext::Stop),
    }
}

/// Whether two actions on the disk are the same, with the same outcome.
fn is_same_action(one: &DiskEntry, other: &DiskEntry) -> bool
    ensures { IsTrue result ↔ (one.now ≡ other.now) }
{
    one.outcome == other.outcome && is_same_next(&one.job, &other.job)
}

/// Whether two jobs of a slave are the same, with the same outcome.
fn is_same_call(one: &RomEntry, other: &RomEntry) -> bool
    ensures { IsTrue result ↔ (one.now ≡ other.now) }
{
    one.job == other.job && one.outcome == other.outcome
}

/// Whether two logs have the same disk actions, in the same order and with the same outcomes.
pub fn are_same_actions(ones: &[DiskEntry], others: &[DiskEntry]) -> bool
    ensures { IsTrue result ↔ (ones.now ≡ others.now) }
{
    if ones.len() != others.len() {
        return false;
    }
    for i in 0..ones.len() {
        if !is_same_action(&ones[i], &others[i]) {
            return false;
        }
    }
    true
}

/// Whether two logs have the same issues and settles, in the same order and with the same outcomes.
pub fn are_same_calls(ones: &[RomEntry], others: &[RomEntry]) -> bool
    ensures { IsTrue result ↔ (ones.now ≡ others.now) }
{
    if ones.len() != others.len() {
        return false;
    }
    for i in 0..ones.len() {
        if !is_same_call(&ones[i], &others[i]) {
            return false;
        }
    }
    true
}
