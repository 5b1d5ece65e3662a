//! Settling: what comes after each of its datagrams.

ghost use Rattle.std.specs.Prelude.{◌≡◌};
ghost use Rattle.rom_steps.specs.After.{rested_well, waited_to_settle};

use crate::back::Rested;
use crate::step::{End, Step};
use site_core::Settled;

/// After a poll that saw the slave idle without an error.
fn rested_well(taken: bool) -> Step
    ensures { result ≡ rested_well taken }
{
    if taken {
        return Step::Ended(End::Settled(Settled::Written));
    }
    Step::Tidies
}

/// After a poll.
#[tactic(auto, using(crate::proofs::Again::again_none, crate::proofs::Again::again_more))]
pub(crate) fn waited_to_settle(taken: bool, more: u32, found: Option<Rested>) -> Step
    ensures { result ≡ waited_to_settle taken more found }
{
    match found {
        Some(Rested::Well) => rested_well(taken),
        Some(Rested::Failed) => Step::Tidies,
        None => {
            if more == 0 {
                return Step::Ended(End::Settled(Settled::Dead));
            }
            Step::WaitsToSettle {
                taken,
                more: more - 1,
            }
        }
    }
}
