//! Waiting: what comes after each of its datagrams.

ghost use Rattle.std.specs.Prelude.{◌≡◌};
ghost use Rattle.rom_steps.specs.After.{waited};

use crate::back::Rested;
use crate::step::{End, Step};

/// After a poll.
#[tactic(auto, using(crate::proofs::Again::again_none, crate::proofs::Again::again_more))]
pub(crate) fn waited(more: u32, found: Option<Rested>) -> Step
    ensures { result ≡ waited more found }
{
    match found {
        Some(rested) => Step::Ended(End::Idle(rested)),
        None => {
            if more == 0 {
                return Step::Ended(End::Dead);
            }
            Step::Waits { more: more - 1 }
        }
    }
}
