//! Opening: what comes after each of its datagrams.

ghost use Rattle.std.specs.Prelude.{◌≡◌};
ghost use Rattle.rom_steps.specs.After.{cleared, forced, freed, waited_to_clear};

use crate::back::Rested;
use crate::limits::{POLLS, TRIES};
use crate::step::{End, Step};

/// After the datagram that forces ECAT access.
#[tactic(auto, using(crate::proofs::Again::again_none, crate::proofs::Again::again_more))]
pub(crate) fn forced(more: u32, counted: bool) -> Step
    ensures { result ≡ forced more counted }
{
    if counted {
        return Step::Frees { more: TRIES - 1 };
    }
    if more == 0 {
        return Step::Ended(End::Dead);
    }
    Step::Forces { more: more - 1 }
}

/// After the datagram that ends forcing.
#[tactic(auto, using(crate::proofs::Again::again_none, crate::proofs::Again::again_more))]
pub(crate) fn freed(more: u32, counted: bool) -> Step
    ensures { result ≡ freed more counted }
{
    if counted {
        return Step::WaitsToClear { more: POLLS - 1 };
    }
    if more == 0 {
        return Step::Ended(End::Dead);
    }
    Step::Frees { more: more - 1 }
}

/// After a poll.
#[tactic(auto, using(crate::proofs::Again::again_none, crate::proofs::Again::again_more))]
pub(crate) fn waited_to_clear(more: u32, found: Option<Rested>) -> Step
    ensures { result ≡ waited_to_clear more found }
{
    match found {
        Some(_) => Step::Clears { more: TRIES - 1 },
        None => {
            if more == 0 {
                return Step::Ended(End::Dead);
            }
            Step::WaitsToClear { more: more - 1 }
        }
    }
}

/// After the datagram that clears errors.
#[tactic(auto, using(crate::proofs::Again::again_none, crate::proofs::Again::again_more))]
pub(crate) fn cleared(more: u32, counted: bool) -> Step
    ensures { result ≡ cleared more counted }
{
    if counted {
        return Step::Ended(End::Opened);
    }
    if more == 0 {
        return Step::Ended(End::Dead);
    }
    Step::Clears { more: more - 1 }
}
