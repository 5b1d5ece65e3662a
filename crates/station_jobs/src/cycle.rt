//! The jobs of the process data thread.

ghost use Rattle.std.specs.Prelude.{◌≡◌, length, replicate};

use arrayvec::ArrayVec;
use cyclic::CycleFault;
use sii_image::{IMAGE_BYTES, Plan};

/// One process data cycle to do.
#[derive(Drop)]
pub struct CycleJob {
    /// The process image to exchange.
    pub plan: Plan,
    /// The outputs: a zero byte for each byte of outputs of the image. The station moves nothing that hangs on the line.
    pub outputs: ArrayVec<u8, IMAGE_BYTES>,
    /// As many output bytes as the image has.
    pub ghost entire: { length outputs.items ≡ plan.image.outputs },
    /// Each of them is zero.
    pub ghost blank: { outputs.items ≡ replicate plan.image.outputs 0 },
}

/// The outcome of a process data cycle.
#[derive(Drop)]
pub struct CycleOutcome {
    /// The inputs that the slaves sent: as many bytes as the image has inputs, and all zero after a fault.
    pub inputs: ArrayVec<u8, IMAGE_BYTES>,
    /// The working counter, or why the line wasn't configured or the process data not exchanged. 0 for an image without bytes.
    pub result: Result<u16, CycleFault>,
}

/// What a log keeps of a process data cycle.
#[derive(Clone, Copy, PartialEq, Eq, Drop)]
pub struct CycleNote {
    /// The prefix of the plan: its image is that of the contents after this many commands.
    pub prefix: u64,
    /// How many bytes its process image has, outputs and inputs together.
    pub size: usize,
}
