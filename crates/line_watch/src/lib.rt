//! What watches a line at work: a capture of the frames on its wire, which a dissector reads, and the progress, as one line on a terminal. They
//! see the work through a device or a wire around another, through which it passes.
#![tactic(auto)]

mod capture;
mod observed_wire;
mod pcap;
mod progress;
mod stage;
mod watched_device;

pub use capture::{BeginFault, Capture};
pub use observed_wire::ObservedWire;
pub use pcap::Way;
pub use progress::{Cleared, Progress, Watch};
pub use watched_device::Watched;
