//! The station by threads: the book behind one lock, a thread for the disk, for each slave and for process data, and closing.
#![tactic(auto)]

mod client;
mod closing;
mod desk;
mod patience;
mod serving;
mod sides;
mod sites;
mod starting;
mod waking;

pub use client::Client;
pub use closing::{CloseFault, Closed, Ends, NotClosed, close};
pub use desk::Desk;
pub use desk_book::{
    BlankLedger, Call, Heard, Recalled, Receipt, Refusals, Refused, Served, Share, ShareFault,
    Ticket, Tickets, Unacknowledged,
};
pub use serving::serve_line;
pub use sides::{CycleSide, DiskSide, RomSide};
pub use sites::{Sites, own_parts};
