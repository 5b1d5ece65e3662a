//! What a desk's lock protects: the book of commands with its history, the ledgers of its tickets and refusals, and the jobs that were
//! handed out.
//!
//! The history lists each call of the book since the desk was made, with its answer. Only contracts read it: they state by it what a desk
//! is closed with.
#![tactic(auto)]

mod auditing;
mod call;
mod counting;
mod handing;
mod heard;
mod naming;
mod outcome;
mod pool;
mod reading;
mod served;
mod share;
mod slaves;
mod submitting;
mod ticket;
mod turns;

pub use call::{Call, Recalled};
pub use heard::Heard;
pub use naming::{BlankLedger, Refusals, Tickets};
pub use served::Served;
pub use share::Share;
pub use ticket::{Receipt, Refused, ShareFault, Ticket, Unacknowledged};
pub use turns::note_of;
