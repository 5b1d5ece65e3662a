//! What a station does with its disk, on any site that owns one: it formats a journal, reads it, and carries out the book's actions. Each
//! contract says what a power cut may leave on the way. After it the laws of a station on a site: what each device call leaves, and that a
//! recovery ends and what it has reached then. A law is a function with an empty body: its contract is the theorem.
#![tactic(auto)]

mod action;
pub mod ending;
mod fault;
mod formatting;
pub mod going;
pub mod laws;
pub mod readiness;
mod reading;
pub mod recovering;
pub mod running;
pub mod starting;

pub use action::do_action;
pub use fault::ReadFault;
pub use formatting::format;
pub use reading::read_journal;
