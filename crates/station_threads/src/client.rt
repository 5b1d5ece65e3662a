//! The client that submits commands while a line is served.

use crate::{Desk, Refusals, Tickets};
use std::sync::Wait;
use std::thread::Threads;

/// Submits commands, and waits for them, while the line is served.
pub trait Client<T: Tickets, R: Refusals> {
    /// Drives the desk, on the thread that calls `serve_line`. What it submits is carried out meanwhile, and other threads may submit
    /// too. Once it returns, the desk accepts no more commands.
    fn drive<W: Wait + Threads + Sync>(&mut self, rt: &W, desk: &Desk<T, R>);
}
