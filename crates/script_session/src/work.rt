//! What is asked of a desk.

use sii_edit::Command;

/// The commands of a script, and what is reported of them.
#[derive(Drop)]
pub struct Work {
    /// The commands, in their order.
    pub commands: Vec<Command>,
    /// Whether it is printed as it happens how many of them are durable, and how many are settled.
    pub tells_events: bool,
}

/// What is asked of a desk, and whether process data are exchanged meanwhile.
#[derive(Drop)]
pub struct Task {
    /// The commands.
    pub work: Work,
    /// Whether there is a thread for process data. It exchanges them with process halves in memory, which are just switched on.
    pub turns: bool,
}
