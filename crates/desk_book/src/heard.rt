//! The book's answer to a dispatch.

/// What the book answers when it is asked for a job.
#[derive(Drop)]
pub enum Heard<J> {
    /// A job to do.
    Work(J),
    /// No job now, but there may be one later.
    Nothing,
    /// Memory was refused, and nothing has changed.
    NoMemory,
    /// No job, now or later.
    Stop,
}
