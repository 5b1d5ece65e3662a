/// The progress of a book since it was opened.
#[derive(Clone, Copy, PartialEq, Eq)]
pub struct Status {
    /// The number of accepted commands.
    pub accepted: u64,
    /// How many of these are durable: their batches are live and synced.
    pub durable: u64,
    /// The length of their longest settled prefix: no word remains to be written for these commands.
    pub settled: u64,
    /// The length of the live batches in the journal, in bytes.
    pub live_bytes: u64,
}
