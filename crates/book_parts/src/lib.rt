//! The parts of the running book: where batches stand in the journal, what remains to be written to each slave, and the accepted commands.
#![tactic(auto)]

mod area;
mod ledger;
mod line;
mod naming;
mod opening;
mod reserving;
mod retiring;
mod shown;
mod sizes;
mod spot;
mod unsettled;
mod validating;
mod work;

pub use area::Area;
pub use ledger::Ledger;
pub use line::LineWork;
pub use shown::Shown;
pub use spot::Spot;
pub use validating::entry_bytes;
pub use work::Operation;
