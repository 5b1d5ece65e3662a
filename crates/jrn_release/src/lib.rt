//! A journal without what its live batches have for one slave.
#![tactic(auto)]

mod area;
mod entries;
mod release;

pub use release::without_slave;
