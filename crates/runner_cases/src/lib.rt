//! What the tests of a station share: lines in memory as rows of a table, what goes wrong on them, calls of a station and what they must give,
//! and a run of three commands.
#![tactic(auto)]

pub mod asks;
pub mod bytes;
pub mod dice;
pub mod line;
pub mod runs;
pub mod sites;
pub mod stations;
