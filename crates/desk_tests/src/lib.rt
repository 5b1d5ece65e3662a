//! Tests of a desk, and of a line in memory that threads serve from one, where a part of it fails or loses power.
#![tactic(auto)]

#[cfg(test)]
mod alone;
#[cfg(test)]
mod line;
#[cfg(test)]
mod meeting;
#[cfg(test)]
mod memory;
#[cfg(test)]
mod report;
#[cfg(test)]
mod served;
#[cfg(test)]
mod session;
#[cfg(test)]
mod sites;
#[cfg(test)]
mod stops;
#[cfg(test)]
mod submitter;
#[cfg(test)]
mod turns;
