//! Tests of a station on a wire in memory that loses, doubles, delays or falsifies frames, on one thread and by threads.
#![tactic(auto)]

#[cfg(test)]
mod joined;
#[cfg(test)]
mod uncounted;
#[cfg(test)]
mod wire_runs;
#[cfg(test)]
mod wire_threads;
#[cfg(test)]
mod wires;
