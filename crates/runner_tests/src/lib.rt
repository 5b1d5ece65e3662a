//! Tests of a station on one thread and of its recovery, through public calls, on lines in memory that fail or lose power. And of a desk: whom
//! each change wakes.
#![tactic(auto)]

#[cfg(test)]
mod damage;
#[cfg(test)]
mod failures;
#[cfg(test)]
mod growths;
#[cfg(test)]
mod halves;
#[cfg(test)]
mod journals;
#[cfg(test)]
mod scripts;
#[cfg(test)]
mod stops;
#[cfg(test)]
mod story;
#[cfg(test)]
mod wakes;
