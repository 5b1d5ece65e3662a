//! Tests of the book of commands and of the running world, by public calls alone.
#![tactic(auto)]

#[cfg(test)]
mod acts;
#[cfg(test)]
mod asks;
#[cfg(test)]
mod contents;
#[cfg(test)]
mod dice;
#[cfg(test)]
mod disk;
#[cfg(test)]
mod events;
#[cfg(test)]
mod kept;
#[cfg(test)]
mod line;
#[cfg(test)]
mod random;
#[cfg(test)]
mod rom;
#[cfg(test)]
mod tests;
#[cfg(test)]
mod worlds;
