//! Tests of what no command line shows of an EEPROM and of a journal: copies, chains of categories, contents that are written again, layouts
//! under changes, journals that are cut off, and the codes that the calls of the library for C answer at their limits. And of frames and
//! slaves, and of what is done with them: access to EEPROMs, process data, and a line in memory.
#![tactic(auto)]

#[cfg(test)]
mod chains;
#[cfg(test)]
mod contents;
#[cfg(test)]
mod copies;
#[cfg(test)]
mod devices;
#[cfg(test)]
mod history;
#[cfg(test)]
mod image_calls;
#[cfg(test)]
mod journal;
#[cfg(test)]
mod layouts;
#[cfg(test)]
mod step_calls;
#[cfg(test)]
mod tests;
