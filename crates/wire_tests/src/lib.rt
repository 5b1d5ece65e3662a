//! Tests of a line on a wire in memory: frames that are lost, doubled, late and falsified, or stand after others' frames, what a capture of
//! them holds, slaves with the quirks of real ones, slaves that lose their power, and a master that lends its wire.
#![tactic(auto)]

#[cfg(test)]
mod bench;
#[cfg(test)]
mod beside;
#[cfg(test)]
mod bringing_up;
#[cfg(test)]
mod captured_wire;
#[cfg(test)]
mod handing;
#[cfg(test)]
mod loading;
#[cfg(test)]
mod master;
#[cfg(test)]
mod mishaps;
#[cfg(test)]
mod quirks;
#[cfg(test)]
mod side_by_side;
#[cfg(test)]
mod sizes;
#[cfg(test)]
mod time_outs;
#[cfg(test)]
mod uncounted;
