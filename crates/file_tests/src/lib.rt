//! What files in memory leave where the tests of the program cut the power or let a call fail, against what a file may hold by its definition; and
//! the files of a backup, of a slave that is given up, and of a capture.
#![tactic(auto)]

#[cfg(test)]
mod backups;
#[cfg(test)]
mod captures;
#[cfg(test)]
mod giving_up;
#[cfg(test)]
mod leaving;
