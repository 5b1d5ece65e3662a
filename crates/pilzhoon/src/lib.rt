//! EEPROM images for programs in C: each export makes one call of `sii_bytes`, and has its clauses.
#![tactic(auto)]

mod exports;
