//! The categories of an EEPROM after its first 64 words (ETG.1000.6 and ETG.2010, slave information
//! interface): the chain of categories, and the contents of the STRINGS, FMMU, SyncM, TXPDO and RXPDO
//! categories.
#![tactic(auto)]

mod bytes;
mod categories;
mod edit;
mod fault;
pub mod kind;
mod laws;
mod managers;
mod mappings;
mod text;
mod units;

pub use categories::{Category, FIRST_HEADER, chain};
pub use edit::splice;
pub use fault::{CatFault, ChainFault};
pub use kind::END;
pub use laws::{one_chain, one_content, readings};
pub use managers::{Manager, syncms, write_syncms};
pub use mappings::{Pdo, PdoEntry, PdoHead, front_entry, front_pdo, pdos, write_pdos};
pub use text::{strings, write_strings};
pub use units::{FmmuUnit, FmmuUse, fmmus, write_fmmus};
