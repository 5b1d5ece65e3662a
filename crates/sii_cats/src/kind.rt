//! Types of categories (ETG.1000.6 and ETG.2010, category types).

/// STRINGS: the texts that other categories refer to by number.
pub const STRINGS: u16 = 10;

/// FMMU: the use of each FMMU, one byte each.
pub const FMMUS: u16 = 40;

/// SyncM: the sync managers, eight bytes each.
pub const SYNC_MANAGERS: u16 = 41;

/// TXPDO: PDOs that the slave sends, inputs of the master.
pub const TXPDOS: u16 = 50;

/// RXPDO: PDOs that the slave receives, outputs of the master.
pub const RXPDOS: u16 = 51;

/// The end mark: the type word that ends a chain.
pub const END: u16 = 0xFFFF;
