/// The identity of a slave (ETG.1000.6: words 8 to 15). Each number has 32 bits, the low word first.
#[derive(Clone, Copy)]
pub struct Identity {
    /// The vendor id: words 8 and 9.
    pub vendor: u32,
    /// The product code: words 10 and 11.
    pub product: u32,
    /// The revision number: words 12 and 13.
    pub revision: u32,
    /// The serial number: words 14 and 15.
    pub serial: u32,
}
