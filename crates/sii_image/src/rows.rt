//! The rows of a slave: its sync managers that have process data.

ghost use Rattle.std.specs.Prelude.{◌≡◌, ◌≤◌};
ghost use Rattle.std.specs.List.{list_any};
ghost use Rattle.sii_image.specs.ProcessImage.{counter_of, is_towards, size_of};

/// The most rows of a slave: one for each of its FMMUs.
pub(crate) const MOST_ROWS: usize = 8;

/// A sync manager that has process data (ETG.1000.6 and ETG.2010, SyncM, TXPDO and RXPDO categories).
#[derive(Clone, Copy)]
pub struct Row {
    /// Its number among the slave's sync managers, 0 to 15.
    pub manager: u8,
    /// Whether the data are outputs, sent by the master, and not inputs.
    pub output: bool,
    /// Length of its data in bits, above 0.
    pub bits: u32,
    /// Physical start address.
    pub start: u16,
    /// Control register.
    pub control: u8,
}

impl Row {
    /// Length of its data in whole bytes.
    pub(crate) fn size(self) -> u32
        ensures { result ≡ size_of self }
    {
        self.bits.div_ceil(8)
    }
}

/// Whether there is an output (`true`) or an input (`false`) among the rows.
fn has_rows(rows: &[Row], output: bool) -> bool
    ensures { result ≡ list_any (is_towards output) rows.now }
{
    rows.iter().any(|row| row.output == output)
}

/// What a slave with these rows adds to the working counter: 2 for outputs, and 1 for inputs.
pub(crate) fn expected_counter(rows: &[Row]) -> u16
    ensures counter { result ≡ counter_of rows.now }
    ensures most { result ≤ 3 }
{
    let outputs = if has_rows(rows, true) { 2 } else { 0 };
    let inputs = if has_rows(rows, false) { 1 } else { 0 };
    outputs + inputs
}
