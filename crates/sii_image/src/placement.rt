//! Places rows one after the other in a process image.

ghost use Rattle.std.specs.Prelude.{◌≡◌, ◌≤◌, [], ◌∷◌, length};
ghost use Rattle.sii_image.specs.ProcessImage.{slave_rows, rows_towards};

use crate::fault::ImageFault;
use crate::process_image::Segment;
use crate::rows::Row;
use crate::slave_layout::SlaveLayout;
use std::alloc::Global;

/// The greatest size of a process image in bytes: what one datagram carries, in a frame of its own.
pub const IMAGE_BYTES: usize = 1486;

/// The same as a size of rows.
pub(crate) const MOST_BYTES: u32 = IMAGE_BYTES as u32;

/// The segments of the rows placed so far, and their size in bytes.
#[derive(Drop)]
pub(crate) struct Placement {
    pub(crate) segments: Vec<Segment>,
    pub(crate) size: u32,
    ghost within: { size ≤ 1486 },
}

impl Placement {
    ghost use Rattle.sii_image.specs.steps.Placement.{Places};

    /// A placement without rows.
    pub(crate) fn new(alloc: Global) -> Self
        ensures segments { result.segments.items ≡ [] }
        ensures size { result.size ≡ 0 }
    {
        Placement {
            segments: Vec::new(alloc),
            size: 0,
        }
    }

    /// Places one row of this slave after those placed so far.
    fn add(&mut self, slave: u16, row: Row) -> Result<(), ImageFault>
        ensures { Places self.old self.new ((slave, row) ∷ []) result }
    {
        let size = row.size();
        if size > MOST_BYTES - self.size {
            return Err(ImageFault::ImageOverLimit);
        }
        self.segments.push(Segment {
            slave,
            manager: row.manager,
            output: row.output,
            offset: self.size,
            size,
            bits: row.bits,
            start: row.start,
            control: row.control,
        })?;
        self.size += size;
        Ok(())
    }

    /// Places the outputs or the inputs of this slave.
    fn add_slave(&mut self, slave: u16, rows: &[Row], output: bool) -> Result<(), ImageFault>
        ensures { Places self.old self.new (slave_rows output (slave, rows.now)) result }
    {
        for row in rows {
            if row.output == output {
                self.add(slave, *row)?;
            }
        }
        Ok(())
    }

    /// Places the outputs or the inputs of all slaves.
    pub(crate) fn add_all(&mut self, slaves: &[SlaveLayout], output: bool) -> Result<(), ImageFault>
        requires { length slaves.now ≤ 64 }
        ensures { Places self.old self.new (rows_towards output slaves.now) result }
    {
        for (number, slave) in slaves.iter().enumerate() {
            self.add_slave(number as u16, slave.rows(), output)?;
        }
        Ok(())
    }
}
