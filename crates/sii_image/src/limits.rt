//! Whether a line with new contents of some slaves stays within the limits of a process image.
//!
//! The weight of a slave is the bytes that its rows take of an image, or 1,487 (one byte more than an image has) if they are
//! more than 8 rows or more than 1,486 bytes. A line has a process image if the weights of its slaves add up to 1,486 at most.

ghost use Rattle.std.specs.Prelude.{◌≡◌, ◌+◌, ◌<◌, ◌≤◌, length, sum_by, MatchOption};
ghost use Rattle.sii_image.specs.NewLayouts.{slaves_of, with_each, AreRising};
ghost use Rattle.sii_image.specs.ProcessImage.{is_within_limits, size_of};
ghost use Rattle.sii_image.specs.steps.Weight.{weight_of, weight_of_all, weight_of_rows};

use crate::new_layouts::NewLayout;
use crate::placement::MOST_BYTES;
use crate::rows::{MOST_ROWS, Row};
use crate::slave_layout::SlaveLayout;

/// What is left of this many bytes after these rows, or `None` if the rows don't fit.
fn left_after(bytes: u32, rows: &[Row]) -> Option<u32>
    ensures { MatchOption result (bytes < sum_by size_of rows.now) (λ left. left + sum_by size_of rows.now ≡ bytes) }
{
    let mut left = bytes;
    for row in rows {
        let size = row.size();
        if size > left {
            return None;
        }
        left -= size;
    }
    Some(left)
}

/// The weight of a slave with these rows, in bytes.
fn weight_of_rows(rows: &[Row]) -> u32
    ensures weight { result ≡ weight_of_rows rows.now }
    ensures most { result ≤ 1487 }
{
    if rows.len() > MOST_ROWS {
        return MOST_BYTES + 1;
    }
    match left_after(MOST_BYTES, rows) {
        Some(left) => MOST_BYTES - left,
        None => MOST_BYTES + 1,
    }
}

/// The weight of a slave, in bytes.
fn weight_of(slave: &SlaveLayout) -> u32
    ensures weight { result ≡ weight_of slave.now }
    ensures most { weight_of slave.now ≤ 1487 }
{
    weight_of_rows(slave.rows())
}

/// The weight of all slaves together, in bytes.
pub(crate) fn weight_of_all(slaves: &[SlaveLayout]) -> u32
    requires { length slaves.now ≤ 64 }
    ensures { result ≡ weight_of_all slaves.now }
{
    slaves.iter().map(|slave| weight_of(slave)).sum()
}

/// The weight of all slaves once one of them has a new layout.
pub(crate) fn weight_with(weight: u32, old: &SlaveLayout, new: &SlaveLayout) -> u32
    requires old { weight_of old.now ≤ weight }
    requires most { weight ≤ 95168 }
    ensures { result + weight_of old.now ≡ weight + weight_of new.now }
{
    weight - weight_of(old) + weight_of(new)
}

/// Whether, with these new layouts, no slave has more than 8 rows and all rows together at most 1,486 bytes. `weight` is the
/// weight of the slaves without them.
pub(crate) fn are_within_limits(slaves: &[SlaveLayout], weight: u32, new: &[NewLayout]) -> bool
    requires few { length slaves.now ≤ 64 }
    requires weight { weight ≡ weight_of_all slaves.now }
    requires rising { AreRising (slaves_of new.now) }
    ensures { result ≡ is_within_limits (with_each slaves.now new.now) }
{
    let mut changed = weight;
    for entry in new {
        let slave = usize::from(entry.slave);
        if slave < slaves.len() {
            changed = weight_with(changed, &slaves[slave], &entry.layout);
        }
    }
    changed <= MOST_BYTES
}
