// Reading and writing a part of some bytes in place.
ghost use Rattle.std.specs.Prelude.{◌≡◌, ◌+◌, ◌≤◌, length, slice_range};
ghost use Rattle.esc_model.specs.Bytes.{overlaid};

/// Fills `part` with the bytes from `at` on.
pub(crate) fn read_part(bytes: &[u8], at: usize, part: &mut [u8])
    requires { at + length part.old ≤ length bytes.now }
    ensures { part.new ≡ slice_range bytes.now at (at + length part.old) }
{
    let end = at + part.len();
    part.copy_from_slice(&bytes[at..end]);
}

/// Overwrites the bytes from `at` on with `part`.
pub(crate) fn write_part(bytes: &mut [u8], at: usize, part: &[u8])
    requires { at + length part.now ≤ length bytes.old }
    ensures { bytes.new ≡ overlaid bytes.old at part.now }
{
    let end = at + part.len();
    bytes[at..end].copy_from_slice(part);
}

/// Copies `count` bytes from `at` on, over those of `to` from `place` on.
pub(crate) fn copy_part(from: &[u8], at: usize, count: usize, to: &mut [u8], place: usize)
    requires from { at + count ≤ length from.now }
    requires to { place + count ≤ length to.old }
    ensures { to.new ≡ overlaid to.old place (slice_range from.now at (at + count)) }
{
    write_part(to, place, &from[at..at + count]);
}
