//! Where the next batch goes.

ghost use Rattle.std.specs.Prelude.{◌≡◌, ◌+◌, ◌<◌, ◌^◌, ℕ, List, nat_le};
ghost use Rattle.std.specs.Option.{option_map};
ghost use Rattle.jrn_format.specs.declared.journal.Entry.{Entry};
ghost use Rattle.jrn_format.specs.declared.journal.Batch.{Batch};
ghost use Rattle.jrn_format.specs.Halves.{entries_size, place_in, size};
ghost use Rattle.book_parts.specs.Spot.{as_place, saturated};

/// Where a batch goes: into the older half or into the newer one.
#[derive(Clone, Copy, PartialEq, Eq)]
pub enum Spot {
    /// After the batches of the older half.
    InOlder,
    /// After the batches of the newer half, or at its start.
    InNewer,
}

/// Whether a half of `room` bytes, of which `taken` are used, has room for `bytes` more and a closed gate after them.
fn has_room(room: u64, taken: u64, bytes: u64) -> bool
    ensures { result ≡ nat_le (taken + bytes + 1) room }
{
    bytes < room && taken < room - bytes
}

/// Where a batch of `bytes` bytes goes, with `older` and `newer` bytes used in two halves of `room` bytes. More than 2⁶⁴ - 1 used
/// bytes count as 2⁶⁴ - 1.
pub(crate) fn next_spot(room: u32, older: u64, newer: u64, bytes: u64) -> Option<Spot>
    ensures { (firsts seconds : List Batch) (entries : List Entry) → older ≡ saturated (size firsts) → newer ≡ saturated (size seconds)
        → entries_size entries ≡ bytes → option_map as_place result ≡ place_in room firsts seconds entries }
{
    let room = u64::from(room);
    if newer > 0 {
        return if has_room(room, newer, bytes) {
            Some(Spot::InNewer)
        } else {
            None
        };
    }
    if has_room(room, older, bytes) {
        Some(Spot::InOlder)
    } else if has_room(room, 0, bytes) {
        Some(Spot::InNewer)
    } else {
        None
    }
}
