ghost use Rattle.std.specs.Prelude.{◌≡◌, ◌<◌, ◌^◌, length, All};
ghost use Rattle.jrn_format.specs.Batch.{entry_size};
ghost use Rattle.book_parts.specs.Change.{IsShort};

use jrn_format::size_of;
use sii_edit::Change;

/// How many bytes a command with this change takes in a batch. It must have fewer than 65,536 runs of 1 to 4,096 words.
pub fn entry_bytes(change: &Change) -> u32
    requires short { All IsShort change.now.runs.items }
    requires count { length change.now.runs.items < 2 ^ 16 }
    ensures { result ≡ entry_size change.now.runs.items }
{
    size_of(&change.runs)
}
