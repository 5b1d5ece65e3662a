//! How many bytes a batch takes.

ghost use Rattle.std.specs.Prelude.{◌≡◌, ◌<◌, ◌^◌, length};
ghost use Rattle.jrn_format.specs.Batch.{PayloadFits, spelt_batch};
ghost use Rattle.book_model.specs.Reading.{spelling_of};

use jrn_format::{Batch, Form, size_of};

/// How many bytes the batch takes in an area of this form, its gate included.
pub(crate) fn batch_size(form: Form, batch: &Batch) -> u32
    requires payload { PayloadFits batch.now.entries }
    requires fits { length (spelt_batch (spelling_of form) batch.now) < 2 ^ 32 }
    ensures { result ≡ length (spelt_batch (spelling_of form) batch.now) }
{
    let mut size: u32 = match form {
        Form::One => 7,
        Form::Two | Form::Moving => 8,
    };
    for entry in batch.entries.as_slice() {
        size += size_of(entry.runs.as_slice());
    }
    size
}
