//! What memory a scenario finds, and memory for a test's own values: asked for a second time if it is refused once.

ghost use Rattle.std.specs.Prelude.{◌≡◌, length};

use std::alloc::Global;
use std::process::Abort;

/// What memory a scenario finds.
#[derive(Clone, Copy, PartialEq)]
pub(crate) enum Memory {
    /// Enough for each call.
    Ample,
    /// Too little for one growth, which is refused on purpose. What wanted it may be asked a second time.
    RefusedOnce,
}

/// Puts an item after the others.
pub(crate) fn put<T: Drop>(rt: &impl Abort, items: &mut Vec<T>, item: T) {
    match items.push(item) {
        Ok(()) => {}
        Err(refused) => items.push(refused.value).ok().expect(rt, "memory"),
    }
}

/// An empty list with room for `count` items.
pub(crate) fn room<T: Drop>(rt: &impl Abort, alloc: Global, count: usize) -> Vec<T> {
    match Vec::with_capacity(alloc, count) {
        Ok(items) => items,
        Err(_refused) => Vec::with_capacity(alloc, count).ok().expect(rt, "memory"),
    }
}

/// `count` zero bytes.
pub(crate) fn zeros(rt: &impl Abort, alloc: Global, count: usize) -> Vec<u8>
    ensures { length result.items ≡ count }
{
    match vec![in alloc; 0u8; count] {
        Ok(bytes) => bytes,
        Err(_refused) => vec![in alloc; 0u8; count].ok().expect(rt, "memory"),
    }
}
