//! A list of events that exists in contracts alone. No event takes memory.

ghost use Rattle.std.specs.Prelude.{◌≡◌, [], ◌∷◌, ◌++◌, length};

use std::marker::Model;
use std::snapshot::Snapshot;

/// The events noted so far, the oldest first. In contracts its value is the list of them. No event takes memory.
#[derive(Drop)]
pub struct History<E> {
    steps: Option<(Snapshot<History<E>>, Snapshot<E>)>,
}

impl<E> Model for History<E> {
    ghost use Rattle.std.specs.Prelude.{List, length};

    ghost Value = { List E };

    ghost use Rattle.sii_words.specs.Histories.{events_of};

    ghost view = { λ history. events_of history.steps };

    ghost size = { length };

    ghost use Rattle.std.proofs.Common.{arith, length-append};

    ghost size_decreases = { λ a h. Prim.grind (arith, length-append) };
}

impl<E> History<E> {
    /// Makes a history without events.
    pub fn new() -> Self
        ensures { result ≡ [] }
    {
        History { steps: None }
    }

    /// Adds one event at the end.
    pub fn note(&mut self, event: &E)
        ensures { self.new ≡ self.old ++ event.now ∷ [] }
    {
        let earlier = Snapshot::of(self);
        self.steps = Some((earlier, Snapshot::of(event)));
    }
}
