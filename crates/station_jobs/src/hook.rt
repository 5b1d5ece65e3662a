//! A hook for tests, between a slave's answer and its report to the dispatch.

ghost use Rattle.std.specs.Prelude.{◌≡◌, false};

/// Decides when a worker may report an outcome to its dispatch. A hook may hold the worker up.
pub trait Hook {
    /// Whether it may ever answer false.
    ghost may_hold: { Self → Type 0 };

    /// Called when the worker of this slave has an outcome to report. If the answer is false, the worker ends without a report.
    fn pass(&self, slave: u16) -> bool
        ensures { result ≡ false → may_hold self.now };
}

/// A hook that lets each report pass.
#[derive(Clone, Copy, Drop)]
pub struct NoHook;

impl Hook for NoHook {
    ghost may_hold = { λ _. ⊥ };

    fn pass(&self, _slave: u16) -> bool {
        true
    }
}
