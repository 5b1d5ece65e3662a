//! Laws about the datagrams that configure a line. The functions here do nothing: the contract of each is the law.

ghost use Rattle.cyclic.specs.Laws.{ReconfiguresAsConfigured};

/// After a `configure` for the old plan, `reconfigure` leaves each slave as another `configure`, for the new plan, would leave it.
pub fn reconfigures_as_configured()
    ensures { ReconfiguresAsConfigured }
{}
