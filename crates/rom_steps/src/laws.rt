//! Laws about whole accesses. The functions here do nothing: the contract of each is the law.

ghost use Rattle.rom_steps.specs.Complete.{EndsAsBegun, IsBounded, StopsAsBegun};

/// Whatever comes back, the datagrams that were sent up to the end of an access, and that end, are what remained at its first step; the
/// same up to a stop of the line. Each datagram leaves fewer to be sent.
pub fn complete_accesses()
    ensures ended { EndsAsBegun }
    ensures stopped { StopsAsBegun }
    ensures bounded { IsBounded }
{}
