//! The rounds of a recovery.

ghost use Rattle.std.specs.Prelude.{◌≡◌, ◌≤◌, length};
ghost use Rattle.station_alone.specs.Rounds.{AnotherRound, IsSmall, IsUnfinished, IsWorking, Redoes, Rounds};

use crate::step::{is_did, serve_disk, serve_slave, stand};
use crate::{Alone, Choice, OpenFault};
use site_core::Site;

/// The number of slaves of the line.
fn slave_count<S: Site>(station: &Alone<S>) -> u16
    requires { IsWorking station.now }
    ensures { result ≡ length station.now.book.slaves }
{
    station.core().contents().len() as u16
}

/// One round: an action for the disk, and then one for each slave. Returns the number of issues.
fn round<S: Site>(station: &mut Alone<S>) -> Result<u64, OpenFault>
    requires working { IsWorking station.old }
    requires unfinished { IsUnfinished station.old.book }
    ensures { Rounds result station.old station.new }
{
    serve_disk(station)?;
    let mut words = 0;
    let slaves = slave_count(station);
    for slave in 0..slaves {
        words += serve_slave(station, slave)?;
    }
    Ok(words)
}

/// Whether rounds are left: a batch is live, or else the journal is an old one, whose migration is asked for.
fn is_unfinished<S: Site>(station: &mut Alone<S>) -> bool
    requires { IsWorking station.old }
    ensures { AnotherRound result station.old station.new }
{
    if station.core().live_bytes() > 0 {
        return true;
    }
    let answer = station.step(Choice::Migrate);
    stand(station);
    is_did(answer)
}

/// Makes rounds until nothing is live and the journal is of version 2. Returns the number of issues.
pub(crate) fn redo<S: Site>(station: &mut Alone<S>) -> Result<u64, OpenFault>
    requires working { IsWorking station.old }
    requires small { IsSmall station.old.book }
    ensures { Redoes result station.old station.new }
{
    let mut words = 0;
    while is_unfinished(station) {
        words += round(station)?;
    }
    Ok(words)
}
