//! Serves a station on one thread in rounds.
ghost use Rattle.std.specs.Prelude.{◌≡◌, ◌↔◌, IfErr, OnOk, IsTrue, []};
ghost use Rattle.station_line.specs.Rounds.{Goes, IsServedOrClosed};

use site_core::Site;
use station_alone::{Alone, Answer, Choice};
use station_files::Fault;

/// `Memory` for a step that had no memory.
fn had_memory(answer: Answer) -> Result<(), Fault> {
    match answer {
        Answer::NoMemory => Err(Fault::Memory),
        _ => Ok(()),
    }
}

/// Carries out the next action of the disk, if there is one.
fn serve_disk<S: Site>(alone: &mut Alone<S>) -> Result<(), Fault>
    ensures { Goes [] alone.old alone.new }
{
    let answer = alone.act(&Choice::Disk);
    had_memory(answer)
}

/// Carries out the next action of one slave, if there is one.
fn serve_slave<S: Site>(alone: &mut Alone<S>, slave: u16) -> Result<(), Fault>
    ensures { Goes [] alone.old alone.new }
{
    let (_next, answer) = alone.serve(slave);
    had_memory(answer)
}

/// Makes one round: an action of the disk, and then one of each slave.
pub(crate) fn serve_round<S: Site>(alone: &mut Alone<S>, slaves: u16) -> Result<(), Fault>
    ensures { Goes [] alone.old alone.new }
{
    serve_disk(alone)?;
    for slave in 0..slaves {
        serve_slave(alone, slave)?;
    }
    Ok(())
}

/// Makes rounds until nothing is queued or live, or a fault has closed the book.
pub(crate) fn serve_all<S: Site>(alone: &mut Alone<S>, slaves: u16) -> Result<(), Fault>
    ensures goes { Goes [] alone.old alone.new }
    ensures served { OnOk result (IsServedOrClosed alone.new.book) }
{
    for _round in 0..u64::MAX {
        if is_served(alone) {
            return Ok(());
        }
        serve_round(alone, slaves)?;
    }
    Err(Fault::Unserved)
}

/// Whether nothing is queued or live, or a fault has closed the book.
fn is_served<S: Site>(alone: &Alone<S>) -> bool
    ensures { IsTrue result → IsServedOrClosed alone.now.book }
{
    let core = alone.core();
    let status = core.status();
    let is_done = status.durable == status.accepted && status.live_bytes == 0;
    is_done || core.fault().is_some()
}
