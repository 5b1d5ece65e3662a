//! One step of a recovery.

ghost use Rattle.std.specs.Prelude.{◌≡◌, ◌<◌, length};
ghost use Rattle.station_alone.specs.Station.{Stands};
ghost use Rattle.station_alone.specs.Rounds.{IsWorking, ServesDisk, ServesSlave, is_did, reported, words_of};

use crate::{Alone, Answer, Choice, OpenFault};
use book_model::{Fault, RomNext};
use esc_rom::RomFault;
use site_core::{DeviceFault, Site};
use site_journal::ReadFault;

/// What a step's answer means to a recovery: it goes on, unless the step failed.
fn reported(answer: Answer) -> Result<(), OpenFault>
    ensures { result ≡ reported answer }
{
    match answer {
        Answer::Failed(Fault::Disk) => Err(OpenFault::Journal(ReadFault::Device(
            DeviceFault::Disk,
        ))),
        Answer::Failed(Fault::Stopped) => Err(OpenFault::Journal(ReadFault::Device(
            DeviceFault::Stopped,
        ))),
        Answer::Failed(Fault::SlaveDead { slave }) => Err(OpenFault::Slave(RomFault::SlaveDead {
            slave,
        })),
        Answer::NoMemory => Err(OpenFault::Memory),
        Answer::Did | Answer::Idle | Answer::Ended | Answer::Accepted(_) | Answer::Refused(_) => Ok(
            (),
        ),
    }
}

/// Whether the answer is `Did`.
pub(crate) fn is_did(answer: Answer) -> bool
    ensures { result ≡ is_did answer }
{
    matches!(answer, Answer::Did)
}

/// The number of issues in what was handed out: 1 or 0.
fn words_of(next: RomNext) -> u64
    ensures { result ≡ words_of next }
{
    match next {
        RomNext::Issue { .. } => 1,
        RomNext::Settle { .. } | RomNext::Idle | RomNext::Stop => 0,
    }
}

/// The station's invariant holds, as its type promises.
pub(crate) fn stand<S: Site>(station: &Alone<S>)
    ensures { Stands station.now }
{
    let _book = station.core();
}

/// Carries out the next action for the disk.
pub(crate) fn serve_disk<S: Site>(station: &mut Alone<S>) -> Result<(), OpenFault>
    requires { IsWorking station.old }
    ensures { ServesDisk result station.old station.new }
{
    let answer = station.step(Choice::Disk);
    stand(station);
    reported(answer)
}

/// Carries out the next action for a slave. Returns the number of issues, 1 or 0.
pub(crate) fn serve_slave<S: Site>(station: &mut Alone<S>, slave: u16) -> Result<u64, OpenFault>
    requires working { IsWorking station.old }
    requires slave { slave < length station.old.book.slaves }
    ensures { ServesSlave slave result station.old station.new }
{
    let (next, answer) = station.serve(slave);
    stand(station);
    reported(answer)?;
    Ok(words_of(next))
}
