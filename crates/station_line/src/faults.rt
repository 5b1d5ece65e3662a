//! The program's faults for those of device calls, and of opening and recovering a line.
ghost use Rattle.std.specs.Prelude.{◌≡◌};
ghost use Rattle.station_line.specs.Faults.{of_journal, of_open, of_slave};
ghost use Rattle.station_line.specs.DeviceFaults.{of_device};

use esc_rom::RomFault;
use jrn_format::JournalFault;
use site_core::DeviceFault;
use site_journal::ReadFault;
use station_alone::OpenFault;
use station_files::Fault;
use station_listing::namesake;

/// The program's fault for a station that can't be opened or recovered.
pub fn of_open(fault: OpenFault) -> Fault
    ensures { result ≡ of_open fault }
{
    match fault {
        OpenFault::Memory => Fault::Memory,
        OpenFault::Journal(ReadFault::Device(fault)) => of_device(fault),
        OpenFault::Journal(ReadFault::Journal(fault)) => of_journal(fault),
        OpenFault::Slave(fault) => of_slave(fault),
    }
}

/// The program's fault for a file that is no journal, or a journal that can't be read.
pub fn of_journal(fault: JournalFault) -> Fault
    ensures { result ≡ of_journal fault }
{
    match fault {
        JournalFault::Memory => Fault::Memory,
        JournalFault::NotAJournal => Fault::NotAJournal,
        JournalFault::BadVersion { found } => Fault::BadVersion { found },
        JournalFault::WrongLine => Fault::WrongLine,
        JournalFault::BadJournal { at } => Fault::BadJournal { at },
    }
}

/// The program's fault for a slave that can't be opened or read.
fn of_slave(fault: RomFault) -> Fault
    ensures { result ≡ of_slave fault }
{
    match fault {
        RomFault::Memory => Fault::Memory,
        RomFault::SlaveDead { slave } => Fault::SlaveDead { slave },
        RomFault::Stopped => Fault::Stopped,
    }
}

/// The program's fault for a fault of a device call.
pub(crate) fn of_device(fault: DeviceFault) -> Fault
    ensures { result ≡ of_device fault }
{
    namesake!(fault, DeviceFault as Fault: Disk, Lost, Stopped)
}
