ghost use Rattle.std.specs.Prelude.{◌≡◌, ℕ, ◌+◌, ◌<◌, ◌≤◌, ◌↔◌, length, slice_index, IsTrue};
ghost use Rattle.sii_words.specs.Words.{IsDeviceSize};
ghost use Rattle.site_core.specs.Line.{Line, Owns};
ghost use Rattle.site_core.specs.Disk.{no_disk};
ghost use Rattle.site_core.specs.State.{Seen, words_held};
ghost use Rattle.site_core.specs.Calls.{GivesLength, ReadsDisk, WritesDisk, SyncsDisk, ExchangesFrame, CyclesFrame};

use crate::fault::DeviceFault;
use ecat_frame::Frame;

/// A line of slaves and a disk, or a part of them. All access to hardware goes through this trait.
///
/// Slaves are numbered from 0 in their order on the line. Each has an EEPROM half, which serves its EEPROM by registers, and a process
/// half, which holds process data.
///
/// The methods that take `&mut self` are the device calls. Each of them, also one that fails, advances the clock by one. Once the site has
/// stopped, every device call returns `Stopped`, and the state no longer changes.
pub trait Site {
    /// The slaves of the line, and the parts of it that this site owns. No call changes them.
    ghost line: { Self → Line };

    /// The site's state, and its history of device calls.
    ghost seen: { Self → Seen };

    /// The number of slaves of the line: 1 to 64.
    fn slaves(&self) -> u16
        ensures slaves { result ≡ length (line self.now).sizes }
        ensures halves { result ≡ length (seen self.now).state.halves }
        ensures some { 1 ≤ result }
        ensures most { result ≤ 64 };

    /// The number of 16-bit words of a slave's EEPROM: 64 to 4,096, a multiple of 64. The slave must be on the line.
    fn words_of(&self, slave: u16) -> u16
        requires { slave < length (line self.now).sizes }
        ensures size { result ≡ slice_index (line self.now).sizes slave }
        ensures device { IsDeviceSize result }
        ensures words { Owns (line self.now) slave → result ≡ words_held (seen self.now) slave };

    /// Whether the site owns the disk. If it doesn't, the disk counts as empty.
    fn has_disk(&self) -> bool
        ensures owned { result ≡ (line self.now).has_disk }
        ensures absent { ¬ IsTrue result → (seen self.now).state.disk ≡ no_disk };

    /// Whether the site owns the EEPROM half of a slave. If it doesn't, the half counts as having no words.
    fn owns(&self, slave: u16) -> bool
        ensures owned { IsTrue result ↔ Owns (line self.now) slave }
        ensures absent { ¬ IsTrue result → words_held (seen self.now) slave ≡ 0 };

    /// Whether the site owns the process halves of all slaves.
    fn has_process(&self) -> bool
        ensures { result ≡ (line self.now).has_process };

    /// Returns the length of the disk, in bytes. The site must own the disk.
    ///
    /// # Errors
    ///
    /// `Stopped` if the site has stopped, or stops in this call. `Disk` if the disk failed; nothing changes then.
    fn disk_len(&mut self) -> Result<usize, DeviceFault>
        requires { IsTrue (line self.old).has_disk }
        ensures length { GivesLength (seen self.old) result (seen self.new) }
        ensures line { line self.new ≡ line self.old };

    /// Fills `bytes` with those of the disk from byte `at` on. The site must own the disk, and the disk must have them all.
    ///
    /// # Errors
    ///
    /// `Stopped` if the site has stopped, or stops in this call. `Disk` if the disk failed; the disk is unchanged then. In both cases
    /// `bytes` may hold anything.
    fn disk_read(&mut self, at: usize, bytes: &mut [u8]) -> Result<(), DeviceFault>
        requires disk { IsTrue (line self.old).has_disk }
        requires inside { at + length bytes.old ≤ length (seen self.old).state.disk.bytes }
        ensures reads { ReadsDisk (seen self.old) at (length bytes.old) result bytes.new (seen self.new) }
        ensures line { line self.new ≡ line self.old };

    /// Writes `bytes` to the disk from byte `at` on. The disk grows if they reach past its end. Until the next sync succeeds, a power
    /// cut may leave anything in that range. The site must own the disk, and `at` must not lie past its end.
    ///
    /// # Errors
    ///
    /// `Stopped` if the site has stopped, or stops in this call. `Disk` if the write failed; then the range may hold anything and stays
    /// unsynced, and all else is unchanged.
    fn disk_write(&mut self, at: usize, bytes: &[u8]) -> Result<(), DeviceFault>
        requires disk { IsTrue (line self.old).has_disk }
        requires inside { at ≤ length (seen self.old).state.disk.bytes }
        ensures writes { WritesDisk (seen self.old) at bytes.now result (seen self.new) }
        ensures line { line self.new ≡ line self.old };

    /// Makes all written bytes durable: from then on a power cut leaves exactly what a read gives. The site must own the disk.
    ///
    /// # Errors
    ///
    /// `Stopped` if the site has stopped, or stops in this call. `Disk` if the sync failed; nothing changes then, and what was unsynced
    /// stays so.
    fn disk_sync(&mut self) -> Result<(), DeviceFault>
        requires { IsTrue (line self.old).has_disk }
        ensures syncs { SyncsDisk (seen self.old) result (seen self.new) }
        ensures line { line self.new ≡ line self.old };

    /// Sends a frame to the EEPROM half of one slave, and replaces it by the frame that comes back. The site must own that half.
    ///
    /// # Errors
    ///
    /// `Stopped` if the site has stopped, or stops in this call. `Lost` if the frame was lost. In both cases `frame` is unchanged, and
    /// the half may have taken the first datagrams of it: none, some or all.
    fn exchange(&mut self, slave: u16, frame: &mut Frame) -> Result<(), DeviceFault>
        requires { Owns (line self.old) slave }
        ensures exchanges { ExchangesFrame (seen self.old) slave frame.old result frame.new (seen self.new) }
        ensures line { line self.new ≡ line self.old };

    /// Sends a frame through the process halves of all slaves, in line order, and replaces it by the frame that comes back. The site
    /// must own the process halves. Neither the disk nor an EEPROM changes.
    ///
    /// # Errors
    ///
    /// `Stopped` if the site has stopped, or stops in this call. `Lost` if the frame was lost. In both cases `frame` is unchanged.
    fn cycle(&mut self, frame: &mut Frame) -> Result<(), DeviceFault>
        requires { IsTrue (line self.old).has_process }
        ensures cycles { CyclesFrame (seen self.old) frame.old result frame.new (seen self.new) }
        ensures line { line self.new ≡ line self.old };
}
