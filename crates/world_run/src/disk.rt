ghost use Rattle.std.specs.Prelude.{◌≡◌, ◌<◌, ◌++◌, replicate, vec_len, vec_capacity, Some, OnOk, OnErr, IfOk};
ghost use Rattle.jrn_format.specs.Header.{header_bytes};
ghost use Rattle.site_core.specs.Disk.{synced, overlaid};
ghost use Rattle.book_model.specs.Events.{begun_on, ended_on};
ghost use Rattle.world_run.specs.Torn.{disk_of, synced_of, range_of, FailsAs, StopsAs};

use crate::leaving::{LeftByte, Stretch, leave};
use book_model::DiskNext;
use jrn_format::{CLOSED, OPEN, header};
use site_shadow::lay_over;
use std::alloc::{AllocError, Global};

/// A disk in memory. A power cut may change the bytes that were written since the last sync.
#[derive(Drop)]
pub(crate) struct WorldDisk {
    bytes: Vec<u8>,
    /// The ranges written since the last sync, the latest first.
    unsynced: Vec<Stretch>,
    synced_length: usize,
}

/// The range that an action writes; `None` if it writes nothing.
fn range_of(action: &DiskNext) -> Option<Stretch>
    ensures { result ≡ range_of action.now }
{
    match action {
        DiskNext::Write { at, bytes } => Some(Stretch {
            start: *at,
            count: bytes.as_slice().len(),
        }),
        DiskNext::Gate { at, .. } => Some(Stretch {
            start: *at,
            count: 1,
        }),
        DiskNext::Sync | DiskNext::Idle | DiskNext::Stop => None,
    }
}

impl WorldDisk {
    /// A disk of these bytes, all of them synced.
    pub(crate) fn of(alloc: Global, bytes: Vec<u8>) -> WorldDisk
        ensures { disk_of result ≡ synced_of bytes.items }
    {
        let synced_length = bytes.len();
        WorldDisk {
            bytes,
            unsynced: Vec::new(alloc),
            synced_length,
        }
    }

    /// A disk that was just formatted and synced.
    pub(crate) fn formatted(
        alloc: Global,
        slaves: u16,
        capacity: u32,
    ) -> Result<WorldDisk, AllocError>
        ensures { IfOk result (λ disk. disk_of disk ≡ synced_of (header_bytes 2 slaves capacity ++ replicate capacity 0)) }
    {
        let mut bytes = Vec::from_slice(alloc, &header(slaves, capacity))?;
        let area = vec![in alloc; 0u8; capacity as usize]?;
        bytes.extend_from_slice(&area)?;
        Ok(WorldDisk::of(alloc, bytes))
    }

    /// The bytes of the disk, as a read gives them.
    pub(crate) fn bytes(&self) -> &[u8]
        ensures { result.now ≡ self.now.bytes.items }
    {
        &self.bytes
    }

    /// Reserves memory for one more range.
    pub(crate) fn reserve(&mut self) -> Result<(), AllocError>
        ensures same { disk_of self.new ≡ disk_of self.old }
        ensures room { OnOk result (vec_len self.new.unsynced < vec_capacity self.new.unsynced) }
    {
        self.unsynced.reserve(1)
    }

    /// An action begins: its range counts as unsynced from now on.
    pub(crate) fn begin(&mut self, action: &DiskNext)
        requires { vec_len self.old.unsynced < vec_capacity self.old.unsynced }
        ensures { disk_of self.new ≡ begun_on (Some action.now) (disk_of self.old) }
    {
        if let Some(range) = range_of(action) {
            let _there_is_room = self.unsynced.insert(0, range);
        }
    }

    /// An action succeeds.
    ///
    /// # Errors
    ///
    /// Memory was refused for a disk that grows. It stays as it is.
    pub(crate) fn end(&mut self, action: &DiskNext) -> Result<(), AllocError>
        ensures ok { OnOk result (disk_of self.new ≡ ended_on (Some action.now) (disk_of self.old)) }
        ensures err { OnErr result (disk_of self.new ≡ disk_of self.old) }
    {
        match action {
            DiskNext::Write { at, bytes } => lay_over(&mut self.bytes, *at, bytes.as_slice()),
            DiskNext::Gate { at, closed: true } => lay_over(&mut self.bytes, *at, &[CLOSED]),
            DiskNext::Gate { at, closed: false } => lay_over(&mut self.bytes, *at, &[OPEN]),
            DiskNext::Sync => {
                self.sync();
                Ok(())
            }
            DiskNext::Idle | DiskNext::Stop => Ok(()),
        }
    }

    /// An action fails: its range holds what is chosen, and stays unsynced.
    pub(crate) fn fail(&mut self, action: &DiskNext, choice: &[LeftByte])
        ensures { FailsAs action.now choice.now (disk_of self.old) (disk_of self.new) }
    {
        if let Some(range) = range_of(action) {
            leave(&mut self.bytes, &[range], choice);
        }
    }

    /// Syncs all bytes.
    pub(crate) fn sync(&mut self)
        ensures { disk_of self.new ≡ synced (disk_of self.old) }
    {
        self.synced_length = self.bytes.len();
        self.unsynced.clear();
    }

    /// A power cut: the unsynced bytes hold what is chosen. Afterwards all bytes count as synced.
    pub(crate) fn stop(&mut self, choice: &[LeftByte])
        ensures { StopsAs choice.now (disk_of self.old) (disk_of self.new) }
    {
        leave(&mut self.bytes, &self.unsynced, choice);
        self.sync();
    }
}
