//! Reads a line and its journal from their files.
ghost use Rattle.std.specs.Prelude.{◌≡◌, IfErr, IfOk};
ghost use Rattle.station_files.specs.FileNames.{IsLineSeparate};
ghost use Rattle.station_line.specs.Validating.{IsValidated};
ghost use Rattle.station_line.specs.Refusals.{RefusesSession};
ghost use Rattle.station_line.specs.Opened.{is_old, Loads};

use crate::bad_journal::refusal_of;
use crate::site::site_of;
use jrn_format::{JournalFault, version};
use site_mem::FaultPlan;
use site_shadow::ShadowSite;
use station_files::{
    Fault, MOST_OF_JOURNAL, Store, keep_line_separate, load_line, load_slaves, read_file,
};
use station_text::LineFile;
use std::alloc::Global;

/// A line that was read from its files.
#[derive(Drop)]
pub struct Session<L> {
    /// The line file.
    pub line: LineFile,
    /// The line in memory, just switched on.
    pub site: ShadowSite<FaultPlan>,
    /// Whether the journal's version byte is other than 2.
    pub is_old: bool,
    /// Why the journal is refused, or that memory was refused as it was validated; `None` where it is a journal of the line.
    pub refusal: Option<JournalFault>,
    /// The lock of the journal, which keeps other stations away.
    pub lock: L,
}

/// Reads the files in this order: line file, images of the slaves, journal. The journal is locked before the images are read. Why its content
/// is refused, if it is, stands in the session.
///
/// # Errors
///
/// As for `load_line`; `Busy` where another station has locked the journal, `File` where the system can't lock it; as for `load_slaves`;
/// as for `read_file` of the journal; then as for `keep_line_separate`. `Memory` may come at any point.
pub fn load_session<S: Store>(
    alloc: Global,
    name: &str,
    store: &mut S,
) -> Result<Session<S::Lock>, Fault>
    ensures loaded { IfOk result (λ session. Loads (S.files store.old) name.now session.line session.site) }
    ensures old { IfOk result (λ session. session.is_old ≡ is_old session.site.seen.state.disk.bytes) }
    ensures separate { IfOk result (λ session. IsLineSeparate S.leads session.line name.now) }
    ensures validated { IfOk result (λ session. IsValidated session.site session.refusal) }
    ensures refused { IfErr result (RefusesSession (S.files store.old) S.leads name.now) }
    ensures same { S.files store.new ≡ S.files store.old }
{
    let line = load_line(alloc, name, store)?;
    let lock = store.lock(line.journal.as_str())?;
    let slaves = load_slaves(alloc, &line, store)?;
    let journal = read_file(alloc, line.journal.as_str(), MOST_OF_JOURNAL, store)?;
    let Some(lock) = lock else {
        return Err(Fault::File);
    };
    keep_line_separate(alloc, &line, name, store)?;
    let is_old = is_old(&journal);
    let refusal = refusal_of(alloc, line.journal.as_str(), &journal, &slaves, store)?;
    let site = site_of(alloc, &slaves, journal, FaultPlan::none())?;
    Ok(Session {
        line,
        site,
        is_old,
        refusal,
        lock,
    })
}

/// Whether a journal's file has a version byte other than 2.
pub fn is_old(journal: &[u8]) -> bool
    ensures { result ≡ is_old journal.now }
{
    journal.len() >= 2 && version(journal) != 2
}
