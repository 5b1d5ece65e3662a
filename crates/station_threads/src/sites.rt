//! The sites of a line.

ghost use Rattle.std.specs.Prelude.{◌≡◌, IsTrue};
ghost use Rattle.station_threads.specs.Sites.{OwnParts, OwnSlaves};

use site_core::Site;

/// The sites of a line.
#[derive(Drop)]
pub struct Sites<S> {
    /// The site for the disk.
    pub disk: S,
    /// One site for each slave, in the order of the line.
    pub slaves: Vec<S>,
    /// The site for the process data. `None` if it isn't exchanged.
    pub cycle: Option<S>,
}

/// Whether each site owns what it is served for: the disk, the EEPROM half of the slave at its place, or the process halves.
///
/// False also with more than 64 slaves.
pub fn own_parts<S: Site>(sites: &Sites<S>) -> bool
    ensures { IsTrue result → OwnParts S.line sites.now.disk sites.now.slaves.items sites.now.cycle }
{
    let has_process = match &sites.cycle {
        Some(site) => site.has_process(),
        None => true,
    };
    sites.disk.has_disk() && has_process && own_slaves(&sites.slaves)
}

/// Whether each site owns the EEPROM half of the slave at its place. False with more than 64 slaves.
fn own_slaves<S: Site>(sites: &[S]) -> bool
    ensures { IsTrue result → OwnSlaves S.line sites.now }
{
    if sites.len() > 64 {
        return false;
    }
    for (slave, site) in sites.iter().enumerate() {
        if !site.owns(slave as u16) {
            return false;
        }
    }
    true
}
