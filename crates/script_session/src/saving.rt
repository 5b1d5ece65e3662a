//! Saves what a line holds that was served, and tells of its device.
ghost use Rattle.std.specs.Prelude.{◌≡◌, length, IfErr, IsTrue, OnOk};
ghost use Rattle.station_files.specs.Files.{ChangesAmong};
ghost use Rattle.station_line.specs.Site.{HoldsSite, IsFollowed, files_of};
ghost use Rattle.script_session.specs.Saving.{IsReportedLine, MayFail};

use crate::logs::{PartLog, reported_by};
use site_core::Site;
use site_shadow::{Lends, Parts, ShadowSite};
use station_files::{Fault, Store};
use station_line::save_parts;
use station_text::LineFile;
use std::alloc::Global;

/// Saves what a line holds, as `save_site` does, and gives what is reported of its device.
///
/// # Errors
///
/// `Unserved` where the site has stopped, or something has failed that its device was asked, though the station heard of nothing; then nothing is
/// written. Then as for `save_site`.
pub(crate) fn save_reported<D: Lends, S: Store>(
    alloc: Global,
    line: &LineFile,
    site: ShadowSite<D>,
    store: &mut S,
) -> (Result<(), Fault>, D::Logged)
    requires disk { IsTrue site.line.has_disk }
    requires slaves { length site.line.sizes ≡ length line.now.images.items }
    ensures saved { OnOk result.0 (HoldsSite (S.files store.new) line.now site.seen.state) }
    ensures others { ChangesAmong (S.files store.old) (S.files store.new) (files_of line.now) }
    ensures failed { IfErr result.0 (MayFail (S.files store.old) (S.files store.new)) }
    ensures followed { IsFollowed (λ device seen. D.follows device seen × D.tells device result.1) site.seen }
    ensures reported { OnOk result.0 (IsReportedLine D.follows D.well D.tells result.1 (length line.now.images.items) site.seen) }
{
    // Its contract says that there is a half for each slave.
    let _slaves = site.slaves();
    let has_stopped = site.has_stopped();
    let (parts, mut device) = site.into_parts();
    let PartLog { reported, is_sound } = reported_by(&mut device, has_stopped);
    drop(device);
    if !is_sound {
        drop(parts);
        return (Err(Fault::Unserved), reported);
    }
    let Parts {
        sizes: _,
        disk,
        halves,
        process: _,
    } = parts;
    let journal = disk.unwrap();
    let saved = save_parts(alloc, line, &journal, &halves, store);
    (saved, reported)
}
