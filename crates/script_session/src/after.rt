//! What comes after a desk on its line: a recovery, the commands that weren't submitted there, on this thread, and saving.
ghost use Rattle.std.specs.Prelude.{◌≡◌, length, IfErr, IfOk, IsTrue, OnOk};
ghost use Rattle.station_files.specs.Files.{ChangesAmong};
ghost use Rattle.station_line.specs.Site.{HoldsSite, IsFollowed, files_of};
ghost use Rattle.script_session.specs.After.{GoesAfterDesk, LedOn, SavesRecovered, ServesSome, Tells};
ghost use Rattle.script_session.specs.Parts.{IsLineOf};
ghost use Rattle.script_session.specs.Saving.{IsReportedLine, MayFail, SavesAfter, SavesServed};

use crate::saving::save_reported;
use sii_edit::Command;
use site_shadow::{Lends, ShadowSite};
use station_alone::{Alone, Recovered, recover};
use station_files::{Fault, Store};
use station_line::{Answered, of_open, serve_commands};
use station_text::LineFile;
use std::alloc::Global;
use std::io::Write;

/// A line that a desk has left.
#[derive(Drop)]
pub(crate) struct DeskLeft<S> {
    /// The site of the line.
    pub(crate) site: S,
    /// Whether the commands were submitted at the desk.
    pub(crate) is_driven: bool,
    /// The commands where they were not submitted, and otherwise none.
    pub(crate) commands: Vec<Command>,
}

/// How the work on a line ended, and what is reported of its device.
#[derive(Drop)]
pub(crate) struct LineEnd<T> {
    /// How the commands were answered, or the fault that ended the work.
    pub(crate) ended: Result<Answered, Fault>,
    /// What the line's device tells.
    pub(crate) reported: T,
}

/// Recovers a line that a desk has left, and saves what it holds. If the commands were not submitted at the desk, they are served between the two.
/// After a fault nothing more is written. Gives what the recovery did too, if it came to its end.
///
/// The result is the fault of the recovery, as `of_open` gives it; then that of `serve_commands`; then that of `save_reported`.
pub(crate) fn end_line<D: Lends, S: Store, O: Write>(
    alloc: Global,
    line: &LineFile,
    left: DeskLeft<ShadowSite<D>>,
    store: &mut S,
    output: &mut O,
) -> (LineEnd<D::Logged>, Option<Recovered>)
    requires line { IsLineOf (length line.now.images.items) left.site.line }
    ensures others { ChangesAmong (S.files store.old) (S.files store.new) (files_of line.now) }
    ensures failed { IfErr result.0.ended (MayFail (S.files store.old) (S.files store.new)) }
    ensures saved { IfOk result.0.ended (SavesAfter (S.files store.new) line.now left.site.seen left.is_driven left.commands.items) }
    ensures goes { GoesAfterDesk (Tells D.follows D.tells result.0.reported) left.is_driven left.commands.items left.site.seen result.0.ended }
    ensures held { OnOk result.0.ended (IsTrue left.is_driven → SavesRecovered
        (LedOn D.follows D.well D.tells result.0.reported (length line.now.images.items) result.1 left.site) (S.files store.new) line.now
        left.site.seen) }
{
    let DeskLeft {
        site,
        is_driven,
        commands,
    } = left;
    match recover(alloc, site) {
        Ok((alone, recovered)) => {
            if !is_driven {
                let end = serve_alone(alloc, line, alone, commands, store, output);
                return (end, Some(recovered));
            }
            drop(commands);
            let end = save_station(alloc, line, alone, Answered::AllAccepted, store);
            (end, Some(recovered))
        }
        Err((back, fault)) => {
            drop(commands);
            let end = LineEnd {
                ended: Err(of_open(fault)),
                reported: reported_of(back),
            };
            (end, None)
        }
    }
}

/// Serves the commands on an open station on this thread, and saves what its line holds. After a fault nothing more is written.
fn serve_alone<D: Lends, S: Store, O: Write>(
    alloc: Global,
    line: &LineFile,
    mut alone: Alone<ShadowSite<D>>,
    commands: Vec<Command>,
    store: &mut S,
    output: &mut O,
) -> LineEnd<D::Logged>
    requires disk { IsTrue alone.line.has_disk }
    requires slaves { length alone.line.sizes ≡ length line.now.images.items }
    ensures others { ChangesAmong (S.files store.old) (S.files store.new) (files_of line.now) }
    ensures failed { IfErr result.ended (MayFail (S.files store.old) (S.files store.new)) }
    ensures saved { IfOk result.ended (SavesServed (S.files store.new) line.now alone commands.items) }
    ensures serves { ServesSome (Tells D.follows D.tells result.reported) commands.items alone }
{
    let mut answered = Answered::AllAccepted;
    let slaves = line.images.len() as u16;
    match serve_commands(&mut alone, slaves, commands, output, &mut answered) {
        Ok(()) => save_station(alloc, line, alone, answered, store),
        Err(fault) => {
            let (core, site) = alone.into_parts();
            drop(core);
            LineEnd {
                ended: Err(fault),
                reported: reported_of(site),
            }
        }
    }
}

/// Saves what the line of this station holds, whose commands were answered so.
fn save_station<D: Lends, S: Store>(
    alloc: Global,
    line: &LineFile,
    alone: Alone<ShadowSite<D>>,
    answered: Answered,
    store: &mut S,
) -> LineEnd<D::Logged>
    requires disk { IsTrue alone.line.has_disk }
    requires slaves { length alone.line.sizes ≡ length line.now.images.items }
    ensures others { ChangesAmong (S.files store.old) (S.files store.new) (files_of line.now) }
    ensures failed { IfErr result.ended (MayFail (S.files store.old) (S.files store.new)) }
    ensures saved { OnOk result.ended (HoldsSite (S.files store.new) line.now alone.seen.state) }
    ensures answered { IfOk result.ended (λ given. given ≡ answered) }
    ensures followed { IsFollowed (Tells D.follows D.tells result.reported) alone.seen }
    ensures reported { OnOk result.ended (IsReportedLine D.follows D.well D.tells result.reported (length line.now.images.items) alone.seen) }
{
    let (core, site) = alone.into_parts();
    drop(core);
    let (saved, reported) = save_reported(alloc, line, site, store);
    match saved {
        Ok(()) => LineEnd {
            ended: Ok(answered),
            reported,
        },
        Err(fault) => LineEnd {
            ended: Err(fault),
            reported,
        },
    }
}

/// What is reported of the device of a line that isn't worked on any more.
pub(crate) fn reported_of<D: Lends>(site: ShadowSite<D>) -> D::Logged
    ensures { IsFollowed (Tells D.follows D.tells result) site.seen }
{
    let (parts, mut device) = site.into_parts();
    drop(parts);
    device.tell()
}
