//! What is reported of the devices of a line that was served at a desk.

ghost use Rattle.std.specs.Prelude.{◌≡◌, Some, None};
ghost use Rattle.site_core.specs.State.{Seen};
ghost use Rattle.script_session.specs.Parts.{Telling};
ghost use Rattle.script_session.specs.Running.{IsNoneReported, desk_of, opening_of};

use site_shadow::{Device, Lends};

/// What is reported of the device of a part, and whether the part ended soundly: its site goes on, and nothing has failed that the device was asked.
#[derive(Drop)]
pub struct PartLog<T> {
    /// What is reported of the device.
    pub reported: T,
    /// Whether the part ended soundly.
    pub is_sound: bool,
}

/// What is reported of the devices of a line that was taken apart.
#[derive(Drop)]
pub struct DeskLog<T> {
    /// Of the line's device, before the line was taken apart.
    pub line: PartLog<T>,
    /// Of the disk's device.
    pub disk: PartLog<T>,
    /// Of each slave's device, in order.
    pub slaves: Vec<PartLog<T>>,
}

/// What is reported of the devices of a line that was not served, or not put together again after that.
#[derive(Drop)]
pub enum UnservedLog<T> {
    /// Of the line's device, where it had lent none to a part yet.
    Line(PartLog<T>),
    /// Of the devices of the parts, which no desk has served.
    Separate(DeskLog<T>),
    /// Of the devices at a desk that served the parts.
    Desk(DeskLog<T>),
}

/// What is reported of the devices of a line that was served at a desk. `T` is what one device tells.
#[derive(Drop)]
pub struct LineLog<T> {
    /// Of the line's device as the station was opened, and of its parts' at the desk.
    pub desk: DeskLog<T>,
    /// Of the line's device after the desk.
    pub after: T,
}

/// What a run tells of the devices of its line, as far as it came. `T` is what one device tells.
#[derive(Drop)]
pub struct RunLog<T> {
    /// Of the line's device as the station was opened, if its parts got none.
    pub opening: Option<T>,
    /// Of the devices of a line that was taken apart: of the line's as the station was opened, and of its parts', also where no desk has served them.
    pub desk: Option<DeskLog<T>>,
    /// Of the line's device after the desk.
    pub after: Option<T>,
}

impl<T> RunLog<T> {
    /// Of no device: none has had the line.
    pub fn none() -> RunLog<T>
        ensures { IsNoneReported result }
    {
        RunLog {
            opening: None,
            desk: None,
            after: None,
        }
    }

    /// Of the devices of a line that was not served, or not put together again after that.
    pub(crate) fn of_unserved(reported: UnservedLog<T>) -> RunLog<T>
        ensures opening { result.opening ≡ opening_of reported }
        ensures desk { result.desk ≡ desk_of reported }
    {
        match reported {
            UnservedLog::Line(line) => RunLog::of_opening(line.reported),
            UnservedLog::Separate(desk) | UnservedLog::Desk(desk) => RunLog::of_desk(desk, None),
        }
    }

    /// Of the line's device alone, as a station wasn't opened.
    pub(crate) fn of_opening(reported: T) -> RunLog<T>
        ensures opening { result.opening ≡ Some reported }
        ensures desk { result.desk ≡ None }
    {
        RunLog {
            opening: Some(reported),
            desk: None,
            after: None,
        }
    }

    /// Of a line that was taken apart, and of its device after that.
    pub(crate) fn of_desk(desk: DeskLog<T>, after: Option<T>) -> RunLog<T>
        ensures opening { result.opening ≡ None }
        ensures desk { result.desk ≡ Some desk }
        ensures after { result.after ≡ after }
    {
        RunLog {
            opening: None,
            desk: Some(desk),
            after,
        }
    }
}

/// What this device tells, which was behind a site that had stopped or not. It is then as one that has asked nothing yet.
pub(crate) fn reported_by<D: Lends>(device: &mut D, has_stopped: bool) -> PartLog<D::Logged>
    ensures { (seen : Seen) → D.follows device.old seen → has_stopped ≡ seen.is_stopped
        → Telling D.follows D.well D.tells result device.old seen }
{
    let is_sound = !has_stopped && device.is_well();
    PartLog {
        reported: device.tell(),
        is_sound,
    }
}

/// What the device of the line tells of this one, which was after a part's site that had stopped or not, and is taken back.
pub(crate) fn taken_back<D: Lends>(entire: &mut D, lent: D, has_stopped: bool) -> PartLog<D::Logged>
    ensures { (seen : Seen) → D.follows lent seen → has_stopped ≡ seen.is_stopped → Telling D.follows D.well D.tells result lent seen }
{
    let is_sound = !has_stopped && lent.is_well();
    PartLog {
        reported: entire.take_back(lent),
        is_sound,
    }
}
