//! The dispatches of a desk: for the disk, for each slave, and for the process data.

ghost use Rattle.std.specs.Prelude.{◌≡◌};
ghost use Rattle.station_threads.specs.Sides.{IsBlank, begins_below};

use crate::desk::Desk;
use crate::patience::Patience;
use book_model::{DiskNext, RomNext, RomOutcome};
use desk_book::{Refusals, Tickets, note_of};
use sii_image::Plan;
use site_core::DeviceFault;
use station_jobs::{
    CycleJob, CycleLog, CycleNotes, CycleOutcome, DiskLog, Dispatch, Notes, RomLog, Turn,
    zero_bytes,
};
use std::marker::Model;
use std::sync::Wait;

/// Hands out the disk's jobs: writes, gates to open or close, and syncs.
#[derive(Drop)]
pub struct DiskSide<'a, T: Tickets, R: Refusals> {
    pub(crate) desk: &'a Desk<T, R>,
    pub(crate) notes: Notes<DiskNext, Result<(), DeviceFault>>,
    pub(crate) has_job: bool,
    pub(crate) limit: usize,
    pub(crate) patience: Patience,
}

impl<'a, T: Tickets, R: Refusals> Model for DiskSide<'a, T, R> {
    ghost use Rattle.station_threads.specs.Sides.{DiskHands};

    ghost Value = { DiskHands };

    ghost view = { λ side. record { limit = side.limit; log = side.notes.entries; has_job = side.has_job } };
}

/// Hands out one slave's jobs: words of its EEPROM to issue and to settle.
#[derive(Drop)]
pub struct RomSide<'a, T: Tickets, R: Refusals> {
    pub(crate) desk: &'a Desk<T, R>,
    pub(crate) slave: u16,
    pub(crate) notes: Notes<RomNext, RomOutcome>,
    pub(crate) has_job: bool,
    pub(crate) patience: Patience,
}

impl<'a, T: Tickets, R: Refusals> Model for RomSide<'a, T, R> {
    ghost use Rattle.station_threads.specs.Sides.{RomHands};

    ghost Value = { RomHands };

    ghost view = { λ side. record { slave = side.slave; log = side.notes.entries; has_job = side.has_job } };
}

/// Hands out process data cycles.
#[derive(Drop)]
pub struct CycleSide<'a, T: Tickets, R: Refusals> {
    pub(crate) desk: &'a Desk<T, R>,
    pub(crate) turns: CycleNotes,
    pub(crate) has_job: bool,
    pub(crate) patience: Patience,
}

impl<'a, T: Tickets, R: Refusals> Model for CycleSide<'a, T, R> {
    ghost use Rattle.station_threads.specs.Sides.{CycleHands};

    ghost Value = { CycleHands };

    ghost view = { λ side. record { log = side.turns.entries; has_job = side.has_job } };
}

/// Whether this is an action, and not a write that begins behind byte `limit` of the file.
fn begins_below(job: &DiskNext, limit: usize) -> bool
    ensures { result ≡ begins_below limit job.now }
{
    match job {
        DiskNext::Write { at, .. } => *at <= limit,
        DiskNext::Gate { at, .. } => *at <= limit,
        DiskNext::Sync => true,
        DiskNext::Idle | DiskNext::Stop => false,
    }
}

impl<'a, T: Tickets, R: Refusals> Dispatch<DiskLog> for DiskSide<'a, T, R> {
    ghost use Rattle.std.specs.Prelude.{◌≡◌, true};
    ghost use Rattle.station_threads.specs.Sides.{BeginsBelow};

    ghost log = { λ side. side.log };

    ghost has_job = { λ side. side.has_job };

    ghost may_hand = { λ side job. BeginsBelow side.limit job };

    ghost has_ended = { λ _. Unit {0} };

    ghost are_reported = { λ _ _. Unit {0} };

    /// The answer is `Stop` in place of a write that begins after the journal's area. It is `Stop` too once memory stayed refused.
    fn next<W: Wait>(&mut self, rt: &W) -> Turn<DiskNext> {
        let desk = self.desk;
        if desk.stops_for_memory(rt, &self.patience) {
            return Turn::Stop;
        }
        let Ok(()) = self.notes.reserve() else {
            self.patience.refused();
            return Turn::Again;
        };
        match desk.ask_disk(rt, &mut self.patience) {
            Turn::Work((job, copy)) => {
                if begins_below(&job, self.limit) {
                    self.notes.hand_out(copy);
                    self.has_job = true;
                    Turn::Work(job)
                } else {
                    drop(job);
                    drop(copy);
                    Turn::Stop
                }
            }
            Turn::Again => Turn::Again,
            Turn::Stop => Turn::Stop,
        }
    }

    fn done<W: Wait>(&mut self, rt: &W, outcome: Result<(), DeviceFault>) {
        let desk = self.desk;
        desk.disk_done(rt, outcome);
        self.notes.tell(outcome);
        self.has_job = false;
    }

    fn into_log(self) -> DiskLog {
        self.notes.into_list()
    }
}

impl<'a, T: Tickets, R: Refusals> Dispatch<RomLog> for RomSide<'a, T, R> {
    ghost use Rattle.std.specs.Prelude.{◌≡◌, true};
    ghost use Rattle.desk_book.specs.Asking.{is_rom_job};

    ghost log = { λ side. side.log };

    ghost has_job = { λ side. side.has_job };

    ghost may_hand = { λ _ job. is_rom_job job ≡ true };

    ghost has_ended = { λ _. Unit {0} };

    ghost are_reported = { λ _ _. Unit {0} };

    fn next<W: Wait>(&mut self, rt: &W) -> Turn<RomNext> {
        let desk = self.desk;
        if desk.stops_for_memory(rt, &self.patience) {
            return Turn::Stop;
        }
        let Ok(()) = self.notes.reserve() else {
            self.patience.refused();
            return Turn::Again;
        };
        match desk.ask_slave(rt, self.slave, &mut self.patience) {
            Turn::Work(job) => {
                self.notes.hand_out(job);
                self.has_job = true;
                Turn::Work(job)
            }
            Turn::Again => Turn::Again,
            Turn::Stop => Turn::Stop,
        }
    }

    fn done<W: Wait>(&mut self, rt: &W, outcome: RomOutcome) {
        let desk = self.desk;
        desk.slave_done(rt, self.slave, outcome);
        self.notes.tell(outcome);
        self.has_job = false;
    }

    fn into_log(self) -> RomLog {
        self.notes.into_list()
    }
}

/// One process data cycle by this plan, with all outputs zero.
fn blank_turn(plan: Plan) -> CycleJob
    ensures plan { result.plan ≡ plan }
    ensures blank { IsBlank result }
{
    let outputs = zero_bytes(plan.image.outputs());
    CycleJob { plan, outputs }
}

impl<'a, T: Tickets, R: Refusals> Dispatch<CycleLog> for CycleSide<'a, T, R> {
    ghost use Rattle.station_threads.specs.Sides.{IsBlank};

    ghost log = { λ side. side.log };

    ghost has_job = { λ side. side.has_job };

    ghost may_hand = { λ _ job. IsBlank job };

    ghost has_ended = { λ _. Unit {0} };

    ghost are_reported = { λ _ _. Unit {0} };

    fn next<W: Wait>(&mut self, rt: &W) -> Turn<CycleJob> {
        let desk = self.desk;
        if desk.stops_for_memory(rt, &self.patience) {
            return Turn::Stop;
        }
        let Ok(()) = self.turns.reserve() else {
            self.patience.refused();
            return Turn::Again;
        };
        match desk.ask_cycle(rt, &mut self.patience) {
            Turn::Work(plan) => {
                self.turns.hand_out(note_of(&plan));
                self.has_job = true;
                Turn::Work(blank_turn(plan))
            }
            Turn::Again => Turn::Again,
            Turn::Stop => Turn::Stop,
        }
    }

    /// It waits until the next cycle is due.
    fn done<W: Wait>(&mut self, rt: &W, _outcome: CycleOutcome) {
        let desk = self.desk;
        self.has_job = false;
        desk.await_cycle(rt);
    }

    fn into_log(self) -> CycleLog {
        self.turns.into_log()
    }
}
