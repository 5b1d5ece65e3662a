//! A plan, as rows.
ghost use Rattle.std.specs.Prelude.{◌≡◌};
ghost use Rattle.station_plan.specs.Refusals.{refused_at};

use crate::plan::Planned;
use line_changes::{put_changes, put_images};
use station_files::{Fault, Refused};
use station_line::Answers;
use station_rows::{END, RefusedCommand, Rows, Value, bare, named, said};
use std::alloc::AllocError;

/// Puts the answers to the commands of a script as rows, and keeps the refusals.
#[derive(Drop)]
pub(crate) struct AnswerRows {
    pub(crate) rows: Rows,
    /// The commands that were refused, in order.
    pub(crate) refused: Vec<RefusedCommand>,
}

impl Answers for AnswerRows {
    ghost use Rattle.std.specs.Prelude.{◌≡◌, ◌∷◌, ◌++◌, [], IfErr, OnOk};
    ghost use Rattle.station_files.specs.Faults.{IsOfStream};
    ghost use Rattle.station_plan.specs.Refusals.{refused_at};

    fn accepted(&mut self, place: usize, number: u64) -> Result<(), Fault>
        ensures failed { IfErr result IsOfStream }
        ensures same { self.new.refused ≡ self.old.refused }
    {
        let row = [named("command", place), named("accepted", number)];
        self.rows.put("answer", &row)?;
        Ok(())
    }

    fn refused(&mut self, place: usize, refused: Refused) -> Result<(), Fault>
        ensures failed { IfErr result IsOfStream }
        ensures kept { OnOk result (self.new.refused.items ≡ self.old.refused.items ++ refused_at place refused ∷ []) }
    {
        let row = [
            named("command", place),
            named("refused", Value::Begin),
            bare("code", refused.code.number()),
            bare("name", refused.code.entry().name),
            named("at", refused.position),
            END,
        ];
        self.rows.put("answer", &row)?;
        self.refused.push(refused_at(place, refused))?;
        Ok(())
    }

    fn totals(&mut self, accepted: u64, durable: u64, settled: u64) -> Result<(), Fault>
        ensures failed { IfErr result IsOfStream }
        ensures same { self.new.refused ≡ self.old.refused }
    {
        let row = [
            named("accepted", accepted),
            named("durable", durable),
            named("settled", settled),
        ];
        self.rows.put("totals", &row)?;
        Ok(())
    }
}

/// The command at this place of the script, which was refused so.
fn refused_at(place: usize, refused: Refused) -> RefusedCommand
    ensures { result ≡ refused_at place refused }
{
    let at = match refused.position {
        Some(position) => Some(u64::from(position)),
        None => None,
    };
    RefusedCommand {
        command: place as u64,
        code: refused.code,
        at,
    }
}

/// Puts the words that change, the commands that make word 0x3E say another size than the slave has, how much is written on the way, and the
/// process image before and after if it changes.
pub(crate) fn put_plan(rows: &mut Rows, planned: &Planned) -> Result<(), AllocError> {
    put_changes(rows, &planned.changes)?;
    for resize in &planned.resizes {
        let row = [
            said("", "command accepted as"),
            bare("accepted", resize.command),
            said("", "makes word 0x003e of"),
            named("slave", resize.slave),
            said("", "say"),
            bare("says", resize.says),
            said("", "words, and its EEPROM"),
            named("has", resize.has),
        ];
        rows.put("resize", &row)?;
    }
    let row = [
        said("", "writes"),
        named("words", planned.tally.words),
        named("bytes", planned.tally.bytes),
        named("syncs", planned.tally.syncs),
    ];
    rows.put("writes", &row)?;
    put_images(rows, &planned.before, &planned.after)
}
