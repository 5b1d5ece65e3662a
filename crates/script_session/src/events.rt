//! Tells how many commands are durable and settled, as it happens.

ghost use Rattle.std.specs.Prelude.{IfErr};
ghost use Rattle.station_files.specs.Faults.{IsOfStream};

use book_model::Status;
use station_files::Fault;
use station_threads::{Desk, Refusals, Tickets};
use std::io::Write;
use std::sync::Wait;

/// Prints a line each time that more commands are durable, and one each time that more are settled, until all accepted ones are settled or the
/// desk is closed. A line says how many are by now, and is written out at once.
///
/// # Errors
///
/// `File` or `Memory` where a line can't be printed. The desk goes on.
pub(crate) fn tell_events<T: Tickets, R: Refusals, O: Write, W: Wait>(
    rt: &W,
    desk: &Desk<T, R>,
    output: &mut O,
) -> Result<(), Fault>
    ensures { IfErr result IsOfStream }
{
    let mut reported = Status {
        accepted: 0,
        durable: 0,
        settled: 0,
        live_bytes: 0,
    };
    let mut status = desk.status(rt);
    for _change in rt.forever() {
        tell_change(&reported, &status, output)?;
        if status.settled >= status.accepted {
            return Ok(());
        }
        reported = status;
        status = desk.changed(rt, &reported);
        if status == reported {
            return Ok(());
        }
    }
    unreachable!()
}

/// Prints what is durable and settled by now and wasn't before.
fn tell_change<O: Write>(reported: &Status, status: &Status, output: &mut O) -> Result<(), Fault>
    ensures { IfErr result IsOfStream }
{
    if status.durable > reported.durable {
        writeln!(output, "event durable {}", status.durable)?;
    }
    if status.settled > reported.settled {
        writeln!(output, "event settled {}", status.settled)?;
    }
    output.flush()?;
    Ok(())
}
