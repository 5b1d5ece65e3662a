ghost use Rattle.std.specs.Prelude.{◌≡◌, ◌≤◌, ℕ, [], length, map, IfOk};
ghost use Rattle.book_model.specs.Open.{opened_slave};
ghost use Rattle.book_parts.specs.Works.{slave_of, WorkStands, WorksStand};

use crate::work::{Operation, SlaveWork};
use book_model::SlaveQueue;
use sii_words::{History, Plant};
use std::alloc::{AllocError, Global};

/// A slave with these words, and nothing live.
fn open_slave(alloc: Global, words: &[u16]) -> Result<SlaveWork, AllocError>
    requires { length words.now ≤ 4096 }
    ensures slave { IfOk result (λ work. slave_of work ≡ opened_slave words.now) }
    ensures stands { IfOk result (λ work. (i : ℕ) → WorkStands work i [] []) }
{
    Ok(SlaveWork {
        queue: SlaveQueue::open(alloc, words)?,
        older: 0,
        operation: Operation::NoOperation,
        issued: History::new(),
    })
}

/// The slaves of the plant in order, and nothing live.
pub(crate) fn open_slaves(alloc: Global, plant: &Plant) -> Result<Vec<SlaveWork>, AllocError>
    ensures slaves { IfOk result (λ works. map slave_of works.items ≡ map opened_slave plant.now) }
    ensures stand { IfOk result (λ works. WorksStand works.items [] []) }
{
    let mut works = Vec::with_capacity(alloc, plant.len())?;
    for slave in 0..plant.len() {
        works.push(open_slave(alloc, plant.slave(slave).as_slice())?)?;
    }
    Ok(works)
}
