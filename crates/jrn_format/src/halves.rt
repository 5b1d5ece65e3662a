//! Reads the two halves of an area of version 2.

ghost use Rattle.std.specs.Prelude.{◌≡◌, ◌≤◌, ◌++◌, length, Ok};
ghost use Rattle.jrn_format.specs.steps.Reading.{Answers, are_of, halves_of, in_order, is_followed_by, older_generation};

use crate::area::batches;
use crate::fault::JournalFault;
use crate::fields::AREA_START;
use crate::journal::{Batch, Spelling};
use std::alloc::Global;

/// The generation that the older half has or would have; 0 if nothing is live in either half.
fn older_generation(older: &[Batch], newer: &[Batch]) -> u8
    ensures { result ≡ older_generation older.now newer.now }
{
    match (older, newer) {
        ([batch, ..], _) => batch.generation,
        ([], [batch, ..]) => batch.generation.wrapping_sub(1),
        ([], []) => 0,
    }
}

fn are_of(generation: u8, batches: &[Batch]) -> bool
    ensures { result ≡ are_of generation batches.now }
{
    batches.iter().all(|batch| batch.generation == generation)
}

/// Whether all batches in `older` have one generation, and all in `newer` the next one, modulo 256.
fn is_followed_by(older: &[Batch], newer: &[Batch]) -> bool
    ensures { result ≡ is_followed_by older.now newer.now }
{
    let generation = older_generation(older, newer);
    are_of(generation, older) && are_of(generation.wrapping_add(1), newer)
}

fn joined(mut older: Vec<Batch>, mut newer: Vec<Batch>) -> Result<Vec<Batch>, JournalFault>
    ensures { Answers (λ v. v.items) result (Ok (older.items ++ newer.items)) }
{
    older.append(&mut newer)?;
    Ok(older)
}

/// Joins the batches of both halves, those of the older half first. The generations decide which half that is.
#[tactic(auto, unfolding(crate::specs::steps::Reading::in_order))]
fn in_order(firsts: Vec<Batch>, seconds: Vec<Batch>) -> Result<Vec<Batch>, JournalFault>
    ensures { Answers (λ v. v.items) result (in_order firsts.items seconds.items) }
{
    if is_followed_by(&firsts, &seconds) {
        return joined(firsts, seconds);
    }
    if is_followed_by(&seconds, &firsts) {
        return joined(seconds, firsts);
    }
    Err(JournalFault::BadJournal { at: AREA_START })
}

/// Reads the live batches of an area of version 2, those of the older half first.
///
/// # Errors
///
/// As for `batches`, in half 0 and then in half 1; then `BadJournal` at byte 8 if the generations are mixed within a half or
/// not consecutive. `Memory` instead if memory was refused.
#[tactic(auto, unfolding(crate::specs::steps::Reading::halves_of))]
pub(crate) fn halves(alloc: Global, sizes: &[u16], area: &[u8]) -> Result<Vec<Batch>, JournalFault>
    requires { length area.now ≤ 4194304 }
    ensures { Answers (λ v. v.items) result (halves_of sizes.now area.now) }
{
    let half = area.len() / 2;
    let (first, after) = area.split_at(half);
    let (second, _) = after.split_at(half);
    let end = AREA_START + half;
    let firsts = batches(alloc, Spelling::WithGeneration, 0, sizes, end, first)?;
    let seconds = batches(
        alloc,
        Spelling::WithGeneration,
        1,
        sizes,
        end + half,
        second,
    )?;
    in_order(firsts, seconds)
}
