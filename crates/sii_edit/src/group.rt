ghost use Rattle.std.specs.Prelude.{◌≡◌, ◌<◌, map};
ghost use Rattle.sii_edit.specs.Command.{edited, group_causes, grouped, unguarded};
ghost use Rattle.sii_edit.specs.Draft.{drafted, IsCarriedOut, IsDraftOf};
ghost use Rattle.sii_edit.specs.Refusal.{of_place, of_entire, unless};

use crate::command::{Edit, Expect, GuardedEdit};
use crate::draft::Draft;
use crate::refusal::{Cause, Refusal};
use sii_words::Plant;
use std::alloc::Global;

/// The most edits of a group.
const MOST_EDITS: usize = 64;

/// Judges the number of edits of a group.
fn validate_count(count: usize) -> Result<(), Refusal>
    ensures { result ≡ of_entire (unless (group_causes count) tt) }
{
    if count == 0 {
        return Err(Refusal::entire(Cause::EmptyGroup));
    }
    if count > MOST_EDITS {
        return Err(Refusal::entire(Cause::GroupTooLong));
    }
    Ok(())
}

/// Makes the edit at a place of a group.
fn edit_at(
    draft: &mut Draft,
    alloc: Global,
    plant: &Plant,
    place: usize,
    expect: Option<Expect>,
    edit: &Edit,
) -> Result<(), Refusal>
    requires draft { IsDraftOf plant.now draft.old }
    requires place { place < 64 }
    ensures { IsCarriedOut plant.now (of_place place (edited (drafted plant.now draft.old) expect edit.now)) draft.new result }
{
    match draft.edit(alloc, plant, expect, edit) {
        Ok(()) => Ok(()),
        Err(cause) => Err(Refusal::at(place as u8, cause)),
    }
}

/// Makes the edits of a group, each on what the earlier ones left.
pub(crate) fn edit_all(
    draft: &mut Draft,
    alloc: Global,
    plant: &Plant,
    edits: &[Edit],
) -> Result<(), Refusal>
    requires { IsDraftOf plant.now draft.old }
    ensures { IsCarriedOut plant.now (grouped (drafted plant.now draft.old) (map unguarded edits.now)) draft.new result }
{
    validate_count(edits.len())?;
    for (place, edit) in edits.iter().enumerate() {
        edit_at(draft, alloc, plant, place, None, edit)?;
    }
    Ok(())
}

/// Makes the guarded edits of a group, each on what the earlier ones left.
pub(crate) fn edit_guarded(
    draft: &mut Draft,
    alloc: Global,
    plant: &Plant,
    edits: &[GuardedEdit],
) -> Result<(), Refusal>
    requires { IsDraftOf plant.now draft.old }
    ensures { IsCarriedOut plant.now (grouped (drafted plant.now draft.old) edits.now) draft.new result }
{
    validate_count(edits.len())?;
    for (place, guarded) in edits.iter().enumerate() {
        edit_at(draft, alloc, plant, place, guarded.expect, &guarded.edit)?;
    }
    Ok(())
}
