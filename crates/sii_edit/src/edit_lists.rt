ghost use Rattle.std.specs.Prelude.{◌≡◌, ◌++◌, ◌∷◌, [], IfOk, OnOk};

use crate::command::{Edit, GuardedEdit};
use sii_words::ItemList;
use std::alloc::{AllocError, Global};

/// A list of edits. Contracts compare its edits alone.
pub type EditList = ItemList<Edit>;

/// A list of guarded edits. Contracts compare its edits alone.
pub type GuardedEditList = ItemList<GuardedEdit>;

fn push_edit(copies: &mut Vec<Edit>, edit: &Edit) -> Result<(), AllocError>
    ensures { OnOk result (copies.new.items ≡ copies.old.items ++ edit.now ∷ []) }
{
    copies.push(edit.try_copy()?)?;
    Ok(())
}

/// Copies these edits.
pub(crate) fn copied_edits(alloc: Global, edits: &[Edit]) -> Result<EditList, AllocError>
    ensures { IfOk result (λ copies. copies ≡ edits.now) }
{
    let mut copies = Vec::with_capacity(alloc, edits.len())?;
    for edit in edits {
        push_edit(&mut copies, edit)?;
    }
    Ok(ItemList::from_vec(copies))
}

fn push_guarded(copies: &mut Vec<GuardedEdit>, edit: &GuardedEdit) -> Result<(), AllocError>
    ensures { OnOk result (copies.new.items ≡ copies.old.items ++ edit.now ∷ []) }
{
    copies.push(edit.try_copy()?)?;
    Ok(())
}

/// Copies these guarded edits.
pub(crate) fn copied_guarded(
    alloc: Global,
    edits: &[GuardedEdit],
) -> Result<GuardedEditList, AllocError>
    ensures { IfOk result (λ copies. copies ≡ edits.now) }
{
    let mut copies = Vec::with_capacity(alloc, edits.len())?;
    for edit in edits {
        push_guarded(&mut copies, edit)?;
    }
    Ok(ItemList::from_vec(copies))
}
