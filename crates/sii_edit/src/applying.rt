ghost use Rattle.std.specs.Prelude.{◌≡◌, All, IfOk, IfErr};
ghost use Rattle.sii_edit.specs.Command.{carried_out, outcome};
ghost use Rattle.sii_edit.specs.Draft.{drafted, IsCarriedOut, IsDraftOf};
ghost use Rattle.sii_words.specs.Redo.{redone, LiesInside};
ghost use Rattle.sii_edit.specs.Refusal.{IsRefusalOf};
ghost use Rattle.sii_words.specs.Run.{runs_between};
ghost use Rattle.sii_image.specs.NewLayouts.{with_each};

use crate::command::Command;
use crate::draft::Draft;
use crate::group::{edit_all, edit_guarded};
use crate::layouts::validated_layouts;
use crate::refusal::Refusal;
use sii_image::{Layout, NewLayouts};
use sii_words::{Plant, Run, redo};
use std::alloc::Global;

/// What a command changes: the changed words as runs, and the new layouts of the slaves that it edits.
#[derive(Drop)]
pub struct Change {
    /// The longest stretches of words that change, in rising order of slave and word. Redo of them over the plant gives the new
    /// contents.
    pub runs: Vec<Run>,
    /// The new layout of each slave that gets new words. The layout of the plant takes them in without memory, and is then that
    /// of the new contents.
    pub layouts: NewLayouts,
}

/// Judges a command on a plant with this layout, and gives what it changes. The plant is unchanged.
///
/// The cost depends on what the command may change. For a new alias no words are copied and no categories are read; for a
/// category or an image, the words of that slave are. Other slaves aren't looked at. `layout` must be the layout of `plant`.
///
/// # Errors
///
/// The first cause that applies:
///
/// - alias: `NoSlave`, `BadCheck`, `WrongIdentity`;
/// - category: `NoSlave`, `WrongIdentity`, `NoSuchCategory`, `SeveralCategories`, `BadCategory`, `NoRoom`, `BadChain`;
/// - image: `NoSlave`, `ImageTooLong`, `BadCheck`, `WrongIdentity`, `BadCategory`, `BadChain`;
/// - swap: `NoSlave`, `SameSlave`, `BadCheck`;
/// - group: `EmptyGroup`, `GroupTooLong`, then the causes of its edits, edit by edit;
/// - last of all `ImageOverLimit`: the new contents have no process image.
///
/// Or `Memory` in place of any answer if memory was refused.
pub fn changes(
    alloc: Global,
    plant: &Plant,
    layout: &Layout,
    command: &Command,
) -> Result<Change, Refusal>
    requires { layout.now ≡ plant.now }
    ensures accepted { IfOk result (λ change. outcome plant.now command.now ≡ Ok (redone plant.now change.runs.items)) }
    ensures runs { IfOk result (λ change. change.runs.items ≡ runs_between plant.now (redone plant.now change.runs.items)) }
    ensures inside { IfOk result (λ change. All (LiesInside plant.now) change.runs.items) }
    ensures layouts { IfOk result (λ change. with_each plant.now change.layouts ≡ redone plant.now change.runs.items) }
    ensures refused { IfErr result (λ refusal. IsRefusalOf (outcome plant.now command.now) refusal) }
{
    let mut draft = Draft::new(alloc);
    carry_out(&mut draft, alloc, plant, command)?;
    let layouts = validated_layouts(alloc, &draft, plant, layout)?;
    let runs = draft.runs(alloc, plant)?;
    Ok(Change { runs, layouts })
}

/// The plant after a command, and the runs that lead there from `plant`, which is unchanged.
///
/// # Errors
///
/// As for `changes`.
pub fn apply(alloc: Global, plant: &Plant, command: &Command) -> Result<(Plant, Vec<Run>), Refusal>
    ensures plant { IfOk result (λ applied. outcome plant.now command.now ≡ Ok applied.0) }
    ensures runs { IfOk result (λ applied. applied.1.items ≡ runs_between plant.now applied.0) }
    ensures redone { IfOk result (λ applied. redone plant.now applied.1.items ≡ applied.0) }
    ensures inside { IfOk result (λ applied. All (LiesInside plant.now) applied.1.items) }
    ensures refused { IfErr result (λ refusal. IsRefusalOf (outcome plant.now command.now) refusal) }
{
    let layout = Layout::of(alloc, plant)?;
    let change = changes(alloc, plant, &layout, command)?;
    let mut new = plant.try_copy()?;
    redo(&mut new, &change.runs);
    Ok((new, change.runs))
}

/// Makes the changes of a command in the draft.
fn carry_out(
    draft: &mut Draft,
    alloc: Global,
    plant: &Plant,
    command: &Command,
) -> Result<(), Refusal>
    requires { IsDraftOf plant.now draft.old }
    ensures { IsCarriedOut plant.now (carried_out (drafted plant.now draft.old) command.now) draft.new result }
{
    match command {
        Command::One(edit) => draft
            .edit(alloc, plant, None, edit)
            .map_err(Refusal::entire),
        Command::Swap { a, b } => draft.swap(plant, *a, *b).map_err(Refusal::entire),
        Command::Group(edits) => edit_all(draft, alloc, plant, edits.as_slice()),
        Command::Guarded(edits) => edit_guarded(draft, alloc, plant, edits.as_slice()),
    }
}
