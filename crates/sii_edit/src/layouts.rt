ghost use Rattle.std.specs.Prelude.{◌≡◌, ◌<◌, IsTrue, length, Ok, IfOk, IfErr};
ghost use Rattle.sii_words.specs.Plant.{words_of};
ghost use Rattle.sii_image.specs.NewLayouts.{with_each};
ghost use Rattle.sii_edit.specs.Draft.{drafted, renewed, IsDraftOf};
ghost use Rattle.sii_edit.specs.Command.{has_process_image, with_process_image};
ghost use Rattle.sii_edit.specs.Refusal.{IsRefusalOf};

use crate::draft::{Draft, NewWords, Renewal};
use crate::refusal::{Cause, Refusal};
use sii_image::{Layout, NewLayout, NewLayouts};
use sii_words::Plant;
use std::alloc::{AllocError, Global};

/// The layout of a slave with its new words. A new alias doesn't touch the categories, so none is read.
fn new_layout(
    alloc: Global,
    plant: &Plant,
    layout: &Layout,
    renewal: &Renewal,
) -> Result<NewLayout, AllocError>
    requires slave { renewal.now.slave < length plant.now }
    requires layout { layout.now ≡ plant.now }
    ensures { IfOk result (λ new. new ≡ record {
      slave = renewal.now.slave;
      layout = renewed (words_of plant.now renewal.now.slave) renewal.now.new;
    }) }
{
    let slave = usize::from(renewal.slave);
    let (old, before) = (plant.slave(slave), layout.slave(slave));
    let after = match &renewal.new {
        NewWords::Renamed(name) => before.renamed(alloc, old, name.alias, name.seven)?,
        NewWords::Rewritten(words) => before.changed(alloc, old, words)?,
    };
    Ok(NewLayout {
        slave: renewal.slave,
        layout: after,
    })
}

/// The layouts of all slaves that get new words.
fn new_layouts(
    alloc: Global,
    draft: &Draft,
    plant: &Plant,
    layout: &Layout,
) -> Result<NewLayouts, AllocError>
    requires draft { IsDraftOf plant.now draft.now }
    requires layout { layout.now ≡ plant.now }
    ensures { IfOk result (λ new. with_each plant.now new ≡ drafted plant.now draft.now) }
{
    let renewals = draft.renewals();
    let mut layouts = Vec::with_capacity(alloc, renewals.len())?;
    for renewal in renewals {
        let new = new_layout(alloc, plant, layout, renewal)?;
        layouts.push(new)?;
    }
    Ok(NewLayouts::of(layouts))
}

/// The layouts of all slaves that get new words, if the plant then has a process image.
pub(crate) fn validated_layouts(
    alloc: Global,
    draft: &Draft,
    plant: &Plant,
    layout: &Layout,
) -> Result<NewLayouts, Refusal>
    requires draft { IsDraftOf plant.now draft.now }
    requires layout { layout.now ≡ plant.now }
    ensures accepted { IfOk result (λ new. IsTrue (has_process_image (drafted plant.now draft.now))) }
    ensures layouts { IfOk result (λ new. with_each plant.now new ≡ drafted plant.now draft.now) }
    ensures refused { IfErr result (λ refusal. IsRefusalOf (with_process_image (Ok (drafted plant.now draft.now))) refusal) }
{
    let new = new_layouts(alloc, draft, plant, layout)?;
    if !layout.has_process_image_with(&new) {
        return Err(Refusal::entire(Cause::ImageOverLimit));
    }
    Ok(new)
}
