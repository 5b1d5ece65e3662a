//! The layout of a line, from which its process image is made.

ghost use Rattle.std.specs.Prelude.{◌≡◌, ◌<◌, ◌≤◌, ◌↔◌, length, map, slice_set, sum_by, IsTrue, IsSome, IfOk, OnOk, OnErr};
ghost use Rattle.std.specs.List.{list_all};
ghost use Rattle.sii_words.specs.Plant.{words_of};
ghost use Rattle.sii_image.specs.NewLayouts.{with_each};
ghost use Rattle.sii_image.specs.ProcessData.{rows_of};
ghost use Rattle.sii_image.specs.ProcessImage.{counter_of, has_few_rows, process_image};
ghost use Rattle.sii_image.specs.Answer.{GivesProcessImage};
ghost use Rattle.sii_image.specs.steps.Weight.{weight_of_all};

use crate::fault::ImageFault;
use crate::limits::{are_within_limits, weight_of_all, weight_with};
use crate::new_layouts::{NewLayout, NewLayouts};
use crate::placement::Placement;
use crate::process_image::ProcessImage;
use crate::rows::{MOST_ROWS, expected_counter};
use crate::slave_layout::SlaveLayout;
use sii_words::{Plant, Words};
use std::alloc::{AllocError, Global};
use std::marker::Model;

fn have_few_rows(slaves: &[SlaveLayout]) -> bool
    ensures { result ≡ list_all has_few_rows slaves.now }
{
    slaves.iter().all(|slave| slave.rows().len() <= MOST_ROWS)
}

fn expected_counter_of_all(slaves: &[SlaveLayout]) -> u16
    requires { length slaves.now ≤ 64 }
    ensures { result ≡ sum_by (λ words. counter_of (rows_of words)) slaves.now }
{
    slaves
        .iter()
        .map(|slave| expected_counter(slave.rows()))
        .sum()
}

fn process_image_of_slaves(
    alloc: Global,
    slaves: &[SlaveLayout],
) -> Result<ProcessImage, ImageFault>
    requires { length slaves.now ≤ 64 }
    ensures { GivesProcessImage result (process_image slaves.now) }
{
    if !have_few_rows(slaves) {
        return Err(ImageFault::ImageOverLimit);
    }
    let mut placement = Placement::new(alloc);
    placement.add_all(slaves, true)?;
    let outputs = placement.size;
    placement.add_all(slaves, false)?;
    let inputs = placement.size - outputs;
    Ok(ProcessImage::of(
        placement.segments,
        outputs,
        inputs,
        expected_counter_of_all(slaves),
    ))
}

/// Replaces the layout of one slave, and answers the new weight of all slaves. Nothing changes if there is no such slave.
fn put(slaves: &mut [SlaveLayout], weight: u32, slave: usize, new: SlaveLayout) -> u32
    requires few { length slaves.old ≤ 64 }
    requires weight { weight ≡ weight_of_all slaves.old }
    ensures slaves { slaves.new ≡ slice_set slaves.old slave new }
    ensures weight { result ≡ weight_of_all slaves.new }
{
    if slave >= slaves.len() {
        return weight;
    }
    let changed = weight_with(weight, &slaves[slave], &new);
    slaves[slave] = new;
    changed
}

/// Replaces the layout of each slave that has a new one, and answers the new weight of all slaves.
fn put_each(slaves: &mut [SlaveLayout], weight: u32, new: Vec<NewLayout>) -> u32
    requires few { length slaves.old ≤ 64 }
    requires weight { weight ≡ weight_of_all slaves.old }
    ensures slaves { slaves.new ≡ with_each slaves.old new.items }
    ensures weight { result ≡ weight_of_all slaves.new }
{
    let mut changed = weight;
    let mut left = new;
    while let Some(last) = left.pop() {
        changed = put(slaves, changed, usize::from(last.slave), last.layout);
    }
    changed
}

/// The layout of a line, from which its process image is made, kept up to date as contents change. In contracts its value is
/// the contents of the line; in memory it holds none of their words.
#[derive(Drop)]
pub struct Layout {
    slaves: Vec<SlaveLayout>,
    weight: u32,
}

impl Model for Layout {
    ghost use Rattle.std.specs.Prelude.{ℕ, List, length, ◌≡◌, ◌≤◌};
    ghost use Rattle.sii_image.specs.steps.Weight.{weight_of_all};

    ghost Value = { List (List ℕ) };

    ghost view = { λ layout. layout.slaves.items };

    ghost invariant = { λ layout. (length layout.slaves.items ≤ 64) × (layout.weight ≡ weight_of_all layout.slaves.items) };
}

impl Layout {
    /// Reads the layout of a line from its contents.
    ///
    /// # Errors
    ///
    /// `AllocError` if memory was refused.
    pub fn of(alloc: Global, plant: &Plant) -> Result<Layout, AllocError>
        ensures { IfOk result (λ layout. layout ≡ plant.now) }
    {
        let mut slaves = Vec::with_capacity(alloc, plant.len())?;
        for slave in 0..plant.len() {
            slaves.push(SlaveLayout::of(alloc, plant.slave(slave))?)?;
        }
        let weight = weight_of_all(&slaves);
        Ok(Layout { slaves, weight })
    }

    /// The layout of slave `slave`, which must exist.
    pub fn slave(&self, slave: usize) -> &SlaveLayout
        requires { slave < length self.now }
        ensures { result.now ≡ words_of self.now slave }
    {
        &self.slaves[slave]
    }

    /// Takes in the new words of one slave. Nothing changes if there is no such slave.
    ///
    /// # Errors
    ///
    /// `AllocError` if memory was refused. The layout is then unchanged.
    pub fn change(&mut self, slave: u16, words: &Words) -> Result<(), AllocError>
        ensures ok { OnOk result (self.new ≡ slice_set self.old slave words.now) }
        ensures err { OnErr result (self.new ≡ self.old) }
    {
        let new = SlaveLayout::of(*self.slaves.allocator(), words)?;
        self.weight = put(&mut self.slaves, self.weight, usize::from(slave), new);
        Ok(())
    }

    /// Takes in the new layouts of some slaves, without taking memory. A layout of a slave that doesn't exist changes nothing.
    pub fn put_all(&mut self, new: NewLayouts)
        ensures { self.new ≡ with_each self.old new }
    {
        self.weight = put_each(&mut self.slaves, self.weight, new.items);
    }

    /// The process image of the contents as they are now.
    ///
    /// # Errors
    ///
    /// `ImageOverLimit` if it would have more than 1,486 bytes, or a slave more than 8 segments. Or `Memory` in place of any
    /// answer if memory was refused.
    pub fn image(&self) -> Result<ProcessImage, ImageFault>
        ensures { GivesProcessImage result (process_image self.now) }
    {
        process_image_of_slaves(*self.slaves.allocator(), &self.slaves)
    }

    /// Whether the line has a process image once these new layouts are taken in. It takes no memory, and looks only at these
    /// slaves.
    pub fn has_process_image_with(&self, new: &NewLayouts) -> bool
        ensures { IsTrue result ↔ IsSome (process_image (with_each self.now new.now)) }
    {
        are_within_limits(&self.slaves, self.weight, &new.items)
    }
}

/// The process image of a line with these contents.
///
/// # Errors
///
/// `ImageOverLimit` if it would have more than 1,486 bytes, or a slave more than 8 segments. Or `Memory` in place of any answer
/// if memory was refused.
pub fn image_of(alloc: Global, plant: &Plant) -> Result<ProcessImage, ImageFault>
    ensures { GivesProcessImage result (process_image plant.now) }
{
    Layout::of(alloc, plant)?.image()
}
