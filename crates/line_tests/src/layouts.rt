//! Layouts that are changed, slave by slave, to those of a line worked out by hand.

use crate::devices::{BOTH, Device, INPUTS, NOTHING, line_of, words_of};
use sii_image::{Layout, NewLayout, NewLayouts, Segment, SlaveLayout};
use std::alloc::Global;

const SEGMENTS: &[Segment] = &[
    Segment {
        slave: 0,
        manager: 2,
        output: true,
        offset: 0,
        size: 1,
        bits: 8,
        start: 0x1100,
        control: 0x24,
    },
    Segment {
        slave: 0,
        manager: 3,
        output: false,
        offset: 1,
        size: 4,
        bits: 32,
        start: 0x1180,
        control: 0x20,
    },
    Segment {
        slave: 1,
        manager: 0,
        output: false,
        offset: 5,
        size: 2,
        bits: 12,
        start: 0x1000,
        control: 0x20,
    },
];

/// The line once its first slave is `INPUTS`, and has nothing after it.
const CHANGED: &[Segment] = &[Segment {
    slave: 0,
    manager: 0,
    output: false,
    offset: 0,
    size: 2,
    bits: 12,
    start: 0x1000,
    control: 0x20,
}];

/// Whether a layout has the process image of these segments, with so many bytes of outputs and inputs, and this working counter.
fn has_image(layout: &Layout, segments: &[Segment], sizes: (usize, usize), counter: u16) -> bool {
    match layout.image() {
        Ok(image) => {
            image.segments() == segments
                && (image.outputs(), image.inputs()) == sizes
                && image.expected_counter() == counter
        }
        Err(_fault) => false,
    }
}

/// The layout of a device.
fn slave_layout(alloc: Global, device: &Device) -> Option<SlaveLayout> {
    match words_of(alloc, device) {
        Some(words) => SlaveLayout::of(alloc, &words).ok(),
        None => None,
    }
}

/// The line before the change of its slaves.
const BEFORE: &[Device] = &[BOTH, NOTHING];

/// The layouts of both slaves of the line.
fn both_layouts(alloc: Global) -> Option<NewLayouts> {
    let first = NewLayout {
        slave: 0,
        layout: slave_layout(alloc, &BOTH)?,
    };
    let second = NewLayout {
        slave: 1,
        layout: slave_layout(alloc, &INPUTS)?,
    };
    let layouts = Vec::from_array(alloc, [first, second]).ok()?;
    Some(NewLayouts::of(layouts))
}

/// Whether the first slave of a layout is changed to `INPUTS`. There is no third one, so nothing else is changed.
fn first_is_changed(alloc: Global, layout: &mut Layout) -> bool {
    let Some(inputs) = words_of(alloc, &INPUTS) else {
        return false;
    };
    layout.change(0, &inputs).is_ok()
        && layout.change(2, &inputs).is_ok()
        && has_image(layout, CHANGED, (0, 2), 1)
}

/// Whether this layout has the process image of the line once both slaves are changed.
fn becomes_complete(layout: &mut Layout, new: NewLayouts) -> bool {
    let is_within = layout.has_process_image_with(&new);
    layout.put_all(new);
    is_within && has_image(layout, SEGMENTS, (1, 6), 4)
}

fn is_changed(alloc: Global, layout: &mut Layout) -> bool {
    let is_changed = first_is_changed(alloc, layout);
    match both_layouts(alloc) {
        Some(new) => becomes_complete(layout, new) && is_changed,
        None => false,
    }
}

/// The layout of the line before the change.
fn layout_before(alloc: Global) -> Option<Layout> {
    match line_of(alloc, BEFORE) {
        Some(plant) => Layout::of(alloc, &plant).ok(),
        None => None,
    }
}

#[test]
fn layouts_are_changed(rt: HostRuntime) {
    let is_changed = match layout_before(rt.alloc()) {
        Some(mut layout) => is_changed(rt.alloc(), &mut layout),
        None => false,
    };
    assert!(rt; is_changed);
}
