//! The process image.

ghost use Rattle.std.specs.Prelude.{◌≡◌, ◌+◌, ◌≤◌};

use std::marker::Model;

/// The process data of one sync manager in the process image. Its manager, direction and length come from the SyncM, TXPDO and
/// RXPDO categories of the slave (ETG.1000.6 and ETG.2010).
#[derive(Clone, Copy, PartialEq, Eq)]
pub struct Segment {
    /// The number of the slave, from 0 in the order of the line.
    pub slave: u16,
    /// The sync manager's number, 0 to 15.
    pub manager: u8,
    /// Whether the data are outputs, sent by the master, and not inputs.
    pub output: bool,
    /// Its offset in the image, in bytes.
    pub offset: u32,
    /// Its size in bytes.
    pub size: u32,
    /// Its length in bits.
    pub bits: u32,
    /// Physical start address of the sync manager.
    pub start: u16,
    /// Control register of the sync manager.
    pub control: u8,
}

/// A process image of at most 1,486 bytes: the outputs of all slaves, then their inputs. In contracts its value is the list of
/// its segments, the sizes of both parts in bytes, and the expected working counter.
#[derive(Drop)]
pub struct ProcessImage {
    segments: Vec<Segment>,
    outputs: u32,
    inputs: u32,
    counter: u16,
}

impl Model for ProcessImage {
    ghost use Rattle.std.specs.Prelude.{◌+◌, ◌≤◌};
    ghost use Rattle.sii_image.specs.ProcessImage.{ProcessImageParts};

    ghost Value = { ProcessImageParts };

    ghost view = { λ image. record { segments = image.segments.items; outputs = image.outputs; inputs = image.inputs; counter = image.counter } };

    ghost invariant = { λ image. image.outputs + image.inputs ≤ 1486 };
}

impl ProcessImage {
    pub(crate) fn of(segments: Vec<Segment>, outputs: u32, inputs: u32, counter: u16) -> Self
        requires { outputs + inputs ≤ 1486 }
        ensures { result ≡ record { segments = segments.items; outputs = outputs; inputs = inputs; counter = counter } }
    {
        ProcessImage {
            segments,
            outputs,
            inputs,
            counter,
        }
    }

    /// The segments in the order of the image.
    pub fn segments(&self) -> &[Segment]
        ensures { result.now ≡ self.now.segments }
    {
        &self.segments
    }

    /// The size of all outputs in bytes.
    pub fn outputs(&self) -> usize
        ensures outputs { result ≡ self.now.outputs }
        ensures most { self.now.outputs + self.now.inputs ≤ 1486 }
    {
        self.outputs as usize
    }

    /// The size of all inputs in bytes.
    pub fn inputs(&self) -> usize
        ensures inputs { result ≡ self.now.inputs }
        ensures most { self.now.outputs + self.now.inputs ≤ 1486 }
    {
        self.inputs as usize
    }

    /// The working counter of a cycle in which every slave takes part: for each slave 2 if it has outputs, and 1 if it has
    /// inputs.
    pub fn expected_counter(&self) -> u16
        ensures { result ≡ self.now.counter }
    {
        self.counter
    }
}
