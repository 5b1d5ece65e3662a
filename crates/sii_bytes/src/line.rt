//! The process image of a line.
ghost use Rattle.std.specs.Prelude.{◌≡◌, ◌+◌, ◌<◌, ◌≤◌, ◌++◌, drop, length, map, sum, ◌↔◌, IfOk, IfErr, IsTrue, MatchOption, Ok};
ghost use Rattle.sii_bytes.specs.Line.{FirstRefused, IsSizes, PlacesLine, ReadsEach, ReadsLine, pieces, placed_segment};

use crate::codes::{BAD_LINE, DONE, MEMORY, NO_SPACE, OVER_LIMIT, found, read_device};
use sii_image::{ImageFault, ProcessImage, Segment, image_of};
use sii_words::{MAX_SLAVES, Plant, Words};
use std::alloc::Global;

/// The process data of one sync manager in a process image (ETG.1000.6 and ETG.2010, SyncM, TXPDO and RXPDO categories).
#[repr(C)]
#[derive(Clone, Copy)]
pub struct PlacedSegment {
    /// The number of the slave, from 0 in the order of the line.
    pub slave: u32,
    /// The sync manager's number, 0 to 15.
    pub manager: u32,
    /// 1 for outputs, sent by the master; 0 for inputs.
    pub output: u32,
    /// Its offset in the process image, in bytes.
    pub offset: u32,
    /// Its size in bytes.
    pub size: u32,
    /// Its length in bits.
    pub bits: u32,
    /// Physical start address of the sync manager.
    pub start: u32,
    /// Control register of the sync manager.
    pub control: u32,
}

/// The sizes of a process image.
#[repr(C)]
#[derive(Clone, Copy)]
pub struct ImageSizes {
    /// The number of segments.
    pub segments: usize,
    /// The size of all outputs in bytes. They stand first.
    pub outputs: u32,
    /// The size of all inputs in bytes. They stand after the outputs.
    pub inputs: u32,
    /// The working counter of a cycle in which every slave takes part: for each slave 2 if it has outputs, and 1 if it has inputs.
    pub counter: u32,
}

/// What is left of this many bytes after pieces of these lengths, or `None` if they are longer.
fn left_after(bytes: usize, lengths: &[usize]) -> Option<usize>
    ensures { MatchOption result (bytes < sum lengths.now) (λ left. left + sum lengths.now ≡ bytes) }
{
    let mut left = bytes;
    for count in lengths {
        if *count > left {
            return None;
        }
        left -= *count;
    }
    Some(left)
}

/// Whether pieces of these lengths are so many bytes.
fn are_lengths_of(bytes: usize, lengths: &[usize]) -> bool
    ensures { IsTrue result ↔ (sum lengths.now ≡ bytes) }
{
    match left_after(bytes, lengths) {
        Some(left) => left == 0,
        None => false,
    }
}

/// Reads the slaves of a line, whose bytes stand one after the other.
fn read_each(alloc: Global, bytes: &[u8], lengths: &[usize]) -> Result<Vec<Words>, u32>
    requires { sum lengths.now ≡ length bytes.now }
    ensures ok { IfOk result (λ slaves. ReadsEach (pieces lengths.now bytes.now) (Ok slaves.items)) }
    ensures err { IfErr result (FirstRefused (pieces lengths.now bytes.now)) }
{
    let mut slaves = Vec::new(alloc);
    let mut left = bytes;
    for count in lengths {
        let (first, after) = left.split_at(*count);
        let words = read_device(alloc, first)?;
        match slaves.push(words) {
            Ok(()) => {}
            Err(_) => return Err(MEMORY),
        }
        left = after;
    }
    Ok(slaves)
}

/// Reads the contents of a line.
fn read_line(alloc: Global, bytes: &[u8], lengths: &[usize]) -> Result<Plant, u32>
    ensures { ReadsLine lengths.now bytes.now result }
{
    if lengths.is_empty() || lengths.len() > MAX_SLAVES || !are_lengths_of(bytes.len(), lengths) {
        return Err(BAD_LINE);
    }
    let slaves = read_each(alloc, bytes, lengths)?;
    Ok(Plant::of(slaves))
}

fn placed(segment: Segment) -> PlacedSegment
    ensures { result ≡ placed_segment segment }
{
    PlacedSegment {
        slave: u32::from(segment.slave),
        manager: u32::from(segment.manager),
        output: if segment.output { 1 } else { 0 },
        offset: segment.offset,
        size: segment.size,
        bits: segment.bits,
        start: u32::from(segment.start),
        control: u32::from(segment.control),
    }
}

/// Writes segments to the first places of `out`, which must have room for them.
fn write_segments(segments: &[Segment], out: &mut [PlacedSegment])
    requires { length segments.now ≤ length out.old }
    ensures { out.new ≡ map placed_segment segments.now ++ drop (length segments.now) out.old }
{
    for place in 0..segments.len() {
        out[place] = placed(segments[place]);
    }
}

fn sizes_of(image: &ProcessImage) -> ImageSizes
    ensures { IsSizes image.now result }
{
    ImageSizes {
        segments: image.segments().len(),
        outputs: image.outputs() as u32,
        inputs: image.inputs() as u32,
        counter: u32::from(image.expected_counter()),
    }
}

/// Places the process data of a line: what `sii_image` says is its process image. `bytes` is the whole EEPROM of each slave, one after
/// the other in the order of the line, and `lengths` how many bytes each has.
///
/// Answers 0; then the segments are in the first places of `segments`, outputs first, and the others stay. Or the first code that
/// applies, and nothing is changed: 212 if there isn't a slave, or there are more than 64, or the lengths don't make up the bytes; 1 or 2
/// for the first slave whose number of bytes is odd, or that hasn't 64 to 4,096 words, a multiple of 64; 19 if the process image would
/// have more than 1,486 bytes, or a slave more than 8 segments; 213 if `segments` is too short for them (8 for each slave always do).
/// Or 20 in place of any answer if memory was refused.
pub fn place_line(
    alloc: Global,
    bytes: &[u8],
    lengths: &[usize],
    segments: &mut [PlacedSegment],
    sizes: &mut ImageSizes,
) -> u32
    ensures { PlacesLine lengths.now bytes.now segments.old result segments.new sizes.new ((segments.new ≡ segments.old)
        × (sizes.new ≡ sizes.old)) }
{
    let plant = found!(read_line(alloc, bytes, lengths));
    let image = match image_of(alloc, &plant) {
        Ok(image) => image,
        Err(ImageFault::ImageOverLimit) => return OVER_LIMIT,
        Err(ImageFault::Memory) => return MEMORY,
    };
    if image.segments().len() > segments.len() {
        return NO_SPACE;
    }
    write_segments(image.segments(), segments);
    *sizes = sizes_of(&image);
    DONE
}
