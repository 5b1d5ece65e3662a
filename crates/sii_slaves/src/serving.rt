//! A line to practise on, whose slaves hold the words of image files.

use crate::quirk_list::QuirkList;
use ecat_frame::{Frame, MAX_LEN};
use sii_words::words_of_bytes;
use site_file::RandomAccessFile;
use site_shadow::Pattern;
use station_files::{Fault, Store, load_line, read_image_file};
use station_text::LineFile;
use std::alloc::Global;
use std::io;
use std::io::Write;
use std::rt::Clock;
use wire_frames::Wire;
use wire_practice::{NO_QUIRKS, PracticeFiles, PracticeLine, PracticeSlave, Quirks};

/// What a slave does of which nothing is said: it stays busy with a command for two datagrams.
const PLAIN: Quirks = Quirks {
    delay: 2,
    ..NO_QUIRKS
};

/// How many empty reads in a row show that the wire is closed.
const EMPTY_READS: u32 = 1_000;

/// A planned power cut of the slaves.
#[derive(Clone, Copy)]
pub(crate) struct PowerCut {
    /// The number of the word in whose midst the power is cut, from 1, as the slaves begin to write them.
    pub word: u32,
    /// The value of the torn word.
    pub left: u16,
}

/// A line of slaves to practise on.
#[derive(Clone, Copy)]
pub(crate) struct Practice<'a> {
    /// The name of the line file.
    pub line: &'a str,
    /// A planned power cut, if there is one.
    pub cut: Option<PowerCut>,
    /// What the slaves do beyond the definition of a slave.
    pub quirks: QuirkList<'a>,
}

/// What was heard on the wire.
#[derive(Drop)]
enum Heard {
    Frame(Frame),
    /// Nothing within the time-out, or what isn't a frame.
    Nothing,
    /// A read of no bytes.
    Empty,
}

/// Serves the slaves of a line file on this wire, with the words of their image files, until the power is cut or the program is ended. A
/// word that a slave has written is in its file before the next frame is answered. The journal isn't looked at.
///
/// # Errors
///
/// As for `load_line`; `File` where an image file is absent or can't be read, `OddLength` and `BadSize` where it hasn't 1 to 65,536 words;
/// `File` where one can't be opened, written or synced, or the wire is closed; `Memory`.
pub(crate) fn serve_slaves<R: Clock + AllocGlobal, W: Wire, S: Store, O: Write>(
    rt: &R,
    practice: Practice<'_>,
    wire: &mut W,
    store: &mut S,
    output: &mut O,
) -> Result<(), Fault> {
    let line = load_line(rt.alloc(), practice.line, store)?;
    let mut slaves = switch_on(rt.alloc(), &line, practice.quirks, store)?;
    serve_frames(rt, &mut slaves, practice.cut, wire, output)
}

/// The slaves of a line, just switched on, with their files.
fn switch_on<S: Store>(
    alloc: Global,
    line: &LineFile,
    quirks: QuirkList<'_>,
    store: &mut S,
) -> Result<PracticeFiles<S::File>, Fault> {
    let mut slaves = Vec::new(alloc);
    let mut contents = Vec::new(alloc);
    for slave in 0..line.images.len() {
        let quirks = quirks.of_slave(PLAIN, slave).unwrap_or(PLAIN);
        let (one, bytes) = load_slave(alloc, line.images[slave].as_str(), quirks, store)?;
        slaves.push(one)?;
        contents.push(bytes)?;
    }
    let practice = PracticeLine::of(slaves, quirks.cable());
    match open_images(alloc, &line.images, &contents, store) {
        Ok(images) => Ok(PracticeFiles::new(practice, images)),
        Err(fault) => Err(fault),
    }
}

/// A slave, just switched on, with the words of its image file, and the file's bytes. There may be more or fewer than the station works on.
fn load_slave<S: Store>(
    alloc: Global,
    name: &str,
    quirks: Quirks,
    store: &mut S,
) -> Result<(PracticeSlave, Vec<u8>), Fault> {
    let bytes = read_image_file(alloc, name, store)?;
    if bytes.len() % 2 != 0 {
        return Err(Fault::OddLength);
    }
    if bytes.is_empty() {
        return Err(Fault::BadSize);
    }
    let words = words_of_bytes(alloc, &bytes)?;
    Ok((PracticeSlave::switched_on(alloc, &words, quirks)?, bytes))
}

/// The moment, in microseconds.
fn moment<C: Clock>(clock: &C) -> Result<u64, Fault> {
    let now = clock.monotonic()?;
    let entire = now.as_secs().saturating_mul(1_000_000);
    Ok(entire.saturating_add(u64::from(now.subsec_micros())))
}

/// Opens the files `names`, of which these contents were read, in order.
fn open_images<S: Store>(
    alloc: Global,
    names: &[String],
    contents: &[Vec<u8>],
    store: &mut S,
) -> Result<Vec<S::File>, Fault> {
    let mut images = Vec::with_capacity(alloc, names.len())?;
    for (name, bytes) in names.iter().zip(contents) {
        images.push(store.open(name.as_str(), bytes)?)?;
    }
    Ok(images)
}

/// Waits for a frame.
fn hear<W: Wire>(wire: &mut W) -> Result<Heard, Fault> {
    let mut bytes = [0u8; MAX_LEN];
    match wire.receive(&mut bytes) {
        Ok(0) => Ok(Heard::Empty),
        Ok(length) => match Frame::parse(&bytes[..length.min(MAX_LEN)]) {
            Ok(frame) => Ok(Heard::Frame(frame)),
            Err(_) => Ok(Heard::Nothing),
        },
        Err(error) => match error.kind() {
            io::ErrorKind::WouldBlock | io::ErrorKind::TimedOut | io::ErrorKind::Interrupted => {
                Ok(Heard::Nothing)
            }
            _ => Err(Fault::File),
        },
    }
}

/// Answers one frame. Returns whether the power was cut, and then the frame isn't answered.
fn answer<W: Wire, F: RandomAccessFile>(
    slaves: &mut PracticeFiles<F>,
    cut: Option<PowerCut>,
    wire: &mut W,
    mut frame: Frame,
) -> Result<bool, Fault> {
    slaves.take(&mut frame)?;
    match cut {
        Some(cut) if slaves.begun() >= cut.word => {
            slaves.cut_power(Pattern::Fill(cut.left))?;
            Ok(true)
        }
        _ => {
            // A frame that can't be sent is lost, as on any wire.
            let _ = wire.send(frame.as_bytes());
            Ok(false)
        }
    }
}

/// Answers frames until the power is cut or the wire is closed.
fn serve_frames<C: Clock, W: Wire, F: RandomAccessFile, O: Write>(
    clock: &C,
    slaves: &mut PracticeFiles<F>,
    cut: Option<PowerCut>,
    wire: &mut W,
    output: &mut O,
) -> Result<(), Fault> {
    let mut empty = 0u32;
    for _turn in 0..u64::MAX {
        let heard = hear(wire)?;
        slaves.pass_time(moment(clock)?)?;
        match heard {
            Heard::Frame(frame) => {
                empty = 0;
                if answer(slaves, cut, wire, frame)? {
                    return print_cut(slaves.begun(), output);
                }
            }
            Heard::Nothing => empty = 0,
            Heard::Empty => empty = empty.saturating_add(1),
        }
        if empty >= EMPTY_READS {
            return Err(Fault::File);
        }
    }
    Ok(())
}

fn print_cut<O: Write>(word: u32, output: &mut O) -> Result<(), Fault> {
    writeln!(output, "power cut at word {word}")?;
    output.flush()?;
    Ok(())
}
