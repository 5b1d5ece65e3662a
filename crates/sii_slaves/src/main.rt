//! The program `sii_slaves`: a line of slaves to practise on, which hold the words of image files. Its standard input and output are a wire, as
//! those of `sii_wire`.
#![tactic(auto)]

mod arguments;
mod quirk_list;
mod serving;

use crate::arguments::{Arguments, read_arguments};
use crate::serving::serve_slaves;
use command_line::{refuse_words, report_unread};
use station_files::{Fault, report_fault};
use std::fs::{File, Files};
use std::io::{Read, Write};
use std::process::ExitCode;
use std::rt::Clock;
use std::{env, io};
use system_files::{FileStore, hold_streams, open_text};
use wire_frames::{EthernetWire, TimedWire};

fn main(rt: HostRuntime) -> ExitCode {
    let status = match hold_streams(&rt) {
        Ok(_held) => match words(&rt) {
            Ok(words) => {
                let wire = EthernetWire::new(rt.stdin(), rt.stdout());
                serve_words(&rt, &words, wire, &mut rt.stderr())
            }
            Err(error) => refuse_words(&error, &mut rt.stderr()),
        },
        Err(error) => refuse_words(&error, &mut rt.stderr()),
    };
    ExitCode::from(status)
}

/// The arguments, the program's name first.
fn words(rt: &HostRuntime) -> io::Result<Vec<String>> {
    let words = env::args(rt)?.collect(rt.alloc())?;
    Ok(words)
}

/// Serves the slaves that the words ask for on this wire, and returns the exit status.
fn serve_words<
    H: Files<File = File> + Clock + AllocGlobal,
    R: Read + Drop,
    W: Write + Drop,
    E: Write + Copy + Drop,
>(rt: &H, words: &[String], wire: EthernetWire<R, W>, faults: &mut E) -> u8 {
    match read_arguments(rt.alloc(), words) {
        Ok(arguments) => match serve_asked(rt, arguments, wire, *faults) {
            Ok(()) => 0,
            Err(fault) => report_fault(fault, faults) as u8,
        },
        Err(unread) => report_unread(rt.alloc(), &unread, faults) as u8,
    }
}

/// Serves slaves on this wire. The text goes to the file that the arguments name, or to this stream.
fn serve_asked<
    H: Files<File = File> + Clock + AllocGlobal,
    R: Read + Drop,
    W: Write + Drop,
    E: Write + Drop,
>(rt: &H, arguments: Arguments<'_>, wire: EthernetWire<R, W>, stream: E) -> Result<(), Fault> {
    let Arguments {
        text,
        time_out,
        practice,
    } = arguments;
    let mut text = open_text(rt, text, stream)?;
    let mut timed = TimedWire::new(wire, rt, time_out);
    let mut files = FileStore::new(rt.alloc(), rt);
    serve_slaves(rt, practice, &mut timed, &mut files, &mut text)
}
