//! The program `sii_station`: passes its arguments and streams to the library, and exits with the status that the library returns. With `--wire`
//! before all others its standard input and output are a wire; the launcher `sii_wire` calls it so.
#![tactic(auto)]

use station_serve::wire::{Connection, OwnWire, read_arguments, refuse_text, serve_on_wire};
use station_serve::{Streams, refuse_words, report_unread, serve};
use std::fs::{File, Files};
use std::io::{BufWriter, Input, IsTerminal, Print, Write};
use std::process::ExitCode;
use std::rt::Clock;
use std::sync::Wait;
use std::thread::Threads;
use std::{env, io};
use system_files::{FileStore, hold_streams, open_text};
use wire_frames::EthernetWire;

fn main(rt: HostRuntime) -> ExitCode {
    let status = match hold_streams(&rt) {
        Ok(_held) => match words(&rt) {
            Ok(words) => {
                if is_on_wire(&words) {
                    let connection = Connection {
                        wire: EthernetWire::new(rt.stdin(), rt.stdout()),
                        number: first_number(&rt),
                    };
                    serve_wire(&rt, &words, connection, &mut rt.stderr())
                } else {
                    serve_files(&rt, &words, &mut rt.stderr())
                }
            }
            Err(error) => refuse_words(&error, &mut rt.stderr()),
        },
        Err(error) => refuse_words(&error, &mut rt.stderr()),
    };
    ExitCode::from(status)
}

/// The arguments, the program's name first. With the environment variable `PILZHOON_VERBOSE` a call on files has `--verbose` too, so that the log of
/// a service has the second line of a fault.
fn words(rt: &HostRuntime) -> io::Result<Vec<String>> {
    let mut words: Vec<String> = env::args(rt)?.collect(rt.alloc())?;
    let is_reported = words.iter().any(|word| word.as_str() == "--verbose");
    if !is_reported && !is_on_wire(&words) && env::var(rt, "PILZHOON_VERBOSE").is_ok() {
        let place = words.len().min(1);
        words.insert(place, String::from_str(rt.alloc(), "--verbose")?)?;
    }
    Ok(words)
}

/// Whether the arguments begin with `--wire`.
fn is_on_wire(words: &[String]) -> bool {
    words.get(1).is_some_and(|word| word.as_str() == "--wire")
}

/// Carries out the arguments on files, with the output buffered.
fn serve_files<
    H: Files<File = File> + Input + Print + Wait + Threads + Clock + AllocGlobal + Sync,
    E: Write + IsTerminal + Copy + Send + Drop,
>(rt: &H, words: &[String], faults: &mut E) -> u8 {
    let mut files = FileStore::new(rt.alloc(), rt);
    let terminal = faults.is_terminal().then_some(*faults);
    match BufWriter::new(rt.alloc(), io::writer(rt)) {
        Ok(mut output) => {
            let output = &mut output;
            let streams = Streams { output, faults };
            serve(rt, words, &mut rt.reader(), &mut files, streams, terminal)
        }
        Err(error) => refuse_words(&error, faults),
    }
}

/// Carries out the arguments over this connection. The text goes to the file that they name, or to the stream for faults.
fn serve_wire<
    H: Files<File = File> + Wait + Threads + Clock + AllocGlobal + Sync,
    L: OwnWire,
    E: Write + IsTerminal + Copy + Send + Drop,
>(rt: &H, words: &[String], connection: Connection<L>, faults: &mut E) -> u8 {
    match read_arguments(rt.alloc(), words) {
        Ok(arguments) => match open_text(rt, arguments.text, *faults) {
            Ok(mut text) => {
                let mut files = FileStore::new(rt.alloc(), rt);
                let terminal = faults.is_terminal().then_some(*faults);
                let output = &mut text;
                let streams = Streams { output, faults };
                serve_on_wire(rt, arguments, connection, &mut files, streams, terminal) as u8
            }
            Err(error) => refuse_text(error, faults),
        },
        Err(unread) => report_unread(rt.alloc(), &unread, faults) as u8,
    }
}

/// The nanoseconds of the time, which no earlier program on this wire has likely numbered its frames from.
fn first_number(rt: &HostRuntime) -> u32 {
    match rt.since_1970() {
        Ok(since) => since.subsec_nanos(),
        Err(_) => 0,
    }
}
