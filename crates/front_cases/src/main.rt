//! Runs `sii_station` over files in memory as case files say it, and compares what each run prints and leaves with what they expect.
//!
//! The arguments name TOML files. The first one holds contents that cases name. Each other one holds an array of tables `case`, with a `name`
//! that says what the case shows. A case is a run as `station_cases` says, or has several:
//!
//! - `each`: several runs, each over the case's `files` anew, or, where an array stands in place of a run, the runs of that in a row.
//! - `steps`: several runs in a row over the same files.
//!
//! What such a run doesn't say, its case says for all of its runs. Its `files` are put in before it.
#![tactic(auto)]

mod bench;
mod calls;
mod faults;
mod trial;
mod tries;

use crate::bench::Bench;
use crate::faults::{try_faults, try_refusals};
use crate::trial::{Tally, name_of, try_case};
use std::alloc::Global;
use std::io::Print;
use std::process::ExitCode;
use std::sync::Wait;
use std::thread::Threads;
use std::{env, fs, io};
use toml::{Table, Value};

fn main(rt: HostRuntime) -> io::Result<ExitCode> {
    let alloc = rt.alloc();
    let names: Vec<String> = env::args(&rt)?.collect(alloc)?;
    let mut tables = Vec::new(alloc);
    for name in names.iter().skip(1) {
        tables.push(read_table(&rt, alloc, name.as_str())?)?;
    }
    let mut tally = Tally { runs: 0, wrong: 0 };
    try_faults(&rt, alloc, &mut tally)?;
    try_refusals(&rt, alloc, &mut tally)?;
    try_files(&rt, &mut Bench::new(alloc), &tables, &mut tally)?;
    println!(rt; "{} runs, {} wrong", tally.runs, tally.wrong)?;
    if tally.wrong == 0 {
        Ok(ExitCode::SUCCESS)
    } else {
        Ok(ExitCode::FAILURE)
    }
}

/// Reads a file of TOML.
fn read_table(rt: &HostRuntime, alloc: Global, name: &str) -> io::Result<Table> {
    let text = fs::read_to_string(rt, name)?;
    match toml::table_from_str(alloc, text.as_str()) {
        Ok(table) => Ok(table),
        Err(error) => {
            eprintln!(rt; "{name}: {error}")?;
            Err(io::Error::from(io::ErrorKind::InvalidData))
        }
    }
}

/// Tries the cases of the files after the first, whose contents they name.
fn try_files(
    rt: &(impl Print + Wait + Threads + Sync),
    bench: &mut Bench,
    tables: &[Table],
    tally: &mut Tally,
) -> io::Result<()> {
    if let [named, files @ ..] = tables {
        for file in files {
            try_cases(rt, bench, named, file.get("case"), tally)?;
        }
    }
    Ok(())
}

/// Tries the cases of a file.
fn try_cases(
    rt: &(impl Print + Wait + Threads + Sync),
    bench: &mut Bench,
    named: &Table,
    cases: Option<&Value>,
    tally: &mut Tally,
) -> io::Result<()> {
    if let Some(Value::Array(cases)) = cases {
        for case in cases.iter() {
            if let Err(error) = try_case(rt, bench, named, case, tally) {
                tally.wrong = tally.wrong.saturating_add(1);
                println!(rt; "WRONG {}: {error}", name_of(case))?;
            }
        }
    }
    Ok(())
}
