//! Cases of the program `sii_station`: files in memory that lose power or fail, streams in memory that fail, runs over them as cases say them, and
//! whether a run went as is expected.
//!
//! A run is a table of these keys, or the text of its `args` alone:
//!
//! - `files`: files that are there before, each with its contents.
//! - `args`: the command line after the program's name, its words separated by spaces. `typed`: one more argument after it.
//! - `input`: standard input. `interrupted`: its first read is. `then`: what comes in place of its end: a `"failure"`, one for want of
//!   `"memory"`, or always `"more"`. `takes`: how many bytes standard output takes before it fails.
//! - `status`, `output`, `faults`: the exit status, and what is printed on standard output and standard error (0 and nothing, where absent).
//! - `terminal`: output and faults stand on a terminal, and the clock goes on by so many milliseconds each time it is read. `drawn`: all that
//!   is written to the terminal, and `output` what is left there.
//! - `writes`: how many files are written as a whole (0, where absent; `"any"`), and `replaced` how many of these had other bytes before.
//! - `left`: files that are there afterwards, with their contents, or `false` for a file that isn't there.
//! - `unchanged`: whether all `files` of the case are there afterwards as they were before.
//! - `busy`: whether another station holds the journal's lock.
//! - `unsaved`: writing a file as a whole fails, as on a `"full"` disk or for want of `"memory"`.
//! - `error_at`: which of the calls that write or sync fails, from 0; with status 0 there is no such call.
//! - `any`: nothing is expected. `unless`: a fault that may be printed in place of all that is expected.
//!
//! A run may be tried in another `way`:
//!
//! - `"inputs"`: with each beginning of its input, all of it among them.
//! - `"outputs that fail"`, `"outputs that take none"`: with outputs that take each number of bytes but all of `output`, and then fail or take
//!   none of a write. It prints these bytes, and ends in `fault 90 File`.
//! - `"power cuts"`, `"calls that fail"`, `"full disks"`: with a power cut in each of its calls that write or sync, a failure of each, and one
//!   of each and all after it. `unsynced` says what is left of bytes that weren't synced: the `"old"` ones, `"new"` ones, new ones at even
//!   offsets (`"torn"`) or `"other"` ones. A failure is reported; without a cut or a failure it goes as is expected. The totals are printed where
//!   the call is number `totals` or a later one, from 0, and else never.
//! - `"plan"`: after a plan, whose command line is `first`. The plan writes nothing, and says what the run prints, with the words that it
//!   changes in `images`.
//! - `"page"`: it prints a page in which each option of a help, which `first` prints, stands after the text `option`.
//!
//! `after` has runs that follow each try of a run, over the files that are left. Their `mended` has states of the files,
//! of which one is left, and with how many `commands`: no fewer than the run reported as durable. Where `again` names the files that are written,
//! they also follow a run of `first` that is cut in each of its calls.
//!
//! Contents are a text; `@NAME` for named ones; an array, whose parts are joined; `{ size = N, AT = "HEX", .. }`, N bytes that are 0 except at
//! these offsets, where `"HEX * K"` repeats bytes; or `{ text = "..", times = K }`.
//!
//! What is expected of bytes are contents; `true`, for any bytes but none; or a table with some of `has`, a text that stands in them; `begins`
//! and `ends`, contents that they begin or end with.
#![tactic(auto)]

mod cells;
mod changes;
mod contents;
mod expected;
mod run;
mod shelf;
mod streams;
mod terminals;
mod troubles;
mod wrong;

pub use cells::{OpenFile, Pattern};
pub use changes::tell_changes;
pub use contents::bytes_of;
pub use expected::has_options;
pub use run::{Run, parted};
pub use shelf::{Shelf, ShelfLock};
pub use streams::{Full, Pen, Printed, Room, Screen, Source, Streams, Then};
pub use troubles::{Trouble, Troubles};
pub use wrong::wrong_of;
