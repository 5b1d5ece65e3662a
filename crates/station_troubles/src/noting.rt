//! A store that keeps what was noted last, and why the last call failed, if it did.
ghost use Rattle.std.specs.Prelude.{◌≡◌};

use command_line::{INPUT, TYPED};
use station_files::{Entry, Location, LockFault, Place, Store};
use station_listing::Code;
use std::alloc::{AllocError, Global};
use std::fmt::{self, Display};
use std::io;
use thiserror::Error;

/// The files of a store. What is noted beside a fault is kept, so that the fault can be reported without another look at the files.
#[derive(Drop)]
pub struct Noting<'s, S> {
    store: &'s mut S,
    pub(crate) notes: Notes,
}

/// What was noted last.
#[derive(Drop)]
pub(crate) struct Notes {
    alloc: Global,
    /// Whether notes are kept. Where memory was refused for one, none is from then on.
    pub is_kept: bool,
    pub last: Option<Note>,
}

/// What is wrong.
#[derive(Drop)]
pub(crate) struct Note {
    /// The code of the fault or the refusal beside it.
    pub code: Code,
    pub text: String,
}

/// Why a call on a file failed.
#[derive(Clone, Copy, Debug, Error)]
enum Why {
    #[error("there is no such file; a name is relative to the current folder")]
    Absent,
    #[error("it isn't there, or can't be opened")]
    Unopened,
    #[error("another station has locked it")]
    Busy,
    #[error("{0}")]
    System(io::Error),
}

impl Note {
    /// Whether it says why a call failed.
    pub(crate) fn is_of_call(&self) -> bool {
        matches!(self.code, Code::File | Code::Busy)
    }
}

impl Notes {
    /// Keeps what is wrong.
    fn keep<T: Display>(&mut self, code: Code, place: Place<'_>, what: &T) {
        if !self.is_kept {
            return;
        }
        let shown = Shown { place };
        match format!(in self.alloc; "{shown}{what}") {
            Ok(text) => self.last = Some(Note { code, text }),
            Err(AllocError) => self.is_kept = false,
        }
    }

    /// Keeps why a call on the file of this name failed, or forgets why an earlier one did.
    fn end(&mut self, name: &str, failed: Option<Why>) {
        let is_of_call = self.last.as_ref().is_some_and(|note| note.is_of_call());
        match failed {
            Some(Why::Busy) => self.keep(Code::Busy, Place::File(name), &Why::Busy),
            Some(why) => self.keep(Code::File, Place::File(name), &why),
            None if is_of_call => self.last = None,
            None => {}
        }
    }
}

/// A place, as it is printed before what is wrong there. The name of a file stands between quotes, on one line whatever it has. `INPUT` is
/// standard input, and `TYPED` the commands after `-e`.
#[derive(Clone, Copy)]
struct Shown<'a> {
    place: Place<'a>,
}

impl fmt::Display for Shown<'_> {
    fn fmt<W: fmt::Write>(&self, f: &mut fmt::Formatter<W>) -> fmt::Result {
        match self.place {
            Place::Named => Ok(()),
            // (a command is the second of its two lines)
            Place::Line(name, line) if name == TYPED => {
                write!(f, "-e number {}: ", line / 2 + line % 2)
            }
            Place::Line(name, line) if name == INPUT => write!(f, "standard input, line {line}: "),
            Place::Line(name, line) => write!(f, "{name:?}, line {line}: "),
            Place::File(name) if name == TYPED => f.write_str("the commands of -e: "),
            Place::File(name) if name == INPUT => f.write_str("standard input: "),
            Place::File(name) => write!(f, "{name:?}: "),
        }
    }
}

/// Why a call failed, if it did.
fn failure<T>(ended: &io::Result<T>) -> Option<Why> {
    match ended {
        Ok(_) => None,
        Err(error) => Some(Why::System(*error)),
    }
}

/// Why a call that locks a file failed, if it did.
fn lock_failure<T>(ended: &Result<T, LockFault>) -> Option<Why> {
    match ended {
        Ok(_) => None,
        Err(LockFault::Busy) => Some(Why::Busy),
        Err(LockFault::Io(error)) => Some(Why::System(*error)),
    }
}

impl<'s, S: Store> Noting<'s, S> {
    /// The files of this store. What is noted is kept if `is_kept`.
    pub fn new(alloc: Global, store: &'s mut S, is_kept: bool) -> Noting<'s, S> {
        let notes = Notes {
            alloc,
            is_kept,
            last: None,
        };
        Noting { store, notes }
    }
}

impl<S: Store> Store for Noting<'_, S> {
    ghost files = { λ noting. S.files noting.store.now };

    ghost leads = { S.leads };

    ghost opened = { S.opened };

    type File = S::File;

    type Lock = S::Lock;

    fn read(&mut self, alloc: Global, name: &str) -> io::Result<Option<Vec<u8>>> {
        let found = self.store.read(alloc, name);
        let failed = match &found {
            Ok(None) => Some(Why::Absent),
            _ => failure(&found),
        };
        self.notes.end(name, failed);
        found
    }

    fn look(&mut self, name: &str) -> io::Result<Entry> {
        let found = self.store.look(name);
        let failed = match &found {
            Ok(Entry::Absent) => Some(Why::Absent),
            _ => failure(&found),
        };
        self.notes.end(name, failed);
        found
    }

    fn prepare(&mut self, name: &str) -> io::Result<()> {
        let done = self.store.prepare(name);
        self.notes.end(name, failure(&done));
        done
    }

    fn locate(&mut self, alloc: Global, name: &str) -> io::Result<Location> {
        let found = self.store.locate(alloc, name);
        self.notes.end(name, failure(&found));
        found
    }

    fn write(&mut self, name: &str, bytes: &[u8]) -> io::Result<()> {
        let done = self.store.write(name, bytes);
        self.notes.end(name, failure(&done));
        done
    }

    fn open(&mut self, name: &str, bytes: &[u8]) -> io::Result<S::File> {
        let opened = self.store.open(name, bytes);
        self.notes.end(name, failure(&opened));
        opened
    }

    fn create(&mut self, name: &str) -> Result<S::File, LockFault> {
        let created = self.store.create(name);
        self.notes.end(name, lock_failure(&created));
        created
    }

    fn lock(&mut self, name: &str) -> Result<Option<S::Lock>, LockFault> {
        let locked = self.store.lock(name);
        let failed = match &locked {
            Ok(None) => Some(Why::Unopened),
            _ => lock_failure(&locked),
        };
        self.notes.end(name, failed);
        locked
    }

    fn note<T: Display>(&mut self, code: Code, place: Place<'_>, what: &T) {
        self.notes.keep(code, place, what);
    }
}
