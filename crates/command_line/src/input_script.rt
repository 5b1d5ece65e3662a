//! The files of a store, and a script that is no file among them.
ghost use Rattle.command_line.specs.InputScript.{but_scripts, with_script};

use station_files::{Entry, Location, LockFault, Store};
use std::alloc::Global;
use std::io;

/// The name under which the script on standard input stands among the files. No file of a system has it.
pub const INPUT: &str = "\0";

/// The name under which a script of typed commands stands among the files. No file of a system has it.
pub const TYPED: &str = "\0-e";

/// The files of a store, and under one more name a script that is no file, if there is one. Nothing is written there.
#[derive(Drop)]
pub struct InputScript<'s, S> {
    store: &'s mut S,
    script: Option<Script>,
}

/// A script that is no file.
#[derive(Drop)]
pub struct Script {
    /// Its name: `INPUT` or `TYPED`.
    pub name: &'static str,
    /// Its text, or why it can't be read. An error comes where the script is read.
    pub text: io::Result<Vec<u8>>,
}

impl<'s, S: Store> InputScript<'s, S> {
    /// The files of this store, and the script, if there is one.
    pub fn new(store: &'s mut S, script: Option<Script>) -> InputScript<'s, S> {
        InputScript { store, script }
    }
}

/// The error for whatever would change the script.
fn refusal() -> io::Error {
    io::Error::from(io::ErrorKind::InvalidInput)
}

impl<S: Store> Store for InputScript<'_, S> {
    ghost files = { λ joined. with_script joined.script (S.files joined.store.now) };

    ghost leads = { but_scripts S.leads };

    ghost opened = { S.opened };

    type File = S::File;

    type Lock = S::Lock;

    fn read(&mut self, alloc: Global, name: &str) -> io::Result<Option<Vec<u8>>> {
        match &self.script {
            Some(script) if script.name == name => match &script.text {
                Ok(bytes) => Ok(Some(bytes.to_vec(alloc)?)),
                Err(error) => Err(*error),
            },
            _ => self.store.read(alloc, name),
        }
    }

    fn look(&mut self, name: &str) -> io::Result<Entry> {
        match &self.script {
            Some(script) if script.name == name => match &script.text {
                Ok(bytes) => Ok(Entry::File {
                    length: bytes.len() as u64,
                }),
                Err(error) => Err(*error),
            },
            _ => self.store.look(name),
        }
    }

    fn locate(&mut self, alloc: Global, name: &str) -> io::Result<Location> {
        if self.script.is_some() && (name == INPUT || name == TYPED) {
            return Ok(Location::of_name(alloc, name)?);
        }
        self.store.locate(alloc, name)
    }

    fn prepare(&mut self, name: &str) -> io::Result<()> {
        self.store.prepare(name)
    }

    fn write(&mut self, name: &str, bytes: &[u8]) -> io::Result<()> {
        match &self.script {
            Some(script) if script.name == name => Err(refusal()),
            _ => self.store.write(name, bytes),
        }
    }

    fn open(&mut self, name: &str, bytes: &[u8]) -> io::Result<S::File> {
        match &self.script {
            Some(script) if script.name == name => Err(refusal()),
            _ => self.store.open(name, bytes),
        }
    }

    fn create(&mut self, name: &str) -> Result<S::File, LockFault> {
        match &self.script {
            Some(script) if script.name == name => Err(LockFault::Io(refusal())),
            _ => self.store.create(name),
        }
    }

    fn lock(&mut self, name: &str) -> Result<Option<S::Lock>, LockFault> {
        self.store.lock(name)
    }
}
