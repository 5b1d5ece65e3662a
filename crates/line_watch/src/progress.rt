//! What a run has done so far, shown on a terminal.
ghost use Rattle.std.specs.Io.{WritesAtMost};

use crate::stage::{Stage, line_of};
use sii_words::MAX_SLAVES;
use std::io::{self, Write};
use std::rt::Clock;
use std::sync::atomic::AtomicU64;
use std::sync::atomic::Ordering::SeqCst;
use std::sync::{Mutex, Wait};
use std::time::Duration;

/// How long a run takes before its line is drawn, in milliseconds.
const FIRST: u64 = 1000;

/// How long a line stands before it is drawn again, in milliseconds.
const AGAIN: u64 = 100;

/// What goes to the left edge of a terminal, and erases what stands there.
const ERASE: &[u8] = b"\r\x1b[K";

/// What a run has done so far, as `Stage` says it. Several threads may count.
#[derive(Default, Drop)]
pub(crate) struct Counts {
    commands: AtomicU64,
    pub(crate) durable: AtomicU64,
    pub(crate) read: AtomicU64,
    pub(crate) to_read: AtomicU64,
    pub(crate) words: AtomicU64,
    to_write: AtomicU64,
    pub(crate) done: AtomicU64,
    pub(crate) slaves: AtomicU64,
    /// Bit i stands for slave i, which is busy with a word.
    busy: AtomicU64,
}

/// What a run has done so far. One line on a terminal tells it, once the run has taken a second, and ten times a second at most. Each line is drawn
/// over the one before it. If the terminal can't be written, the run goes on without it.
///
/// How long it takes still is told by the pace so far: that of reading, until a word is written, and then that of writing.
#[derive(Drop)]
pub struct Progress<T> {
    pub(crate) counts: Counts,
    /// How many words each slave is to write; 0 where that isn't known.
    expected: Mutex<[u32; MAX_SLAVES]>,
    line: Mutex<Line<T>>,
}

/// The line on the terminal.
#[derive(Drop)]
struct Line<T> {
    terminal: T,
    /// When it is drawn next, by the monotonic clock.
    next: Duration,
    /// When the first words were seen to be read, and the first ones to be written.
    reading: Option<Duration>,
    writing: Option<Duration>,
    is_drawn: bool,
    /// Whether other text stands on the line, whose end hasn't come yet. No line is drawn over it.
    is_taken: bool,
}

impl<T: Write> Line<T> {
    fn erase(&mut self) {
        if self.is_drawn {
            self.is_drawn = false;
            let _ = self.terminal.write_all(ERASE);
        }
    }

    /// Draws the line, if its time has come.
    fn draw(&mut self, now: Duration, stage: Stage) {
        if now < self.next || self.is_taken {
            return;
        }
        self.next = now.saturating_add(Duration::from_millis(AGAIN));
        self.is_drawn = true;
        if let Ok(text) = line_of(stage) {
            let _ = self.terminal.write_all(text.as_slice());
        }
    }

    /// How many seconds the rest takes, as it seems now; 0 where that isn't known.
    fn seconds_left(&mut self, now: Duration, stage: Stage) -> u64 {
        let (done, all) = match stage.words {
            0 => (stage.read, stage.to_read),
            words => (words, stage.to_write),
        };
        if done == 0 {
            return 0;
        }
        let begun = match stage.words {
            0 => *self.reading.get_or_insert(now),
            _ => *self.writing.get_or_insert(now),
        };
        let taken = now.saturating_sub(begun);
        let seconds = taken.as_secs().saturating_mul(1000);
        let milliseconds = seconds.saturating_add(u64::from(taken.subsec_millis()));
        let rest = all.saturating_sub(done).saturating_mul(milliseconds);
        (rest / done).div_ceil(1000)
    }
}

impl Counts {
    fn stage(&self) -> Stage {
        Stage {
            commands: self.commands.load(SeqCst),
            durable: self.durable.load(SeqCst),
            read: self.read.load(SeqCst),
            to_read: self.to_read.load(SeqCst),
            words: self.words.load(SeqCst),
            to_write: self.to_write.load(SeqCst),
            busy: self.busy.load(SeqCst).count_ones(),
            finished: self.done.load(SeqCst),
            slaves: self.slaves.load(SeqCst),
            left: 0,
        }
    }
}

impl<T: Write> Progress<T> {
    /// Begins to count, for a line on this terminal. None where there is none, or the clock can't be read.
    pub fn begin<R: Clock>(rt: &R, terminal: Option<T>) -> Option<Progress<T>>
    where
        T: Drop,
    {
        let terminal = terminal?;
        let now = rt.monotonic().ok()?;
        Some(Progress {
            counts: Counts::default(),
            expected: Mutex::new([0; MAX_SLAVES]),
            line: Mutex::new(Line {
                terminal,
                next: now.saturating_add(Duration::from_millis(FIRST)),
                reading: None,
                writing: None,
                is_drawn: false,
                is_taken: false,
            }),
        })
    }

    /// Each slave is to write so many words. This is to be known before the first one is written.
    pub fn expect_words<R: Wait>(&self, rt: &R, words: [u32; MAX_SLAVES]) {
        *self.expected.lock(rt) = words;
    }

    /// How many words each slave is to write; 0 where that isn't known.
    pub(crate) fn expected<R: Wait>(&self, rt: &R) -> [u32; MAX_SLAVES] {
        *self.expected.lock(rt)
    }

    /// So many slaves are to write so many words. None of them is done.
    pub(crate) fn begin_writing(&self, slaves: u64, words: u64) {
        self.counts.done.store(0, SeqCst);
        self.counts.slaves.store(slaves, SeqCst);
        self.counts.to_write.store(words, SeqCst);
    }

    /// Remembers whether a slave is busy with a word.
    pub(crate) fn set_busy(&self, slave: usize, is_busy: bool) {
        if slave >= MAX_SLAVES {
            return;
        }
        let bit = 1u64 << slave;
        if is_busy {
            self.counts.busy.fetch_or(bit, SeqCst);
        } else {
            self.counts.busy.fetch_and(!bit, SeqCst);
        }
    }

    /// Draws the line, if its time has come and no other thread is at it.
    pub(crate) fn look<R: Clock>(&self, rt: &R) {
        let Ok(now) = rt.monotonic() else {
            return;
        };
        if let Some(mut line) = self.line.try_lock() {
            let mut stage = self.counts.stage();
            stage.left = line.seconds_left(now, stage);
            line.draw(now, stage);
        }
    }

    /// Erases the line, and writes these bytes. No line is drawn until they end with a line feed. Then they are flushed, so that whole lines
    /// stand on the terminal; whether that fails is reported by the next flush.
    fn give_way<W: Write, R: Wait>(&self, rt: &R, writer: &mut W, bytes: &[u8]) -> io::Result<usize>
        ensures { WritesAtMost result bytes.now }
    {
        let mut line = self.line.lock(rt);
        line.erase();
        let written = writer.write(bytes);
        if let Ok(count) = written {
            line.is_taken = !bytes[..count].ends_with(b"\n");
            if !line.is_taken {
                let _ = writer.flush();
            }
        }
        written
    }
}

/// A writer, and the progress whose line is erased before each write, if there is one. It writes what the writer does.
#[derive(Drop)]
pub struct Cleared<'a, W, T, R> {
    writer: &'a mut W,
    watch: Watch<'a, T, R>,
}

impl<'a, W: Write, T: Write, R: Wait> Cleared<'a, W, T, R> {
    /// Makes the writer before which the line of this progress is erased.
    pub fn new(
        writer: &'a mut W,
        progress: Option<&'a Progress<T>>,
        rt: &'a R,
    ) -> Cleared<'a, W, T, R> {
        let watch = Watch { rt, progress };
        Cleared { writer, watch }
    }
}

impl<'a, W: Write, T: Write, R: Wait> Write for Cleared<'a, W, T, R> {
    fn write(&mut self, bytes: &[u8]) -> io::Result<usize> {
        match self.watch.progress {
            Some(progress) => progress.give_way(self.watch.rt, self.writer, bytes),
            None => self.writer.write(bytes),
        }
    }

    fn flush(&mut self) -> io::Result<()> {
        self.watch.erase();
        self.writer.flush()
    }
}

/// The runtime of a call, and the progress that counts what it does, if there is one.
#[derive_where(Clone, Copy)]
#[derive(Drop)]
pub struct Watch<'a, T, R> {
    pub rt: &'a R,
    pub progress: Option<&'a Progress<T>>,
}

impl<'a, T: Write, R: Wait> Watch<'a, T, R> {
    /// Tells the progress how many commands there are.
    pub fn expect(self, commands: usize) {
        if let Some(progress) = self.progress {
            progress.counts.commands.store(commands as u64, SeqCst);
        }
    }

    /// Erases the line of the progress.
    pub fn erase(self) {
        if let Some(progress) = self.progress {
            progress.line.lock(self.rt).erase();
        }
    }
}
