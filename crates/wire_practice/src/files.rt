//! A line to practise on whose words are also in files.
ghost use Rattle.std.specs.Prelude.{◌<◌};

use crate::line::PracticeLine;
use ecat_frame::Frame;
use esc_model::WordWrite;
use sii_words::MAX_SLAVES;
use site_file::RandomAccessFile;
use site_shadow::Pattern;
use std::io;

/// A line to practise on whose words are also in open image files, one for each slave. A word that a slave has written is in its file once
/// the next frame has gone through.
#[derive(Drop)]
pub struct PracticeFiles<F> {
    line: PracticeLine,
    images: Vec<F>,
    /// The word that each slave writes.
    writing: [Option<WordWrite>; MAX_SLAVES],
}

impl<F: RandomAccessFile> PracticeFiles<F> {
    /// A line that has the words of these files.
    pub fn new(line: PracticeLine, images: Vec<F>) -> PracticeFiles<F> {
        PracticeFiles {
            line,
            images,
            writing: [None; MAX_SLAVES],
        }
    }

    /// How many words the slaves have begun to write.
    pub fn begun(&self) -> u32 {
        self.line.begun()
    }

    /// It is this moment, in microseconds. Words that chips have programmed are in their files then, synced.
    ///
    /// # Errors
    ///
    /// Where a file can't be written or synced.
    pub fn pass_time(&mut self, now: u64) -> io::Result<()> {
        self.line.pass_time(now);
        self.note_all()
    }

    /// A frame goes through the slaves. The words that they have written since the last one are in their files then, synced.
    ///
    /// # Errors
    ///
    /// Where a file can't be written or synced.
    pub fn take(&mut self, frame: &mut Frame) -> io::Result<()> {
        self.line.take(frame);
        self.note_all()
    }

    /// The power is cut, and comes back. Words in flight are torn by the pattern, in the files too.
    ///
    /// # Errors
    ///
    /// Where a file can't be written or synced.
    pub fn cut_power(&mut self, pattern: Pattern) -> io::Result<()> {
        self.line.cut_power(pattern);
        self.note_all()
    }

    fn note_all(&mut self) -> io::Result<()> {
        for slave in 0..MAX_SLAVES {
            self.note(slave)?;
        }
        Ok(())
    }

    /// Notes which word a slave writes, and saves the word that it wrote before.
    fn note(&mut self, slave: usize) -> io::Result<()>
        requires { slave < 64 }
    {
        let now = self.line.in_flight(slave);
        let before = self.writing[slave];
        if now == before {
            return Ok(());
        }
        self.writing[slave] = now;
        match before {
            Some(write) => self.save(slave, write.word),
            None => Ok(()),
        }
    }

    /// Writes the words of a slave that its chip writes anew with this one to its file, and syncs it.
    fn save(&self, slave: usize, word: u16) -> io::Result<()> {
        let (Some(words), Some(image)) = (self.line.words(slave), self.images.get(slave)) else {
            return Ok(());
        };
        let (first, after) = self.line.page_of(slave, word);
        for at in first..after {
            if let Some(value) = words.get(at as usize) {
                image.write_all_at(&value.to_le_bytes(), 2 * u64::from(at))?;
            }
        }
        image.sync_data()
    }
}
