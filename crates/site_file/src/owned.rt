//! The open files that a device owns.
ghost use Rattle.std.specs.Prelude.{◌≡◌, false, is_some, Some, None, IfSome, IfNone, slice_get, slice_set};
ghost use Rattle.site_file.specs.declared.asking.LineFile.TheVariants as line_file;

use crate::asking::{LineFile, NamedFile};
use site_shadow::LinePart;

/// The open files of a line. The journal holds the disk's bytes. The image of a slave holds its words, the low byte of each first.
#[derive(Drop)]
pub struct OpenFiles<F> {
    /// The journal's file.
    pub journal: F,
    /// The EEPROM image of each slave, in line order. None where it isn't open.
    pub images: Vec<Option<F>>,
}

/// The image of one slave.
#[derive(Drop)]
pub(crate) struct LentImage<F> {
    slave: usize,
    file: F,
}

/// The open files of a line, or of a part of it.
#[derive(Drop)]
pub struct OwnedFiles<F> {
    journal: Option<F>,
    /// The images of all slaves, in line order. None where one isn't open, or is lent.
    images: Vec<Option<F>>,
    /// The one image of a slave's part.
    lent: Option<LentImage<F>>,
}

impl<F> OwnedFiles<F> {
    ghost use Rattle.site_file.specs.Owned.{image_in};

    /// All of these files.
    pub(crate) fn of(files: OpenFiles<F>) -> OwnedFiles<F>
        ensures journal { result.journal ≡ Some files.journal }
        ensures images { result.images ≡ files.images }
    {
        OwnedFiles {
            journal: Some(files.journal),
            images: files.images,
            lent: None,
        }
    }

    /// The journal, if it is among them.
    pub(crate) fn journal(&self) -> Option<NamedFile<'_, F>>
        ensures name { IfSome result (λ journal. journal.name ≡ line_file.Journal) }
        ensures file { IfSome result (λ journal. self.now.journal ≡ Some journal.file.now) }
        ensures none { IfNone result (is_some self.now.journal ≡ false) }
    {
        let file = self.journal.as_ref()?;
        Some(NamedFile::new(LineFile::Journal, file))
    }

    /// The image of a slave, if it is among them.
    pub(crate) fn image(&self, slave: usize) -> Option<NamedFile<'_, F>>
        ensures name { IfSome result (λ image. image.name ≡ line_file.Image slave) }
        ensures file { IfSome result (λ image. image_in self.now slave ≡ Some image.file.now) }
        ensures none { IfNone result (is_some (image_in self.now slave) ≡ false) }
    {
        let file = self.image_file(slave)?;
        Some(NamedFile::new(LineFile::Image(slave), file))
    }

    /// The image of a slave, if it is among them.
    fn image_file(&self, slave: usize) -> Option<&F>
        ensures file { IfSome result (λ image. image_in self.now slave ≡ Some image.now) }
        ensures none { IfNone result (is_some (image_in self.now slave) ≡ false) }
    {
        match &self.lent {
            Some(lent) if lent.slave == slave => Some(&lent.file),
            _ => match self.images.get(slave) {
                Some(image) => image.as_ref(),
                None => None,
            },
        }
    }
}

impl<F: Drop> OwnedFiles<F> {
    ghost use Rattle.site_file.specs.Owned.{file_at, lent_image, PutsBack, Takes};

    /// Takes the files of a part away.
    pub(crate) fn take(&mut self, part: LinePart) -> OwnedFiles<F>
        ensures { Takes part self.old result self.new }
    {
        let none = Vec::new(*self.images.allocator());
        match part {
            LinePart::Disk => OwnedFiles {
                journal: self.journal.take(),
                images: none,
                lent: None,
            },
            LinePart::Slave(slave) => OwnedFiles {
                journal: None,
                images: none,
                lent: self.take_image(slave),
            },
            LinePart::Process => OwnedFiles {
                journal: None,
                images: none,
                lent: None,
            },
        }
    }

    /// Takes the image of a slave away, if it is there.
    fn take_image(&mut self, slave: usize) -> Option<LentImage<F>>
        ensures image { result ≡ lent_image slave (file_at (slice_get self.old.images.items slave)) }
        ensures left { self.new.images.items ≡ slice_set self.old.images.items slave None }
        ensures same { (self.new.journal ≡ self.old.journal) × (self.new.lent ≡ self.old.lent) }
    {
        let place = self.images.get_mut(slave)?;
        let file = place.take()?;
        Some(LentImage { slave, file })
    }

    /// Puts the files of a part back.
    pub(crate) fn put_back(&mut self, part: OwnedFiles<F>)
        ensures { PutsBack self.old part self.new }
    {
        let OwnedFiles {
            journal,
            images,
            lent,
        } = part;
        drop(images);
        if journal.is_some() {
            self.journal = journal;
        }
        if let Some(LentImage { slave, file }) = lent {
            self.put_image(slave, file);
        }
    }

    /// Puts the image of a slave back.
    fn put_image(&mut self, slave: usize, file: F)
        ensures image { self.new.images.items ≡ slice_set self.old.images.items slave (Some file) }
        ensures same { (self.new.journal ≡ self.old.journal) × (self.new.lent ≡ self.old.lent) }
    {
        if slave < self.images.len() {
            self.images[slave] = Some(file);
        }
    }
}
