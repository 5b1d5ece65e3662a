ghost use Rattle.std.specs.Prelude.{◌≡◌, slice_get, IfOk};
ghost use Rattle.sii_edit.specs.Command.{slave_of, slaves_of, edited_words};
ghost use Rattle.sii_edit.specs.Draft.{Renews};

use crate::alias::renamed;
use crate::category::recategorized;
use crate::draft::NewWords;
use crate::edit_lists::{EditList, GuardedEditList, copied_edits, copied_guarded};
use crate::image::imaged;
use crate::refusal::Cause;
use crate::slave_words::SlaveWords;
use sii_words::{ImageFile, WordList};
use std::alloc::{AllocError, Global};

/// A change of one slave's EEPROM. Slaves are numbered from 0, in the order of the line.
#[derive(Drop)]
pub enum Edit {
    /// Sets the configured station alias of `slave` to `value`, and its check byte with it.
    Alias {
        slave: u16,
        value: u16,
    },
    /// Replaces the content of the one category of type `kind` of `slave` by `words`, or adds the category last if there is
    /// none. Without words the category is removed.
    Category {
        slave: u16,
        kind: u16,
        words: WordList,
    },
    /// Writes `image` over the first words of `slave`. The words after it stay.
    Image {
        slave: u16,
        image: ImageFile,
    },
}

/// The identity that a slave is expected to have (ETG.1000.6: words 8 to 13). The serial number isn't compared.
#[derive(Clone, Copy, PartialEq, Eq)]
pub struct Expect {
    /// The vendor id.
    pub vendor: u32,
    /// The product code.
    pub product: u32,
    /// The revision number.
    pub revision: u32,
}

/// An edit that is refused unless its slave has the expected identity just before it.
#[derive(Drop)]
pub struct GuardedEdit {
    /// The expected identity; any if it is `None`.
    pub expect: Option<Expect>,
    /// The edit.
    pub edit: Edit,
}

/// A change of the contents of a line, accepted as a whole or refused.
#[derive(Drop)]
pub enum Command {
    /// One edit.
    One(Edit),
    /// Exchanges the aliases of slaves `a` and `b`.
    Swap { a: u16, b: u16 },
    /// Makes 1 to 64 edits, each on what the earlier ones left.
    Group(EditList),
    /// Makes 1 to 64 guarded edits, each on what the earlier ones left.
    Guarded(GuardedEditList),
}

impl Edit {
    /// The number of the slave that is edited.
    pub(crate) fn slave(&self) -> u16
        ensures { result ≡ slave_of self.now }
    {
        match self {
            Edit::Alias { slave, .. } => *slave,
            Edit::Category { slave, .. } => *slave,
            Edit::Image { slave, .. } => *slave,
        }
    }

    /// The new words that it gives its slave, which has `words`.
    pub(crate) fn new_words(
        &self,
        alloc: Global,
        expect: Option<Expect>,
        words: &SlaveWords,
    ) -> Result<NewWords, Cause>
        ensures { Renews (edited_words expect self.now words.now) words.now result }
    {
        match self {
            Edit::Alias { value, .. } => renamed(expect, words, *value),
            Edit::Category {
                kind,
                words: content,
                ..
            } => {
                let entire = words.to_words()?;
                let new = recategorized(alloc, expect, entire, *kind, content.as_slice())?;
                Ok(NewWords::Rewritten(new))
            }
            Edit::Image { image, .. } => {
                let new = imaged(alloc, expect, words.to_words()?, image)?;
                Ok(NewWords::Rewritten(new))
            }
        }
    }

    /// Copies the edit.
    ///
    /// # Errors
    ///
    /// `AllocError` if memory was refused.
    pub fn try_copy(&self) -> Result<Edit, AllocError>
        ensures { IfOk result (λ copy. copy ≡ self.now) }
    {
        match self {
            Edit::Alias { slave, value } => Ok(Edit::Alias {
                slave: *slave,
                value: *value,
            }),
            Edit::Category { slave, kind, words } => Ok(Edit::Category {
                slave: *slave,
                kind: *kind,
                words: words.try_copy()?,
            }),
            Edit::Image { slave, image } => Ok(Edit::Image {
                slave: *slave,
                image: image.try_copy()?,
            }),
        }
    }
}

impl GuardedEdit {
    /// Copies the guarded edit.
    ///
    /// # Errors
    ///
    /// `AllocError` if memory was refused.
    pub fn try_copy(&self) -> Result<GuardedEdit, AllocError>
        ensures { IfOk result (λ copy. copy ≡ self.now) }
    {
        Ok(GuardedEdit {
            expect: self.expect,
            edit: self.edit.try_copy()?,
        })
    }
}

impl Command {
    /// The slave that its edit of this place, from 0, may change; `None` after the last one. A swap counts as two edits.
    pub fn slave_at(&self, place: usize) -> Option<u16>
        ensures { result ≡ slice_get (slaves_of self.now) place }
    {
        match self {
            Command::One(edit) => [edit.slave()].get(place).copied(),
            Command::Swap { a, b } => [*a, *b].get(place).copied(),
            Command::Group(edits) => edits.as_slice().get(place).map(|edit| edit.slave()),
            Command::Guarded(edits) => edits.as_slice().get(place).map(|one| one.edit.slave()),
        }
    }

    /// Copies the command.
    ///
    /// # Errors
    ///
    /// `AllocError` if memory was refused.
    pub fn try_copy(&self) -> Result<Command, AllocError>
        ensures { IfOk result (λ copy. copy ≡ self.now) }
    {
        match self {
            Command::One(edit) => Ok(Command::One(edit.try_copy()?)),
            Command::Swap { a, b } => Ok(Command::Swap { a: *a, b: *b }),
            Command::Group(edits) => Ok(Command::Group(copied_edits(
                edits.allocator(),
                edits.as_slice(),
            )?)),
            Command::Guarded(edits) => Ok(Command::Guarded(copied_guarded(
                edits.allocator(),
                edits.as_slice(),
            )?)),
        }
    }
}
