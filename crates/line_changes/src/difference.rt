//! What two images differ in.
ghost use Rattle.std.specs.Prelude.{◌≡◌, ◌↔◌, IfOk};
ghost use Rattle.line_changes.specs.Diff.{IsStatusOf};
ghost use Rattle.line_changes.specs.Difference.{Compares, NothingDiffers, NamesDifferences};

use crate::head::Head;
use crate::words::{WordChanges, compare_words};
use sii_words::ImageFile;
use station_files::ExitStatus;
use station_listing::{ListedChain, list_chain};
use std::alloc::{AllocError, Global};

/// What two images differ in: the head and the categories of the first and of the second one, and the words that differ.
#[derive(Drop)]
pub struct Difference {
    pub old: Head,
    pub new: Head,
    pub old_chain: ListedChain,
    pub new_chain: ListedChain,
    pub words: WordChanges,
}

/// Compares two images. It finds no difference exactly where both have the same words, and a word that both have stands in a listed stretch
/// exactly where its values differ.
pub fn compare(alloc: Global, old: &ImageFile, new: &ImageFile) -> Result<Difference, AllocError>
    ensures compared { IfOk result (Compares old.now new.now) }
    ensures same { IfOk result (λ difference. NothingDiffers difference ↔ (old.now ≡ new.now)) }
    ensures named { IfOk result (NamesDifferences old.now new.now) }
{
    let difference = compare_parts(alloc, old, new)?;
    Ok(difference)
}

fn compare_parts(alloc: Global, old: &ImageFile, new: &ImageFile) -> Result<Difference, AllocError>
    ensures { IfOk result (Compares old.now new.now) }
{
    Ok(Difference {
        old: Head::of(old),
        new: Head::of(new),
        old_chain: list_chain(alloc, old.as_slice())?,
        new_chain: list_chain(alloc, new.as_slice())?,
        words: compare_words(alloc, old.as_slice(), new.as_slice())?,
    })
}

impl Difference {
    /// `Done` where the images have the same words, `Refused` where they differ.
    pub fn status(&self) -> ExitStatus
        ensures { IsStatusOf self.now result }
    {
        if self.old.count == self.new.count && self.words.new.is_empty() {
            ExitStatus::Done
        } else {
            ExitStatus::Refused
        }
    }
}
