//! What it usually is where a slave has other words than its image file.
ghost use Rattle.std.specs.Prelude.{◌↔◌, IsTrue, MatchOption, slice_get};
ghost use Rattle.slave_match.specs.Reason.{AreSameType, AreTorn, HasIdentity, HasNoOther, HasWords, IsBeside, IsFirstOther, IsOfNoOther, IsPlaceOf, IsReason, IsReasonAt, NamesPage};

use jrn_format::Batch;
use sii_words::{Identity, Run, Words};

/// How many words the largest page of a serial EEPROM has, which some chips write anew as a whole with each word.
const PAGE: usize = 64;

/// What it usually is where a slave has other words than its image file.
#[derive(Clone, Copy, PartialEq, Eq)]
pub enum Reason {
    /// A cable that was plugged elsewhere: the slave is the one of the image file at this place of the line.
    Elsewhere(usize),
    /// A slave that was exchanged for one of the same vendor and product.
    SameType,
    /// A slave that was exchanged for one of another type.
    OtherType,
    /// Words that a chip writes together with one that a power cut has met.
    Torn,
    /// A change by another tool, or of the image file.
    Changed,
}

impl Reason {
    /// Its name, for programs.
    pub fn name(self) -> &'static str {
        match self {
            Reason::Elsewhere(_) => "elsewhere",
            Reason::SameType => "same type",
            Reason::OtherType => "other type",
            Reason::Torn => "torn",
            Reason::Changed => "changed",
        }
    }

    /// The place of the line whose image file the slave is of, if it is one's.
    pub fn place(self) -> Option<usize> {
        match self {
            Reason::Elsewhere(place) => Some(place),
            _ => None,
        }
    }
}

/// What it usually is that the slave at this place has other words than its image file has, where these are the words of all slaves and of their
/// image files, as far as they are there, and these batches are live in the journal.
pub fn reason_of(
    slave: usize,
    slaves: &[Words],
    images: &[Option<Words>],
    batches: &[Batch],
) -> Reason
    ensures { IsReasonAt slave (slice_get slaves.now slave) (slice_get images.now slave) images.now batches.now result }
{
    let (Some(words), Some(Some(image))) = (slaves.get(slave), images.get(slave)) else {
        return Reason::Changed;
    };
    usual_reason(slave, words, image, images, batches)
}

/// The same where slave and image file are there.
fn usual_reason(
    slave: usize,
    words: &Words,
    image: &Words,
    images: &[Option<Words>],
    batches: &[Batch],
) -> Reason
    ensures { IsReason slave words.now image.now images.now batches.now result }
{
    if let Some(place) = place_of(slave, words, image, images) {
        return Reason::Elsewhere(place);
    }
    if !is_same_type(words.identity(), image.identity()) {
        return Reason::OtherType;
    }
    if !has_identity(image, words) {
        return Reason::SameType;
    }
    if are_torn(slave, words, image, batches) {
        return Reason::Torn;
    }
    Reason::Changed
}

/// The other place whose image file has all words of a slave; else the one that has its identity, where its own image file has another one.
fn place_of(slave: usize, words: &Words, image: &Words, images: &[Option<Words>]) -> Option<usize>
    ensures { MatchOption result (IsOfNoOther slave words.now image.now images.now) (IsPlaceOf slave words.now image.now images.now) }
{
    match place_of_words(slave, words, images) {
        None if !has_identity(image, words) => place_of_identity(slave, words, images),
        found => found,
    }
}

/// The first other place whose image file has all words of a slave.
fn place_of_words(slave: usize, words: &Words, images: &[Option<Words>]) -> Option<usize>
    ensures { MatchOption result (HasNoOther (HasWords words.now) slave images.now) (IsFirstOther (HasWords words.now) slave images.now) }
{
    for (place, image) in images.iter().enumerate() {
        match image {
            Some(image) if place != slave && has_words(image, words) => return Some(place),
            _ => {}
        }
    }
    None
}

/// The first other place whose image file has the identity of a slave.
fn place_of_identity(slave: usize, words: &Words, images: &[Option<Words>]) -> Option<usize>
    ensures { MatchOption result (HasNoOther (HasIdentity words.now) slave images.now) (IsFirstOther (HasIdentity words.now) slave images.now) }
{
    for (place, image) in images.iter().enumerate() {
        match image {
            Some(image) if place != slave && has_identity(image, words) => return Some(place),
            _ => {}
        }
    }
    None
}

/// Whether an image file has all words of a slave.
fn has_words(image: &Words, words: &Words) -> bool
    ensures { IsTrue result ↔ HasWords words.now image.now }
{
    image.as_slice() == words.as_slice()
}

/// Whether an image file has the identity of a slave.
#[tactic(auto, unfolding(crate::specs::Reason::HasIdentity))]
fn has_identity(image: &Words, words: &Words) -> bool
    ensures { IsTrue result ↔ HasIdentity words.now image.now }
{
    let (kept, own) = (image.identity(), words.identity());
    is_same_type(kept, own) && kept.revision == own.revision && kept.serial == own.serial
}

/// Whether two slaves are of one vendor and product.
pub fn is_same_type(one: Identity, other: Identity) -> bool
    ensures { IsTrue result ↔ AreSameType one other }
{
    one.vendor == other.vendor && one.product == other.product
}

/// Whether each word that differs lies in the page of a word that a live batch names for the slave.
fn are_torn(slave: usize, words: &Words, image: &Words, batches: &[Batch]) -> bool
    ensures { IsTrue result ↔ AreTorn slave words.now image.now batches.now }
{
    if words.len() != image.len() {
        return false;
    }
    for at in 0..words.len() {
        if words.get(at) != image.get(at) && !is_beside(slave, at, batches) {
            return false;
        }
    }
    true
}

/// Whether a live batch names a word of this one's page for the slave.
fn is_beside(slave: usize, at: usize, batches: &[Batch]) -> bool
    ensures { IsTrue result ↔ IsBeside slave at batches.now }
{
    for batch in batches {
        for entry in batch.entries.as_slice() {
            for run in entry.runs.as_slice() {
                if names_page(slave, at, run) {
                    return true;
                }
            }
        }
    }
    false
}

/// Whether a run names a word of this one's page for the slave.
fn names_page(slave: usize, at: usize, run: &Run) -> bool
    ensures { IsTrue result ↔ NamesPage slave at run.now }
{
    let first = usize::from(run.first);
    let after = first + run.words.as_slice().len();
    let named = first.max(at / PAGE * PAGE);
    usize::from(run.slave) == slave && named / PAGE == at / PAGE && named < after
}
