//! Lists what an EEPROM image says.
ghost use Rattle.std.specs.Prelude.{◌≡◌, ◌≤◌, ◌↔◌, IfOk, IsTrue, length, map};
ghost use Rattle.std.specs.List.{AllZip};
ghost use Rattle.sii_cats.specs.Chain.{ArePlaced, end_of, member_of};
ghost use Rattle.station_listing.specs.ImageListing.{IsReadable, IsSound, SaysChain, SaysCheck, SaysImage, SaysMember};

use crate::items::{Items, read_items};
use sii_cats::{Category, ChainFault, chain};
use sii_words::{Identity, ImageFile};
use std::alloc::{AllocError, Global};

/// The listing of an EEPROM image.
#[derive(Drop)]
pub struct Listing {
    /// The number of words of the image: 64 to 4,096.
    pub count: usize,
    /// The configured station alias.
    pub alias: u16,
    /// Whether the check byte is right.
    pub check: CheckByte,
    /// The identity: vendor, product, revision and serial number.
    pub identity: Identity,
    /// The chain of categories.
    pub chain: ListedChain,
}

/// The low byte of word 7, compared with the check byte of words 0 to 6 (ETG.1000.6, SII).
#[derive(Clone, Copy, PartialEq, Eq)]
pub enum CheckByte {
    /// The two are equal.
    Right,
    /// The image has `found`, and its words 0 to 6 give `expected`.
    Wrong { found: u8, expected: u8 },
}

/// The chain of categories of an image.
#[derive(Drop)]
pub enum ListedChain {
    /// The categories, in order.
    Complete(Vec<ListedCategory>),
    /// The chain can't be read: the header at word `at`, or the content after it, goes on past the last word.
    RunsOut { at: usize },
}

/// The listing of a category.
#[derive(Drop)]
pub struct ListedCategory {
    /// The type of the category.
    pub kind: u16,
    /// Its content, as words.
    pub words: Vec<u16>,
    /// What the content was read into.
    pub items: Items,
}

/// Lists the content of an EEPROM image.
///
/// # Errors
///
/// Memory was refused.
pub fn list_image(alloc: Global, image: &ImageFile) -> Result<Listing, AllocError>
    ensures { IfOk result (SaysImage image.now) }
{
    Ok(Listing {
        count: image.as_slice().len(),
        alias: image.alias(),
        check: validate_check(image),
        identity: image.identity(),
        chain: list_chain(alloc, image.as_slice())?,
    })
}

fn validate_check(image: &ImageFile) -> CheckByte
    ensures { SaysCheck image.now result }
{
    if image.check_ok() {
        return CheckByte::Right;
    }
    let [found, _] = image.as_slice()[7].to_le_bytes();
    CheckByte::Wrong {
        found,
        expected: image.check_byte(),
    }
}

/// Lists the chain of categories of an image with these words, of which there are at least 64.
///
/// # Errors
///
/// Memory was refused.
pub fn list_chain(alloc: Global, words: &[u16]) -> Result<ListedChain, AllocError>
    requires { 64 ≤ length words.now }
    ensures { IfOk result (SaysChain words.now) }
{
    match chain(alloc, words) {
        Ok(categories) => Ok(ListedChain::Complete(list_categories(alloc, words, &categories)?)),
        Err(ChainFault::RunsOut { at }) => Ok(ListedChain::RunsOut { at }),
        Err(ChainFault::Memory) => Err(AllocError),
    }
}

fn list_categories(
    alloc: Global,
    words: &[u16],
    categories: &[Category],
) -> Result<Vec<ListedCategory>, AllocError>
    requires { ArePlaced words.now categories.now }
    ensures { IfOk result (λ listed. AllZip SaysMember (map (member_of words.now) categories.now) listed.items) }
{
    let mut listed = Vec::new(alloc);
    for category in categories {
        listed.push(list_category(alloc, words, *category)?)?;
    }
    Ok(listed)
}

fn list_category(
    alloc: Global,
    words: &[u16],
    category: Category,
) -> Result<ListedCategory, AllocError>
    requires { end_of category ≤ length words.now }
    ensures { IfOk result (SaysMember (member_of words.now category)) }
{
    let content = category.content(words);
    Ok(ListedCategory {
        kind: category.kind,
        words: content.to_vec(alloc)?,
        items: read_items(alloc, category.kind, content)?,
    })
}

impl Listing {
    /// Whether the check byte is right, and the chain and all contents can be read.
    pub fn is_sound(&self) -> bool
        ensures { IsTrue result ↔ IsSound self.now }
    {
        self.check == CheckByte::Right && self.chain.is_readable()
    }
}

impl ListedChain {
    fn is_readable(&self) -> bool
        ensures { IsTrue result ↔ IsReadable self.now }
    {
        match self {
            ListedChain::Complete(categories) => categories
                .iter()
                .all(|category| !category.items.are_malformed()),
            ListedChain::RunsOut { .. } => false,
        }
    }
}
