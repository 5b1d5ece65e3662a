//! Validates an image.
ghost use Rattle.std.specs.Prelude.{◌≢◌, All, MatchOption};
ghost use Rattle.station_listing.specs.declared.items.Items.TheVariants.{Malformed};
ghost use Rattle.sii_bytes.specs.Validating.{IsFirstMalformed, Validates, ValidatesListing};

use crate::codes::{BAD_CATEGORY, BAD_CHECK, DONE, MEMORY, RUNS_OUT, found, read_image};
use station_listing::{CheckByte, ListedCategory, ListedChain, Listing, list_image};
use std::alloc::Global;

/// The type of the first category whose content can't be read.
fn first_malformed(categories: &[ListedCategory]) -> Option<u16>
    ensures { MatchOption result (All (λ category. category.items ≢ Malformed) categories.now) (IsFirstMalformed categories.now) }
{
    for category in categories {
        if category.items.are_malformed() {
            return Some(category.kind);
        }
    }
    None
}

/// The code of what is found first, and the number that is reported beside it.
fn validate_listing(listing: &Listing) -> (u32, usize)
    ensures { ValidatesListing listing.now result.0 result.1 }
{
    match listing.check {
        CheckByte::Wrong { expected, .. } => return (BAD_CHECK, usize::from(expected)),
        CheckByte::Right => {}
    }
    let categories = match &listing.chain {
        ListedChain::Complete(categories) => categories,
        ListedChain::RunsOut { at } => return (RUNS_OUT, *at),
    };
    match first_malformed(categories) {
        Some(kind) => (BAD_CATEGORY, usize::from(kind)),
        None => (DONE, 0),
    }
}

/// Validates an image: its check byte, its chain of categories, and the contents of its STRINGS, TXPDO and RXPDO categories (ETG.1000.6 and
/// ETG.2010).
///
/// Answers 0 for a good image, or the first code that applies, with a number in `detail` (else 0): 1 if the number of bytes is odd; 2 if
/// the image hasn't 64 to 4,096 words; 15 if the check byte is wrong, with the right one; 3 if a category is cut off, with the number of
/// the word at which its header stands; 4 if the content of a category can't be read, with the type of the first such category. Or 20 in
/// place of any answer if memory was refused.
pub fn validate_image(alloc: Global, bytes: &[u8], detail: &mut usize) -> u32
    ensures { Validates bytes.now result detail.new }
{
    *detail = 0;
    let image = found!(read_image(alloc, bytes));
    match list_image(alloc, &image) {
        Ok(listing) => {
            let (code, found) = validate_listing(&listing);
            *detail = found;
            code
        }
        Err(_) => MEMORY,
    }
}
