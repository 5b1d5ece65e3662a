//! Walks the chain of categories.
ghost use Rattle.std.specs.Prelude.{◌≡◌, ◌≤◌, length};
ghost use Rattle.sii_words.specs.Words.{IsImageSize};
ghost use Rattle.sii_bytes.specs.Bytes.{Answers};
ghost use Rattle.sii_bytes.specs.Category.{FindsCategory, HasCategory, LacksCategory};

use crate::codes::{DONE, MEMORY, NO_SUCH_CATEGORY, RUNS_OUT, found, read_image};
use sii_cats::{ChainFault, chain};
use std::alloc::Global;

/// Where a category stands in an image (ETG.1000.6).
#[repr(C)]
#[derive(Clone, Copy)]
pub struct CategoryPlace {
    /// Its type.
    pub kind: u32,
    /// The number of its type word. The content begins two words after it.
    pub at: u32,
    /// The number of words of its content.
    pub count: u32,
}

/// Finds a category among the words of an image.
fn place_of(alloc: Global, words: &[u16], number: usize) -> Result<CategoryPlace, u32>
    requires least { 64 ≤ length words.now }
    requires most { length words.now ≤ 4096 }
    ensures { FindsCategory words.now number result }
{
    let categories = match chain(alloc, words) {
        Ok(categories) => categories,
        Err(ChainFault::RunsOut { .. }) => return Err(RUNS_OUT),
        Err(ChainFault::Memory) => return Err(MEMORY),
    };
    if number >= categories.len() {
        return Err(NO_SUCH_CATEGORY);
    }
    let category = categories[number];
    Ok(CategoryPlace {
        kind: u32::from(category.kind),
        at: category.at as u32,
        count: category.count as u32,
    })
}

/// Finds category number `number` of an image's chain, from 0 (ETG.1000.6, from word 0x40 on).
///
/// Answers 0; or a code, and `place` stays as it was: 1 if the number of bytes is odd; 2 if the image hasn't 64 to 4,096 words; 3 if a
/// category is cut off; 16 if the chain has no category of this number; 20 if memory was refused.
pub fn find_category(alloc: Global, bytes: &[u8], number: usize, place: &mut CategoryPlace) -> u32
    ensures { Answers IsImageSize bytes.now result (λ words. HasCategory words number place.new)
        (λ words. LacksCategory words number result) (place.new ≡ place.old) }
{
    let image = found!(read_image(alloc, bytes));
    *place = found!(place_of(alloc, image.as_slice(), number));
    DONE
}
