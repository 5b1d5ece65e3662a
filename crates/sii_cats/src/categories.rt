//! The chain of categories.

ghost use Rattle.std.specs.Prelude.{◌≡◌, ◌<◌, ◌≤◌, ◌+◌, ◌^◌, length, map, IfOk};
ghost use Rattle.sii_cats.specs.Chain.{AnswersChain, ArePlaced, content_of, end_of, member_of};
ghost use Rattle.sii_cats.specs.steps.Chain.{GivesChain, HeaderGives, IsWalked};

use crate::fault::ChainFault;
use crate::kind::END;
use std::alloc::Global;

/// The number of the word at which the chain begins (ETG.1000.6, slave information interface categories).
pub const FIRST_HEADER: usize = 0x40;

/// Where a category stands among the words (ETG.1000.6): a type word, a word with the length of its content in words, and the
/// content.
#[derive(Clone, Copy, PartialEq, Eq)]
pub struct Category {
    /// The type.
    pub kind: u16,
    /// The number of its type word.
    pub at: usize,
    /// The length of its content in words.
    pub count: usize,
}

impl Category {
    /// The number of the word after the content. It must fit 64 bits.
    pub fn end(self) -> usize
        requires { end_of self < 2 ^ 64 }
        ensures { result ≡ end_of self }
    {
        self.at + 2 + self.count
    }

    /// The content, among the words that the category was read from. The category must end inside them.
    pub fn content(self, words: &[u16]) -> &[u16]
        requires { end_of self ≤ length words.now }
        ensures { result.now ≡ content_of words.now self }
    {
        let (_, after) = words.split_at(self.at + 2);
        let (content, _) = after.split_at(self.count);
        content
    }
}

/// The category with its header at word `at`, or `None` at the end of the chain.
fn header_at(words: &[u16], at: usize) -> Result<Option<Category>, ChainFault>
    requires { at ≤ length words.now }
    ensures { HeaderGives words.now at result }
{
    match &words[at..] {
        [] | [END, ..] => Ok(None),
        [kind, count, rest @ ..] if (*count as usize) <= rest.len() => Ok(Some(Category {
            kind: *kind,
            at,
            count: *count as usize,
        })),
        _ => Err(ChainFault::RunsOut { at }),
    }
}

/// Reads the chain of categories: the categories, and the number of the word after the last one. There must be at least 64
/// words.
///
/// # Errors
///
/// As for `chain`.
pub(crate) fn walk(alloc: Global, words: &[u16]) -> Result<(Vec<Category>, usize), ChainFault>
    requires { 64 ≤ length words.now }
    ensures exact { GivesChain (λ x. map (member_of words.now) x.0.items) words.now result }
    ensures walked { IfOk result (λ x. IsWalked words.now x.0.items x.1) }
{
    let mut categories = Vec::new(alloc);
    let mut at = FIRST_HEADER;
    while let Some(category) = header_at(words, at)? {
        categories.push(category)?;
        at = category.end();
    }
    Ok((categories, at))
}

/// Reads the chain of categories among the words of a device, from word 0x40 on. There must be at least 64 words.
///
/// # Errors
///
/// `RunsOut` if a category is cut off, with the word of its header. Or `Memory` in place of any answer if memory was refused.
pub fn chain(alloc: Global, words: &[u16]) -> Result<Vec<Category>, ChainFault>
    requires { 64 ≤ length words.now }
    ensures grammar { AnswersChain (λ v. map (member_of words.now) v.items) words.now result }
    ensures exact { GivesChain (λ v. map (member_of words.now) v.items) words.now result }
    ensures placed { IfOk result (λ v. ArePlaced words.now v.items) }
{
    let (categories, _) = walk(alloc, words)?;
    Ok(categories)
}
