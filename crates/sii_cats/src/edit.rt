//! Replaces, adds or removes one category of a device.

ghost use Rattle.std.specs.Prelude.{◌≡◌, ◌≢◌, ◌<◌, ◌≤◌, ◌^◌, ◌++◌, [], length, take, drop, All, IfOk, IfSome, OnOk, MatchOption, slice_get, Some};
ghost use Rattle.sii_cats.specs.declared.categories.Category.{Category};
ghost use Rattle.sii_cats.specs.Chain.{end_of};
ghost use Rattle.sii_cats.specs.steps.Chain.{members_of};
ghost use Rattle.sii_cats.specs.Splice.{GivesSplice, IsCategoryEdit, closing, new_words};
ghost use Rattle.sii_cats.specs.steps.Splice.{GivesRebuilt};

use crate::categories::{Category, walk};
use crate::fault::{CatFault, ChainFault};
use crate::kind::END;
use std::alloc::{AllocError, Global};

impl From<ChainFault> for CatFault {
    ghost use Rattle.sii_cats.specs.Splice.{cat_fault};

    ghost from_gives = { λ chain fault. fault ≡ cat_fault chain };

    fn from(fault: ChainFault) -> Self {
        match fault {
            ChainFault::Memory => CatFault::Memory,
            ChainFault::RunsOut { at } => CatFault::RunsOut { at },
        }
    }
}

/// The words that an edit replaces, as the first of them and the one after the last: those of category `member`, or none at
/// the end of the chain.
fn gap(categories: &[Category], end: usize, member: Option<usize>) -> (usize, usize)
    requires inside { IfSome member (λ i. i < length categories.now) }
    requires fits { All (λ c. end_of c < 2 ^ 64) categories.now }
    ensures { MatchOption member (result ≡ (end, end))
        (λ i. (c : Category) × (slice_get categories.now i ≡ Some c) × (result ≡ (c.at, end_of c))) }
{
    match member {
        Some(place) => {
            let category = categories[place];
            (category.at, category.end())
        }
        None => (end, end),
    }
}

/// Adds the words of a category, or nothing if the content is empty.
fn push_member(words: &mut Vec<u16>, kind: u16, content: &[u16]) -> Result<(), AllocError>
    requires { length content.now < 65536 }
    ensures { OnOk result (words.new.items ≡ words.old.items ++ new_words kind content.now) }
{
    if content.is_empty() {
        return Ok(());
    }
    words.extend_from_slice(&[kind, content.len() as u16])?;
    words.extend_from_slice(content)
}

/// Adds the end mark if a word is left for it, and the old words after it.
fn close(words: &mut Vec<u16>, old: &[u16]) -> Result<(), AllocError>
    requires { length words.old.items ≤ length old.now }
    ensures { OnOk result (words.new.items
        ≡ words.old.items ++ closing (drop (length words.old.items) old.now)) }
{
    match &old[words.as_slice().len()..] {
        [] => Ok(()),
        [_, rest @ ..] => {
            words.push(END)?;
            words.extend_from_slice(rest)
        }
    }
}

fn spelled_len(content: &[u16]) -> usize
    requires { length content.now ≤ 4096 }
    ensures { result ≡ length (new_words 0 content.now) }
{
    if content.is_empty() {
        0
    } else {
        content.len() + 2
    }
}

/// Adds this category, the categories `kept`, the end mark, and the old words after it.
fn push_after(
    out: &mut Vec<u16>,
    words: &[u16],
    kept: &[u16],
    kind: u16,
    content: &[u16],
) -> Result<(), AllocError>
    requires content { length content.now < 65536 }
    requires room { length (out.old.items ++ new_words kind content.now ++ kept.now) ≤ length words.now }
    ensures { let front = out.old.items ++ new_words kind content.now ++ kept.now in
        OnOk result (out.new.items ≡ front ++ closing (drop (length front) words.now)) }
{
    push_member(out, kind, content)?;
    out.extend_from_slice(kept)?;
    close(out, words)
}

/// The words before word `first`, this category, the categories `kept`, the end mark, and the old words after it.
fn rebuilt(
    alloc: Global,
    words: &[u16],
    first: usize,
    kept: &[u16],
    kind: u16,
    content: &[u16],
) -> Result<Vec<u16>, CatFault>
    requires first { first ≤ length words.now }
    requires small { length words.now ≤ 4096 }
    requires kept { length kept.now ≤ 4096 }
    ensures { GivesRebuilt (λ v. v.items) words.now
        (take first words.now ++ new_words kind content.now ++ kept.now) result }
{
    if content.len() > words.len() || first + spelled_len(content) + kept.len() > words.len() {
        return Err(CatFault::NoRoom);
    }
    let mut out = Vec::from_slice(alloc, &words[..first])?;
    push_after(&mut out, words, kept, kind, content)?;
    Ok(out)
}

/// The words of a device with one category replaced, removed or added.
///
/// Category number `member` of the chain, from 0, is replaced, or removed if `content` is empty. With `None` the category is
/// added last. The word after the new chain becomes the end mark, if one is left, and all words after that keep their values.
///
/// A device has 64 to 4,096 words. If its chain can be read, `member` must be in it. An added category must have a content, and
/// a category that is added or replaced must not have the end mark's type.
///
/// # Errors
///
/// In this order: `RunsOut` if the chain can't be read; `NoRoom` if the new chain passes the end of the device. Or `Memory` in
/// place of any answer if memory was refused.
pub fn splice(
    alloc: Global,
    words: &[u16],
    member: Option<usize>,
    kind: u16,
    content: &[u16],
) -> Result<Vec<u16>, CatFault>
    requires least { 64 ≤ length words.now }
    requires most { length words.now ≤ 4096 }
    requires inside { IfOk (members_of words.now) (λ ms. IfSome member (λ i. i < length ms)) }
    requires kind { content.now ≢ [] → kind ≢ 0xFFFF }
    requires content { member ≡ None → content.now ≢ [] }
    ensures edit { IfOk result (λ v. IsCategoryEdit words.now v.items member kind content.now) }
    ensures exact { GivesSplice (λ v. v.items) words.now member kind content.now result }
{
    let (categories, end) = walk(alloc, words)?;
    let (first, after) = gap(&categories, end, member);
    rebuilt(alloc, words, first, &words[after..end], kind, content)
}
