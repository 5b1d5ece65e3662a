ghost use Rattle.std.specs.Prelude.{◌≡◌, ◌≢◌, ◌≤◌, ◌==◌, ◌∷◌, [], None, Ok, Err, is_err, is_some, unwrap_or, length, map, count_by, position, All, IfOk, IfErr, OnOk};
ghost use Rattle.sii_cats.specs.Chain.{end_of, member_of};
ghost use Rattle.sii_cats.specs.steps.Chain.{members_of};
ghost use Rattle.sii_edit.specs.Category.{first_malformed, malformed_in, is_malformed, is_unfit, with_category};
ghost use Rattle.sii_edit.specs.Command.{category_causes};
ghost use Rattle.sii_edit.specs.Refusal.{unless, IsAnswer, IsVerdict};

use crate::command::Expect;
use crate::guard::is_other;
use crate::image::overwritten;
use crate::refusal::Cause;
use sii_cats::kind::{END, RXPDOS, STRINGS, TXPDOS};
use sii_cats::{CatFault, Category, ChainFault, chain, pdos, splice, strings};
use sii_words::Words;
use std::alloc::Global;

/// Whether reading a content failed because it is malformed.
fn is_refused<T: Drop>(read: Result<T, CatFault>) -> Result<bool, Cause>
    ensures refused { IfOk result (λ refused. refused ≡ is_err read) }
    ensures known { OnOk result (read ≢ Err CatFault.Memory) }
    ensures memory { IfErr result (λ cause. cause ≡ Cause.Memory) }
{
    match read {
        Ok(_) => Ok(false),
        Err(CatFault::Memory) => Err(Cause::Memory),
        Err(_) => Ok(true),
    }
}

/// Whether the content can't be read as its type asks: strings in type 10, PDOs in types 50 and 51. Other contents aren't
/// judged.
fn is_malformed(alloc: Global, kind: u16, content: &[u16]) -> Result<bool, Cause>
    ensures answer { IfOk result (λ malformed. malformed ≡ is_malformed kind content.now) }
    ensures memory { IfErr result (λ cause. cause ≡ Cause.Memory) }
{
    match kind {
        STRINGS => is_refused(strings(alloc, content)),
        TXPDOS | RXPDOS => is_refused(pdos(alloc, kind, content)),
        _ => Ok(false),
    }
}

/// Judges the type and the content that a category is to get.
fn validate_content(alloc: Global, kind: u16, content: &[u16]) -> Result<(), Cause>
    ensures { IsVerdict ((is_unfit kind content.now, Cause.BadCategory kind) ∷ []) result }
{
    if kind == END || is_malformed(alloc, kind, content)? {
        return Err(Cause::BadCategory { kind });
    }
    Ok(())
}

/// Judges the contents of these categories, which stand among the words.
fn validate_contents(alloc: Global, words: &[u16], categories: &[Category]) -> Result<(), Cause>
    requires { All (λ c. end_of c ≤ length words.now) categories.now }
    ensures { let malformed = first_malformed (map (member_of words.now) categories.now) in
        IsVerdict ((is_some malformed, Cause.BadCategory (unwrap_or malformed 0)) ∷ []) result }
{
    for category in categories {
        if is_malformed(alloc, category.kind, category.content(words))? {
            return Err(Cause::BadCategory {
                kind: category.kind,
            });
        }
    }
    Ok(())
}

/// Judges the chain of categories among these words, and their contents.
pub(crate) fn validate_chain(alloc: Global, words: &[u16]) -> Result<(), Cause>
    requires { 64 ≤ length words.now }
    ensures { let malformed = malformed_in (members_of words.now) in
        IsVerdict ((is_some malformed, Cause.BadCategory (unwrap_or malformed 0)) ∷ (is_err (members_of words.now), Cause.BadChain) ∷ [])
        result }
{
    let categories = chain(alloc, words)?;
    validate_contents(alloc, words, &categories)
}

/// The number of categories of a type.
fn count_of(categories: &[Category], kind: u16) -> usize
    ensures { result ≡ count_by (λ c. c.kind == kind) categories.now }
{
    categories.iter().filter(|c| c.kind == kind).count()
}

/// The place of the first category of a type in the chain, from 0.
fn place_of(categories: &[Category], kind: u16) -> Option<usize>
    ensures { result ≡ position (λ c. c.kind == kind) categories.now }
{
    categories.iter().position(|c| c.kind == kind)
}

/// The words of a slave with the category of type `kind` replaced, added last or removed. Its chain has been read:
/// `categories`.
fn exchanged(
    alloc: Global,
    words: Words,
    categories: &[Category],
    kind: u16,
    content: &[u16],
) -> Result<Words, Cause>
    requires { members_of words ≡ Ok (map (member_of words) categories.now) }
    ensures { IsAnswer (unless (category_causes None words kind content.now) (with_category words kind content.now)) result }
{
    let count = count_of(categories, kind);
    if content.is_empty() && count == 0 {
        return Err(Cause::NoSuchCategory);
    }
    if count > 1 {
        return Err(Cause::SeveralCategories);
    }
    validate_content(alloc, kind, content)?;
    let place = place_of(categories, kind);
    let new = splice(alloc, words.as_slice(), place, kind, content)?;
    Ok(overwritten(words, &new))
}

/// The words of a slave with the one category of type `kind` replaced, added last if there is none, or removed if the content
/// is empty.
pub(crate) fn recategorized(
    alloc: Global,
    expect: Option<Expect>,
    words: Words,
    kind: u16,
    content: &[u16],
) -> Result<Words, Cause>
    ensures { IsAnswer (unless (category_causes expect words kind content.now) (with_category words kind content.now)) result }
{
    if is_other(expect, &words) {
        return Err(Cause::WrongIdentity);
    }
    match chain(alloc, words.as_slice()) {
        Ok(categories) => exchanged(alloc, words, &categories, kind, content),
        Err(ChainFault::Memory) => Err(Cause::Memory),
        Err(ChainFault::RunsOut { .. }) => {
            validate_content(alloc, kind, content)?;
            Err(Cause::BadChain)
        }
    }
}
