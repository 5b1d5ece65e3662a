//! The categories in which two images differ: item by item, and word by word where a content isn't read.

use station_listing::{ListedCategory, ListedChain};
use station_rows::{Cell, Line, Rows, Value, bare, data, lines_of, named, printed, said};
use std::alloc::AllocError;

/// One of the two images: its key in JSON, and what text calls it.
type Side = (&'static str, &'static str);

const FIRST: Side = ("a", "A");

const SECOND: Side = ("b", "B");

/// Puts what the categories of two images differ in, in the order of the first; after this what only the second one has. Where the chain of
/// one of them is cut off, only that.
pub(crate) fn put_categories(
    rows: &mut Rows,
    old: &ListedChain,
    new: &ListedChain,
) -> Result<(), AllocError> {
    match (old, new) {
        (ListedChain::Complete(olds), ListedChain::Complete(news)) => put_chains(rows, olds, news),
        (ListedChain::RunsOut { at }, ListedChain::RunsOut { at: other }) if at == other => Ok(()),
        _ => {
            for (side, chain) in [(FIRST, old), (SECOND, new)] {
                if let ListedChain::RunsOut { at } = chain {
                    let row = [
                        said("", "runs out"),
                        data("image", side.0),
                        named("at", *at),
                        said("in", side.1),
                    ];
                    rows.put("runs_out", &row)?;
                }
            }
            Ok(())
        }
    }
}

/// Puts what two chains differ in. A category is compared with the one of its type that has as many others of this type before it.
fn put_chains(
    rows: &mut Rows,
    old: &[ListedCategory],
    new: &[ListedCategory],
) -> Result<(), AllocError> {
    for (place, category) in old.iter().enumerate() {
        match partner_of(old, place, new) {
            Some(other) => put_category(rows, (old, category), (new, other))?,
            None => put_lonely(rows, FIRST, category)?,
        }
    }
    for (place, category) in new.iter().enumerate() {
        if partner_of(new, place, old).is_none() {
            put_lonely(rows, SECOND, category)?;
        }
    }
    Ok(())
}

/// The category of the other image that is compared with the one at this place.
fn partner_of<'a>(
    categories: &[ListedCategory],
    place: usize,
    others: &'a [ListedCategory],
) -> Option<&'a ListedCategory> {
    let kind = categories.get(place)?.kind;
    let earlier = categories.iter().take(place);
    let before = earlier.filter(|other| other.kind == kind).count();
    others.iter().filter(|other| other.kind == kind).nth(before)
}

/// Puts a category that only this image has.
fn put_lonely(rows: &mut Rows, side: Side, category: &ListedCategory) -> Result<(), AllocError> {
    let row = [
        named("category", category.kind),
        said("", "words"),
        bare(side.0, category.words.len()),
        said("only in", side.1),
    ];
    rows.put("category", &row)
}

/// Puts what two categories of one type differ in, each with its image.
fn put_category(
    rows: &mut Rows,
    old: (&[ListedCategory], &ListedCategory),
    new: (&[ListedCategory], &ListedCategory),
) -> Result<(), AllocError> {
    let (was, is) = (old.1.words.len(), new.1.words.len());
    if was != is {
        let row = [
            named("category", old.1.kind),
            said("", "words"),
            bare("a", was),
            bare("b", is),
        ];
        rows.put("category", &row)?;
    }
    if !old.1.items.are_read() || !new.1.items.are_read() {
        return put_words(rows, old.1, new.1);
    }
    let olds = lines_of(rows.alloc(), old.0, old.1)?;
    let news = lines_of(rows.alloc(), new.0, new.1)?;
    put_items(rows, &olds, &news)
}

/// Puts the words in which two contents differ, of those that both have.
fn put_words(
    rows: &mut Rows,
    old: &ListedCategory,
    new: &ListedCategory,
) -> Result<(), AllocError> {
    for (at, (was, is)) in old.words.iter().zip(new.words.iter()).enumerate() {
        if *was != *is {
            let row = [
                named("category", old.kind),
                named("word", at),
                bare("a", Value::Word(*was)),
                bare("b", Value::Word(*is)),
            ];
            rows.put("content", &row)?;
        }
    }
    Ok(())
}

fn put_items(rows: &mut Rows, old: &[Line<'_>], new: &[Line<'_>]) -> Result<(), AllocError> {
    for (place, item) in old.iter().enumerate() {
        match find_item(new, place, item.item.as_str()) {
            Some(other) => put_fields(rows, item, other)?,
            None => put_lonely_item(rows, FIRST, item)?,
        }
    }
    for (place, item) in new.iter().enumerate() {
        if find_item(old, place, item.item.as_str()).is_none() {
            put_lonely_item(rows, SECOND, item)?;
        }
    }
    Ok(())
}

/// The item that is called so: the one at this place, if it is, or else the first.
fn find_item<'l, 'a>(items: &'l [Line<'a>], place: usize, name: &str) -> Option<&'l Line<'a>> {
    match items.get(place) {
        Some(item) if item.item.as_str() == name => Some(item),
        _ => items.iter().find(|item| item.item.as_str() == name),
    }
}

/// Puts an item that only this image has: in text on a line, in JSON a row for each field.
fn put_lonely_item(rows: &mut Rows, side: Side, item: &Line<'_>) -> Result<(), AllocError> {
    let alloc = rows.alloc();
    let mut line = item.cells.to_vec(alloc)?;
    line.push(said("only in", side.1))?;
    rows.say(&line)?;
    for cell in item.cells.iter().skip(item.labels) {
        let value = printed(alloc, cell.value)?;
        let row = [
            data("item", item.item.as_str()),
            data("field", field_of(*cell)),
            data(side.0, cell.value.or_text(value.as_str())),
        ];
        rows.put("item", &row)?;
    }
    Ok(())
}

/// Puts the fields in which two items differ.
fn put_fields(rows: &mut Rows, old: &Line<'_>, new: &Line<'_>) -> Result<(), AllocError> {
    for (a, b) in old.cells.iter().zip(new.cells.iter()) {
        let was = printed(rows.alloc(), a.value)?;
        let is = printed(rows.alloc(), b.value)?;
        if was.as_str() != is.as_str() {
            put_change(rows, old.item.as_str(), *a, was.as_str(), *b, is.as_str())?;
        }
    }
    Ok(())
}

/// Puts a field, whose values text prints so.
fn put_change<'c>(
    rows: &mut Rows,
    item: &'c str,
    old: Cell<'c>,
    was: &'c str,
    new: Cell<'c>,
    is: &'c str,
) -> Result<(), AllocError> {
    let row = [
        bare("item", item),
        said(old.name(), was),
        said("", is),
        data("field", field_of(old)),
        data("a", old.value.or_text(was)),
        data("b", new.value.or_text(is)),
    ];
    rows.put("item", &row)
}

/// The name of a field in JSON: `value` where an item has one field alone.
fn field_of(cell: Cell<'_>) -> &str {
    match cell.name() {
        "" => "value",
        name => name,
    }
}
