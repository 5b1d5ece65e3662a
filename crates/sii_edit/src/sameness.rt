//! Compares commands.

ghost use Rattle.std.specs.Prelude.{◌≡◌, ◌↔◌, IsTrue};

use crate::command::{Command, Edit, GuardedEdit};

/// Whether two edits are the same.
fn is_same_edit(one: &Edit, other: &Edit) -> bool
    ensures { IsTrue result ↔ (one.now ≡ other.now) }
{
    match one {
        Edit::Alias { slave, value } => match other {
            Edit::Alias { slave: a, value: b } => slave == a && value == b,
            _ => false,
        },
        Edit::Category { slave, kind, words } => match other {
            Edit::Category {
                slave: a,
                kind: b,
                words: c,
            } => slave == a && kind == b && words.as_slice() == c.as_slice(),
            _ => false,
        },
        Edit::Image { slave, image } => match other {
            Edit::Image { slave: a, image: b } => slave == a && image.as_slice() == b.as_slice(),
            _ => false,
        },
    }
}

/// Whether two guarded edits are the same and expect the same identity.
fn is_same_guarded(one: &GuardedEdit, other: &GuardedEdit) -> bool
    ensures { IsTrue result ↔ (one.now ≡ other.now) }
{
    one.expect == other.expect && is_same_edit(&one.edit, &other.edit)
}

/// Whether two lists have the same edits, in the same order.
fn are_same_edits(ones: &[Edit], others: &[Edit]) -> bool
    ensures { IsTrue result ↔ (ones.now ≡ others.now) }
{
    if ones.len() != others.len() {
        return false;
    }
    for i in 0..ones.len() {
        if !is_same_edit(&ones[i], &others[i]) {
            return false;
        }
    }
    true
}

/// Whether two lists have the same guarded edits, in the same order.
fn are_same_guarded(ones: &[GuardedEdit], others: &[GuardedEdit]) -> bool
    ensures { IsTrue result ↔ (ones.now ≡ others.now) }
{
    if ones.len() != others.len() {
        return false;
    }
    for i in 0..ones.len() {
        if !is_same_guarded(&ones[i], &others[i]) {
            return false;
        }
    }
    true
}

/// Whether two commands are the same.
pub fn is_same_command(one: &Command, other: &Command) -> bool
    ensures { IsTrue result ↔ (one.now ≡ other.now) }
{
    match one {
        Command::One(edit) => match other {
            Command::One(b) => is_same_edit(edit, b),
            _ => false,
        },
        Command::Swap { a, b } => match other {
            Command::Swap { a: c, b: d } => a == c && b == d,
            _ => false,
        },
        Command::Group(edits) => match other {
            Command::Group(b) => are_same_edits(edits.as_slice(), b.as_slice()),
            _ => false,
        },
        Command::Guarded(edits) => match other {
            Command::Guarded(b) => are_same_guarded(edits.as_slice(), b.as_slice()),
            _ => false,
        },
    }
}
