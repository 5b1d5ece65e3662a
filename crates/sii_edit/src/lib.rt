//! Commands as edits of a line's contents: what each changes, as runs of words, or why it is refused; which slaves it may change, and
//! whether two are the same.
#![tactic(auto)]

mod alias;
mod applying;
mod category;
mod command;
mod draft;
mod edit_lists;
mod group;
mod guard;
mod image;
mod layouts;
mod refusal;
mod sameness;
mod slave_words;
mod typed;

pub use alias::alias_image;
pub use applying::{Change, apply, changes};
pub use command::{Command, Edit, Expect, GuardedEdit};
pub use edit_lists::{EditList, GuardedEditList};
pub use refusal::{Cause, Refusal};
pub use sameness::is_same_command;
pub use sii_words::WordList;
pub use typed::command_fits;
