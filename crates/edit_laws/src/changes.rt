//! What commands change and keep.

ghost use Rattle.std.specs.Prelude.{◌≡◌, ◌≢◌, ◌<◌, ℕ, Option, IsSome, [], ◌∷◌, ◌++◌, List, length};
ghost use Rattle.sii_edit.specs.Alias.{ChangesAlias, with_alias};
ghost use Rattle.sii_words.specs.Redo.{SameShape};
ghost use Rattle.sii_edit.specs.Category.{ChangesCategory};
ghost use Rattle.sii_edit.specs.Command.{edited_words, outcome};
ghost use Rattle.sii_image.specs.ProcessImage.{process_image};
ghost use Rattle.sii_edit.specs.Fold.{contents, contents_after, after};
ghost use Rattle.sii_edit.specs.declared.command.Command.{Command};
ghost use Rattle.sii_edit.specs.declared.command.Expect.{Expect};
ghost use Rattle.sii_edit.specs.declared.refusal.Refusal.{Refusal};

use sii_cats::{one_chain, readings};
use sii_edit::{Cause, Edit};

/// The words with a new alias differ from the old ones as `ChangesAlias` says.
pub fn alias_is_changed()
    ensures { (words : List ℕ) (value : ℕ) → 7 < length words → ChangesAlias words value (with_alias words value) }
{}

/// No other words differ from the old ones as `ChangesAlias` says.
pub fn alias_change_is_determined()
    ensures { (old new : List ℕ) (value : ℕ) → 7 < length old → ChangesAlias old value new → new ≡ with_alias old value }
{}

/// The words after a category edit differ from the old ones as `ChangesCategory` says.
///
/// The words before the categories stay. The one category of the type is replaced in its place or removed, or a new one is
/// added last. The word after the chain is the end mark, and the words after that stay.
pub fn category_is_changed()
    ensures { (expect : Option Expect) (slave kind : ℕ) (content words new : List ℕ)
        → edited_words expect (Edit.Category slave kind content) words ≡ Ok new → ChangesCategory words kind content new }
{
    readings();
}

/// No other words differ from the old ones as `ChangesCategory` says: a category edit has one result.
pub fn category_change_is_determined()
    ensures { (old : List ℕ) (kind : ℕ) (content new other : List ℕ)
        → ChangesCategory old kind content new → ChangesCategory old kind content other → new ≡ other }
{
    one_chain();
}

/// An accepted command keeps the number of slaves, and the number of words of each.
pub fn commands_keep_the_shape()
    ensures { (plant new : List (List ℕ)) (command : Command) → outcome plant command ≡ Ok new → SameShape plant new }
{}

/// A list of commands keeps the number of slaves, and the number of words of each.
pub fn contents_keep_the_shape()
    ensures { (base : List (List ℕ)) (commands : List Command) → SameShape base (contents base commands) }
{}

/// If a line's contents have a process image, so have the contents after each prefix of a list of commands.
///
/// So contents without a process image are met only on a line that was over the limit from the start.
pub fn commands_keep_a_process_image()
    ensures { (base : List (List ℕ)) (commands : List Command) (count : ℕ)
        → IsSome (process_image base) → IsSome (process_image (contents_after base commands count)) }
{}

/// The definition of a command never gives `Memory`. So it is only ever answered in place of what the definition gives.
pub fn memory_is_not_validated()
    ensures { (plant : List (List ℕ)) (command : Command) (refusal : Refusal)
        → outcome plant command ≡ Err refusal → refusal.cause ≢ Cause.Memory }
{}

/// The contents after one more command are what that command makes of the contents before it.
pub fn contents_after_one_more()
    ensures { (base : List (List ℕ)) (commands : List Command) (command : Command)
        → contents base (commands ++ command ∷ []) ≡ after (contents base commands) command }
{}
