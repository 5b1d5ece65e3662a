//! Commands keep the contents of a line within words of 16 bits.

ghost use Rattle.std.specs.Prelude.{◌≡◌, ℕ, List, All, Ok};
ghost use Rattle.sii_edit.specs.declared.command.Command.{Command};
ghost use Rattle.sii_edit.specs.Command.{outcome};
ghost use Rattle.sii_edit.specs.Fold.{contents};
ghost use Rattle.sii_edit.specs.Fitting.{PlantFits, CommandFits};

/// An accepted command leaves words of 16 bits, if it gives only such words and the plant has only such words.
pub fn commands_keep_to_words()
    ensures { (plant new : List (List ℕ)) (command : Command)
        → outcome plant command ≡ Ok new → CommandFits command → PlantFits plant → PlantFits new }
{}

/// A list of commands leaves words of 16 bits, if each gives only such words and the plant has only such words.
pub fn contents_keep_to_words()
    ensures { (base : List (List ℕ)) (commands : List Command)
        → All CommandFits commands → PlantFits base → PlantFits (contents base commands) }
{}
