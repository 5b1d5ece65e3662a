//! A type that names commands in contracts.

use std::marker::Brand;

/// A type that names, for contracts alone, the commands that are submitted at a desk.
pub trait NamesCommands {
    ghost use Rattle.std.specs.Prelude.{List};
    ghost use Rattle.sii_edit.specs.declared.command.Command.{Command};

    // The commands.
    ghost commands: { List Command };
}

impl NamesCommands for Brand {
    ghost use Rattle.std.specs.Prelude.{[]};

    ghost commands = { [] };
}
