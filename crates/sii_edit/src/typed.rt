ghost use Rattle.std.specs.Prelude.{◌^◌, ◌<◌, All};
ghost use Rattle.sii_edit.specs.declared.command.GuardedEdit.{GuardedEdit};
ghost use Rattle.sii_edit.specs.Fitting.{IsWord, EditFits, CommandFits};

use crate::{Command, Edit, GuardedEdit};

fn word_fits(word: u16)
    ensures { IsWord word }
{}

fn words_fit(words: &[u16])
    ensures { All IsWord words.now }
{}

fn edit_fits(edit: &Edit)
    ensures { EditFits edit.now }
{
    match edit {
        Edit::Alias { value, .. } => word_fits(*value),
        Edit::Category { kind, words, .. } => {
            word_fits(*kind);
            words_fit(words.as_slice());
        }
        Edit::Image { image, .. } => words_fit(image.as_slice()),
    }
}

fn edits_fit(edits: &[Edit])
    ensures { All EditFits edits.now }
{
    for edit in edits {
        edit_fits(edit);
    }
}

fn guarded_edits_fit(edits: &[GuardedEdit])
    ensures { All (λ (guarded : GuardedEdit). EditFits guarded.edit) edits.now }
{
    for guarded in edits {
        edit_fits(&guarded.edit);
    }
}

/// Shows that a command of the running code gives only words of 16 bits, which the laws require. It changes nothing.
pub fn command_fits(command: &Command)
    ensures { CommandFits command.now }
{
    match command {
        Command::One(edit) => edit_fits(edit),
        Command::Swap { .. } => {}
        Command::Group(edits) => edits_fit(edits.as_slice()),
        Command::Guarded(edits) => guarded_edits_fit(edits.as_slice()),
    }
}
