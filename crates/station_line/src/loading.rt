//! What is read for a run: the line, and the commands of a script.
ghost use Rattle.std.specs.Prelude.{◌≡◌, ◌∷◌, ◌++◌, [], IfErr, IfOk, OnOk};
ghost use Rattle.station_files.specs.ScriptFiles.{SpellsCommands};
ghost use Rattle.station_files.specs.FileNames.{spelt};
ghost use Rattle.station_files.specs.Locations.{AreSeparate};
ghost use Rattle.station_line.specs.Validating.{HasJournal, IsRunSeparate};
ghost use Rattle.station_line.specs.Opened.{is_old, Loads};
ghost use Rattle.station_line.specs.Refusals.{RefusesCommandFiles, RefusesRun};

use crate::faults::of_journal;
use crate::session::{Session, load_session};
use sii_edit::Command;
use station_files::{Fault, FileNames, Script, Store, keep_separate, load_script};
use std::alloc::Global;

/// What was read for a run.
#[derive(Drop)]
pub struct LoadedLine<L> {
    /// The line.
    pub session: Session<L>,
    /// The commands of the script, in order.
    pub commands: Vec<Command>,
}

/// Reads the files in this order: line file, images of the slaves, journal, script, images that the script names. None of those that a run
/// writes may be another one of them, the line file or the script. Then the journal's content is validated.
///
/// # Errors
///
/// As for `load_session`, then as for `load_script` and `keep_separate`; then `NotAJournal`, `BadVersion`, `WrongLine` or `BadJournal`
/// where the journal is refused.
pub fn load<S: Store>(
    alloc: Global,
    name: &str,
    script: &str,
    store: &mut S,
) -> Result<LoadedLine<S::Lock>, Fault>
    ensures loaded { IfOk result (λ given. Loads (S.files store.old) name.now given.session.line given.session.site) }
    ensures old { IfOk result (λ given. given.session.is_old ≡ is_old given.session.site.seen.state.disk.bytes) }
    ensures journal { IfOk result (λ given. HasJournal given.session.site.line.sizes given.session.site.seen.state.disk.bytes) }
    ensures spelt { IfOk result (λ given. SpellsCommands (S.files store.old) script.now given.commands.items) }
    ensures separate { IfOk result (λ given. IsRunSeparate S.leads given.session.line name.now script.now) }
    ensures refused { IfErr result (RefusesRun (S.files store.old) S.leads name.now script.now) }
    ensures same { S.files store.new ≡ S.files store.old }
{
    let session = load_session(alloc, name, store)?;
    let refusal = session.refusal;
    let Ok(files) = FileNames::of_line(alloc, &session.line, name, None) else {
        drop(session);
        return Err(Fault::Memory);
    };
    match load_commands(alloc, script, files, store) {
        Ok(commands) => match refusal {
            None => Ok(LoadedLine { session, commands }),
            Some(fault) => {
                drop(session);
                drop(commands);
                Err(of_journal(fault))
            }
        },
        Err(fault) => {
            drop(session);
            Err(fault)
        }
    }
}

/// Reads a script and the images that it names. The script may be none of these files that the run writes.
fn load_commands<S: Store>(
    alloc: Global,
    script: &str,
    files: FileNames,
    store: &mut S,
) -> Result<Vec<Command>, Fault>
    ensures spelt { IfOk result (λ commands. SpellsCommands (S.files store.old) script.now commands.items) }
    ensures separate { OnOk result (AreSeparate S.leads files.written (spelt files.names.items ++ script.now ∷ [])) }
    ensures refused { IfErr result (RefusesCommandFiles (S.files store.old) S.leads files.has_capture files.written (spelt files.names.items)
        script.now) }
    ensures same { S.files store.new ≡ S.files store.old }
{
    let loaded = load_script(alloc, script, store)?;
    let all = files.with_script(alloc, script)?;
    match keep_separate(alloc, &all, store) {
        Ok(()) => {
            let Script { commands, .. } = loaded;
            Ok(commands)
        }
        Err(fault) => {
            drop(loaded);
            Err(fault)
        }
    }
}
