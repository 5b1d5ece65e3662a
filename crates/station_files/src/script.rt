//! Reads a script file and the images that it names into commands.
ghost use Rattle.std.specs.Prelude.{◌≡◌, IfErr, IfOk, ◌↔◌, All, IsTrue};
ghost use Rattle.station_files.specs.ScriptFiles.{RefusesScript, RefusesText, SpellsCommands, SpellsScriptNamed, IsPlain, LoadsCommand, LoadsEdit, LoadsGroup, LoadsGuarded, RefusesCommand, RefusesCommands, RefusesEdit, RefusesGroup, RefusesImage};
ghost use Rattle.station_text.specs.ScriptText.{SpellsScriptFile};
ghost use Rattle.std.specs.List.{AllZip};
ghost use Rattle.sii_words.specs.Words.{bytes_of};
ghost use Rattle.station_files.specs.Files.{HasBytes};

use crate::faults::Fault;
use crate::notes::{Place, Wrong, note_image, note_text};
use crate::store::{MOST_OF_TEXT, Store, read_file, read_image_file};
use sii_edit::{Command, Edit, EditList, GuardedEdit, GuardedEditList};
use sii_words::ImageFile;
use station_listing::Code;
use station_text::{ScriptCommand, ScriptEdit, ScriptFault, ScriptGroupEdit, line_at, read_script};
use std::alloc::Global;

/// A script that was read, with the images that it names.
#[derive(Drop)]
pub struct Script {
    /// Its commands, with the words of their images.
    pub commands: Vec<Command>,
    /// The same commands as its text spells them.
    pub spelt: Vec<ScriptCommand>,
}

/// Reads the commands of the script file `name`. The whole text is validated before the first image that it names is read.
///
/// # Errors
///
/// As for `read_file`; `BadScript` where it is not UTF-8 or not a script; then as for `load_commands`. `Memory` may come at any point.
pub fn load_script<S: Store>(alloc: Global, name: &str, store: &mut S) -> Result<Script, Fault>
    ensures commands { IfOk result (λ script. SpellsCommands (S.files store.old) name.now script.commands.items) }
    ensures spelt { IfOk result (λ script. SpellsScriptNamed (S.files store.old) name.now script.spelt.items) }
    ensures refused { IfErr result (RefusesScript (S.files store.old) name.now) }
    ensures same { S.files store.new ≡ S.files store.old }
{
    let bytes = read_file(alloc, name, MOST_OF_TEXT, store)?;
    let spelt = spelt_script(alloc, name, &bytes, store)?;
    let commands = load_commands(alloc, &spelt, store)?;
    Ok(Script { commands, spelt })
}

/// The commands of the script of this name, which has these bytes.
fn spelt_script<S: Store>(
    alloc: Global,
    name: &str,
    bytes: &[u8],
    store: &mut S,
) -> Result<Vec<ScriptCommand>, Fault>
    ensures script { IfOk result (λ script. SpellsScriptFile bytes.now script.items) }
    ensures refused { IfErr result (RefusesText bytes.now) }
    ensures same { S.files store.new ≡ S.files store.old }
{
    let text = match str::from_utf8(bytes) {
        Ok(text) => text,
        Err(error) => {
            let line = line_at(bytes, error.valid_up_to());
            store.note(Code::BadScript, Place::Line(name, line), &Wrong::NoUtf8);
            return Err(Fault::BadScript { command: 0 });
        }
    };
    match read_script(alloc, text) {
        Ok(script) => Ok(script),
        Err(ScriptFault::Memory) => Err(Fault::Memory),
        Err(ScriptFault::BadScript { command, trouble }) => {
            note_text(Code::BadScript, name, trouble, store);
            Err(Fault::BadScript { command })
        }
    }
}

/// Turns the commands of a script into commands with the words of their images. The files are read in the order of the commands, each
/// validated before the next one is read.
fn load_commands<S: Store>(
    alloc: Global,
    script: &[ScriptCommand],
    store: &mut S,
) -> Result<Vec<Command>, Fault>
    ensures commands { IfOk result (λ commands. AllZip (LoadsCommand (S.files store.old)) script.now commands.items) }
    ensures refused { IfErr result (RefusesCommands (S.files store.old) script.now) }
    ensures same { S.files store.new ≡ S.files store.old }
{
    let mut commands = Vec::new(alloc);
    for command in script {
        commands.push(load_command(alloc, command, store)?)?;
    }
    Ok(commands)
}

fn load_command<S: Store>(
    alloc: Global,
    command: &ScriptCommand,
    store: &mut S,
) -> Result<Command, Fault>
    ensures command { IfOk result (LoadsCommand (S.files store.old) command.now) }
    ensures refused { IfErr result (RefusesCommand (S.files store.old) command.now) }
    ensures same { S.files store.new ≡ S.files store.old }
{
    match command {
        ScriptCommand::One(edit) => Ok(Command::One(load_edit(alloc, edit, store)?)),
        ScriptCommand::Swap { a, b } => Ok(Command::Swap { a: *a, b: *b }),
        ScriptCommand::Group(edits) => load_group(alloc, edits, store),
    }
}

/// Loads a group: a plain one where no edit is guarded, a guarded one otherwise.
fn load_group<S: Store>(
    alloc: Global,
    edits: &[ScriptGroupEdit],
    store: &mut S,
) -> Result<Command, Fault>
    ensures command { IfOk result (LoadsGroup (S.files store.old) edits.now) }
    ensures refused { IfErr result (RefusesGroup (S.files store.old) edits.now) }
    ensures same { S.files store.new ≡ S.files store.old }
{
    if is_plain(edits) {
        let plain = load_edits(alloc, edits, store)?;
        return Ok(Command::Group(EditList::from_vec(plain)));
    }
    let guarded = load_guarded_edits(alloc, edits, store)?;
    Ok(Command::Guarded(GuardedEditList::from_vec(guarded)))
}

fn is_plain(edits: &[ScriptGroupEdit]) -> bool
    ensures { IsTrue result ↔ All IsPlain edits.now }
{
    edits.iter().all(|edit| edit.expect.is_none())
}

fn load_edits<S: Store>(
    alloc: Global,
    edits: &[ScriptGroupEdit],
    store: &mut S,
) -> Result<Vec<Edit>, Fault>
    ensures edits { IfOk result (λ loaded. AllZip (λ one edit. LoadsEdit (S.files store.old) one.edit edit) edits.now loaded.items) }
    ensures refused { IfErr result (RefusesGroup (S.files store.old) edits.now) }
    ensures same { S.files store.new ≡ S.files store.old }
{
    let mut loaded = Vec::new(alloc);
    for one in edits {
        loaded.push(load_edit(alloc, &one.edit, store)?)?;
    }
    Ok(loaded)
}

fn load_guarded_edits<S: Store>(
    alloc: Global,
    edits: &[ScriptGroupEdit],
    store: &mut S,
) -> Result<Vec<GuardedEdit>, Fault>
    ensures edits { IfOk result (λ loaded. AllZip (LoadsGuarded (S.files store.old)) edits.now loaded.items) }
    ensures refused { IfErr result (RefusesGroup (S.files store.old) edits.now) }
    ensures same { S.files store.new ≡ S.files store.old }
{
    let mut loaded = Vec::new(alloc);
    for one in edits {
        loaded.push(load_guarded_edit(alloc, one, store)?)?;
    }
    Ok(loaded)
}

fn load_guarded_edit<S: Store>(
    alloc: Global,
    one: &ScriptGroupEdit,
    store: &mut S,
) -> Result<GuardedEdit, Fault>
    ensures edit { IfOk result (LoadsGuarded (S.files store.old) one.now) }
    ensures refused { IfErr result (RefusesEdit (S.files store.old) one.now.edit) }
    ensures same { S.files store.new ≡ S.files store.old }
{
    Ok(GuardedEdit {
        expect: one.expect,
        edit: load_edit(alloc, &one.edit, store)?,
    })
}

fn load_edit<S: Store>(alloc: Global, edit: &ScriptEdit, store: &mut S) -> Result<Edit, Fault>
    ensures edit { IfOk result (LoadsEdit (S.files store.old) edit.now) }
    ensures refused { IfErr result (RefusesEdit (S.files store.old) edit.now) }
    ensures same { S.files store.new ≡ S.files store.old }
{
    match edit {
        ScriptEdit::Alias { slave, value } => Ok(Edit::Alias {
            slave: *slave,
            value: *value,
        }),
        ScriptEdit::Category { slave, kind, words } => Ok(Edit::Category {
            slave: *slave,
            kind: *kind,
            words: words.try_copy()?,
        }),
        ScriptEdit::Image { slave, file, .. } => {
            let image = load_image(alloc, file.as_str(), store)?;
            Ok(Edit::Image {
                slave: *slave,
                image,
            })
        }
    }
}

/// The image in the file of this name.
fn load_image<S: Store>(alloc: Global, name: &str, store: &mut S) -> Result<ImageFile, Fault>
    ensures image { IfOk result (λ image. HasBytes (S.files store.old) name.now (bytes_of image)) }
    ensures refused { IfErr result (RefusesImage (S.files store.old) name.now) }
    ensures same { S.files store.new ≡ S.files store.old }
{
    let bytes = read_image_file(alloc, name, store)?;
    match ImageFile::from_bytes(alloc, &bytes) {
        Ok(image) => Ok(image),
        Err(fault) => {
            let fault = Fault::from(fault);
            let size = Wrong::NoImage(bytes.len() / 2);
            note_image(fault, name, bytes.len(), size, store);
            Err(fault)
        }
    }
}
