//! What a shell completes, from the description of a program.

use crate::program::{Program, described};
use clap::{Arg, Command};
use std::alloc::{AllocError, Global};

/// A shell that completes words.
#[derive(Clone, Copy)]
pub enum Shell {
    Bash,
    Zsh,
    Fish,
}

/// What bash reads: of each subcommand a line `show) options='--hex --help -h' ;;`, after one of the program itself, and one of its subcommand `help`,
/// which is followed by a subcommand's name. Behind `completions` and `explain` stand the names of shells and of codes; else bash completes the names
/// of files.
///
/// In a script `@p` is the program's name, `@s` are the names of all subcommands, `@n` is the subcommand's name and `@a` what it does; of an option
/// `@d@l` is how it is typed, as `--hex` or `-h`, `@k` is `l` for a name and `s` for a letter, and `@h` what it does. What stands between `%` and `%`
/// is there for each subcommand; between `~` and `~`, for each option of the subcommand, or else of the program, and then for each letter of these.
const BASH: &str = "_@p() {
    local word=${COMP_WORDS[COMP_CWORD]} sub= i names= options=
    for ((i = 1; i < COMP_CWORD; i++)); do
        case ${COMP_WORDS[i]} in -*) ;; *) sub=${COMP_WORDS[i]}; break ;; esac
    done
    case $sub in
    '') names='@s' options='~ @d@l~' ;;
    help) names='@s' ;;
%    @n) options='~ @d@l~' ;;
%    esac
    case $sub in
    completions) names='bash zsh fish' ;;
    explain) names=$(@p explain | sed -n 's/^[0-9]* \\([A-Za-z]*\\): .*/\\1/p') ;;
    esac
    if [[ $word == -* ]]; then
        COMPREPLY=($(compgen -W \"$options\" -- \"$word\"))
    elif [[ $names ]]; then
        COMPREPLY=($(compgen -W \"$names\" -- \"$word\"))
    fi
}
complete -o default -F _@p @p
";

/// Of each subcommand a line `'show:What it does'`, and a line `show) _arguments '--hex[What it does]' \"$rest\" ;;`: its options, which are
/// followed by files, shells or codes; then the options of the program itself.
const ZSH: &str = "#compdef @p
_@p() {
    local -a names
    local rest='*:file:_files'
    names=(
%        '@n:@a'
%    )
    if (( CURRENT == 2 )); then
        _describe subcommand names
    fi
    case $words[2] in
    completions) rest='*:shell:(bash zsh fish)' ;;
    explain) rest=\"*:code:($(@p explain | sed -n 's/^[0-9]* \\([A-Za-z]*\\): .*/\\1/p'))\" ;;
    esac
    case $words[2] in
%    @n) _arguments~ '@d@l[@h]'~ \"$rest\" ;;
%    -*) _arguments~ '@d@l[@h]'~ ;;
    esac
}
compdef _@p @p
";

/// A line of each option of the program; then of each subcommand a line, and a line of each of its options; then what stands behind two of them.
const FISH: &str = "~complete -c @p -n '__fish_use_subcommand' -@k @l -d '@h'
~%complete -c @p -n __fish_use_subcommand -f -a @n -d '@a'
~complete -c @p -n '__fish_seen_subcommand_from @n' -@k @l -d '@h'
~%complete -c @p -n '__fish_seen_subcommand_from completions' -f -a 'bash zsh fish'
complete -c @p -n '__fish_seen_subcommand_from explain' -f -a '(@p explain | string replace -rf \"^[0-9]+ (\\w+): .*\" \"\\$1\")'
";

/// A script that makes a shell complete the program's subcommands, options and file names.
pub fn completion_script(
    alloc: Global,
    program: Program<'_>,
    shell: Shell,
) -> Result<String, AllocError> {
    let script = match shell {
        Shell::Bash => BASH,
        Shell::Zsh => ZSH,
        Shell::Fish => FISH,
    };
    let mut command = described(alloc, program)?;
    command.build()?;
    let mut names = String::new(alloc);
    let mut text = String::new(alloc);
    for subcommand in command.get_subcommands() {
        push_all(&mut names, &[" ", subcommand.get_name()])?;
    }
    for (place, block) in script.split('%').enumerate() {
        if place % 2 == 0 {
            push_block(alloc, block, &command, &mut text)?;
            continue;
        }
        for subcommand in command.get_subcommands() {
            push_block(alloc, block, subcommand, &mut text)?;
        }
    }
    let text = text.as_str().replace(alloc, "@s", names.as_str())?;
    text.as_str().replace(alloc, "@p", program.name)
}

/// Adds a part of a script that is about this subcommand, or the program itself.
fn push_block(
    alloc: Global,
    block: &str,
    command: &Command<'_>,
    text: &mut String,
) -> Result<(), AllocError> {
    let about = quoted(alloc, command.get_about())?;
    let block = block.replace(alloc, "@n", command.get_name())?;
    let block = block.as_str().replace(alloc, "@a", about.as_str())?;
    for (place, words) in block.as_str().split('~').enumerate() {
        if place % 2 == 0 {
            text.push_str(words)?;
            continue;
        }
        for is_letter in [false, true] {
            for option in command.get_arguments() {
                push_option(alloc, words, option, is_letter, text)?;
            }
        }
    }
    Ok(())
}

/// Adds words that are about an option, as it is spelt by its name or by its letter, if it has one.
fn push_option(
    alloc: Global,
    words: &str,
    option: &Arg<'_>,
    is_letter: bool,
    text: &mut String,
) -> Result<(), AllocError> {
    let (kind, dashes, name) = match (option.get_long(), option.get_short()) {
        _ if option.is_hide_set() => return Ok(()),
        (Some(name), _) if !is_letter => ("l", "--", String::from_str(alloc, name)?),
        (Some(_), Some(letter)) if is_letter => ("s", "-", format!(in alloc; "{letter}")?),
        _ => return Ok(()),
    };
    let help = quoted(alloc, option.get_help())?;
    let spelt = [
        ("@k", kind),
        ("@d", dashes),
        ("@l", name.as_str()),
        ("@h", help.as_str()),
    ];
    text.push_str(replaced(alloc, words, &spelt)?.as_str())
}

/// A text as it stands between single quotes of a shell, with signs in place of brackets and colons, which mean something to zsh.
fn quoted(alloc: Global, text: Option<&str>) -> Result<String, AllocError> {
    let signs = [("'", "'\\''"), ("[", "("), ("]", ")"), (":", ",")];
    replaced(alloc, text.unwrap_or(""), &signs)
}

/// A text with the second one of each pair in place of the first one.
pub(crate) fn replaced<'p>(
    alloc: Global,
    text: &str,
    pairs: &[(&'p str, &'p str)],
) -> Result<String, AllocError> {
    let mut made = String::from_str(alloc, text)?;
    for (from, to) in pairs {
        made = made.as_str().replace(alloc, *from, *to)?;
    }
    Ok(made)
}

/// These texts, one after the other.
pub(crate) fn push_all(text: &mut String, parts: &[&str]) -> Result<(), AllocError> {
    for part in parts {
        text.push_str(part)?;
    }
    Ok(())
}
