//! What is wrong with words that spell no command: the first word at fault, or what is missing.

ghost use Rattle.std.specs.Prelude.{◌≡◌, IfOk};
ghost use Rattle.clap.specs.Words.{kind_of};

use crate::misfit::Misfit;
use crate::words::{program, words_named};
use clap::error::ErrorKind;
use clap::{Arg, ArgAction, Command, Error};
use std::alloc::{AllocError, Global};
use std::convert::AsStr;
use strsim::osa_distance;

/// How many letters a word may differ in from the name that it is taken for.
const NEAR: usize = 2;

/// Says in a sentence what is wrong with words in which a parse found a fault, and the usage of the
/// command that they name behind the program's own name. A request for help or for the version stays
/// as it is.
pub(crate) fn plain<'a, S: AsStr>(
    alloc: Global,
    words: &'a [S],
    error: Error,
) -> Result<Error, AllocError>
    ensures { IfOk result (λ it. kind_of it ≡ kind_of error) }
{
    let kind = error.kind();
    match kind {
        ErrorKind::DisplayHelp | ErrorKind::DisplayVersion | ErrorKind::OutOfMemory => Ok(error),
        _ => of_kind(alloc, words, kind),
    }
}

/// Says what is wrong with words that have a fault of this kind.
fn of_kind<'a, S: AsStr>(
    alloc: Global,
    words: &'a [S],
    kind: ErrorKind,
) -> Result<Error, AllocError>
    ensures { IfOk result (λ it. kind_of it ≡ kind) }
{
    let program = program(alloc)?;
    let misfit = program_misfit(alloc, &program, words)?;
    error_of(alloc, command_name(words), misfit, kind)
}

/// The error of this kind that says in a sentence what is wrong with the words of the command of
/// this name, or of the program if there is none, and then its usage.
pub(crate) fn error_of(
    alloc: Global,
    name: Option<&str>,
    misfit: Misfit<'_>,
    kind: ErrorKind,
) -> Result<Error, AllocError>
    ensures { IfOk result (λ it. kind_of it ≡ kind) }
{
    let sentence = format!(in alloc; "{misfit}")?;
    let mut command = words_named(alloc, name)?;
    command.error(kind, sentence.as_str())
}

/// The word that names the command, behind the program's own name.
fn command_name<S: AsStr>(words: &[S]) -> Option<&str> {
    match words {
        [_, name, ..] => Some(name.as_str()),
        _ => None,
    }
}

/// The command of this name.
fn command_named<'c, 'a>(program: &'c Command<'a>, name: &str) -> Option<&'c Command<'a>> {
    for command in program.get_subcommands() {
        if command.get_name() == name {
            return Some(command);
        }
    }
    None
}

/// What is wrong with the words of a command line.
fn program_misfit<'a, S: AsStr>(
    alloc: Global,
    program: &Command<'a>,
    words: &'a [S],
) -> Result<Misfit<'a>, AllocError> {
    let [_, name, rest @ ..] = words else {
        return Ok(Misfit::NO_COMMAND);
    };
    let name = name.as_str();
    match command_named(program, name) {
        Some(command) => command_misfit(alloc, command, rest),
        None if name == "help" => help_misfit(alloc, program, rest),
        None => unknown_command(alloc, program, name),
    }
}

/// What is wrong with the words after `help`, which names a command.
fn help_misfit<'a, S: AsStr>(
    alloc: Global,
    program: &Command<'a>,
    words: &'a [S],
) -> Result<Misfit<'a>, AllocError> {
    let [name, rest @ ..] = words else {
        return Ok(Misfit::NO_COMMAND);
    };
    let name = name.as_str();
    match (command_named(program, name), rest) {
        (Some(command), [word, ..]) => Ok(Misfit::ExtraWord {
            word: word.as_str(),
            command: command.get_name(),
        }),
        _ => unknown_command(alloc, program, name),
    }
}

/// That a word is no command, and which one is most like it.
fn unknown_command<'a>(
    alloc: Global,
    program: &Command<'a>,
    word: &'a str,
) -> Result<Misfit<'a>, AllocError> {
    let near = near_command(alloc, program, word)?;
    Ok(Misfit::UnknownCommand { word, near })
}

/// The name of a command that is most like a word, if one is like it.
fn near_command<'a>(
    alloc: Global,
    program: &Command<'a>,
    word: &str,
) -> Result<Option<&'a str>, AllocError> {
    let mut near = None;
    let mut least = NEAR + 1;
    for command in program.get_subcommands() {
        let name = command.get_name();
        let distance = osa_distance(alloc, word, name)?;
        if distance < least {
            least = distance;
            near = Some(name);
        }
    }
    Ok(near)
}

/// The name of an option that is most like a word, if one is like it.
fn near_option<'a>(
    alloc: Global,
    command: &Command<'a>,
    word: &str,
) -> Result<Option<&'a str>, AllocError> {
    let mut near = None;
    let mut least = NEAR + 1;
    for arg in command.get_arguments() {
        if let Some(name) = arg.get_long() {
            let distance = osa_distance(alloc, word, name)?;
            if distance < least {
                least = distance;
                near = Some(name);
            }
        }
    }
    Ok(near)
}

/// Whether a word is written as an option, or as several letters of some.
fn is_option(word: &str) -> bool {
    word.starts_with('-') && word != "-"
}

/// The name of an option that is written with two dashes, and whether its value is in the word.
fn option_name(word: &str) -> Option<(&str, bool)> {
    let name = word.strip_prefix("--")?;
    match name.split_once('=') {
        Some((name, _)) => Some((name, true)),
        None => Some((name, false)),
    }
}

/// The letters in a word that is written as letters of options, with one dash.
fn letters_of(word: &str) -> Option<&str> {
    if word.starts_with("--") {
        return None;
    }
    word.strip_prefix("-")
}

/// The option of this name.
fn option_named<'c, 'a>(command: &'c Command<'a>, name: &str) -> Option<&'c Arg<'a>> {
    for arg in command.get_arguments() {
        if arg.get_long() == Some(name) {
            return Some(arg);
        }
    }
    None
}

/// The option of this letter.
fn option_lettered<'c, 'a>(command: &'c Command<'a>, letter: char) -> Option<&'c Arg<'a>> {
    for arg in command.get_arguments() {
        if arg.get_short() == Some(letter) {
            return Some(arg);
        }
    }
    None
}

/// Whether an option is a flag, which has no value.
fn is_flag(arg: &Arg<'_>) -> bool {
    matches!(arg.get_action(), ArgAction::SetTrue)
}

/// How often a letter stands in a word.
fn count_in(word: &str, letter: char) -> usize {
    let mut count = 0usize;
    for other in word.chars() {
        if other == letter {
            count = count.saturating_add(1);
        }
    }
    count
}

/// Whether this letter is among those of these words.
fn has_letter<S: AsStr>(words: &[S], letter: char) -> bool {
    for word in words {
        if let Some(letters) = letters_of(word.as_str()) {
            if count_in(letters, letter) > 0 {
                return true;
            }
        }
    }
    false
}

/// Whether an option is among these words, by its name or by its letter.
fn is_met<S: AsStr>(words: &[S], arg: &Arg<'_>, name: &str) -> bool {
    match arg.get_short() {
        Some(letter) => has_letter(words, letter) || is_given(words, name),
        None => is_given(words, name),
    }
}

/// Whether an option is among these words, by its name.
fn is_given<S: AsStr>(words: &[S], name: &str) -> bool {
    for word in words {
        if let Some((other, _)) = option_name(word.as_str()) {
            if other == name {
                return true;
            }
        }
    }
    false
}

/// How many files a command names.
fn files_of(command: &Command<'_>) -> usize {
    let mut files = 0usize;
    for arg in command.get_arguments() {
        if arg.get_long().is_none() {
            files = files.saturating_add(1);
        }
    }
    files
}

/// What is wrong with the words after a command: the first of them that is at fault; or that the
/// last option lacks its value, or what the command wants is missing.
fn command_misfit<'a, S: AsStr>(
    alloc: Global,
    command: &Command<'a>,
    words: &'a [S],
) -> Result<Misfit<'a>, AllocError> {
    let mut wants = None;
    let mut files = 0usize;
    for (index, word) in words.iter().enumerate() {
        let word = word.as_str();
        if let Some(name) = wants {
            if is_option(word) {
                return Ok(Misfit::NoValue { name });
            }
            wants = None;
            continue;
        }
        if !is_option(word) {
            files = files.saturating_add(1);
            if files > files_of(command) {
                return Ok(Misfit::ExtraWord {
                    word,
                    command: command.get_name(),
                });
            }
            continue;
        }
        match option_misfit(alloc, command, word, &words[..index])? {
            Met::Misfit(misfit) => return Ok(misfit),
            Met::Wants(name) => wants = Some(name),
            Met::Whole => {}
        }
    }
    match wants {
        Some(name) => Ok(Misfit::NoValue { name }),
        None => Ok(lacking(command, words, files)),
    }
}

/// What a word that is written as an option is.
enum Met<'a> {
    /// It is at fault.
    Misfit(Misfit<'a>),
    /// It is an option whose value is the next word.
    Wants(&'a str),
    /// It is a flag, or an option with its value.
    Whole,
}

/// What a word is that is written as letters of options, after these words: each letter is that of a
/// flag.
fn letters_misfit<'a, S: AsStr>(command: &Command<'a>, word: &'a str, before: &'a [S]) -> Met<'a> {
    let unknown = Misfit::UnknownOption {
        word,
        command: command.get_name(),
        near: None,
    };
    let Some(letters) = letters_of(word) else {
        return Met::Misfit(unknown);
    };
    for letter in letters.chars() {
        let Some(arg) = option_lettered(command, letter) else {
            return Met::Misfit(unknown);
        };
        let Some(name) = arg.get_long() else {
            return Met::Misfit(unknown);
        };
        if count_in(letters, letter) > 1 || is_met(before, arg, name) {
            return Met::Misfit(Misfit::Twice { name });
        }
    }
    Met::Whole
}

/// What a word is that is written as an option, after these words.
fn option_misfit<'a, S: AsStr>(
    alloc: Global,
    command: &Command<'a>,
    word: &'a str,
    before: &'a [S],
) -> Result<Met<'a>, AllocError> {
    let Some((name, has_value)) = option_name(word) else {
        return Ok(letters_misfit(command, word, before));
    };
    let Some(arg) = option_named(command, name) else {
        let near = near_option(alloc, command, name)?;
        let misfit = Misfit::UnknownOption {
            word,
            command: command.get_name(),
            near,
        };
        return Ok(Met::Misfit(misfit));
    };
    if is_met(before, arg, name) {
        return Ok(Met::Misfit(Misfit::Twice { name }));
    }
    if is_flag(arg) {
        if has_value {
            return Ok(Met::Misfit(Misfit::NoFlag { name }));
        }
        return Ok(Met::Whole);
    }
    if has_value {
        Ok(Met::Whole)
    } else {
        Ok(Met::Wants(name))
    }
}

/// The first option that a command has to have and lacks, or a file.
fn lacking<'a, S: AsStr>(command: &Command<'a>, words: &'a [S], files: usize) -> Misfit<'a> {
    for arg in command.get_arguments() {
        if let Some(name) = arg.get_long() {
            if arg.is_required_set() && !is_given(words, name) {
                return Misfit::Lacking {
                    name,
                    command: command.get_name(),
                };
            }
        }
    }
    if files == 0 {
        Misfit::NoFile {
            command: command.get_name(),
        }
    } else {
        Misfit::NO_OUT
    }
}
