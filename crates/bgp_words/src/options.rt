//! What words a command may have: its file, flags and options.

ghost use Rattle.std.specs.Prelude.{◌≡◌, IfOk, fold, false};
ghost use Rattle.clap.specs.Words.{app_of, new_app, rule_of};
ghost use Rattle.clap.specs.declared.builder.command.Command.TheViews.{out-Command as fields_of};
ghost use Rattle.bgp_words.specs.Words.{file_word, flag_word, letter_word, option_word};
ghost use Rattle.bgp_words.specs.Words.{required_word, default_word};
ghost use Rattle.bgp_words.specs.Options.{AddsWord, rule_by, with_word};

use clap::{Arg, ArgAction, Command};
use std::alloc::{AllocError, Global};

/// A word that a command may have, with what help tells of it.
#[derive(Clone, Copy)]
pub(crate) enum Word<'a> {
    /// A file: its name and its help.
    File(&'a str, &'a str),
    /// A flag: its name and its help.
    Flag(&'a str, &'a str),
    /// A flag that has a letter, too: its name, that letter and its help.
    Letter(&'a str, char, &'a str),
    /// An option with a value: its name and its help.
    Option(&'a str, &'a str),
    /// An option that has to be given: its name and its help.
    Required(&'a str, &'a str),
    /// An option with a value for where it isn't given: its name, that value and its help.
    Default(&'a str, &'a str, &'a str),
}

/// The file that a command reads.
pub(crate) const READ: Word<'static> = Word::File("FILE", "The file to read; - is standard input");

/// A command of this name without words: what it is for, and what help says at the end.
pub(crate) fn new_command<'a>(
    alloc: Global,
    name: &'a str,
    about: &'a str,
    help: &'a str,
) -> Command<'a>
    ensures words { app_of result ≡ new_app name.entry.now }
    ensures local { (fields_of result).has_globals ≡ false }
{
    Command::new(alloc, name).about(about).after_help(help)
}

/// The command with these words after its own.
pub(crate) fn with_words<'a>(
    alloc: Global,
    command: Command<'a>,
    words: &[Word<'a>],
) -> Result<Command<'a>, AllocError>
    ensures words { IfOk result (λ it.
        app_of it ≡ fold with_word (app_of command.entry) words.now) }
    ensures local { (fields_of command.entry).has_globals ≡ false →
        IfOk result (λ it. (fields_of it).has_globals ≡ false) }
{
    let mut command = command;
    for word in words {
        command = with_word(alloc, command, *word)?;
    }
    Ok(command)
}

/// The command with this word after its own.
pub(crate) fn with_word<'a>(
    alloc: Global,
    command: Command<'a>,
    word: Word<'a>,
) -> Result<Command<'a>, AllocError>
    ensures words { IfOk result (λ it. AddsWord (app_of command.entry) word.entry (app_of it)) }
    ensures local { (fields_of command.entry).has_globals ≡ false →
        IfOk result (λ it. (fields_of it).has_globals ≡ false) }
{
    command.arg(arg_of(alloc, word))
}

/// A word, as clap has it.
fn arg_of<'a>(alloc: Global, word: Word<'a>) -> Arg<'a>
    ensures rule { rule_of result ≡ rule_by word.entry }
    ensures local { result.global ≡ false }
{
    match word {
        Word::File(name, help) => file(alloc, name, help),
        Word::Flag(name, help) => flag(alloc, name, help),
        Word::Letter(name, short, help) => letter(alloc, name, short, help),
        Word::Option(name, help) => option(alloc, name, help),
        Word::Required(name, help) => required(alloc, name, help),
        Word::Default(name, value, help) => default(alloc, name, value, help),
    }
}

/// A file of a command, by its name.
fn file<'a>(alloc: Global, name: &'a str, help: &'a str) -> Arg<'a>
    ensures rule { rule_of result ≡ file_word name.entry.now }
    ensures local { result.global ≡ false }
{
    Arg::new(alloc, name).required(true).help(help)
}

/// A flag by its name.
fn flag<'a>(alloc: Global, name: &'a str, help: &'a str) -> Arg<'a>
    ensures rule { rule_of result ≡ flag_word name.entry.now }
    ensures local { result.global ≡ false }
{
    Arg::new(alloc, name)
        .long(name)
        .action(ArgAction::SetTrue)
        .help(help)
}

/// A flag by its name and its letter.
fn letter<'a>(alloc: Global, name: &'a str, letter: char, help: &'a str) -> Arg<'a>
    ensures rule { rule_of result ≡ letter_word name.entry.now letter }
    ensures local { result.global ≡ false }
{
    flag(alloc, name, help).short(letter)
}

/// An option with a value, by its name.
fn option<'a>(alloc: Global, name: &'a str, help: &'a str) -> Arg<'a>
    ensures rule { rule_of result ≡ option_word name.entry.now }
    ensures local { result.global ≡ false }
{
    Arg::new(alloc, name).long(name).help(help)
}

/// An option that has to be given.
fn required<'a>(alloc: Global, name: &'a str, help: &'a str) -> Arg<'a>
    ensures rule { rule_of result ≡ required_word name.entry.now }
    ensures local { result.global ≡ false }
{
    Arg::new(alloc, name).long(name).required(true).help(help)
}

/// An option with a value for where it isn't given.
fn default<'a>(alloc: Global, name: &'a str, value: &'a str, help: &'a str) -> Arg<'a>
    ensures rule { rule_of result ≡ default_word name.entry.now value.entry.now }
    ensures local { result.global ≡ false }
{
    Arg::new(alloc, name)
        .long(name)
        .default_value(value)
        .help(help)
}
