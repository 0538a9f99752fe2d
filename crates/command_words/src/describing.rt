//! The manual page of a program, as `man` reads it.

use crate::table::ExitStatus;
use clap::{Arg, Command};
use std::alloc::{AllocError, Global};

/// The manual page of a program: what it does, its options, its commands with their words, and what its
/// exit statuses mean.
///
/// # Errors
///
/// Only if memory runs out.
pub fn manual(
    alloc: Global,
    program: &Command<'_>,
    statuses: &[ExitStatus],
) -> Result<String, AllocError> {
    let name = program.get_name();
    let version = program.get_version().unwrap_or("");
    let about = escaped(alloc, program.get_about().unwrap_or(""))?;
    let options = arguments(alloc, program.get_arguments())?;
    let mut commands = String::new(alloc);
    for command in program.get_subcommands() {
        commands.push_str(&command_lines(alloc, name, command)?)?;
    }
    let statuses = status_lines(alloc, statuses)?;
    let (about, options) = (about.as_str(), options.as_str());
    let (commands, statuses) = (commands.as_str(), statuses.as_str());
    format!(in alloc;
        ".TH {name} 1 \"\" \"{name} {version}\" \"\"\n\
         .SH NAME\n{name} \\- {about}\n\
         .SH SYNOPSIS\n.B {name}\n[\\fIOPTION\\fR...] [\\fICOMMAND\\fR [\\fIWORD\\fR...]]\n\
         .SH OPTIONS\n{options}\
         .SH COMMANDS\n{commands}\
         .SH PAGES\n\
         .TP\n\\fB{name} help \\-\\-man\\fR\nWrites this page.\n\
         .TP\n\\fB{name} help \\-\\-completion bash\\fR\n\
         Writes the completion of these words for bash.\n\
         .SH EXIT STATUS\n{statuses}"
    )
}

/// What exit statuses mean.
fn status_lines(alloc: Global, statuses: &[ExitStatus]) -> Result<String, AllocError> {
    let mut text = String::new(alloc);
    for status in statuses {
        let meaning = escaped(alloc, status.meaning)?;
        let (number, meaning) = (status.number, meaning.as_str());
        text.push_str(&format!(in alloc; ".TP\n{number}\n{meaning}.\n")?)?;
    }
    Ok(text)
}

/// A command: its words in a line, what it does, and what its words mean.
fn command_lines(
    alloc: Global,
    program: &str,
    command: &Command<'_>,
) -> Result<String, AllocError> {
    let name = command.get_name();
    let words = words(alloc, command.get_arguments())?;
    let about = escaped(alloc, command.get_about().unwrap_or(""))?;
    let arguments = arguments(alloc, command.get_arguments())?;
    let (words, about, arguments) = (words.as_str(), about.as_str(), arguments.as_str());
    format!(in alloc; ".SS {program} {name}{words}\n{about}.\n{arguments}")
}

/// The words of a command, each after a space.
fn words(alloc: Global, arguments: &[Arg<'_>]) -> Result<String, AllocError> {
    let mut text = String::new(alloc);
    for argument in arguments {
        if argument.is_positional() {
            text.push_str(&escaped(alloc, &format!(in alloc; " {argument}")?)?)?;
        }
    }
    Ok(text)
}

/// What arguments mean.
fn arguments(alloc: Global, arguments: &[Arg<'_>]) -> Result<String, AllocError> {
    let mut text = String::new(alloc);
    for argument in arguments {
        text.push_str(&argument_lines(alloc, argument)?)?;
    }
    Ok(text)
}

/// What an argument means.
fn argument_lines(alloc: Global, argument: &Arg<'_>) -> Result<String, AllocError> {
    let short = match argument.get_short() {
        Some(short) => format!(in alloc; "\\-{short}, ")?,
        None => String::new(alloc),
    };
    let words = escaped(alloc, &format!(in alloc; "{argument}")?)?;
    let help = escaped(alloc, argument.get_help().unwrap_or(""))?;
    let (short, words, help) = (short.as_str(), words.as_str(), help.as_str());
    format!(in alloc; ".TP\n\\fB{short}{words}\\fR\n{help}.\n")
}

/// A text in which `man` sees no hyphens, commands or escapes: a dash stays one that can be copied.
fn escaped(alloc: Global, text: &str) -> Result<String, AllocError> {
    let mut escaped = String::new(alloc);
    if text.starts_with('.') || text.starts_with('\'') {
        escaped.push_str("\\&")?;
    }
    for character in text.chars() {
        match character {
            '-' => escaped.push_str("\\-")?,
            '\\' => escaped.push_str("\\e")?,
            _ => escaped.push(character)?,
        }
    }
    Ok(escaped)
}
