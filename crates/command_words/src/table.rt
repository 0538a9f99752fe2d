//! Tables of the words that programs take.

ghost use Rattle.std.specs.Prelude.{◌≡◌, IfOk, false};
ghost use Rattle.clap.specs.Values.{kind_of};
ghost use Rattle.clap.specs.Walk.{rule_of};
ghost use Rattle.clap.specs.declared.error.kind.ErrorKind.TheVariants.{ValueValidation};
ghost use Rattle.command_words.specs.Grammar.{IsCommand, any_words_rule, command_app, flag_rule, option_rule, pair_rule, program_app, rule, sequence_rule, top_app, word_rule, words_rule};

use crate::completing::completion;
use crate::describing::manual;
use crate::page::Page;
use clap::error::ErrorKind;
use clap::{Arg, ArgAction, Command, Error};
use std::alloc::{AllocError, Global};

/// The version of the programs.
const VERSION: &str = "0.9.0";

/// An argument of a command, with the text that the help has for it.
#[derive(Clone, Copy)]
pub enum Argument {
    /// A word that has to be there.
    Word {
        name: &'static str,
        help: &'static str,
    },
    /// One word or more, at the end.
    Words {
        name: &'static str,
        help: &'static str,
    },
    /// All words that follow, at the end.
    AnyWords {
        name: &'static str,
        help: &'static str,
    },
    /// An option without a value.
    Flag {
        name: &'static str,
        help: &'static str,
    },
    /// An option with one value.
    Option {
        name: &'static str,
        value: &'static str,
        help: &'static str,
    },
    /// An option with two values.
    Pair {
        name: &'static str,
        values: &'static [&'static str; 2],
        help: &'static str,
    },
    /// An option with one word or more.
    Sequence {
        name: &'static str,
        value: &'static str,
        help: &'static str,
    },
}

/// A command: its name, what the help says of it, and its arguments in their order.
#[derive(Clone, Copy)]
pub struct CommandRow {
    pub name: &'static str,
    pub about: &'static str,
    pub example: &'static str,
    pub arguments: &'static [Argument],
}

/// A program: its name, what the help says of it, and its commands in their order.
#[derive(Clone, Copy)]
pub struct Program {
    pub name: &'static str,
    pub about: &'static str,
    pub example: &'static str,
    /// Whether words without a command are a mistake.
    pub wants_command: bool,
    pub commands: &'static [CommandRow],
    /// What its exit statuses mean, in their order.
    pub statuses: &'static [ExitStatus],
}

/// An exit status of a program, and what it means.
#[derive(Clone, Copy)]
pub struct ExitStatus {
    pub number: u8,
    pub meaning: &'static str,
}

impl Program {
    /// The commands and their arguments.
    ///
    /// # Errors
    ///
    /// Only if memory runs out.
    #[tactic(auto, using(std::proofs::lemmas::List::drop_more))]
    pub fn grammar<'a>(&self, alloc: Global) -> Result<Command<'a>, AllocError>
        ensures { IfOk result (λ command. IsCommand command (program_app self.now)) }
    {
        let mut program = self.top(alloc)?;
        for row in self.commands {
            program = program.subcommand(row.command(alloc)?)?;
        }
        Ok(program)
    }

    /// The program without its commands. A usage has the program's own name, and not that of the file
    /// that was started.
    fn top<'a>(&self, alloc: Global) -> Result<Command<'a>, AllocError>
        ensures { IfOk result (λ command. IsCommand command (top_app self.now)) }
    {
        Command::new(alloc, self.name)
            .version(VERSION)
            .about(self.about)
            .after_help(self.example)
            .subcommand_required(self.wants_command)
            .bin_name(self.name)
    }

    /// The text of a page of the program. `docs/man` and `docs/completion` hold it.
    ///
    /// # Errors
    ///
    /// Only if memory runs out.
    pub fn page(&self, alloc: Global, page: Page) -> Result<String, AllocError> {
        let mut commands = self.grammar(alloc)?;
        commands.build()?;
        match page {
            Page::Manual => manual(alloc, &commands, self.statuses),
            Page::Bash => completion(alloc, &commands),
        }
    }

    /// The usage error of a wrong word of the command of that name.
    ///
    /// # Errors
    ///
    /// Only if memory runs out.
    pub fn usage_error(
        &self,
        alloc: Global,
        command: &str,
        message: &str,
    ) -> Result<Error, AllocError>
        ensures { IfOk result (λ error. kind_of error ≡ ValueValidation) }
    {
        self.usage_error_of(alloc, ErrorKind::ValueValidation, command, message)
    }

    /// The usage error of that kind in the words of the command of that name.
    ///
    /// # Errors
    ///
    /// Only if memory runs out.
    pub fn usage_error_of(
        &self,
        alloc: Global,
        kind: ErrorKind,
        command: &str,
        message: &str,
    ) -> Result<Error, AllocError>
        ensures { IfOk result (λ error. kind_of error ≡ kind) }
    {
        let program = self.name;
        let shown = format!(in alloc; "{program} {command}")?;
        self.named(alloc, command)?
            .bin_name(shown.as_str())?
            .error(kind, message)
    }

    /// The command of that name, or the program if it has none.
    fn named<'a>(&self, alloc: Global, name: &str) -> Result<Command<'a>, AllocError> {
        for row in self.commands {
            if row.name == name {
                return row.command(alloc);
            }
        }
        self.top(alloc)
    }
}

impl CommandRow {
    /// The command as the library of command lines takes it.
    #[tactic(auto, using(std::proofs::lemmas::List::drop_more))]
    fn command<'a>(&self, alloc: Global) -> Result<Command<'a>, AllocError>
        ensures { IfOk result (λ command. IsCommand command (command_app self.now)) }
    {
        let mut command = Command::new(alloc, self.name)
            .about(self.about)
            .after_help(self.example);
        for argument in self.arguments {
            command = command.arg(argument.built(alloc))?;
        }
        Ok(command)
    }
}

impl Argument {
    /// The argument as the library of command lines takes it.
    fn built<'a>(self, alloc: Global) -> Arg<'a>
        ensures reads { rule_of result ≡ rule self }
        ensures local { result.global ≡ false }
    {
        match self {
            Argument::Word { name, help } => word(alloc, name, help),
            Argument::Words { name, help } => words(alloc, name, help),
            Argument::AnyWords { name, help } => any_words(alloc, name, help),
            Argument::Flag { name, help } => flag(alloc, name, help),
            Argument::Option { name, value, help } => option(alloc, name, value, help),
            Argument::Pair { name, values, help } => pair(alloc, name, values, help),
            Argument::Sequence { name, value, help } => sequence(alloc, name, value, help),
        }
    }
}

fn word<'a>(alloc: Global, name: &'a str, help: &'a str) -> Arg<'a>
    ensures reads { rule_of result ≡ word_rule name.entry.now }
    ensures local { result.global ≡ false }
{
    Arg::new(alloc, name)
        .required(true)
        .action(ArgAction::Set)
        .help(help)
}

fn words<'a>(alloc: Global, name: &'a str, help: &'a str) -> Arg<'a>
    ensures reads { rule_of result ≡ words_rule name.entry.now }
    ensures local { result.global ≡ false }
{
    Arg::new(alloc, name)
        .required(true)
        .num_args(1..)
        .action(ArgAction::Append)
        .help(help)
}

fn any_words<'a>(alloc: Global, name: &'a str, help: &'a str) -> Arg<'a>
    ensures reads { rule_of result ≡ any_words_rule name.entry.now }
    ensures local { result.global ≡ false }
{
    Arg::new(alloc, name)
        .num_args(1..)
        .action(ArgAction::Append)
        .help(help)
}

fn flag<'a>(alloc: Global, name: &'a str, help: &'a str) -> Arg<'a>
    ensures reads { rule_of result ≡ flag_rule name.entry.now }
    ensures local { result.global ≡ false }
{
    Arg::new(alloc, name)
        .long(name)
        .action(ArgAction::SetTrue)
        .help(help)
}

fn option<'a>(alloc: Global, name: &'a str, value: &'a str, help: &'a str) -> Arg<'a>
    ensures reads { rule_of result ≡ option_rule name.entry.now }
    ensures local { result.global ≡ false }
{
    Arg::new(alloc, name)
        .long(name)
        .value_name(value)
        .action(ArgAction::Set)
        .help(help)
}

fn pair<'a>(alloc: Global, name: &'a str, values: &'a [&'a str; 2], help: &'a str) -> Arg<'a>
    ensures reads { rule_of result ≡ pair_rule name.entry.now }
    ensures local { result.global ≡ false }
{
    Arg::new(alloc, name)
        .long(name)
        .value_names(values)
        .action(ArgAction::Set)
        .help(help)
}

fn sequence<'a>(alloc: Global, name: &'a str, value: &'a str, help: &'a str) -> Arg<'a>
    ensures reads { rule_of result ≡ sequence_rule name.entry.now }
    ensures local { result.global ≡ false }
{
    Arg::new(alloc, name)
        .long(name)
        .value_name(value)
        .num_args(1..)
        .action(ArgAction::Append)
        .help(help)
}
