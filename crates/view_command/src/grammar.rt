//! The words that the program takes.

ghost use Rattle.std.specs.Prelude.{◌≡◌, IfOk};
ghost use Rattle.clap.specs.Values.{kind_of};
ghost use Rattle.clap.specs.declared.error.kind.ErrorKind.TheVariants.{MissingSubcommand, ValueValidation};
ghost use Rattle.command_words.specs.Grammar.{IsCommand};
ghost use Rattle.view_command.specs.Words.{view_app};

use clap::error::ErrorKind;
use clap::{Command, Error};
use command_words::{Argument, CommandRow, ExitStatus, Page, Program};
use std::alloc::{AllocError, Global};

static PROGRAM: Program = Program {
    name: "mbview",
    about: "Shows the trace of a run: what the partitions and their processes did, and when",
    example: "Example: mbview summary trace.txt\nManual: mbview help --man | man -l -",
    wants_command: true,
    commands: &[SUMMARY, COMPARE, SVG, VCD, LIST, CHECK, DIFF, HTML],
    statuses: &[SHOWN, REFUSED, NO_COMMAND, FOUND],
};

const SHOWN: ExitStatus = ExitStatus {
    number: 0,
    meaning: "The trace is shown, or help is written",
};

const REFUSED: ExitStatus = ExitStatus {
    number: 1,
    meaning: "The trace is refused, with one line on standard error",
};

const NO_COMMAND: ExitStatus = ExitStatus {
    number: 2,
    meaning: "The words are no command; a usage is on standard error",
};

const FOUND: ExitStatus = ExitStatus {
    number: 3,
    meaning: "diff has found a difference, or check a line that is not allowed",
};

const SUMMARY: CommandRow = CommandRow {
    name: "summary",
    about: "Writes a table of what each partition and each process did",
    example: "Example: mbview summary trace.txt --from 1000 --to 2000 --table table.toml",
    arguments: &[
        TRACE,
        FROM,
        TO,
        PARTITION,
        PROCESS,
        KIND,
        PORT,
        KNOWN,
        TICKS,
        Argument::Option {
            name: "table",
            value: "TABLE",
            help: "The module table: shows which process worked in each tick, by the windows",
        },
        Argument::Flag {
            name: "csv",
            help: "Writes the table as comma-separated values",
        },
    ],
};

const COMPARE: CommandRow = CommandRow {
    name: "compare",
    about: "Writes the summaries of two traces side by side: the numbers that differ come first",
    example: "Example: mbview compare trace.txt other_trace.txt --partition a",
    arguments: &[
        TRACE,
        OTHER,
        FROM,
        TO,
        PARTITION,
        PROCESS,
        KIND,
        PORT,
        KNOWN,
        TICKS,
        NAMES,
        Argument::Flag {
            name: "csv",
            help: "Writes the numbers as comma-separated values",
        },
    ],
};

const SVG: CommandRow = CommandRow {
    name: "svg",
    about: "Writes a picture of the trace, an SVG",
    example: "Example: mbview svg trace.txt --from 0 --to 500 --table table.toml",
    arguments: &[
        TRACE,
        FROM,
        TO,
        PARTITION,
        PROCESS,
        KIND,
        PORT,
        KNOWN,
        TICKS,
        Argument::Option {
            name: "table",
            value: "TABLE",
            help: "The module table: draws its windows, and what is chosen outside of them",
        },
        Argument::Option {
            name: "width",
            value: "PIXELS",
            help: "The width of the picture, from 1200 to 30000 pixels; 1200 without this word",
        },
    ],
};

const VCD: CommandRow = CommandRow {
    name: "vcd",
    about: "Writes a value change dump of the trace, for a viewer of waves",
    example: "Example: mb run module.image devices.txt 1000 | mbview vcd - --table table.toml",
    arguments: &[
        TRACE,
        FROM,
        TO,
        PARTITION,
        PROCESS,
        KIND,
        PORT,
        KNOWN,
        TICKS,
        Argument::Option {
            name: "table",
            value: "TABLE",
            help: "The module table: adds a wire for the windows of each partition",
        },
        Argument::Flag {
            name: "gtkw",
            help: "Writes a saved view of the dump for GTKWave instead of the dump",
        },
    ],
};

const LIST: CommandRow = CommandRow {
    name: "list",
    about: "Writes the lines of the trace that have all that is asked for, as they stand",
    example: "Example: mbview list trace.txt --partition a --kind STATE,HM",
    arguments: &[
        TRACE, FROM, TO, PARTITION, PROCESS, KIND, PORT, KNOWN, NAMES,
    ],
};

const CHECK: CommandRow = CommandRow {
    name: "check",
    about: "Writes the first line that the trace may not have; the exit status is 3 then",
    example: "Example: mbview check trace.txt --no HM,LOST --at-most REPORT 3 --missed 0",
    arguments: &[
        TRACE,
        FROM,
        TO,
        PARTITION,
        Argument::Option {
            name: "no",
            value: "KIND[,KIND]",
            help: "There may be no lines of these kinds",
        },
        Argument::Pair {
            name: "at-most",
            values: &["KIND[,KIND]", "NUMBER"],
            help: "There may be so many lines of these kinds together",
        },
        Argument::Option {
            name: "missed",
            value: "NUMBER",
            help: "There may be so many lines of missed deadlines",
        },
        NAMES,
    ],
};

const DIFF: CommandRow = CommandRow {
    name: "diff",
    about: "Writes where two traces differ first, each partition for itself; the exit status is 3 then",
    example: "Example: mbview diff trace.txt other_trace.txt --partition a",
    arguments: &[TRACE, OTHER, PARTITION, NAMES],
};

const HTML: CommandRow = CommandRow {
    name: "html",
    about: "Writes a page for a browser, in which one can look around in the trace",
    example: "Example: mbview html trace.txt --table table.toml > trace.html",
    arguments: &[
        TRACE,
        PARTITION,
        PROCESS,
        KIND,
        PORT,
        KNOWN,
        TICKS,
        Argument::Option {
            name: "table",
            value: "TABLE",
            help: "The module table: shows its windows",
        },
        Argument::Option {
            name: "state",
            value: "FILE",
            help: "What `mb state --json` wrote: shows the last state up to the chosen tick",
        },
    ],
};

const TRACE: Argument = Argument::Word {
    name: "TRACE",
    help: "The file of a trace, or - for the standard input",
};

const OTHER: Argument = Argument::Word {
    name: "OTHER",
    help: "The file of the other trace",
};

const FROM: Argument = Argument::Option {
    name: "from",
    value: "TICK",
    help: "The first tick that is shown; 0 without this word",
};

const TO: Argument = Argument::Option {
    name: "to",
    value: "TICK",
    help: "The tick before which it ends; without this word it ends behind the last line",
};

const PARTITION: Argument = Argument::Option {
    name: "partition",
    value: "NAME",
    help: "Only lines of this partition; - stands for the module itself",
};

const PROCESS: Argument = Argument::Option {
    name: "process",
    value: "NAME",
    help: "Only lines of this process, of INIT or of HANDLER",
};

const KIND: Argument = Argument::Option {
    name: "kind",
    value: "KIND[,KIND]",
    help: "Only lines of these kinds: STATE, RET, MODE, HM, REPORT, MOVE, ARRIVE, LOST, OUT",
};

const PORT: Argument = Argument::Option {
    name: "port",
    value: "NAME",
    help: "Only lines of messages at this port, or by this channel",
};

const KNOWN: Argument = Argument::Flag {
    name: "known",
    help: "Refuses a process without a line, also where its name is like no other",
};

const NAMES: Argument = Argument::Option {
    name: "table",
    value: "TABLE",
    help: "The module table: its partitions, ports and channels are names too",
};

const TICKS: Argument = Argument::Option {
    name: "ticks",
    value: "TICKS",
    help: "For how many ticks the module ran: it ends there, and no line is later",
};

/// The commands and their arguments.
pub fn grammar<'a>(alloc: Global) -> Result<Command<'a>, AllocError>
    ensures { IfOk result (λ command. IsCommand command view_app) }
{
    PROGRAM.grammar(alloc)
}

/// The text of a page of the program's own words.
pub fn page_text(alloc: Global, page: Page) -> Result<String, AllocError> {
    PROGRAM.page(alloc, page)
}

/// The usage error of a word that an option of the command of that name does not take.
pub fn bad_value(
    alloc: Global,
    command: &str,
    option: &str,
    value: &str,
    word: &str,
) -> Result<Error, AllocError>
    ensures { IfOk result (λ error. kind_of error ≡ ValueValidation) }
{
    let wanted = wanted(value);
    let message = format!(in alloc; "invalid value '{word}' for '--{option} <{value}>': {wanted}")?;
    PROGRAM.usage_error(alloc, command, message.as_str())
}

/// What a value has to be.
fn wanted(value: &str) -> &'static str {
    match value {
        "TICKS" => "one or more digits, at most 1099511627776",
        "PIXELS" => "a number from 1200 to 30000",
        "KIND[,KIND]" => "of STATE, RET, MODE, HM, REPORT, MOVE, ARRIVE, LOST and OUT",
        _ => "one or more digits",
    }
}

/// The usage error of two ticks that have no tick between them: that of `--from`, and the end that
/// another option gives.
pub fn no_ticks(
    alloc: Global,
    command: &str,
    from: u64,
    end: u64,
    option: &str,
) -> Result<Error, AllocError>
    ensures { IfOk result (λ error. kind_of error ≡ ValueValidation) }
{
    let message = format!(in alloc;
        "there is no tick from {from} on before {end}: '--from' has to be below '--{option}'"
    )?;
    PROGRAM.usage_error(alloc, command, message.as_str())
}

/// The usage error of two traces that are both the standard input, for the command of that name.
pub fn one_input(alloc: Global, command: &str) -> Result<Error, AllocError>
    ensures { IfOk result (λ error. kind_of error ≡ ValueValidation) }
{
    let message = "only one of the two traces may be '-', the standard input";
    PROGRAM.usage_error(alloc, command, message)
}

/// The error of words without a command.
pub fn no_command(alloc: Global) -> Result<Error, AllocError>
    ensures { IfOk result (λ error. kind_of error ≡ MissingSubcommand) }
{
    grammar(alloc)?.error(ErrorKind::MissingSubcommand, "there is no command")
}
