//! The words that the program takes.

ghost use Rattle.std.specs.Prelude.{◌≡◌, IfOk};
ghost use Rattle.clap.specs.Values.{kind_of};
ghost use Rattle.clap.specs.declared.error.kind.ErrorKind.TheVariants.{UnknownArgument, ValueValidation};
ghost use Rattle.command_words.specs.Grammar.{IsCommand};
ghost use Rattle.command_line.specs.Words.{mb_app};

use clap::error::ErrorKind;
use clap::{Command, Error};
use command_words::{Argument, CommandRow, ExitStatus, Page, Program};
use std::alloc::{AllocError, Global};

static PROGRAM: Program = Program {
    name: "mb",
    about: "Builds ARINC 653 modules and runs them; with --explain a refused command says why; without a command, runs a stored first module",
    example: "Example: mb build table.toml module.image a.pal b.pal\nManual: mb help --man | man -l -",
    wants_command: false,
    commands: &[
        CHECK, BUILD, RUN, REPLAY, INPUTS, STATE, COST, DIS, UPGRADE, LOAD, LINT,
    ],
    statuses: &[DONE, REFUSED, NO_COMMAND, FOUND],
};

const DONE: ExitStatus = ExitStatus {
    number: 0,
    meaning: "What was asked for is done, or help is written",
};

const REFUSED: ExitStatus = ExitStatus {
    number: 1,
    meaning: "It is refused, with one line on standard error",
};

const NO_COMMAND: ExitStatus = ExitStatus {
    number: 2,
    meaning: "The words are no command; a usage is on standard error",
};

const FOUND: ExitStatus = ExitStatus {
    number: 3,
    meaning: "lint has found something, or what run or state waits for with --until did not come",
};

const CHECK: CommandRow = CommandRow {
    name: "check",
    about: "Builds a module table and one source a partition, and writes no image",
    example: "Example: mb check table.toml a.pal b.pal",
    arguments: &[EXPLAIN, EXPLAIN_JSON, TABLE, SOURCES],
};

const BUILD: CommandRow = CommandRow {
    name: "build",
    about: "Builds an image of a module table and one source a partition, in their order",
    example: "Example: mb build table.toml module.image a.pal b.pal",
    arguments: &[
        EXPLAIN,
        EXPLAIN_JSON,
        TABLE,
        Argument::Word {
            name: "IMAGE",
            help: "The file that the image is written to",
        },
        SOURCES,
    ],
};

const RUN: CommandRow = CommandRow {
    name: "run",
    about: "Runs an image for so many ticks and writes its trace",
    example: "Example: mb run module.image devices.txt 1000",
    arguments: &[
        EXPLAIN,
        EXPLAIN_JSON,
        PROGRESS,
        Argument::Sequence {
            name: "until",
            value: "WORD",
            help: "Ends the run with the first tick that has a line with these words, `_` for any one",
        },
        IMAGE,
        DEVICES,
        TICKS,
    ],
};

const REPLAY: CommandRow = CommandRow {
    name: "replay",
    about: "Runs one partition of an image alone, with its inputs, and writes its trace",
    example: "Example: mb replay module.image b inputs.txt 1000",
    arguments: &[
        EXPLAIN,
        EXPLAIN_JSON,
        IMAGE,
        PARTITION,
        Argument::Word {
            name: "INPUTS",
            help: "The file of the replay text, which may be empty",
        },
        Argument::Word {
            name: "TICKS",
            help: "How many ticks the partition runs, at most 1099511627776",
        },
    ],
};

const INPUTS: CommandRow = CommandRow {
    name: "inputs",
    about: "Runs an image and writes what comes to one partition, as a replay text",
    example: "Example: mb inputs module.image b devices.txt 1000",
    arguments: &[
        EXPLAIN,
        EXPLAIN_JSON,
        PROGRESS,
        IMAGE,
        PARTITION,
        DEVICES,
        TICKS,
    ],
};

const STATE: CommandRow = CommandRow {
    name: "state",
    about: "Runs an image and writes the state of its module before a tick, a row a thing",
    example: "Example: mb state --partition b module.image devices.txt 150",
    arguments: &[
        EXPLAIN,
        EXPLAIN_JSON,
        Argument::Flag {
            name: "json",
            help: "Writes each row as a JSON object",
        },
        Argument::Option {
            name: "partition",
            value: "PARTITION",
            help: "Writes only the rows of the module and of this partition",
        },
        Argument::Option {
            name: "every",
            value: "K",
            help: "Writes the states before the ticks 0, K, 2K and so on, up to TICK",
        },
        Argument::Sequence {
            name: "until",
            value: "WORD",
            help: "Writes the first state with a row that begins with these words, `_` for any one, `..` for any",
        },
        Argument::Flag {
            name: "sources",
            help: "IMAGE is a module table: builds it with the sources, and writes their names, too",
        },
        IMAGE,
        DEVICES,
        Argument::Word {
            name: "TICK",
            help: "The tick before which the state is shown, or the last one, at most 1099511627776",
        },
        ANY_SOURCES,
    ],
};

const COST: CommandRow = CommandRow {
    name: "cost",
    about: "Writes the instructions, the frame and the cost of each body of the sources",
    example: "Example: mb cost table.toml a.pal b.pal",
    arguments: &[EXPLAIN, EXPLAIN_JSON, TABLE, SOURCES],
};

const DIS: CommandRow = CommandRow {
    name: "dis",
    about: "Writes the instructions of an image",
    example: "Example: mb dis module.image",
    arguments: &[EXPLAIN, EXPLAIN_JSON, IMAGE],
};

const UPGRADE: CommandRow = CommandRow {
    name: "upgrade",
    about: "Writes an image again as one of the newest version, which runs as before",
    example: "Example: mb upgrade old.image new.image",
    arguments: &[
        EXPLAIN,
        EXPLAIN_JSON,
        Argument::Word {
            name: "OLD",
            help: "The file of an image of any version",
        },
        Argument::Word {
            name: "NEW",
            help: "The file that the upgraded image is written to",
        },
    ],
};

const LOAD: CommandRow = CommandRow {
    name: "load",
    about: "Writes whose the ticks of the frame are, and with sources what each body costs",
    example: "Example: mb load table.toml a.pal b.pal",
    arguments: &[
        EXPLAIN,
        EXPLAIN_JSON,
        Argument::Flag {
            name: "csv",
            help: "Writes one table of comma-separated values",
        },
        Argument::Flag {
            name: "svg",
            help: "Writes a picture of the frame",
        },
        TABLE,
        ANY_SOURCES,
    ],
};

const LINT: CommandRow = CommandRow {
    name: "lint",
    about: "Writes what of a module is accepted and probably not meant, a line each",
    example: "Example: mb lint table.toml a.pal b.pal",
    arguments: &[EXPLAIN, EXPLAIN_JSON, TABLE, SOURCES],
};

const EXPLAIN: Argument = Argument::Flag {
    name: "explain",
    help: "Explains a refusal in plain words",
};

const EXPLAIN_JSON: Argument = Argument::Flag {
    name: "explain-json",
    help: "The same as --explain=json: explains it in JSON objects, for editors",
};

const PROGRESS: Argument = Argument::Flag {
    name: "progress",
    help: "Tells once a second on standard error how far the run is",
};

const TABLE: Argument = Argument::Word {
    name: "TABLE",
    help: "The file of the module table",
};

const SOURCES: Argument = Argument::Words {
    name: "SOURCE",
    help: "The file of each partition's source, in the order of the table",
};

const ANY_SOURCES: Argument = Argument::AnyWords {
    name: "SOURCE",
    help: "The file of each partition's source, in the order of the table",
};

const IMAGE: Argument = Argument::Word {
    name: "IMAGE",
    help: "The file of an image",
};

const PARTITION: Argument = Argument::Word {
    name: "PARTITION",
    help: "The name of the partition",
};

const DEVICES: Argument = Argument::Word {
    name: "DEVICES",
    help: "The file of the device text, which may be empty",
};

const TICKS: Argument = Argument::Word {
    name: "TICKS",
    help: "How many ticks the image runs, at most 1099511627776",
};

/// The commands and their arguments.
pub fn grammar<'a>(alloc: Global) -> Result<Command<'a>, AllocError>
    ensures { IfOk result (λ command. IsCommand command mb_app) }
{
    PROGRAM.grammar(alloc)
}

/// The text of a page of the program's own words.
pub fn page_text(alloc: Global, page: Page) -> Result<String, AllocError> {
    PROGRAM.page(alloc, page)
}

/// The usage error of a word that is no number of ticks, of the command of that name.
pub fn bad_ticks(alloc: Global, name: &str, word: &str) -> Result<Error, AllocError>
    ensures { IfOk result (λ error. kind_of error ≡ ValueValidation) }
{
    bad_number(alloc, name, "TICKS", word)
}

/// The usage error of a word that is no tick, of the command that shows a state.
pub fn bad_tick(alloc: Global, word: &str) -> Result<Error, AllocError>
    ensures { IfOk result (λ error. kind_of error ≡ ValueValidation) }
{
    bad_number(alloc, "state", "TICK", word)
}

/// The usage error of a word that is no number of ticks between states.
pub fn bad_spacing(alloc: Global, word: &str) -> Result<Error, AllocError>
    ensures { IfOk result (λ error. kind_of error ≡ ValueValidation) }
{
    let message = format!(in alloc;
        "invalid value '{word}' for '--every <K>': one or more digits, 1 to 1099511627776, without --until"
    )?;
    PROGRAM.usage_error(alloc, "state", message.as_str())
}

/// The usage error of ticks between states, or of words of a row, where sources are given.
pub fn bad_moments(alloc: Global) -> Result<Error, AllocError>
    ensures { IfOk result (λ error. kind_of error ≡ ValueValidation) }
{
    PROGRAM.usage_error(
        alloc,
        "state",
        "'--every <K>' and '--until <WORD>...' are for an IMAGE, without sources",
    )
}

/// The usage error of a word for an argument that is no number.
fn bad_number(alloc: Global, name: &str, argument: &str, word: &str) -> Result<Error, AllocError>
    ensures { IfOk result (λ error. kind_of error ≡ ValueValidation) }
{
    let message = number_message(alloc, argument, word)?;
    PROGRAM.usage_error(alloc, name, message.as_str())
}

/// The same for a number with a sign, which the library takes for an option.
pub fn signed_number(
    alloc: Global,
    name: &str,
    argument: &str,
    word: &str,
) -> Result<Error, AllocError>
    ensures { IfOk result (λ error. kind_of error ≡ UnknownArgument) }
{
    let message = number_message(alloc, argument, word)?;
    PROGRAM.usage_error_of(alloc, ErrorKind::UnknownArgument, name, message.as_str())
}

fn number_message(alloc: Global, argument: &str, word: &str) -> Result<String, AllocError> {
    format!(in alloc;
        "invalid value '{word}' for '<{argument}>': one or more digits, at most 1099511627776"
    )
}

/// The usage error of a word that is `-`, of the command of that name.
pub fn lone_dash(alloc: Global, name: &str) -> Result<Error, AllocError>
    ensures { IfOk result (λ error. kind_of error ≡ ValueValidation) }
{
    let message = "unexpected argument '-' found\n\n  \
        tip: the standard input is '/dev/stdin', and a file with the name '-' is './-'";
    PROGRAM.usage_error(alloc, name, message)
}
