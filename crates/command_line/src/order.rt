//! What the words of a command line ask for.

ghost use Rattle.std.specs.Prelude.{◌≡◌, codes, map, option_map};
ghost use Rattle.clap.specs.Matches.{found_of};
ghost use Rattle.clap.specs.Simple.{subcommand_rows_of};
ghost use Rattle.clap.specs.Walk.{first_of, rows_of};
ghost use Rattle.command_line.specs.Meant.{inputs_meant, meant, replay_meant, run_meant, state_meant};
ghost use Rattle.command_line.specs.Orders as spec;
ghost use Rattle.command_words.specs.Found.{word_at, words_at};

use crate::form::Form;
use clap::ArgMatches;
use command_words::word;
use state_rows::Form as RowForm;

/// The files of a module: its table and its sources, and the file that its image is written to, if
/// one is.
#[derive(Clone, Copy)]
pub struct ModuleNames<'a> {
    pub table: &'a str,
    pub sources: &'a [&'a str],
    pub image: Option<&'a str>,
}

/// The words of `mb run`.
#[derive(Clone, Copy)]
pub struct RunWords<'a> {
    pub image: &'a str,
    pub devices: &'a str,
    pub ticks: &'a str,
    pub until: &'a [&'a str],
}

/// The words of `mb replay`: three names, and how many ticks are made.
#[derive(Clone, Copy)]
pub struct ReplayWords<'a> {
    pub image: &'a str,
    pub partition: &'a str,
    pub inputs: &'a str,
    pub ticks: &'a str,
}

/// The words of `mb inputs`: three names, and how many ticks are made.
#[derive(Clone, Copy)]
pub struct InputsWords<'a> {
    pub image: &'a str,
    pub partition: &'a str,
    pub devices: &'a str,
    pub ticks: &'a str,
}

/// The words of `mb state`: two names, the tick, which rows are wanted, and before which ticks.
#[derive(Clone, Copy)]
pub struct StateWords<'a> {
    pub image: &'a str,
    pub devices: &'a str,
    pub tick: &'a str,
    pub form: RowForm,
    pub partition: Option<&'a str>,
    pub every: Option<&'a str>,
    pub until: &'a [&'a str],
}

/// The words of `mb state` with sources: `image` is the name of the table.
#[derive(Clone, Copy)]
pub struct NamedStateWords<'a> {
    pub state: StateWords<'a>,
    pub sources: &'a [&'a str],
}

/// The words of a command, and the number in its word for ticks.
#[derive(Clone, Copy)]
pub struct Timed<W> {
    pub words: W,
    pub ticks: u64,
}

/// What the words ask for: a command with the words that were found for it.
#[derive(Clone, Copy)]
pub enum Order<'a> {
    /// The stored module is run.
    First,
    Check {
        names: ModuleNames<'a>,
    },
    Build {
        names: ModuleNames<'a>,
        image: &'a str,
    },
    Run {
        words: RunWords<'a>,
        is_watched: bool,
    },
    Replay {
        words: ReplayWords<'a>,
    },
    Inputs {
        words: InputsWords<'a>,
        is_watched: bool,
    },
    State {
        words: StateWords<'a>,
    },
    NamedState {
        words: NamedStateWords<'a>,
    },
    Cost {
        names: ModuleNames<'a>,
    },
    Dis {
        image: &'a str,
    },
    Upgrade {
        old: &'a str,
        new: &'a str,
    },
    Load {
        form: Form,
        names: ModuleNames<'a>,
    },
    Lint {
        names: ModuleNames<'a>,
    },
}

/// What the words ask for, if none of them is `-`.
pub fn order_by_name<'a, 'w: 'a>(matches: &'a ArgMatches<'w>) -> Order<'a>
    ensures { meant result ≡ spec.order_by_name (subcommand_rows_of matches.now) }
{
    match matches.subcommand() {
        Some((name, found)) => order_named(name, found),
        None => Order::First,
    }
}

/// What a command of this name asks for.
fn order_named<'a, 'w: 'a>(name: &str, found: &'a ArgMatches<'w>) -> Order<'a>
    ensures { meant result ≡ spec.order_named name.now (rows_of (found_of found.now)) }
{
    match name {
        "check" => Order::Check {
            names: module_names(found),
        },
        "build" => Order::Build {
            names: module_names(found),
            image: word(found, "IMAGE"),
        },
        "run" => Order::Run {
            words: run_words(found),
            is_watched: is_flagged(found, "progress"),
        },
        "replay" => Order::Replay {
            words: replay_words(found),
        },
        "inputs" => Order::Inputs {
            words: inputs_words(found),
            is_watched: is_flagged(found, "progress"),
        },
        "state" => state_order(found),
        "cost" => Order::Cost {
            names: module_names(found),
        },
        "dis" => Order::Dis {
            image: word(found, "IMAGE"),
        },
        "upgrade" => Order::Upgrade {
            old: word(found, "OLD"),
            new: word(found, "NEW"),
        },
        "load" => Order::Load {
            form: form_of(found),
            names: module_names(found),
        },
        "lint" => Order::Lint {
            names: module_names(found),
        },
        _ => Order::First,
    }
}

/// The files of a module that the words name.
fn module_names<'a, 'w: 'a>(found: &'a ArgMatches<'w>) -> ModuleNames<'a>
    ensures table { result.table.now ≡ word_at (codes "TABLE") (rows_of (found_of found.now)) }
    ensures sources { map (λ s. s.now) result.sources.now
        ≡ words_at (codes "SOURCE") (rows_of (found_of found.now)) }
{
    ModuleNames {
        table: word(found, "TABLE"),
        sources: words(found, "SOURCE"),
        image: found.get_str("IMAGE"),
    }
}

/// The words of `mb run`.
fn run_words<'a, 'w: 'a>(found: &'a ArgMatches<'w>) -> RunWords<'a>
    ensures { run_meant result ≡ spec.run_of (rows_of (found_of found.now)) }
{
    RunWords {
        image: word(found, "IMAGE"),
        devices: word(found, "DEVICES"),
        ticks: word(found, "TICKS"),
        until: words(found, "until"),
    }
}

/// The words of `mb replay`.
fn replay_words<'a, 'w: 'a>(found: &'a ArgMatches<'w>) -> ReplayWords<'a>
    ensures { replay_meant result ≡ spec.replay_of (rows_of (found_of found.now)) }
{
    ReplayWords {
        image: word(found, "IMAGE"),
        partition: word(found, "PARTITION"),
        inputs: word(found, "INPUTS"),
        ticks: word(found, "TICKS"),
    }
}

/// The words of `mb inputs`.
fn inputs_words<'a, 'w: 'a>(found: &'a ArgMatches<'w>) -> InputsWords<'a>
    ensures { inputs_meant result ≡ spec.inputs_of (rows_of (found_of found.now)) }
{
    InputsWords {
        image: word(found, "IMAGE"),
        partition: word(found, "PARTITION"),
        devices: word(found, "DEVICES"),
        ticks: word(found, "TICKS"),
    }
}

/// The words of `mb state`.
fn state_words<'a, 'w: 'a>(found: &'a ArgMatches<'w>) -> StateWords<'a>
    ensures { state_meant result ≡ spec.image_state_of (rows_of (found_of found.now)) }
{
    StateWords {
        image: word(found, "IMAGE"),
        devices: word(found, "DEVICES"),
        tick: word(found, "TICK"),
        form: row_form_of(found),
        partition: word_if_any(found, "partition"),
        every: word_if_any(found, "every"),
        until: words(found, "until"),
    }
}

/// What `mb state` asks for: the state of an image or, with sources, of a module with their names.
fn state_order<'a, 'w: 'a>(found: &'a ArgMatches<'w>) -> Order<'a>
    ensures { meant result ≡ spec.state_of (rows_of (found_of found.now)) }
{
    let state = state_words(found);
    let sources = words(found, "SOURCE");
    if is_flagged(found, "sources") || !sources.is_empty() {
        let words = NamedStateWords { state, sources };
        Order::NamedState { words }
    } else {
        Order::State { words: state }
    }
}

/// The word that was found for the option `name`, if there is one.
fn word_if_any<'a>(found: &ArgMatches<'a>, name: &str) -> Option<&'a str>
    ensures { option_map (λ s. s.now) result ≡ first_of name.now (rows_of (found_of found.now)) }
{
    found.get_str(name)
}

/// The words that were found for the argument `name`, or none if there are no such words.
fn words<'a, 'w: 'a>(found: &'a ArgMatches<'w>, name: &str) -> &'a [&'a str]
    ensures { map (λ s. s.now) result.now ≡ words_at name.now (rows_of (found_of found.now)) }
{
    found.get_strs(name).unwrap_or(&[])
}

/// Returns true if the flag `name` was found.
pub fn is_flagged(found: &ArgMatches<'_>, name: &str) -> bool
    ensures { result ≡ spec.is_flagged name.now (rows_of (found_of found.now)) }
{
    word(found, name).as_bytes() == b"true".as_slice()
}

/// How a load is to be shown.
fn form_of(found: &ArgMatches<'_>) -> Form
    ensures { result ≡ spec.form_of (rows_of (found_of found.now)) }
{
    if is_flagged(found, "svg") {
        Form::Picture
    } else if is_flagged(found, "csv") {
        Form::Rows
    } else {
        Form::Tables
    }
}

/// How the rows of a state are to be written.
fn row_form_of(found: &ArgMatches<'_>) -> RowForm
    ensures { result ≡ spec.row_form_of (rows_of (found_of found.now)) }
{
    if is_flagged(found, "json") {
        RowForm::Json
    } else {
        RowForm::Text
    }
}
