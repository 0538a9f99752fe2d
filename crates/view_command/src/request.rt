//! The request in the words of a command line.

ghost use Rattle.std.specs.Prelude.{◌≡◌, None, [], map, IfErr, IfOk, OnOk};
ghost use Rattle.clap.specs.Faults.{fault_of};
ghost use Rattle.clap.specs.Matches.{found_of};
ghost use Rattle.clap.specs.Simple.{subcommand_of, subcommand_rows_of};
ghost use Rattle.clap.specs.Walk.{rows_of};
ghost use Rattle.view_command.specs.Answers.{IsFailureOfWords, IsInputFailure, IsNothingAsked, IsWordsFailure};
ghost use Rattle.view_command.specs.Orders.{AreBothShown, IsCompared, IsDumped, IsNoView, IsRequest, IsShown};
ghost use Rattle.view_command.specs.Words.{view_app};

use crate::comparing::Pair;
use crate::grammar::{grammar, no_command, one_input};
use crate::options::{checked, chosen, named, text, ticks, width};
use crate::refusal::Refusal;
use crate::side_by_side::Both;
use crate::views::{Form, Layout, View};
use apex_types::Ticks;
use clap::ArgMatches;
use command_words::{Failure, word};
use std::alloc::Global;
use std::convert::AsStr;
use trace_lines::Filter;

/// What the words ask for.
#[derive(Drop)]
pub enum Request {
    /// A trace is shown, in this way.
    Show(View, Showing),
    /// A trace is shown as waves.
    Dump(Showing),
    /// Two traces are compared.
    Compare(Pair),
    /// The summaries of two traces are shown side by side.
    Summaries(Both),
}

/// The trace to show, and what of it.
#[derive(Drop)]
pub struct Showing {
    /// The name of the trace.
    pub trace: String,
    /// The name of the module table, by whose windows ticks are counted, if one is asked for.
    pub table: Option<String>,
    /// The name of the text of states, if a page shows them.
    pub states: Option<String>,
    /// The first tick that is shown.
    pub from: Ticks,
    /// The tick before which it ends, if it is not the end of the trace.
    pub to: Option<Ticks>,
    /// For how many ticks the module ran, if that is given.
    pub ran: Option<Ticks>,
    /// What lines have to name, so that the view reads them.
    pub kept: Filter,
    /// Whether a process without a line is refused, also where its name is like no other.
    pub is_strict: bool,
}

/// The request in the words.
pub fn request_of<S: AsStr>(alloc: Global, words: &[S]) -> Result<Request, Failure<Refusal>>
    ensures command { OnOk result (fault_of view_app (map S.text words.now) ≡ []) }
    ensures request { IfOk result
        (IsRequest (subcommand_of view_app (map S.text words.now))) }
    ensures failed { IfErr result
        (λ f. IsFailureOfWords (fault_of view_app (map S.text words.now))
        (subcommand_of view_app (map S.text words.now)) f) }
{
    let matches = grammar(alloc)?.try_get_matches_from(words)?;
    requested(alloc, &matches)
}

/// The request in the arguments found in the words.
fn requested(alloc: Global, matches: &ArgMatches<'_>) -> Result<Request, Failure<Refusal>>
    ensures request { IfOk result (IsRequest (subcommand_rows_of matches.now)) }
    ensures failed { IfErr result (λ f. IsNothingAsked (subcommand_rows_of matches.now) f) }
{
    match matches.subcommand() {
        Some(("diff", found)) => compared(alloc, found),
        Some(("compare", found)) => both_shown(alloc, found),
        Some(("vcd", found)) => dumped(alloc, found),
        Some((command, found)) => match view_of(alloc, command, found)? {
            Some(view) => Ok(Request::Show(view, showing_in(alloc, command, found)?)),
            None => Err(Failure::Usage(no_command(alloc)?)),
        },
        None => Err(Failure::Usage(no_command(alloc)?)),
    }
}

/// The view of the command of this name, if it is one that shows a trace.
fn view_of(
    alloc: Global,
    command: &str,
    found: &ArgMatches<'_>,
) -> Result<Option<View>, Failure<Refusal>>
    ensures other { IfOk result (λ view. view ≡ None → IsNoView command.now) }
    ensures failed { IfErr result (λ f. IsWordsFailure (rows_of (found_of found.now)) f) }
{
    let view = match command {
        "summary" => View::Summary(form_of(found)),
        "svg" => View::Picture(width(alloc, command, found)?),
        "html" => View::Lines(Layout::Page(None)),
        "list" => View::Lines(Layout::Listed(chosen(alloc, command, found)?)),
        "check" => View::Lines(checked(alloc, command, found)?),
        _ => return Ok(None),
    };
    Ok(Some(view))
}

/// A dump, or a saved view of it.
fn dumped(alloc: Global, found: &ArgMatches<'_>) -> Result<Request, Failure<Refusal>>
    ensures request { IfOk result (IsDumped (rows_of (found_of found.now))) }
    ensures failed { IfErr result (λ f. IsWordsFailure (rows_of (found_of found.now)) f) }
{
    let showing = showing_in(alloc, "vcd", found)?;
    if word(found, "gtkw") == "true" {
        Ok(Request::Show(View::Lines(Layout::Saved), showing))
    } else {
        Ok(Request::Dump(showing))
    }
}

/// How a summary is written.
fn form_of(found: &ArgMatches<'_>) -> Form {
    if word(found, "csv") == "true" {
        Form::Rows
    } else {
        Form::Table
    }
}

/// The trace and the ticks that were found.
fn showing_in(
    alloc: Global,
    command: &str,
    found: &ArgMatches<'_>,
) -> Result<Showing, Failure<Refusal>>
    ensures request { IfOk result (IsShown (rows_of (found_of found.now))) }
    ensures failed { IfErr result (λ f. IsWordsFailure (rows_of (found_of found.now)) f) }
{
    let trace = String::from_str(alloc, word(found, "TRACE"))?;
    let table = text(alloc, found, "table")?;
    let asked = ticks(alloc, command, found)?;
    let kept = named(alloc, command, found)?;
    let states = text(alloc, found, "state")?;
    Ok(Showing {
        trace,
        table,
        from: asked.from,
        to: asked.to,
        ran: asked.ran,
        kept,
        states,
        is_strict: word(found, "known") == "true",
    })
}

/// Checks that not both traces are the standard input, which is read once.
fn check_inputs(
    alloc: Global,
    command: &str,
    first: &str,
    second: &str,
) -> Result<(), Failure<Refusal>>
    ensures { IfErr result (λ f. IsInputFailure first.now second.now f) }
{
    if first == "-" && second == "-" {
        return Err(Failure::Usage(one_input(alloc, command)?));
    }
    Ok(())
}

/// The traces that were found.
fn compared(alloc: Global, found: &ArgMatches<'_>) -> Result<Request, Failure<Refusal>>
    ensures request { IfOk result (IsCompared (rows_of (found_of found.now))) }
    ensures failed { IfErr result (λ f. IsWordsFailure (rows_of (found_of found.now)) f) }
{
    let (first, second) = (word(found, "TRACE"), word(found, "OTHER"));
    check_inputs(alloc, "diff", first, second)?;
    Ok(Request::Compare(Pair {
        first: String::from_str(alloc, first)?,
        second: String::from_str(alloc, second)?,
        partition: text(alloc, found, "partition")?,
        table: text(alloc, found, "table")?,
    }))
}

/// The two traces that were found, and what of them is summed up.
fn both_shown(alloc: Global, found: &ArgMatches<'_>) -> Result<Request, Failure<Refusal>>
    ensures request { IfOk result (AreBothShown (rows_of (found_of found.now))) }
    ensures failed { IfErr result (λ f. IsWordsFailure (rows_of (found_of found.now)) f) }
{
    let showing = showing_in(alloc, "compare", found)?;
    let (first, second) = (word(found, "TRACE"), word(found, "OTHER"));
    check_inputs(alloc, "compare", first, second)?;
    Ok(Request::Summaries(Both {
        showing,
        other: String::from_str(alloc, second)?,
        form: form_of(found),
    }))
}
