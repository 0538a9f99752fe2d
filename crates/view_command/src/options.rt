//! The options that were found in the words.

ghost use Rattle.std.specs.Prelude.{◌≡◌, ◌↔◌, ◌∷◌, [], IfErr, IfOk, IsTrue, codes, map, option_map};
ghost use Rattle.clap.specs.Matches.{found_of};
ghost use Rattle.clap.specs.Walk.{first_of, rows_of};
ghost use Rattle.command_words.specs.Found.{words_at};
ghost use Rattle.command_words.specs.Numbers.{number_in};
ghost use Rattle.view_command.specs.Answers.{IsEndFailure, IsKindFailure, IsLimitFailure, IsRunFailure, IsTickFailure, IsWidthFailure, IsWordsFailure};
ghost use Rattle.view_command.specs.Orders.{AreKindsIn, AreNamesIn, AreTicksIn, IsBeyond, IsTickOf, asked_text, end_of, from_in, number_of, ran_in, width_in};

use crate::grammar::{bad_value, no_ticks};
use crate::refusal::Refusal;
use crate::views::Layout;
use apex_types::Ticks;
use apex_types::limits::MOST_TICKS;
use clap::ArgMatches;
use command_words::{Failure, number_of};
use std::alloc::{AllocError, Global};
use trace_lines::{Counted, Filter, Kinds, Limit, Limits};
use trace_picture::Width;

/// The ticks that are asked for.
#[derive(Clone, Copy)]
pub struct AskedTicks {
    /// The first one.
    pub from: Ticks,
    /// That before which they end, if one is given.
    pub to: Option<Ticks>,
    /// For how many ticks the module ran, if that is given.
    pub ran: Option<Ticks>,
}

/// The ticks that are asked for. They end with the run, if they would end later.
pub fn ticks(
    alloc: Global,
    command: &str,
    found: &ArgMatches<'_>,
) -> Result<AskedTicks, Failure<Refusal>>
    ensures ticks { IfOk result (λ t. AreTicksIn (rows_of (found_of found.now)) t.from t.to t.ran) }
    ensures failed { IfErr result (λ f. IsWordsFailure (rows_of (found_of found.now)) f) }
{
    let from = first_tick(alloc, command, found)?;
    let to = number(alloc, command, found, "to", "TICK")?;
    let ran = run_ticks(alloc, command, found)?;
    check_end(alloc, command, from, to, "to")?;
    check_end(alloc, command, from, ran, "ticks")?;
    Ok(AskedTicks {
        from: Ticks(from),
        to: as_ticks(earlier(to, ran)),
        ran: as_ticks(ran),
    })
}

fn as_ticks(number: Option<u64>) -> Option<Ticks>
    ensures { number_of result ≡ number }
{
    match number {
        Some(number) => Some(Ticks(number)),
        None => None,
    }
}

/// The first tick that is shown.
fn first_tick(alloc: Global, command: &str, found: &ArgMatches<'_>) -> Result<u64, Failure<Refusal>>
    ensures tick { IfOk result
        (λ t. t ≡ from_in (first_of (codes "from") (rows_of (found_of found.now)))) }
    ensures failed { IfErr result
        (λ f. IsTickFailure (first_of (codes "from") (rows_of (found_of found.now))) f) }
{
    Ok(number(alloc, command, found, "from", "TICK")?.unwrap_or(0))
}

/// For how many ticks the module ran, if that is given.
fn run_ticks(
    alloc: Global,
    command: &str,
    found: &ArgMatches<'_>,
) -> Result<Option<u64>, Failure<Refusal>>
    ensures ticks { IfOk result (λ t. t ≡ ran_in (rows_of (found_of found.now))) }
    ensures failed { IfErr result
        (λ f. IsRunFailure (first_of (codes "ticks") (rows_of (found_of found.now))) f) }
{
    let ticks = number(alloc, command, found, "ticks", "TICKS")?;
    if is_beyond(ticks) {
        let word = found.get_str("ticks").unwrap_or("");
        return Err(Failure::Usage(bad_value(alloc, command, "ticks", "TICKS", word)?));
    }
    Ok(ticks)
}

/// Returns true if no module runs for `ticks` ticks.
fn is_beyond(ticks: Option<u64>) -> bool
    ensures { IsTrue result ↔ IsBeyond ticks }
{
    match ticks {
        Some(ticks) => MOST_TICKS < ticks,
        None => false,
    }
}

/// The width of a picture.
pub fn width(
    alloc: Global,
    command: &str,
    found: &ArgMatches<'_>,
) -> Result<Width, Failure<Refusal>>
    ensures width { IfOk result
        (λ w. w.pixels ≡ width_in (first_of (codes "width") (rows_of (found_of found.now)))) }
    ensures failed { IfErr result
        (λ f. IsWidthFailure (first_of (codes "width") (rows_of (found_of found.now))) f) }
{
    let Some(pixels) = number(alloc, command, found, "width", "PIXELS")? else {
        return Ok(Width::usual());
    };
    match Width::new(pixels) {
        Some(width) => Ok(width),
        None => {
            let word = found.get_str("width").unwrap_or("");
            Err(Failure::Usage(bad_value(alloc, command, "width", "PIXELS", word)?))
        }
    }
}

/// Checks that there is a tick from the first one on and before the end that this option gives.
fn check_end(
    alloc: Global,
    command: &str,
    from: u64,
    end: Option<u64>,
    option: &str,
) -> Result<(), Failure<Refusal>>
    ensures { IfErr result (λ f. IsEndFailure from end f) }
{
    if let Some(end) = end {
        if end <= from {
            return Err(Failure::Usage(no_ticks(alloc, command, from, end, option)?));
        }
    }
    Ok(())
}

/// The earlier of two ends, each of which may be left out.
fn earlier(to: Option<u64>, ran: Option<u64>) -> Option<u64>
    ensures { result ≡ end_of to ran }
{
    match (to, ran) {
        (Some(to), Some(ran)) => Some(to.min(ran)),
        (Some(end), None) | (None, Some(end)) => Some(end),
        (None, None) => None,
    }
}

/// The filter of lines that is asked for, with its ticks.
pub fn chosen(
    alloc: Global,
    command: &str,
    found: &ArgMatches<'_>,
) -> Result<Filter, Failure<Refusal>>
    ensures { IfErr result (λ f. IsWordsFailure (rows_of (found_of found.now)) f) }
{
    let asked = ticks(alloc, command, found)?;
    filter(alloc, command, found, asked.from, asked.to)
}

/// The filter of what lines name, in any tick.
pub fn named(
    alloc: Global,
    command: &str,
    found: &ArgMatches<'_>,
) -> Result<Filter, Failure<Refusal>>
    ensures names { IfOk result (λ f. AreNamesIn (rows_of (found_of found.now)) f) }
    ensures failed { IfErr result (λ f. IsWordsFailure (rows_of (found_of found.now)) f) }
{
    filter(alloc, command, found, Ticks(0), None)
}

/// The filter of what lines name, in these ticks.
fn filter(
    alloc: Global,
    command: &str,
    found: &ArgMatches<'_>,
    from: Ticks,
    to: Option<Ticks>,
) -> Result<Filter, Failure<Refusal>>
    ensures names { IfOk result (λ f. AreNamesIn (rows_of (found_of found.now)) f) }
    ensures failed { IfErr result (λ f. IsWordsFailure (rows_of (found_of found.now)) f) }
{
    let kinds = kinds(alloc, command, found, "kind")?;
    Ok(Filter {
        from,
        to,
        kinds,
        partition: text(alloc, found, "partition")?,
        process: text(alloc, found, "process")?,
        port: text(alloc, found, "port")?,
    })
}

/// The limits that are asked for, and the lines that they count.
pub fn checked(
    alloc: Global,
    command: &str,
    found: &ArgMatches<'_>,
) -> Result<Layout, Failure<Refusal>>
    ensures { IfErr result (λ f. IsWordsFailure (rows_of (found_of found.now)) f) }
{
    let filter = chosen(alloc, command, found)?;
    let no = kinds(alloc, command, found, "no")?.map(|kinds| Limit::new(Counted::Kinds(kinds), 0));
    let at_most = limit(alloc, command, found)?;
    let missed = number(alloc, command, found, "missed", "NUMBER")?.map(|most| Limit::new(
        Counted::MissedDeadlines,
        most,
    ));
    Ok(Layout::Check(
        filter,
        Limits {
            no,
            at_most,
            missed,
        },
    ))
}

/// The number of an option, if it is there.
fn number(
    alloc: Global,
    command: &str,
    found: &ArgMatches<'_>,
    option: &str,
    value: &str,
) -> Result<Option<u64>, Failure<Refusal>>
    ensures read { IfOk result
        (λ t. IsTickOf (first_of option.now (rows_of (found_of found.now))) t) }
    ensures value { IfOk result
        (λ t. t ≡ option_map number_in (first_of option.now (rows_of (found_of found.now)))) }
    ensures failed { IfErr result
        (λ f. IsTickFailure (first_of option.now (rows_of (found_of found.now))) f) }
{
    let Some(word) = found.get_str(option) else {
        return Ok(None);
    };
    match number_of(word) {
        Some(number) => Ok(Some(number)),
        None => Err(Failure::Usage(bad_value(alloc, command, option, value, word)?)),
    }
}

/// The kinds of an option, if it is there.
fn kinds(
    alloc: Global,
    command: &str,
    found: &ArgMatches<'_>,
    option: &str,
) -> Result<Option<Kinds>, Failure<Refusal>>
    ensures kinds { IfOk result
        (λ k. AreKindsIn (first_of option.now (rows_of (found_of found.now))) k) }
    ensures failed { IfErr result
        (λ f. IsKindFailure (first_of option.now (rows_of (found_of found.now))) f) }
{
    let Some(word) = found.get_str(option) else {
        return Ok(None);
    };
    match Kinds::named(word.as_bytes()) {
        Some(kinds) => Ok(Some(kinds)),
        None => Err(Failure::Usage(bad_value(alloc, command, option, "KIND[,KIND]", word)?)),
    }
}

/// The limit of `--at-most`, if it is there.
fn limit(
    alloc: Global,
    command: &str,
    found: &ArgMatches<'_>,
) -> Result<Option<Limit>, Failure<Refusal>>
    ensures { IfErr result
        (λ f. IsLimitFailure (words_at (codes "at-most") (rows_of (found_of found.now))) f) }
{
    limit_in(alloc, command, found.get_strs("at-most").unwrap_or(&[]))
}

/// The limit of the words of `--at-most`; none without words.
fn limit_in(alloc: Global, command: &str, words: &[&str]) -> Result<Option<Limit>, Failure<Refusal>>
    ensures { IfErr result (λ f. IsLimitFailure (map (λ s. s.now) words.now) f) }
{
    let Some((kinds, rest)) = words.split_first() else {
        return Ok(None);
    };
    match rest.split_first() {
        Some((most, [])) => Ok(Some(limit_of(alloc, command, *kinds, *most)?)),
        _ => Err(Failure::Usage(bad_value(
            alloc,
            command,
            "at-most",
            "KIND[,KIND] NUMBER",
            *kinds,
        )?)),
    }
}

/// At most this number of lines of these kinds.
fn limit_of(
    alloc: Global,
    command: &str,
    kinds: &str,
    most: &str,
) -> Result<Limit, Failure<Refusal>>
    ensures { IfErr result (λ f. IsLimitFailure (kinds.now ∷ most.now ∷ []) f) }
{
    let Some(named) = Kinds::named(kinds.as_bytes()) else {
        return Err(Failure::Usage(bad_value(alloc, command, "at-most", "KIND[,KIND]", kinds)?));
    };
    match number_of(most) {
        Some(number) => Ok(Limit::new(Counted::Kinds(named), number)),
        None => Err(Failure::Usage(bad_value(alloc, command, "at-most", "NUMBER", most)?)),
    }
}

/// The text of an option, if it is there.
pub fn text(
    alloc: Global,
    found: &ArgMatches<'_>,
    option: &str,
) -> Result<Option<String>, AllocError>
    ensures { IfOk result
        (λ asked. asked_text asked ≡ first_of option.now (rows_of (found_of found.now))) }
{
    match found.get_str(option) {
        Some(word) => Ok(Some(String::from_str(alloc, word)?)),
        None => Ok(None),
    }
}
