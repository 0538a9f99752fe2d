//! The action of each command.

ghost use Rattle.std.specs.Prelude.{◌≡◌, ◌-◌, ◌^◌, ◌<◌, map, false};
ghost use Rattle.clap.specs.Faults.{fault_of};
ghost use Rattle.clap.specs.Matches.{found_of};
ghost use Rattle.clap.specs.Simple.{subcommand_of, subcommand_rows_of};
ghost use Rattle.clap.specs.Walk.{rows_of};
ghost use Rattle.command_line.specs.Meant.{meant};
ghost use Rattle.command_line.specs.Orders.{Build, Check, Upgrade, asks, is_asked, order_of, style_of};
ghost use Rattle.command_line.specs.Spelled.{spelled};
ghost use Rattle.command_line.specs.States.{state};
ghost use Rattle.command_line.specs.Watched.{IsWatched};
ghost use Rattle.command_line.specs.Words.{mb_app};
ghost use Rattle.command_line.specs.Ends.{Answers, AnswersWords, Ends, NotesAsked, as_answer};

use crate::dashes::dashed_command;
use crate::explaining::{Note, Noted, Style};
use crate::grammar::{grammar, lone_dash};
use crate::linting::lint;
use crate::loading::load;
use crate::naming::show_names;
use crate::order::{ModuleNames, Order, is_flagged, order_by_name};
use crate::outcome::Outcome;
use crate::reading::{build_named, upgrade_named};
use crate::refusal::Refusal;
use crate::replaying::{inputs, replay};
use crate::running::{run, run_stored};
use crate::showing::{cost, dis};
use crate::stating::show_state;
use crate::words::spelled;
use clap::ArgMatches;
use command_words::Failure;
use module::Watch;
use std::alloc::Global;
use std::convert::AsStr;
use streams::{Files, Stream, write_line};

/// Does what the words say, and notes whether they ask for an explanation of a refusal; then the
/// explanation of a refused file is noted, too. If the words ask for reports, a run reports to
/// `watch`.
#[tactic(auto, using(crate::proofs::Watched::not_watched))]
pub fn perform<S: AsStr, F: Files, O: Stream, W: Watch>(
    alloc: Global,
    words: &[S],
    files: &mut F,
    out: &mut O,
    watch: &mut W,
    noted: &mut Noted,
) -> Result<Outcome, Failure<Refusal>>
    requires { O.failures out.old < 2 ^ 64 - 1 }
    ensures asked { noted.old.asked ≡ false
        → NotesAsked (fault_of mb_app (spelled (map S.text words.now)))
        (asks (subcommand_of mb_app (spelled (map S.text words.now)))) result noted.new.asked }
    ensures ended { AnswersWords (fault_of mb_app (spelled (map S.text words.now)))
        (order_of (subcommand_of mb_app (spelled (map S.text words.now))))
        (state F.contents F.failed F.reads O.taken O.failures O.is_flushed files.old out.old)
        (state F.contents F.failed F.reads O.taken O.failures O.is_flushed files.new out.new)
        result }
    ensures watched { IsWatched (order_of (subcommand_of mb_app (spelled (map S.text words.now))))
        (W.told watch.old) (W.told watch.new) }
{
    match spelled(alloc, words) {
        Ok(words) => obey_words(alloc, words.as_slice(), files, out, watch, noted),
        Err(_) => Err(Failure::Refused(Refusal::Memory)),
    }
}

/// The same of words as the library of command lines takes them.
#[tactic(auto, using(crate::proofs::Watched::not_watched))]
fn obey_words<F: Files, O: Stream, W: Watch>(
    alloc: Global,
    words: &[&str],
    files: &mut F,
    out: &mut O,
    watch: &mut W,
    noted: &mut Noted,
) -> Result<Outcome, Failure<Refusal>>
    requires { O.failures out.old < 2 ^ 64 - 1 }
    ensures asked { noted.old.asked ≡ false
        → NotesAsked (fault_of mb_app (map (λ s. s.now) words.now))
        (asks (subcommand_of mb_app (map (λ s. s.now) words.now))) result noted.new.asked }
    ensures ended { AnswersWords (fault_of mb_app (map (λ s. s.now) words.now))
        (order_of (subcommand_of mb_app (map (λ s. s.now) words.now)))
        (state F.contents F.failed F.reads O.taken O.failures O.is_flushed files.old out.old)
        (state F.contents F.failed F.reads O.taken O.failures O.is_flushed files.new out.new)
        result }
    ensures watched { IsWatched (order_of (subcommand_of mb_app (map (λ s. s.now) words.now)))
        (W.told watch.old) (W.told watch.new) }
{
    let matches = grammar(alloc)?.try_get_matches_from(words)?;
    noted.asked = asks(&matches);
    noted.note = Note::new(noted.asked, style_of(&matches));
    obey(alloc, &matches, files, out, watch, &mut noted.note)
}

/// Returns true if the words ask for an explanation of a refusal.
fn asks(matches: &ArgMatches<'_>) -> bool
    ensures { result ≡ asks (subcommand_rows_of matches.now) }
{
    match matches.subcommand() {
        Some((_, found)) => is_asked(found),
        None => false,
    }
}

/// Returns true if the words of a command ask for an explanation of its refusal.
fn is_asked(found: &ArgMatches<'_>) -> bool
    ensures { result ≡ is_asked (rows_of (found_of found.now)) }
{
    is_flagged(found, "explain") || is_flagged(found, "explain-json")
}

/// How the words ask for an explanation.
fn style_of(matches: &ArgMatches<'_>) -> Style
    ensures { result ≡ style_of (subcommand_rows_of matches.now) }
{
    match matches.subcommand() {
        Some((_, found)) if is_flagged(found, "explain-json") => Style::Json,
        _ => Style::Plain,
    }
}

/// Does the command that was found in the words, if no word is `-`.
#[tactic(auto, using(crate::proofs::Watched::not_watched))]
fn obey<F: Files, O: Stream, W: Watch>(
    alloc: Global,
    matches: &ArgMatches<'_>,
    files: &mut F,
    out: &mut O,
    watch: &mut W,
    note: &mut Note,
) -> Result<Outcome, Failure<Refusal>>
    requires { O.failures out.old < 2 ^ 64 - 1 }
    ensures ended { Answers (order_of (subcommand_rows_of matches.now))
        (state F.contents F.failed F.reads O.taken O.failures O.is_flushed files.old out.old)
        (state F.contents F.failed F.reads O.taken O.failures O.is_flushed files.new out.new)
        result }
    ensures watched { IsWatched (order_of (subcommand_rows_of matches.now)) (W.told watch.old)
        (W.told watch.new) }
{
    if let Some(name) = dashed_command(matches) {
        return Err(Failure::Usage(lone_dash(alloc, name)?));
    }
    obey_order(alloc, order_by_name(matches), files, out, watch, note)
}

/// Does what the words ask for, if none of them is `-`.
fn obey_order<F: Files, O: Stream, W: Watch>(
    alloc: Global,
    order: Order<'_>,
    files: &mut F,
    out: &mut O,
    watch: &mut W,
    note: &mut Note,
) -> Result<Outcome, Failure<Refusal>>
    requires { O.failures out.old < 2 ^ 64 - 1 }
    ensures ended { Answers (meant order.entry)
        (state F.contents F.failed F.reads O.taken O.failures O.is_flushed files.old out.old)
        (state F.contents F.failed F.reads O.taken O.failures O.is_flushed files.new out.new)
        result }
    ensures watched { IsWatched (meant order.entry) (W.told watch.old) (W.told watch.new) }
{
    match order {
        Order::First => ended(run_stored(alloc, out)),
        Order::Check { names } => ended(check(alloc, names, files, out, note)),
        Order::Build { names, image } => ended(build(alloc, names, image, files, out, note)),
        Order::Run { words, is_watched } => {
            begin_if(is_watched, watch);
            run(alloc, words, files, out, watch, note)
        }
        Order::Replay { words } => replay(alloc, words, files, out, note),
        Order::Inputs { words, is_watched } => {
            begin_if(is_watched, watch);
            inputs(alloc, words, files, out, watch, note)
        }
        Order::State { words } => show_state(alloc, words, files, out, note),
        Order::NamedState { words } => show_names(alloc, words, files, out, note),
        Order::Cost { names } => ended(cost(alloc, names, files, out, note)),
        Order::Dis { image } => ended(dis(alloc, image, files, out, note)),
        Order::Upgrade { old, new } => ended(upgrade(alloc, old, new, files, out, note)),
        Order::Load { form, names } => ended(load(alloc, form, names, files, out, note)),
        Order::Lint { names } => ended(lint(alloc, names, files, out, note)),
    }
}

/// Asks for reports, if they are wanted.
fn begin_if<W: Watch>(is_wanted: bool, watch: &mut W)
    ensures { W.told watch.new ≡ W.told watch.old }
{
    if is_wanted {
        watch.begin();
    }
}

/// How a command has ended whose words are right.
fn ended(ended: Result<Outcome, Refusal>) -> Result<Outcome, Failure<Refusal>>
    ensures { result ≡ as_answer ended }
{
    match ended {
        Ok(outcome) => Ok(outcome),
        Err(refusal) => Err(Failure::Refused(refusal)),
    }
}

/// Builds, and drops the image.
fn check<F: Files, O: Stream>(
    alloc: Global,
    names: ModuleNames<'_>,
    files: &mut F,
    out: &mut O,
    note: &mut Note,
) -> Result<Outcome, Refusal>
    requires { O.failures out.old < 2 ^ 64 - 1 }
    ensures { Ends (Check names.entry.table.now (map (λ s. s.now) names.entry.sources.now))
        (state F.contents F.failed F.reads O.taken O.failures O.is_flushed files.old out.old)
        (state F.contents F.failed F.reads O.taken O.failures O.is_flushed files.new out.new)
        result }
{
    build_named(alloc, names, files, note)?;
    write_line(out, "accepted")?;
    Ok(Outcome::Usual)
}

/// Builds, and writes the image.
fn build<F: Files, O: Stream>(
    alloc: Global,
    names: ModuleNames<'_>,
    name: &str,
    files: &mut F,
    out: &mut O,
    note: &mut Note,
) -> Result<Outcome, Refusal>
    requires { O.failures out.old < 2 ^ 64 - 1 }
    ensures { Ends (Build names.entry.table.now name.now (map (λ s. s.now) names.entry.sources.now))
        (state F.contents F.failed F.reads O.taken O.failures O.is_flushed files.old out.old)
        (state F.contents F.failed F.reads O.taken O.failures O.is_flushed files.new out.new)
        result }
{
    let image = build_named(alloc, names, files, note)?;
    let shown = String::from_str(alloc, name)?;
    if let Err(fault) = files.write(name, image.as_slice()) {
        return Err(Refusal::of_file(shown, fault));
    }
    write_line(out, format_args!("built {} bytes", image.len()))?;
    Ok(Outcome::Usual)
}

/// Upgrades an image, and writes it.
fn upgrade<F: Files, O: Stream>(
    alloc: Global,
    old: &str,
    new: &str,
    files: &mut F,
    out: &mut O,
    note: &mut Note,
) -> Result<Outcome, Refusal>
    requires { O.failures out.old < 2 ^ 64 - 1 }
    ensures { Ends (Upgrade old.now new.now)
        (state F.contents F.failed F.reads O.taken O.failures O.is_flushed files.old out.old)
        (state F.contents F.failed F.reads O.taken O.failures O.is_flushed files.new out.new)
        result }
{
    let image = upgrade_named(alloc, old, files, note)?;
    let shown = String::from_str(alloc, new)?;
    if let Err(fault) = files.replace(new, image.as_slice()) {
        return Err(Refusal::of_file(shown, fault));
    }
    write_line(out, format_args!("upgraded {} bytes", image.len()))?;
    Ok(Outcome::Usual)
}
