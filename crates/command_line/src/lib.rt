//! The command line of `mb`.
//!
//! `command` returns the exit status. It reads the words as its library does, takes files by name,
//! and writes to two streams; its one contract says for each status how these have changed.
#![tactic(auto)]

ghost use Rattle.std.specs.Prelude.{◌≡◌, ◌≤◌, ◌-◌, ◌^◌, ◌<◌, map};
ghost use Rattle.clap.specs.Faults.{fault_of};
ghost use Rattle.clap.specs.Simple.{subcommand_of};
ghost use Rattle.command_line.specs.Answers.{IsAnswer, IsAnswerTo};
ghost use Rattle.command_words.specs.Pages.{page_of};
ghost use Rattle.command_line.specs.Orders.{asks, order_of};
ghost use Rattle.command_line.specs.Spelled.{spelled};
ghost use Rattle.command_line.specs.States.{state};
ghost use Rattle.streams.specs.States.{seen};
ghost use Rattle.command_line.specs.Watched.{IsWatched};
ghost use Rattle.command_line.specs.Words.{mb_app};

mod advising;
mod commands;
mod dashes;
mod explaining;
mod explanations;
mod first_run;
mod form;
mod grammar;
mod linting;
mod listing;
mod loading;
mod naming;
mod order;
mod outcome;
mod pages;
mod reading;
mod refusal;
mod replaying;
mod running;
mod showing;
mod stating;
mod stopping;
mod telling;
mod words;

use command_words::page_of;
use commands::perform;
use explaining::{Note, Noted};
pub use module::{Unwatched, Watch};
use pages::tell_page;
pub use refusal::Refusal;
use std::alloc::Global;
use std::convert::AsStr;
use streams::{Files, Stream};
use telling::tell;

/// Does what the words of a command line say, the program's name first, and returns the exit
/// status: 0; 1 for a refused command, with its line on `err`, and an explanation after it if the
/// words ask for one; 2 for words that are no command, with the usage on `err`; 3 for a command
/// that is done and has found something. Help goes to `out`, with status 0, and so do the program's
/// own manual page and its completion for a shell.
///
/// Faults are met in this order: the words, the files read in the order of the words, the build,
/// the run or what is listed, the file written, the lines printed. An image is written only if it
/// was built. If the words ask for reports, a run reports to `watch`: in rising order, and no more
/// than its ticks.
#[tactic(auto, using(crate::proofs::Watched::not_watched))]
pub fn command<S: AsStr, F: Files, O: Stream, E: Stream, W: Watch>(
    alloc: Global,
    words: &[S],
    files: &mut F,
    out: &mut O,
    err: &mut E,
    watch: &mut W,
) -> u8
    requires out { O.failures out.old < 2 ^ 64 - 1 }
    requires err { E.failures err.old < 2 ^ 64 - 1 }
    ensures answer { IsAnswerTo (page_of (map S.text words.now))
        (fault_of mb_app (spelled (map S.text words.now)))
        (order_of (subcommand_of mb_app (spelled (map S.text words.now))))
        (asks (subcommand_of mb_app (spelled (map S.text words.now))))
        (state F.contents F.failed F.reads O.taken O.failures O.is_flushed files.old out.old)
        (state F.contents F.failed F.reads O.taken O.failures O.is_flushed files.new out.new)
        (seen E.taken E.failures E.is_flushed err.old)
        (seen E.taken E.failures E.is_flushed err.new) result }
    ensures watched { IsWatched (order_of (subcommand_of mb_app (spelled (map S.text words.now))))
        (W.told watch.old) (W.told watch.new) }
{
    match page_of(words) {
        Some(page) => tell_page(alloc, page, out, err),
        None => answer(alloc, words, files, out, err, watch),
    }
}

/// The same for words that ask for no page.
fn answer<S: AsStr, F: Files, O: Stream, E: Stream, W: Watch>(
    alloc: Global,
    words: &[S],
    files: &mut F,
    out: &mut O,
    err: &mut E,
    watch: &mut W,
) -> u8
    requires out { O.failures out.old < 2 ^ 64 - 1 }
    requires err { E.failures err.old < 2 ^ 64 - 1 }
    ensures answer { IsAnswer (fault_of mb_app (spelled (map S.text words.now)))
        (order_of (subcommand_of mb_app (spelled (map S.text words.now))))
        (asks (subcommand_of mb_app (spelled (map S.text words.now))))
        (state F.contents F.failed F.reads O.taken O.failures O.is_flushed files.old out.old)
        (state F.contents F.failed F.reads O.taken O.failures O.is_flushed files.new out.new)
        (seen E.taken E.failures E.is_flushed err.old)
        (seen E.taken E.failures E.is_flushed err.new) result }
    ensures watched { IsWatched (order_of (subcommand_of mb_app (spelled (map S.text words.now))))
        (W.told watch.old) (W.told watch.new) }
{
    let mut noted = Noted {
        asked: false,
        note: Note::Unwanted,
    };
    let outcome = perform(alloc, words, files, out, watch, &mut noted);
    noted.note.explain_write(alloc, &outcome, out.reason());
    noted.note.complete(alloc, &outcome);
    tell(alloc, words, outcome, noted, out, err)
}
