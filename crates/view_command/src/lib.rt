//! The command line of `mbview`.
#![tactic(auto)]

ghost use Rattle.std.specs.Prelude.{◌≡◌, ◌-◌, ◌^◌, ◌<◌, [], map, IfErr, OnOk};
ghost use Rattle.clap.specs.Faults.{fault_of};
ghost use Rattle.clap.specs.Simple.{subcommand_of};
ghost use Rattle.streams.specs.States.{IsFlushed, seen};
ghost use Rattle.command_words.specs.Pages.{page_of};
ghost use Rattle.view_command.specs.Answers.{AreTracesIn, IsAnswer, IsAnswerTo, IsFailure};
ghost use Rattle.view_command.specs.States.{state};
ghost use Rattle.view_command.specs.Words.{view_app};

mod comparing;
mod differences;
mod drawing;
mod dumping;
mod grammar;
mod module_states;
mod naming;
mod opening;
mod options;
mod pages;
mod refusal;
mod request;
mod search;
mod showing;
mod side_by_side;
mod summing;
mod telling;
mod views;
mod windows;

use command_words::{Failure, page_of};
use comparing::compare_asked;
use dumping::dump;
use pages::tell_page;
pub use refusal::Refusal;
use request::{Request, request_of};
use showing::show;
use side_by_side::show_both;
use std::alloc::Global;
use std::convert::AsStr;
use streams::{Sources, Stream};
use telling::tell;
use views::Outcome;

/// Shows the trace that the words of a command line name, the program's name first, and returns the
/// exit status: 0; 1 for a refusal, with its line on `err`; 2 for words that are no command, with
/// the usage on `err`; 3 if the trace has what it may not have. Help goes to `out`, with status 0, and
/// so do the program's own manual page and its completion for a shell.
///
/// Nothing is written to `out` before the whole trace was read. The trace of a dump is then read again,
/// if it is a file; if that fails, a beginning of the dump is written. With status 0 or 3 all of it was
/// written and flushed. If `err` cannot be written, only the status reports the failure.
pub fn view<S: AsStr, F: Sources, O: Stream, E: Stream>(
    alloc: Global,
    words: &[S],
    sources: &mut F,
    out: &mut O,
    err: &mut E,
) -> u8
    requires out { O.failures out.old < 2 ^ 64 - 1 }
    requires err { E.failures err.old < 2 ^ 64 - 1 }
    ensures { IsAnswerTo (page_of (map S.text words.now))
        (fault_of view_app (map S.text words.now))
        (subcommand_of view_app (map S.text words.now)) (F.texts sources.old)
        (state (F.unopened sources.old) (seen O.taken O.failures O.is_flushed out.old))
        (state (F.unopened sources.new) (seen O.taken O.failures O.is_flushed out.new))
        (seen E.taken E.failures E.is_flushed err.old)
        (seen E.taken E.failures E.is_flushed err.new) result }
{
    match page_of(words) {
        Some(page) => tell_page(alloc, page, out, err),
        None => answer(alloc, words, sources, out, err),
    }
}

/// The same for words that ask for no page.
fn answer<S: AsStr, F: Sources, O: Stream, E: Stream>(
    alloc: Global,
    words: &[S],
    sources: &mut F,
    out: &mut O,
    err: &mut E,
) -> u8
    requires out { O.failures out.old < 2 ^ 64 - 1 }
    requires err { E.failures err.old < 2 ^ 64 - 1 }
    ensures { IsAnswer (fault_of view_app (map S.text words.now))
        (subcommand_of view_app (map S.text words.now)) (F.texts sources.old)
        (state (F.unopened sources.old) (seen O.taken O.failures O.is_flushed out.old))
        (state (F.unopened sources.new) (seen O.taken O.failures O.is_flushed out.new))
        (seen E.taken E.failures E.is_flushed err.old)
        (seen E.taken E.failures E.is_flushed err.new) result }
{
    let outcome = perform(alloc, words, sources, out);
    tell(outcome, out, err)
}

/// Does what the words say.
fn perform<S: AsStr, F: Sources, O: Stream>(
    alloc: Global,
    words: &[S],
    sources: &mut F,
    out: &mut O,
) -> Result<Outcome, Failure<Refusal>>
    requires { O.failures out.old < 2 ^ 64 - 1 }
    ensures command { OnOk result (fault_of view_app (map S.text words.now) ≡ []) }
    ensures traces { OnOk result
        (AreTracesIn (F.texts sources.old) (subcommand_of view_app (map S.text words.now))) }
    ensures opened { OnOk result (F.unopened sources.new ≡ F.unopened sources.old) }
    ensures flushed { OnOk result
        (IsFlushed (seen O.taken O.failures O.is_flushed out.old)
        (seen O.taken O.failures O.is_flushed out.new)) }
    ensures failed { IfErr result
        (λ f. IsFailure (fault_of view_app (map S.text words.now))
        (subcommand_of view_app (map S.text words.now)) (F.texts sources.old)
        (state (F.unopened sources.old) (seen O.taken O.failures O.is_flushed out.old))
        (state (F.unopened sources.new) (seen O.taken O.failures O.is_flushed out.new)) f) }
{
    match request_of(alloc, words)? {
        Request::Show(view, showing) => Ok(show(alloc, view, &showing, sources, out)?),
        Request::Dump(showing) => Ok(dump(alloc, &showing, sources, out)?),
        Request::Compare(pair) => Ok(compare_asked(alloc, &pair, sources, out)?),
        Request::Summaries(both) => Ok(show_both(alloc, &both, sources, out)?),
    }
}
