//! Reports the outcome of a command.

ghost use Rattle.std.specs.Prelude.{◌-◌, ◌^◌, ◌<◌, Some};
ghost use Rattle.command_line.specs.Answers.{IsTold};
ghost use Rattle.command_line.specs.Lines.{line_of};
ghost use Rattle.command_line.specs.declared.refusal.Refusal.TheVariants.{Write};
ghost use Rattle.command_words.specs.Told.{CanTakeHelp, IsUsageTold};
ghost use Rattle.streams.specs.States.{seen};

use crate::advising::advised;
use crate::explaining::{Noted, Told};
use crate::outcome::Outcome;
use crate::refusal::Refusal;
use command_words::{Failure, tell_usage};
use std::alloc::Global;
use std::convert::AsStr;
use streams::{Stream, tell_text};

/// Reports the outcome of these words and returns its exit status. Explains a refusal if the words
/// ask for it.
pub fn tell<S: AsStr, O: Stream, E: Stream>(
    alloc: Global,
    words: &[S],
    outcome: Result<Outcome, Failure<Refusal>>,
    noted: Noted,
    out: &mut O,
    err: &mut E,
) -> u8
    requires out { CanTakeHelp outcome (O.failures out.old) }
    requires err { E.failures err.old < 2 ^ 64 - 1 }
    ensures { IsTold outcome noted.asked noted.note (seen O.taken O.failures O.is_flushed out.old)
        (seen O.taken O.failures O.is_flushed out.new)
        (seen E.taken E.failures E.is_flushed err.old)
        (seen E.taken E.failures E.is_flushed err.new) result }
{
    match outcome {
        Ok(outcome) => outcome.status(),
        Err(Failure::Refused(refusal)) => {
            let told = Told { refusal, noted };
            // If standard error does not take it, only the status reports the refusal.
            tell_text(err, told);
            1
        }
        Err(Failure::Usage(error)) => tell_words(alloc, words, error, out, err),
    }
}

/// Reports that these words are no command, with advice, or shows the help that they ask for.
#[tactic(auto, using(crate::proofs::Answered::told_alike))]
fn tell_words<S: AsStr, O: Stream, E: Stream>(
    alloc: Global,
    words: &[S],
    error: clap::Error,
    out: &mut O,
    err: &mut E,
) -> u8
    requires out { O.failures out.old < 2 ^ 64 - 1 }
    requires err { E.failures err.old < 2 ^ 64 - 1 }
    ensures { IsUsageTold error (Some (line_of Write))
        (seen O.taken O.failures O.is_flushed out.old)
        (seen O.taken O.failures O.is_flushed out.new)
        (seen E.taken E.failures E.is_flushed err.old)
        (seen E.taken E.failures E.is_flushed err.new) result }
{
    let error = advised(alloc, words, error);
    tell_usage(&error, Refusal::Write, out, err)
}
