//! Reports the outcome of a command.

ghost use Rattle.std.specs.Prelude.{◌-◌, ◌^◌, ◌<◌};
ghost use Rattle.command_words.specs.Told.{CanTakeHelp};
ghost use Rattle.streams.specs.States.{seen};
ghost use Rattle.view_command.specs.Answers.{IsTold};

use crate::refusal::Refusal;
use crate::views::Outcome;
use command_words::{Failure, tell_usage};
use streams::{Stream, tell_line};

/// Reports the outcome of a command and returns its exit status.
pub fn tell<O: Stream, E: Stream>(
    outcome: Result<Outcome, Failure<Refusal>>,
    out: &mut O,
    err: &mut E,
) -> u8
    requires out { CanTakeHelp outcome (O.failures out.old) }
    requires err { E.failures err.old < 2 ^ 64 - 1 }
    ensures { IsTold outcome (seen O.taken O.failures O.is_flushed out.old)
        (seen O.taken O.failures O.is_flushed out.new)
        (seen E.taken E.failures E.is_flushed err.old)
        (seen E.taken E.failures E.is_flushed err.new) result }
{
    match outcome {
        Ok(Outcome::Shown) => 0,
        Ok(Outcome::Found) => 3,
        Err(Failure::Refused(refusal)) => {
            // If standard error does not take it, only the status reports the refusal.
            tell_line(err, refusal);
            1
        }
        Err(Failure::Usage(error)) => tell_usage(&error, Refusal::Write, out, err),
    }
}
