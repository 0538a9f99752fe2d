//! The report on words that are no command, or that ask for help.

ghost use Rattle.std.specs.Prelude.{◌-◌, ◌^◌, ◌<◌};
ghost use Rattle.command_words.specs.Told.{IsUsageTold};
ghost use Rattle.streams.specs.States.{seen};

use std::fmt::Display;
use streams::{Stream, tell_line, tell_text, write_text};

/// Reports words that are no command, or shows the help that they ask for, and returns the exit
/// status. If the help cannot be written, the line `unwritten` says so on `err`.
pub fn tell_usage<D: Display + Drop, O: Stream, E: Stream>(
    error: &clap::Error,
    unwritten: D,
    out: &mut O,
    err: &mut E,
) -> u8
    requires out { O.failures out.old < 2 ^ 64 - 1 }
    requires err { E.failures err.old < 2 ^ 64 - 1 }
    ensures { IsUsageTold error.now (D.output unwritten)
        (seen O.taken O.failures O.is_flushed out.old)
        (seen O.taken O.failures O.is_flushed out.new)
        (seen E.taken E.failures E.is_flushed err.old)
        (seen E.taken E.failures E.is_flushed err.new) result }
{
    if error.use_stderr() {
        tell_text(err, error);
        return 2;
    }
    if write_text(out, error).is_err() {
        tell_line(err, unwritten);
        return 1;
    }
    0
}
