//! The states of an image's module before ticks.

ghost use Rattle.std.specs.Prelude.{◌≡◌, ◌-◌, ◌^◌, ◌<◌, None, map, option_map};
ghost use Rattle.command_line.specs.Orders as asked;
ghost use Rattle.command_line.specs.Ends.{Answers, EndsState};
ghost use Rattle.command_line.specs.Meant.{ReadsMoments, state_meant, wanted_in};
ghost use Rattle.command_line.specs.States.{state};
ghost use Rattle.module.specs.Stating.{moments_in};

use crate::explaining::{Note, RunFiles};
use crate::grammar::{bad_spacing, bad_tick};
use crate::order::{StateWords, Timed};
use crate::outcome::Outcome;
use crate::reading::read_as;
use crate::refusal::Refusal;
use apex_types::limits::MOST_TICKS;
use command_words::{Failure, number_of};
use module::{Moments, WantedStates};
use std::alloc::Global;
use streams::{Files, Stream};
use text_beginnings::TextKind;

/// Shows the states of an image's module up to the tick of a word.
pub fn show_state<F: Files, O: Stream>(
    alloc: Global,
    words: StateWords<'_>,
    files: &mut F,
    out: &mut O,
    note: &mut Note,
) -> Result<Outcome, Failure<Refusal>>
    requires { O.failures out.old < 2 ^ 64 - 1 }
    ensures { Answers (state_meant words.entry)
        (state F.contents F.failed F.reads O.taken O.failures O.is_flushed files.old out.old)
        (state F.contents F.failed F.reads O.taken O.failures O.is_flushed files.new out.new)
        result }
{
    let Some(ticks) = number_of(words.tick) else {
        return Err(Failure::Usage(bad_tick(alloc, words.tick)?));
    };
    let Some(moments) = moments_of(words) else {
        let word = words.every.unwrap_or("");
        return Err(Failure::Usage(bad_spacing(alloc, word)?));
    };
    let wanted = Timed { words, ticks };
    Ok(show_state_named(alloc, wanted, moments, files, out, note)?)
}

/// Before which ticks the words ask for states; nothing if they give no number of ticks between
/// states where they have to.
fn moments_of(words: StateWords<'_>) -> Option<Moments<'_>>
    ensures { ReadsMoments (option_map (λ s. s.now) words.entry.every)
        (wanted_in words.entry).moments result }
{
    let Some(word) = words.every else {
        return Some(moments_until(words.until));
    };
    match number_of(word) {
        Some(every) if words.until.is_empty() && 0 < every && every <= MOST_TICKS => {
            Some(Moments::Every(every))
        }
        _ => None,
    }
}

/// Only before the last tick, or before the first one with a row that begins with these words.
fn moments_until<'a>(words: &'a [&'a str]) -> Moments<'a>
    ensures { moments_in result ≡ asked.moments_of None (map (λ s. s.now) words.entry.now) }
{
    if words.is_empty() {
        Moments::Last
    } else {
        Moments::First(words)
    }
}

/// Shows these states of an image's module, of a run of so many ticks. It is remarkable if there is
/// none. A refusal of the image or of the device text is explained in `note`.
fn show_state_named<F: Files, O: Stream>(
    alloc: Global,
    wanted: Timed<StateWords<'_>>,
    moments: Moments<'_>,
    files: &mut F,
    out: &mut O,
    note: &mut Note,
) -> Result<Outcome, Refusal>
    requires meant { moments_in moments ≡ (wanted_in wanted.words).moments }
    requires failures { O.failures out.old < 2 ^ 64 - 1 }
    ensures { EndsState wanted.entry.words.image.now wanted.entry.words.devices.now
        (wanted_in wanted.entry.words) wanted.entry.ticks
        (state F.contents F.failed F.reads O.taken O.failures O.is_flushed files.old out.old)
        (state F.contents F.failed F.reads O.taken O.failures O.is_flushed files.new out.new)
        result }
{
    let words = wanted.words;
    let image = read_as(alloc, TextKind::Image, words.image, files)?;
    let devices = read_as(alloc, TextKind::Inputs, words.devices, files)?;
    let given = RunFiles {
        image_name: words.image,
        image: image.as_slice(),
        text_name: words.devices,
        text: devices.as_slice(),
    };
    let shown = WantedStates {
        devices: given.text,
        tick: wanted.ticks,
        moments,
        form: words.form,
        partition: words.partition,
    };
    let found = match module::state(alloc, given.image, shown, out) {
        Ok(found) => found,
        Err(fault) => {
            note.explain_run(alloc, given, &fault);
            return Err(Refusal::Run(fault));
        }
    };
    out.flush()?;
    Ok(Outcome::of_wait(found))
}
