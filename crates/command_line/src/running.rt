//! Runs, of an image and of the stored module.

ghost use Rattle.std.specs.Prelude.{◌≡◌, ◌-◌, ◌^◌, ◌<◌, ℕ, List, Option, map, IfErr, OnOk};
ghost use Rattle.machine_meaning.specs.ImageReading.{image_at};
ghost use Rattle.module.specs.Watched.{IsFollowed};
ghost use Rattle.command_line.specs.Done.{IsFirstRun, IsTraced};
ghost use Rattle.command_line.specs.Ends.{Answers, Ends, EndsRun};
ghost use Rattle.command_line.specs.Meant.{run_meant};
ghost use Rattle.command_line.specs.Orders.{First};
ghost use Rattle.command_line.specs.Refusals.{HasFailedBy, HasFailedByBoth};
ghost use Rattle.command_line.specs.States.{state, state_of};
ghost use Rattle.command_line.specs.Watched.{IsWatched};
ghost use Rattle.streams.specs.Contents.{Contents};
ghost use Rattle.streams.specs.Reads.{Reads};
ghost use Rattle.streams.specs.States.{seen};

use crate::explaining::{Note, RunFiles};
use crate::first_run::{SOURCE, TABLE, TICKS};
use crate::grammar::bad_ticks;
use crate::order::{RunWords, Timed};
use crate::outcome::Outcome;
use crate::reading::read_as;
use crate::refusal::Refusal;
use crate::stopping::{Wait, run_until};
use command_words::{Failure, number_of};
use module::{BuildAndRunFault, RunFault, Watch};
use std::alloc::Global;
use streams::{Files, Stream};
use text_beginnings::TextKind;

/// Runs an image for the ticks of a word, and reports to a watcher how far it is. With words in
/// `until` the run ends with the first tick that has a line with them; it is remarkable if none
/// comes.
#[tactic(auto, using(module::proofs::Watched::not_followed))]
pub fn run<F: Files, O: Stream, W: Watch>(
    alloc: Global,
    words: RunWords<'_>,
    files: &mut F,
    out: &mut O,
    watch: &mut W,
    note: &mut Note,
) -> Result<Outcome, Failure<Refusal>>
    requires { O.failures out.old < 2 ^ 64 - 1 }
    ensures ended { Answers (run_meant words.entry)
        (state F.contents F.failed F.reads O.taken O.failures O.is_flushed files.old out.old)
        (state F.contents F.failed F.reads O.taken O.failures O.is_flushed files.new out.new)
        result }
    ensures watched { IsWatched (run_meant words.entry) (W.told watch.old) (W.told watch.new) }
{
    let Some(ticks) = number_of(words.ticks) else {
        return Err(Failure::Usage(bad_ticks(alloc, "run", words.ticks)?));
    };
    let outcome = run_named(alloc, Timed { words, ticks }, files, out, watch, note)?;
    Ok(outcome)
}

/// Runs an image for so many ticks, or to a line. A refusal of the image or of the device text is
/// explained in `note`.
#[tactic(auto, using(module::proofs::Watched::not_followed))]
fn run_named<F: Files, O: Stream, W: Watch>(
    alloc: Global,
    wanted: Timed<RunWords<'_>>,
    files: &mut F,
    out: &mut O,
    watch: &mut W,
    note: &mut Note,
) -> Result<Outcome, Refusal>
    requires { O.failures out.old < 2 ^ 64 - 1 }
    ensures ended { EndsRun wanted.entry.words.image.now wanted.entry.words.devices.now
        (map (λ w. w.now) wanted.entry.words.until.now) wanted.entry.ticks
        (state F.contents F.failed F.reads O.taken O.failures O.is_flushed files.old out.old)
        (state F.contents F.failed F.reads O.taken O.failures O.is_flushed files.new out.new)
        result }
    ensures followed { IsFollowed wanted.entry.ticks wanted.entry.ticks (W.told watch.old)
        (W.told watch.new) }
{
    let words = wanted.words;
    let image = read_as(alloc, TextKind::Image, words.image, files)?;
    let devices = read_as(alloc, TextKind::Inputs, words.devices, files)?;
    let given = RunFiles {
        image_name: words.image,
        image: image.as_slice(),
        text_name: words.devices,
        text: devices.as_slice(),
    };
    let outcome = match trace(alloc, given, wanted.ticks, words.until, out, watch) {
        Ok(outcome) => outcome,
        Err(fault) => {
            note.explain_run(alloc, given, &fault);
            return Err(Refusal::Run(fault));
        }
    };
    out.flush()?;
    Ok(outcome)
}

/// Writes the trace of an image to its end, or to a line with these words if there are any.
fn trace<O: Stream, W: Watch>(
    alloc: Global,
    files: RunFiles<'_>,
    ticks: u64,
    until: &[&str],
    out: &mut O,
    watch: &mut W,
) -> Result<Outcome, RunFault>
    requires { O.failures out.old < 2 ^ 64 - 1 }
    ensures trace { IsTraced (image_at files.entry.image.now) files.entry.text.now
        (map (λ w. w.now) until.now) ticks (O.taken out.old) (O.taken out.new) result }
    ensures quiet { OnOk result (O.failures out.new ≡ O.failures out.old) }
    ensures failed { IfErr result
        (λ f. HasFailedBy f (seen O.taken O.failures O.is_flushed out.old)
        (seen O.taken O.failures O.is_flushed out.new)) }
    ensures followed { IsFollowed ticks ticks (W.told watch.old) (W.told watch.new) }
{
    if until.is_empty() {
        return match module::run_watched(alloc, files.image, files.text, ticks, out, watch) {
            Ok(()) => Ok(Outcome::Usual),
            Err(fault) => Err(fault),
        };
    }
    let wait = Wait {
        ticks,
        words: until,
    };
    match run_until(alloc, files.image, files.text, wait, out, watch) {
        Ok(came) => Ok(Outcome::of_wait(came)),
        Err(fault) => Err(fault),
    }
}

/// Runs the stored module.
pub fn run_stored<O: Stream>(alloc: Global, out: &mut O) -> Result<Outcome, Refusal>
    requires { O.failures out.old < 2 ^ 64 - 1 }
    ensures { (files : Option Contents) (failed : List (List ℕ)) (reads : Reads)
        → Ends First (state_of files failed reads (seen O.taken O.failures O.is_flushed out.old))
        (state_of files failed reads (seen O.taken O.failures O.is_flushed out.new)) result }
{
    trace_stored(alloc, out)?;
    out.flush()?;
    Ok(Outcome::Usual)
}

/// Writes the trace of the stored module.
fn trace_stored<O: Stream>(alloc: Global, out: &mut O) -> Result<(), BuildAndRunFault>
    requires { O.failures out.old < 2 ^ 64 - 1 }
    ensures trace { IsFirstRun (O.taken out.old) (O.taken out.new) result }
    ensures quiet { OnOk result (O.failures out.new ≡ O.failures out.old) }
    ensures failed { IfErr result
        (λ f. HasFailedByBoth f (seen O.taken O.failures O.is_flushed out.old)
        (seen O.taken O.failures O.is_flushed out.new)) }
{
    let sources = [SOURCE.as_bytes()];
    module::build_and_run(alloc, TABLE.as_bytes(), &sources, &[], TICKS, out)
}
