//! One partition of an image: its replay, and the inputs that a run brings it.

ghost use Rattle.std.specs.Prelude.{◌-◌, ◌^◌, ◌<◌};
ghost use Rattle.module.specs.Watched.{IsFollowed};
ghost use Rattle.command_line.specs.Meant.{inputs_meant, replay_meant};
ghost use Rattle.command_line.specs.States.{state};
ghost use Rattle.command_line.specs.Watched.{IsWatched};
ghost use Rattle.command_line.specs.Ends.{Answers, EndsInputs, EndsReplay};

use crate::explaining::{Note, RunFiles};
use crate::grammar::bad_ticks;
use crate::order::{InputsWords, ReplayWords, Timed};
use crate::outcome::Outcome;
use crate::reading::read_as;
use crate::refusal::Refusal;
use command_words::{Failure, number_of};
use module::{WantedInputs, Watch};
use std::alloc::Global;
use streams::{Files, Stream};
use text_beginnings::TextKind;

/// Replays a partition of an image for the ticks of a word.
pub fn replay<F: Files, O: Stream>(
    alloc: Global,
    words: ReplayWords<'_>,
    files: &mut F,
    out: &mut O,
    note: &mut Note,
) -> Result<Outcome, Failure<Refusal>>
    requires { O.failures out.old < 2 ^ 64 - 1 }
    ensures { Answers (replay_meant words.entry)
        (state F.contents F.failed F.reads O.taken O.failures O.is_flushed files.old out.old)
        (state F.contents F.failed F.reads O.taken O.failures O.is_flushed files.new out.new)
        result }
{
    let Some(ticks) = number_of(words.ticks) else {
        return Err(Failure::Usage(bad_ticks(alloc, "replay", words.ticks)?));
    };
    Ok(replay_named(alloc, Timed { words, ticks }, files, out, note)?)
}

/// Replays a partition of an image for so many ticks. A refusal of the image or of the replay text
/// is explained in `note`.
fn replay_named<F: Files, O: Stream>(
    alloc: Global,
    wanted: Timed<ReplayWords<'_>>,
    files: &mut F,
    out: &mut O,
    note: &mut Note,
) -> Result<Outcome, Refusal>
    requires { O.failures out.old < 2 ^ 64 - 1 }
    ensures { EndsReplay wanted.entry.words.image.now wanted.entry.words.partition.now
        wanted.entry.words.inputs.now wanted.entry.ticks
        (state F.contents F.failed F.reads O.taken O.failures O.is_flushed files.old out.old)
        (state F.contents F.failed F.reads O.taken O.failures O.is_flushed files.new out.new)
        result }
{
    let words = wanted.words;
    let image = read_as(alloc, TextKind::Image, words.image, files)?;
    let inputs = read_as(alloc, TextKind::Inputs, words.inputs, files)?;
    let given = RunFiles {
        image_name: words.image,
        image: image.as_slice(),
        text_name: words.inputs,
        text: inputs.as_slice(),
    };
    let (partition, ticks) = (words.partition, wanted.ticks);
    if let Err(fault) = module::replay(alloc, given.image, partition, given.text, ticks, out) {
        note.explain_replay(alloc, given, partition, &fault);
        return Err(Refusal::Replay(fault));
    }
    out.flush()?;
    Ok(Outcome::Usual)
}

/// Writes the inputs that a run of an image brings a partition in the ticks of a word, and reports
/// to a watcher how far the run is.
#[tactic(auto, using(module::proofs::Watched::not_followed))]
pub fn inputs<F: Files, O: Stream, W: Watch>(
    alloc: Global,
    words: InputsWords<'_>,
    files: &mut F,
    out: &mut O,
    watch: &mut W,
    note: &mut Note,
) -> Result<Outcome, Failure<Refusal>>
    requires { O.failures out.old < 2 ^ 64 - 1 }
    ensures ended { Answers (inputs_meant words.entry)
        (state F.contents F.failed F.reads O.taken O.failures O.is_flushed files.old out.old)
        (state F.contents F.failed F.reads O.taken O.failures O.is_flushed files.new out.new)
        result }
    ensures watched { IsWatched (inputs_meant words.entry) (W.told watch.old) (W.told watch.new) }
{
    let Some(ticks) = number_of(words.ticks) else {
        return Err(Failure::Usage(bad_ticks(alloc, "inputs", words.ticks)?));
    };
    Ok(inputs_named(alloc, Timed { words, ticks }, files, out, watch, note)?)
}

/// Writes the inputs that so many ticks of an image bring a partition. A refusal of the image or of
/// the device text is explained in `note`.
#[tactic(auto, using(module::proofs::Watched::not_followed))]
fn inputs_named<F: Files, O: Stream, W: Watch>(
    alloc: Global,
    wanted: Timed<InputsWords<'_>>,
    files: &mut F,
    out: &mut O,
    watch: &mut W,
    note: &mut Note,
) -> Result<Outcome, Refusal>
    requires { O.failures out.old < 2 ^ 64 - 1 }
    ensures ended { EndsInputs wanted.entry.words.image.now wanted.entry.words.partition.now
        wanted.entry.words.devices.now wanted.entry.ticks
        (state F.contents F.failed F.reads O.taken O.failures O.is_flushed files.old out.old)
        (state F.contents F.failed F.reads O.taken O.failures O.is_flushed files.new out.new)
        result }
    ensures followed { IsFollowed wanted.entry.ticks wanted.entry.ticks (W.told watch.old)
        (W.told watch.new) }
{
    let words = wanted.words;
    let image = read_as(alloc, TextKind::Image, words.image, files)?;
    let devices = read_as(alloc, TextKind::Inputs, words.devices, files)?;
    let given = RunFiles {
        image_name: words.image,
        image: image.as_slice(),
        text_name: words.devices,
        text: devices.as_slice(),
    };
    let brought = WantedInputs {
        partition: words.partition,
        devices: given.text,
        ticks: wanted.ticks,
    };
    if let Err(fault) = module::inputs_watched(alloc, given.image, brought, out, watch) {
        note.explain_inputs(alloc, given, words.partition, &fault);
        return Err(Refusal::Inputs(fault));
    }
    out.flush()?;
    Ok(Outcome::Usual)
}
