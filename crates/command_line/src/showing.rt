//! Listings: the instructions of an image, and the costs of sources.

ghost use Rattle.std.specs.Prelude.{◌-◌, ◌^◌, ◌<◌, map};
ghost use Rattle.image.specs.Views.{image_of};
ghost use Rattle.command_line.specs.Code.{code_text};
ghost use Rattle.command_line.specs.Costs.{costs_text};
ghost use Rattle.command_line.specs.Orders.{Cost, Dis};
ghost use Rattle.command_line.specs.States.{state};
ghost use Rattle.command_line.specs.Ends.{Ends};
ghost use Rattle.command_line.specs.Listed.{IsShown};
ghost use Rattle.streams.specs.States.{seen};

use crate::explaining::Note;
use crate::listing::{write_code, write_costs};
use crate::order::ModuleNames;
use crate::outcome::Outcome;
use crate::reading::{costs_named, load_named};
use crate::refusal::Refusal;
use apex_types::SinkFault;
use image::Image;
use module::PartitionCosts;
use std::alloc::Global;
use streams::{Files, Stream};

/// Writes the costs of the sources.
pub fn cost<F: Files, O: Stream>(
    alloc: Global,
    names: ModuleNames<'_>,
    files: &mut F,
    out: &mut O,
    note: &mut Note,
) -> Result<Outcome, Refusal>
    requires { O.failures out.old < 2 ^ 64 - 1 }
    ensures { Ends (Cost names.entry.table.now (map (λ s. s.now) names.entry.sources.now))
        (state F.contents F.failed F.reads O.taken O.failures O.is_flushed files.old out.old)
        (state F.contents F.failed F.reads O.taken O.failures O.is_flushed files.new out.new)
        result }
{
    let costs = costs_named(alloc, names, files, note)?;
    show_costs(&costs, out)?;
    Ok(Outcome::Usual)
}

/// Writes the instructions of an image.
pub fn dis<F: Files, O: Stream>(
    alloc: Global,
    image: &str,
    files: &mut F,
    out: &mut O,
    note: &mut Note,
) -> Result<Outcome, Refusal>
    requires { O.failures out.old < 2 ^ 64 - 1 }
    ensures { Ends (Dis image.now)
        (state F.contents F.failed F.reads O.taken O.failures O.is_flushed files.old out.old)
        (state F.contents F.failed F.reads O.taken O.failures O.is_flushed files.new out.new)
        result }
{
    let image = load_named(alloc, image, files, note)?;
    show_code(&image, out)?;
    Ok(Outcome::Usual)
}

/// Writes the lines of costs, to their end.
fn show_costs<O: Stream>(costs: &[PartitionCosts], out: &mut O) -> Result<(), SinkFault>
    requires { O.failures out.old < 2 ^ 64 - 1 }
    ensures { IsShown (costs_text costs.now) (seen O.taken O.failures O.is_flushed out.old)
        (seen O.taken O.failures O.is_flushed out.new) result }
{
    write_costs(costs, out)?;
    out.flush()
}

/// Writes the lines of an image's instructions, to their end.
fn show_code<O: Stream>(image: &Image, out: &mut O) -> Result<(), SinkFault>
    requires { O.failures out.old < 2 ^ 64 - 1 }
    ensures { IsShown (code_text (image_of image.now))
        (seen O.taken O.failures O.is_flushed out.old)
        (seen O.taken O.failures O.is_flushed out.new) result }
{
    write_code(image, out)?;
    out.flush()
}
