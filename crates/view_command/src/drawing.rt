//! A trace is read to its end, and drawn.

ghost use Rattle.std.specs.Prelude.{IfErr, IfOk, OnOk, string_bytes};
ghost use Rattle.view_command.specs.Answers.{IsUnread};
ghost use Rattle.view_command.specs.Drawn.{HasSketched, IsDrawnIn, IsFinished};
ghost use Rattle.view_command.specs.Orders.{number_of};
ghost use Rattle.view_command.specs.Summed.{AreLinesIn};
ghost use Rattle.view_command.specs.Texts.{IsTraceOf};
ghost use Rattle.view_command.specs.Windows.{windows_known};
ghost use Rattle.view_laws.specs.Drawn.{DrawsMachines, DrawsModules};

use crate::naming::Names;
use crate::opening::Opened;
use crate::refusal::Refusal;
use crate::request::Showing;
use crate::showing::{of_view, read_named};
use crate::views::{TakeEvents, ViewFault, read_windows};
use crate::windows::windows_of;
use apex_types::Event;
use std::alloc::Global;
use std::io::Read;
use trace_lines::Filter;
use trace_picture::{Drawing, Picture, Width};
use trace_windows::Windows;
use window_table::ModuleTable;

/// The most windows, and ticks between them, of a picture, which also counts its elements.
const MOST_OF_PICTURE: usize = 20_000;

/// A picture of the lines so far, and the windows of the module table, if one is given.
#[derive(Drop)]
struct Sketch {
    picture: Picture,
    windows: Option<Windows>,
}

impl TakeEvents for Sketch {
    ghost takes = { HasSketched };

    /// Only the windows go by all lines.
    fn take(&mut self, kept: &Filter, event: &Event) -> Result<(), ViewFault> {
        read_windows(&mut self.windows, event)?;
        if kept.shows(event) {
            self.picture.add(event)?;
        }
        Ok(())
    }
}

impl Sketch {
    /// The drawing of all lines, so wide.
    fn finish(self, width: Width) -> Result<Drawing, ViewFault>
        ensures { IfOk result (IsFinished self) }
    {
        let Sketch {
            picture,
            mut windows,
        } = self;
        if let Some(windows) = &mut windows {
            windows.pass_to(picture.until())?;
        }
        Ok(picture.finish(windows, width)?)
    }
}

/// Reads the trace to its end, and draws it so wide. If the words ask for all its lines, the drawing is
/// that of its lines; and if these are the lines of a run, it shows what the kernel did in it.
pub fn draw<R: Read + Drop>(
    alloc: Global,
    text: Opened<R>,
    table: Option<ModuleTable>,
    request: &Showing,
    width: Width,
) -> Result<Drawing, Refusal>
    ensures trace { OnOk result
        (IsTraceOf (R.remaining text.reader) (number_of request.now.ran)) }
    ensures drawing { IfOk result
        (IsDrawnIn (R.remaining text.reader) request.now.kept request.now.from request.now.to
        (windows_known table)) }
    ensures machines { IfOk result
        (DrawsMachines (AreLinesIn (R.remaining text.reader) request.now.kept)
        request.now.from (windows_known table)) }
    ensures modules { IfOk result
        (DrawsModules (AreLinesIn (R.remaining text.reader) request.now.kept)
        request.now.from (windows_known table)) }
    ensures refused { IfErr result
        (λ r. IsUnread (R.remaining text.reader) (number_of request.now.ran)
        (string_bytes text.name) r) }
{
    let names = Names::of_view(alloc, &request.kept, request.is_strict, &table)?;
    let windows = windows_of(alloc, table, (request.from, request.to), MOST_OF_PICTURE)?;
    let first = Sketch {
        picture: Picture::new(alloc, request.from, request.to),
        windows,
    };
    let last = read_named(alloc, text, request, names, first)?;
    match last.finish(width) {
        Ok(drawing) => Ok(drawing),
        Err(fault) => Err(of_view(fault)),
    }
}
