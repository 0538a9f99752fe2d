//! A trace is read to its end, and then again while its dump is written.

ghost use Rattle.std.specs.Prelude.{◌≡◌, ◌⊎◌, ◌-◌, ◌^◌, ◌<◌, IfErr, IfOk, OnOk, string_bytes};
ghost use Rattle.streams.specs.States.{IsFlushed, seen};
ghost use Rattle.trace_stays.specs.Shown.{shown_from, with_read};
ghost use Rattle.trace_windows.specs.Whole.{HaveBegun};
ghost use Rattle.view_command.specs.Answers.{IsCutShort, IsRefused, IsTableRefused, IsUnread};
ghost use Rattle.view_command.specs.Dumping.{HasFound, IsCut, IsCutAgain, IsCutBy, IsDumpIn, IsMadeOf, unread_of_dump, unread_of_stream};
ghost use Rattle.view_command.specs.declared.dumping.Cut.TheVariants as cut;
ghost use Rattle.view_command.specs.declared.dumping.Unread.TheVariants as unread;
ghost use Rattle.view_command.specs.Orders.{asked_text, number_of};
ghost use Rattle.view_command.specs.States.{state};
ghost use Rattle.view_command.specs.Summed.{AreLinesIn};
ghost use Rattle.view_command.specs.Texts.{IsTableAsked, IsTraceIn, IsTraceOf};
ghost use Rattle.view_command.specs.Windows.{windows_known};
ghost use Rattle.view_laws.specs.Windowed.{OwnersOfMachines, OwnersOfModules};

use crate::naming::Names;
use crate::opening::{Opened, called, open_text};
use crate::refusal::Refusal;
use crate::request::Showing;
use crate::showing::{of_view, read_named};
use crate::views::{Outcome, TakeEvents, ViewFault, read_windows};
use crate::windows::{table_asked, windows_of};
use apex_types::{Event, SinkFault, Ticks, put_all};
use std::alloc::{AllocError, Global};
use std::io::Read;
use streams::{Sources, Stream};
use trace_lines::{Filter, Listing};
use trace_stays::MemoryFull;
use trace_text::{StreamFault, TraceStream};
use trace_windows::Windows;
use wave_dump::{Dump, DumpFault, Wires};
use window_table::ModuleTable;

/// The most windows, and ticks between them, of a dump.
const MOST_WINDOWS: usize = 100_000;

/// The bytes that are written at once, and those of a line more.
const PIECE_BYTES: usize = 65_536;

/// What the first reading finds.
#[derive(Drop)]
struct Found {
    wires: Wires,
    windows: Option<Windows>,
    /// The lines of the dump, if the trace cannot be read again.
    lines: Option<Listing>,
}

impl Found {
    /// Nothing is found yet. The lines are kept unless the trace is a file.
    fn new(
        alloc: Global,
        request: &Showing,
        table: Option<ModuleTable>,
        is_file: bool,
    ) -> Result<Found, MemoryFull>
        ensures shown { IfOk result
            (λ found. found.wires.shown ≡ shown_from request.now.from request.now.to) }
        ensures windows { IfOk result
            (λ found. HaveBegun (windows_known table) request.now.from.0 request.now.to
            found.windows) }
    {
        let (from, to) = (request.from, request.to);
        let lines = if is_file {
            None
        } else {
            Some(Listing::new(alloc, all_lines()))
        };
        Ok(Found {
            wires: Wires::new(alloc, from, to),
            windows: windows_of(alloc, table, (from, to), MOST_WINDOWS)?,
            lines,
        })
    }

    /// Finds what a line shows, and keeps the line if the trace cannot be read again.
    fn add(&mut self, event: &Event) -> Result<(), MemoryFull>
        ensures shown { self.new.wires.shown ≡ with_read event.now.tick.0 self.old.wires.shown }
        ensures windows { self.new.windows ≡ self.old.windows }
    {
        if self.wires.add(event)? {
            if let Some(lines) = &mut self.lines {
                lines.add(event)?;
            }
        }
        Ok(())
    }

    /// The dump of what is found, and the lines that were kept.
    fn into_dump(self, alloc: Global) -> Result<(Dump, Option<Listing>), ViewFault>
        ensures { IfOk result (λ made. IsMadeOf self made.0) }
    {
        let Found {
            wires,
            mut windows,
            lines,
        } = self;
        if let Some(windows) = &mut windows {
            windows.pass_to(wires.until())?;
        }
        Ok((Dump::new(alloc, wires, windows), lines))
    }
}

impl TakeEvents for Found {
    ghost takes = { HasFound };

    /// Only the windows go by all lines.
    fn take(&mut self, kept: &Filter, event: &Event) -> Result<(), ViewFault> {
        read_windows(&mut self.windows, event)?;
        if kept.shows(event) {
            self.add(event)?;
        }
        Ok(())
    }
}

/// The filter that chooses all lines.
fn all_lines() -> Filter {
    Filter {
        from: Ticks(0),
        to: None,
        kinds: None,
        partition: None,
        process: None,
        port: None,
    }
}

/// Why a dump ends before its end.
#[derive(Clone, Copy)]
enum Cut {
    /// The trace was not read again.
    Unread(Unread),
    /// The output took no more bytes.
    Write,
}

/// Why a trace is not read again.
#[derive(Clone, Copy)]
enum Unread {
    /// It was not read to its end, or is another one than before.
    Read,
    Memory,
}

/// Reads the trace to its end, and then again, and writes its dump while it reads. A trace that is no
/// file is read once, and its lines are kept.
pub fn dump<F: Sources, O: Stream>(
    alloc: Global,
    request: &Showing,
    sources: &mut F,
    out: &mut O,
) -> Result<Outcome, Refusal>
    requires { O.failures out.old < 2 ^ 64 - 1 }
    ensures trace { OnOk result
        (IsTraceIn (F.texts sources.old) (number_of request.now.ran)
        (string_bytes request.now.trace)) }
    ensures table { OnOk result
        (IsTableAsked (F.texts sources.old) (asked_text request.now.table)) }
    ensures opened { OnOk result (F.unopened sources.new ≡ F.unopened sources.old) }
    ensures flushed { OnOk result
        (IsFlushed (seen O.taken O.failures O.is_flushed out.old)
        (seen O.taken O.failures O.is_flushed out.new)) }
    ensures refused { IfErr result
        (λ r. IsRefused (F.texts sources.old) (number_of request.now.ran)
        (string_bytes request.now.trace)
        (state (F.unopened sources.old) (seen O.taken O.failures O.is_flushed out.old))
        (state (F.unopened sources.new) (seen O.taken O.failures O.is_flushed out.new)) r
        ⊎ IsCutShort (F.texts sources.old) (number_of request.now.ran)
        (string_bytes request.now.trace)
        (state (F.unopened sources.old) (seen O.taken O.failures O.is_flushed out.old))
        (state (F.unopened sources.new) (seen O.taken O.failures O.is_flushed out.new)) r
        ⊎ IsTableRefused (F.texts sources.old) (asked_text request.now.table)
        (state (F.unopened sources.old) (seen O.taken O.failures O.is_flushed out.old))
        (state (F.unopened sources.new) (seen O.taken O.failures O.is_flushed out.new)) r) }
{
    let table = table_asked(alloc, &request.table, sources)?;
    let trace = request.trace.as_str();
    let text = open_text(alloc, trace, sources)?;
    let found = find(alloc, text, table, request, sources.is_file(trace))?;
    let (dump, lines) = found;
    read_again(alloc, request, dump, lines, sources, out)?;
    Ok(Outcome::Shown)
}

/// Reads the trace to its end, and makes its dump, with the lines if they were kept. If the words ask for
/// all its lines, the windows of the dump are those of its lines; and if these are the lines of a run,
/// they are the kernel's.
fn find<R: Read + Drop>(
    alloc: Global,
    text: Opened<R>,
    table: Option<ModuleTable>,
    request: &Showing,
    is_file: bool,
) -> Result<(Dump, Option<Listing>), Refusal>
    ensures trace { OnOk result
        (IsTraceOf (R.remaining text.reader) (number_of request.now.ran)) }
    ensures dump { IfOk result
        (λ found. IsDumpIn (R.remaining text.reader) request.now.kept request.now.from
        request.now.to (windows_known table) found.0) }
    ensures machines { IfOk result
        (λ found. OwnersOfMachines (AreLinesIn (R.remaining text.reader) request.now.kept)
        request.now.from.0 found.0.until.0 (windows_known table) found.0.windows) }
    ensures modules { IfOk result
        (λ found. OwnersOfModules (AreLinesIn (R.remaining text.reader) request.now.kept)
        request.now.from.0 found.0.until.0 (windows_known table) found.0.windows) }
    ensures refused { IfErr result
        (λ r. IsUnread (R.remaining text.reader) (number_of request.now.ran)
        (string_bytes text.name) r) }
{
    let names = Names::of_view(alloc, &request.kept, request.is_strict, &table)?;
    let first = Found::new(alloc, request, table, is_file)?;
    let last = read_named(alloc, text, request, names, first)?;
    match last.into_dump(alloc) {
        Ok(found) => Ok(found),
        Err(fault) => Err(of_view(fault)),
    }
}

/// Reads the trace again, or the lines that were kept, and writes the dump.
fn read_again<F: Sources, O: Stream>(
    alloc: Global,
    request: &Showing,
    dump: Dump,
    lines: Option<Listing>,
    sources: &mut F,
    out: &mut O,
) -> Result<(), Refusal>
    requires { O.failures out.old < 2 ^ 64 - 1 }
    ensures opened { OnOk result (F.unopened sources.new ≡ F.unopened sources.old) }
    ensures flushed { OnOk result
        (IsFlushed (seen O.taken O.failures O.is_flushed out.old)
        (seen O.taken O.failures O.is_flushed out.new)) }
    ensures cut { IfErr result
        (λ r. IsCutAgain (string_bytes request.now.trace)
        (state (F.unopened sources.old) (seen O.taken O.failures O.is_flushed out.old))
        (state (F.unopened sources.new) (seen O.taken O.failures O.is_flushed out.new)) r) }
{
    let trace = request.trace.as_str();
    let Some(lines) = lines else {
        let text = open_text(alloc, trace, sources)?;
        return write_dump(alloc, text, &request.kept, dump, out);
    };
    let bytes = lines.into_text();
    let text = Opened {
        name: String::from_str(alloc, called(trace))?,
        reader: bytes.as_slice(),
    };
    write_dump(alloc, text, &request.kept, dump, out)
}

/// Writes a dump while its trace is read again.
fn write_dump<R: Read + Drop, O: Stream>(
    alloc: Global,
    text: Opened<R>,
    kept: &Filter,
    dump: Dump,
    out: &mut O,
) -> Result<(), Refusal>
    requires { O.failures out.old < 2 ^ 64 - 1 }
    ensures flushed { OnOk result
        (IsFlushed (seen O.taken O.failures O.is_flushed out.old)
        (seen O.taken O.failures O.is_flushed out.new)) }
    ensures cut { IfErr result
        (λ r. IsCut (string_bytes text.name) (seen O.taken O.failures O.is_flushed out.old)
        (seen O.taken O.failures O.is_flushed out.new) r) }
{
    let Opened { name, reader } = text;
    match write_changes(alloc, reader, kept, dump, out) {
        Ok(()) => Ok(out.flush()?),
        Err(Cut::Unread(Unread::Memory)) => Err(Refusal::Memory),
        Err(Cut::Unread(Unread::Read)) => Err(Refusal::Read(name)),
        Err(Cut::Write) => Err(Refusal::Write),
    }
}

/// Writes a dump while the trace is read again, and flushes nothing.
fn write_changes<R: Read + Drop, O: Stream>(
    alloc: Global,
    reader: R,
    kept: &Filter,
    mut dump: Dump,
    out: &mut O,
) -> Result<(), Cut>
    requires { O.failures out.old < 2 ^ 64 - 1 }
    ensures quiet { OnOk result (O.failures out.new ≡ O.failures out.old) }
    ensures cut { IfErr result
        (λ c. IsCutBy (seen O.taken O.failures O.is_flushed out.old)
        (seen O.taken O.failures O.is_flushed out.new) c) }
{
    let mut stream = TraceStream::new(alloc, reader)?;
    let mut text = String::new(alloc);
    dump.begin(&mut text)?;
    for _ in 0..u64::MAX {
        match stream.next_event()? {
            Some(event) => {
                if kept.shows(&event) {
                    dump.add(&event, &mut text)?;
                }
            }
            None => {
                dump.finish(&mut text)?;
                return Ok(put_all(out, text.as_bytes())?);
            }
        }
        if text.len() >= PIECE_BYTES {
            put_all(out, text.as_bytes())?;
            text.clear();
        }
    }
    Err(Cut::Unread(Unread::Read))
}

impl From<StreamFault> for Cut {
    ghost from_gives = { λ fault c. c ≡ cut.Unread (unread_of_stream fault) };

    fn from(fault: StreamFault) -> Self {
        match fault {
            StreamFault::Line(_) | StreamFault::Read(_) => Cut::Unread(Unread::Read),
            StreamFault::Memory => Cut::Unread(Unread::Memory),
        }
    }
}

impl From<DumpFault> for Cut {
    ghost from_gives = { λ fault c. c ≡ cut.Unread (unread_of_dump fault) };

    fn from(fault: DumpFault) -> Self {
        match fault {
            DumpFault::Changed => Cut::Unread(Unread::Read),
            DumpFault::Memory => Cut::Unread(Unread::Memory),
        }
    }
}

impl From<AllocError> for Cut {
    ghost from_gives = { λ _ c. c ≡ cut.Unread unread.Memory };

    fn from(_: AllocError) -> Self {
        Cut::Unread(Unread::Memory)
    }
}

impl From<SinkFault> for Cut {
    ghost from_gives = { λ _ c. c ≡ cut.Write };

    fn from(_: SinkFault) -> Self {
        Cut::Write
    }
}
