//! A trace is read to its end, and then shown.

ghost use Rattle.std.specs.Prelude.{◌≡◌, ◌⊎◌, ◌-◌, ◌^◌, ◌<◌, IfErr, IfOk, OnOk, string_bytes};
ghost use Rattle.streams.specs.States.{IsFlushed, seen};
ghost use Rattle.view_command.specs.Answers.{AreStatesRefused, IsRefused, IsTableRefused, IsUnread};
ghost use Rattle.view_command.specs.Faults as faults;
ghost use Rattle.view_command.specs.Orders.{asked_text, number_of};
ghost use Rattle.view_command.specs.States.{state};
ghost use Rattle.view_command.specs.Summed.{TakesAll};
ghost use Rattle.view_command.specs.Texts.{AreStatesAsked, IsTableAsked, IsTraceIn, IsTraceOf, is_late};

use crate::drawing::draw;
use crate::module_states::states_asked;
use crate::naming::{Named, Names};
use crate::opening::{Opened, called, open_text};
use crate::refusal::Refusal;
use crate::request::Showing;
use crate::summing::sum_up;
use crate::views::{Form, Layout, Outcome, Shown, TakeEvents, View, ViewFault};
use crate::windows::table_asked;
use apex_types::Ticks;
use std::alloc::Global;
use std::io::Read;
use streams::{Sources, Stream, write_bytes};
use trace_lines::Filter;
use trace_text::{StreamFault, TraceStream};
use window_table::ModuleTable;

/// Reads the trace to its end, and then writes it as the request wants it.
pub fn show<F: Sources, O: Stream>(
    alloc: Global,
    view: View,
    request: &Showing,
    sources: &mut F,
    out: &mut O,
) -> Result<Outcome, Refusal>
    requires { O.failures out.old < 2 ^ 64 - 1 }
    ensures trace { OnOk result
        (IsTraceIn (F.texts sources.old) (number_of request.now.ran)
        (string_bytes request.now.trace)) }
    ensures table { OnOk result
        (IsTableAsked (F.texts sources.old) (asked_text request.now.table)) }
    ensures states { OnOk result
        (AreStatesAsked (F.texts sources.old) (asked_text request.now.states)) }
    ensures opened { OnOk result (F.unopened sources.new ≡ F.unopened sources.old) }
    ensures flushed { OnOk result
        (IsFlushed (seen O.taken O.failures O.is_flushed out.old)
        (seen O.taken O.failures O.is_flushed out.new)) }
    ensures refused { IfErr result
        (λ r. IsRefused (F.texts sources.old) (number_of request.now.ran)
        (string_bytes request.now.trace)
        (state (F.unopened sources.old) (seen O.taken O.failures O.is_flushed out.old))
        (state (F.unopened sources.new) (seen O.taken O.failures O.is_flushed out.new)) r
        ⊎ IsTableRefused (F.texts sources.old) (asked_text request.now.table)
        (state (F.unopened sources.old) (seen O.taken O.failures O.is_flushed out.old))
        (state (F.unopened sources.new) (seen O.taken O.failures O.is_flushed out.new)) r
        ⊎ AreStatesRefused (F.texts sources.old) (asked_text request.now.states)
        (state (F.unopened sources.old) (seen O.taken O.failures O.is_flushed out.old))
        (state (F.unopened sources.new) (seen O.taken O.failures O.is_flushed out.new)) r) }
{
    let table = table_asked(alloc, &request.table, sources)?;
    let states = states_asked(alloc, &request.states, sources)?;
    let view = view.with_states(states);
    let trace = request.trace.as_str();
    let text = open_text(alloc, trace, sources)?;
    let shown = bytes_of(alloc, view, text, table, request)?;
    let (outcome, bytes) = shown;
    write_bytes(out, bytes.as_slice())?;
    Ok(outcome)
}

/// What the exit status says of the trace, and the bytes that show it.
fn bytes_of<R: Read + Drop>(
    alloc: Global,
    view: View,
    text: Opened<R>,
    table: Option<ModuleTable>,
    request: &Showing,
) -> Result<(Outcome, Vec<u8>), Refusal>
    ensures trace { OnOk result
        (IsTraceOf (R.remaining text.reader) (number_of request.now.ran)) }
    ensures refused { IfErr result
        (λ r. IsUnread (R.remaining text.reader) (number_of request.now.ran)
        (string_bytes text.name) r) }
{
    match view {
        View::Summary(Form::Table) => {
            let report = sum_up(alloc, text, table, request)?;
            Ok((Outcome::Shown, report.tables(alloc)?))
        }
        View::Summary(Form::Rows) => {
            let report = sum_up(alloc, text, table, request)?;
            Ok((Outcome::Shown, report.sheet(alloc)?))
        }
        View::Picture(width) => {
            let drawing = draw(alloc, text, table, request, width)?;
            let picture = drawing.text(called(request.trace.as_str()))?;
            Ok((Outcome::Shown, picture.into_bytes()))
        }
        View::Lines(layout) => lay_out(alloc, layout, text, table, request),
    }
}

/// Reads the trace to its end, and shows its lines.
fn lay_out<R: Read + Drop>(
    alloc: Global,
    layout: Layout,
    text: Opened<R>,
    table: Option<ModuleTable>,
    request: &Showing,
) -> Result<(Outcome, Vec<u8>), Refusal>
    ensures trace { OnOk result
        (IsTraceOf (R.remaining text.reader) (number_of request.now.ran)) }
    ensures refused { IfErr result
        (λ r. IsUnread (R.remaining text.reader) (number_of request.now.ran)
        (string_bytes text.name) r) }
{
    let names = Names::of_view(alloc, &request.kept, request.is_strict, &table)?;
    let first = Shown::new(alloc, layout, request.from, request.to, table)?;
    let shown = read_named(alloc, text, request, names, first)?;
    Ok((shown.outcome(), shown.into_bytes(alloc)?))
}

/// Reads every line of a trace, which has to have the names that are asked for.
pub fn read_named<R: Read + Drop, T: TakeEvents + Drop>(
    alloc: Global,
    text: Opened<R>,
    request: &Showing,
    names: Names,
    taker: T,
) -> Result<T, Refusal>
    ensures trace { OnOk result
        (IsTraceOf (R.remaining text.reader) (number_of request.now.ran)) }
    ensures taken { IfOk result
        (λ last. TakesAll (T.takes request.now.kept) (R.remaining text.reader) taker last) }
    ensures refused { IfErr result
        (λ r. IsUnread (R.remaining text.reader) (number_of request.now.ran)
        (string_bytes text.name) r) }
{
    let mut named = Named { taker, names };
    read_all(alloc, text, request.ran, &request.kept, &mut named)?;
    let Named { taker, names } = named;
    match names.unknown(alloc)? {
        Some(line) => Err(Refusal::Unknown(line)),
        None => Ok(taker),
    }
}

/// Reads every line of a trace. None may be after the end of the run, if it is known.
pub fn read_all<R: Read + Drop, T: TakeEvents>(
    alloc: Global,
    text: Opened<R>,
    ran: Option<Ticks>,
    kept: &Filter,
    taker: &mut T,
) -> Result<(), Refusal>
    ensures trace { OnOk result (IsTraceOf (R.remaining text.reader) (number_of ran)) }
    ensures taken { OnOk result
        (TakesAll (T.takes kept.now) (R.remaining text.reader) taker.old taker.new) }
    ensures refused { IfErr result
        (λ r. IsUnread (R.remaining text.reader) (number_of ran) (string_bytes text.name) r) }
{
    let Opened { name, reader } = text;
    let mut stream = match TraceStream::new(alloc, reader) {
        Ok(stream) => stream,
        Err(_) => return Err(Refusal::Memory),
    };
    for _ in 0..u64::MAX {
        match stream.next_event() {
            Ok(Some(event)) => {
                if is_late(ran, event.tick) {
                    return Err(Refusal::Late {
                        number: stream.lines(),
                        trace: name,
                    });
                }
                if let Err(fault) = taker.take(kept, &event) {
                    return Err(of_view(fault));
                }
            }
            Ok(None) => return Ok(()),
            Err(fault) => return Err(of_stream(name, fault)),
        }
    }
    Err(Refusal::Read(name))
}

/// Returns true if the run did not have this tick.
fn is_late(ran: Option<Ticks>, tick: Ticks) -> bool
    ensures { result ≡ is_late (number_of ran) tick.0 }
{
    match ran {
        Some(ran) => ran.0 <= tick.0,
        None => false,
    }
}

/// The refusal of a text that is no trace, or was not read.
pub fn of_stream(name: String, fault: StreamFault) -> Refusal
    ensures { result ≡ faults.of_stream name fault }
{
    match fault {
        StreamFault::Line(fault) => Refusal::Line {
            number: fault.line,
            trace: name,
        },
        StreamFault::Read(_) => Refusal::Read(name),
        StreamFault::Memory => Refusal::Memory,
    }
}

/// The refusal of an event, or of all of them, that the view did not take.
pub fn of_view(fault: ViewFault) -> Refusal
    ensures { result ≡ faults.of_view fault }
{
    match fault {
        ViewFault::Memory => Refusal::Memory,
        ViewFault::TooMany => Refusal::TooMany,
        ViewFault::Crowded(excess) => Refusal::Crowded {
            shapes: excess.shapes,
            from: excess.from.0,
            until: excess.until.0,
            elements: excess.elements,
        },
        ViewFault::Foreign(partition) => Refusal::Foreign(partition),
    }
}
