//! Two traces are read to their ends, and their summaries written side by side.

ghost use Rattle.std.specs.Prelude.{◌≡◌, ◌⊎◌, ◌-◌, ◌^◌, ◌<◌, None, IfErr, IfOk, OnOk, string_bytes};
ghost use Rattle.streams.specs.States.{IsFlushed, seen};
ghost use Rattle.view_command.specs.Answers.{IsRefused, IsTableRefused, IsUnread};
ghost use Rattle.view_command.specs.Orders.{asked_text, number_of};
ghost use Rattle.view_command.specs.States.{state};
ghost use Rattle.view_command.specs.Summed.{IsReportIn};
ghost use Rattle.view_command.specs.Texts.{IsTableAsked, IsTraceIn, IsTraceOf};

use crate::naming::{Named, Names};
use crate::opening::{Opened, open_text};
use crate::refusal::Refusal;
use crate::request::Showing;
use crate::showing::read_all;
use crate::views::{Form, Outcome};
use crate::windows::table_asked;
use std::alloc::Global;
use std::io::Read;
use streams::{Sources, Stream, write_bytes};
use trace_view::{Report, Summary, compared_sheet, compared_tables};
use window_table::ModuleTable;

/// The two traces, and what of them is summed up.
#[derive(Drop)]
pub struct Both {
    /// The first one, and what is shown of both. The names of the module table are known names.
    pub showing: Showing,
    /// The name of the other one.
    pub other: String,
    pub form: Form,
}

/// Reads both traces to their ends, and then writes their numbers side by side.
pub fn show_both<F: Sources, O: Stream>(
    alloc: Global,
    both: &Both,
    sources: &mut F,
    out: &mut O,
) -> Result<Outcome, Refusal>
    requires { O.failures out.old < 2 ^ 64 - 1 }
    ensures trace { OnOk result
        (IsTraceIn (F.texts sources.old) (number_of both.now.showing.ran)
        (string_bytes both.now.showing.trace)) }
    ensures other { OnOk result
        (IsTraceIn (F.texts sources.old) (number_of both.now.showing.ran)
        (string_bytes both.now.other)) }
    ensures table { OnOk result
        (IsTableAsked (F.texts sources.old) (asked_text both.now.showing.table)) }
    ensures opened { OnOk result (F.unopened sources.new ≡ F.unopened sources.old) }
    ensures flushed { OnOk result
        (IsFlushed (seen O.taken O.failures O.is_flushed out.old)
        (seen O.taken O.failures O.is_flushed out.new)) }
    ensures refused { IfErr result
        (λ r. IsRefused (F.texts sources.old) (number_of both.now.showing.ran)
        (string_bytes both.now.showing.trace)
        (state (F.unopened sources.old) (seen O.taken O.failures O.is_flushed out.old))
        (state (F.unopened sources.new) (seen O.taken O.failures O.is_flushed out.new)) r
        ⊎ IsRefused (F.texts sources.old) (number_of both.now.showing.ran)
        (string_bytes both.now.other)
        (state (F.unopened sources.old) (seen O.taken O.failures O.is_flushed out.old))
        (state (F.unopened sources.new) (seen O.taken O.failures O.is_flushed out.new)) r
        ⊎ IsTableRefused (F.texts sources.old) (asked_text both.now.showing.table)
        (state (F.unopened sources.old) (seen O.taken O.failures O.is_flushed out.old))
        (state (F.unopened sources.new) (seen O.taken O.failures O.is_flushed out.new)) r) }
{
    let table = table_asked(alloc, &both.showing.table, sources)?;
    write_both(alloc, both, &table, sources, out)
}

/// The same with the names of a module table, if there is one.
fn write_both<F: Sources, O: Stream>(
    alloc: Global,
    both: &Both,
    table: &Option<ModuleTable>,
    sources: &mut F,
    out: &mut O,
) -> Result<Outcome, Refusal>
    requires { O.failures out.old < 2 ^ 64 - 1 }
    ensures trace { OnOk result
        (IsTraceIn (F.texts sources.old) (number_of both.now.showing.ran)
        (string_bytes both.now.showing.trace)) }
    ensures other { OnOk result
        (IsTraceIn (F.texts sources.old) (number_of both.now.showing.ran)
        (string_bytes both.now.other)) }
    ensures opened { OnOk result (F.unopened sources.new ≡ F.unopened sources.old) }
    ensures flushed { OnOk result
        (IsFlushed (seen O.taken O.failures O.is_flushed out.old)
        (seen O.taken O.failures O.is_flushed out.new)) }
    ensures refused { IfErr result
        (λ r. IsRefused (F.texts sources.old) (number_of both.now.showing.ran)
        (string_bytes both.now.showing.trace)
        (state (F.unopened sources.old) (seen O.taken O.failures O.is_flushed out.old))
        (state (F.unopened sources.new) (seen O.taken O.failures O.is_flushed out.new)) r
        ⊎ IsRefused (F.texts sources.old) (number_of both.now.showing.ran)
        (string_bytes both.now.other)
        (state (F.unopened sources.old) (seen O.taken O.failures O.is_flushed out.old))
        (state (F.unopened sources.new) (seen O.taken O.failures O.is_flushed out.new)) r) }
{
    let first = both.showing.trace.as_str();
    let second = both.other.as_str();
    let one = open_text(alloc, first, sources)?;
    let other = open_text(alloc, second, sources)?;
    let text = text_of(alloc, one, other, table, both)?;
    write_bytes(out, text.as_slice())?;
    Ok(Outcome::Shown)
}

/// The numbers of both texts. One of them has to have the names that are asked for.
fn text_of<R: Read + Drop, Q: Read + Drop>(
    alloc: Global,
    one: Opened<R>,
    other: Opened<Q>,
    table: &Option<ModuleTable>,
    both: &Both,
) -> Result<Vec<u8>, Refusal>
    ensures trace { OnOk result
        (IsTraceOf (R.remaining one.reader) (number_of both.now.showing.ran)) }
    ensures other { OnOk result
        (IsTraceOf (Q.remaining other.reader) (number_of both.now.showing.ran)) }
    ensures refused { IfErr result
        (λ r. IsUnread (R.remaining one.reader) (number_of both.now.showing.ran)
        (string_bytes one.name) r
        ⊎ IsUnread (Q.remaining other.reader) (number_of both.now.showing.ran)
        (string_bytes other.name) r) }
{
    let showing = &both.showing;
    let names = Names::of_view(alloc, &showing.kept, showing.is_strict, table)?;
    let first = report_of(alloc, one, showing, names)?;
    let (report, names) = first;
    let second = report_of(alloc, other, showing, names)?;
    let (other_report, names) = second;
    if let Some(line) = names.unknown(alloc)? {
        return Err(Refusal::Unknown(line));
    }
    let text = match both.form {
        Form::Table => compared_tables(alloc, &report, &other_report)?,
        Form::Rows => compared_sheet(alloc, &report, &other_report)?,
    };
    Ok(text)
}

/// The report of a text, as `sum_up` makes it, and the names that were seen.
fn report_of<R: Read + Drop>(
    alloc: Global,
    text: Opened<R>,
    showing: &Showing,
    names: Names,
) -> Result<(Report, Names), Refusal>
    ensures trace { OnOk result
        (IsTraceOf (R.remaining text.reader) (number_of showing.now.ran)) }
    ensures report { IfOk result
        (λ made. IsReportIn (R.remaining text.reader) showing.now.kept showing.now.from showing.now.to
        None made.0) }
    ensures refused { IfErr result
        (λ r. IsUnread (R.remaining text.reader) (number_of showing.now.ran)
        (string_bytes text.name) r) }
{
    let first = Summary::new(alloc, showing.from, showing.to, None);
    let mut named = Named {
        taker: first,
        names,
    };
    read_all(alloc, text, showing.ran, &showing.kept, &mut named)?;
    let Named { taker, names } = named;
    let report = taker.finish()?;
    Ok((report, names))
}
