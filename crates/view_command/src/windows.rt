//! The module table, by whose windows ticks are counted and shown.

ghost use Rattle.std.specs.Prelude.{◌≡◌, IfErr, IfOk, IfSome, OnOk, Ok, string_bytes};
ghost use Rattle.streams.specs.States.{Seen};
ghost use Rattle.view_command.specs.Answers.{IsRefusedByTable, IsTableRefused};
ghost use Rattle.view_command.specs.Orders.{asked_text};
ghost use Rattle.view_command.specs.States.{state};
ghost use Rattle.view_command.specs.Texts.{IsRefusedTable, IsTable, IsTableAsked, IsTableIn};
ghost use Rattle.trace_view.specs.Reports.{AreSharesBefore};
ghost use Rattle.trace_windows.specs.Whole.{HaveBegun};
ghost use Rattle.view_command.specs.Windows.{IsBadTable, names_of, page_windows, windows_known};
ghost use Rattle.window_table.specs.Answers.{AnswersText};

use crate::opening::{Opened, of_reading, open_text};
use crate::refusal::Refusal;
use apex_types::{Name, Ticks};
use std::alloc::{AllocError, Global};
use std::io::Read;
use streams::Sources;
use trace_page::{NOT_KNOWN, windows_text};
use trace_stays::MemoryFull;
use trace_windows::{Shares, SharesFault, Windows};
use window_table::{ModuleTable, TableFault, read_table};

/// The module table of this name, if one is asked for.
pub fn table_asked<F: Sources>(
    alloc: Global,
    table: &Option<String>,
    sources: &mut F,
) -> Result<Option<ModuleTable>, Refusal>
    ensures table { OnOk result (IsTableAsked (F.texts sources.old) (asked_text table.now)) }
    ensures opened { OnOk result (F.unopened sources.new ≡ F.unopened sources.old) }
    ensures kept { F.texts sources.new ≡ F.texts sources.old }
    ensures refused { (out : Seen)
        → IfErr result
        (λ r. IsTableRefused (F.texts sources.old) (asked_text table.now)
        (state (F.unopened sources.old) out) (state (F.unopened sources.new) out) r) }
{
    match table {
        Some(name) => Ok(Some(table_of(alloc, name.as_str(), sources)?)),
        None => Ok(None),
    }
}

/// The module table of this name.
fn table_of<F: Sources>(alloc: Global, name: &str, sources: &mut F) -> Result<ModuleTable, Refusal>
    ensures table { OnOk result (IsTableIn (F.texts sources.old) name.now) }
    ensures opened { OnOk result (F.unopened sources.new ≡ F.unopened sources.old) }
    ensures kept { F.texts sources.new ≡ F.texts sources.old }
    ensures refused { (out : Seen)
        → IfErr result
        (λ r. IsRefusedByTable (F.texts sources.old) name.now
        (state (F.unopened sources.old) out) (state (F.unopened sources.new) out) r) }
{
    let text = open_text(alloc, name, sources)?;
    read_from(alloc, text)
}

/// The table that a reader has.
fn read_from<R: Read + Drop>(alloc: Global, table: Opened<R>) -> Result<ModuleTable, Refusal>
    ensures table { OnOk result (IfSome (R.remaining table.reader) (λ text. IsTable text)) }
    ensures refused { IfErr result
        (λ r. IsBadTable (R.remaining table.reader) (string_bytes table.name) r) }
{
    let Opened { name, mut reader } = table;
    let mut text = Vec::new(alloc);
    if let Err(error) = reader.read_to_end(&mut text) {
        return Err(of_reading(name, error.kind()));
    }
    match read_table(alloc, text.as_slice()) {
        Ok(table) => Ok(table),
        Err(TableFault::Memory) => Err(Refusal::Memory),
        Err(fault) => Err(Refusal::Table { fault, table: name }),
    }
}

/// The names of the partitions, in their order.
#[tactic(auto, using(std::proofs::lemmas::List::drop_more))]
fn names(alloc: Global, table: &ModuleTable) -> Result<Vec<Name>, AllocError>
    ensures { IfOk result (λ names. names.items ≡ names_of table.now) }
{
    let mut names = Vec::with_capacity(alloc, table.partitions.len())?;
    for partition in &table.partitions {
        names.push(partition.name)?;
    }
    Ok(names)
}

/// The names of the partitions of a table, if there is one.
pub fn names_asked(alloc: Global, table: &Option<ModuleTable>) -> Result<Vec<Name>, AllocError> {
    match table {
        Some(table) => names(alloc, table),
        None => Ok(Vec::new(alloc)),
    }
}

/// Counts by the windows of a table, if there is one. The ticks `from` and later count.
pub fn shares_of(
    alloc: Global,
    table: Option<ModuleTable>,
    from: Ticks,
) -> Result<Option<Shares>, SharesFault>
    ensures { IfOk result (λ shares. AreSharesBefore (windows_known table) from shares) }
{
    let Some(table) = table else {
        return Ok(None);
    };
    let names = names(alloc, &table)?;
    Ok(Some(Shares::new(alloc, table.schedule, names.as_slice(), from)?))
}

/// The windows of a table in the ticks from the first on and before the second, if there is one.
/// There may be `most` windows, and times between them.
pub fn windows_of(
    alloc: Global,
    table: Option<ModuleTable>,
    shown: (Ticks, Option<Ticks>),
    most: usize,
) -> Result<Option<Windows>, MemoryFull>
    ensures { IfOk result
        (λ windows. HaveBegun (windows_known table) shown.0.0 shown.1 windows) }
{
    let Some(table) = table else {
        return Ok(None);
    };
    let names = names(alloc, &table)?;
    Ok(Some(Windows::new(alloc, table.schedule, names, shown, most)))
}

/// The windows of a table as a page has them.
pub fn page_windows(alloc: Global, table: &Option<ModuleTable>) -> Result<Vec<u8>, MemoryFull>
    ensures { IfOk result (λ text. text.items ≡ page_windows table.now) }
{
    match table {
        Some(table) => {
            let names = names(alloc, table)?;
            let windows = table.schedule.windows.as_slice();
            windows_text(alloc, table.schedule.frame, windows, names.as_slice())
        }
        None => Ok(Vec::from_slice(alloc, NOT_KNOWN.as_bytes())?),
    }
}
