//! From the text of a module table to the table.

ghost use Rattle.std.specs.Prelude.{◌<◌, ◌≡◌, ◌||◌, ◌==◌, false, IfOk, map, is_none, pos, nat_abs};
ghost use Rattle.std.specs.List.{list_any};
ghost use Rattle.apex_types.specs.Limits.{MOST_FRAME_TICKS};
ghost use Rattle.module_meaning.specs.TableRules.{is_outside, exceeds_counts, exceeds_rows, exceeds_limits, exceeds_partition, has_same_names, has_unknown_name, overlaps, numbered, costs_or_written, has_costs_outside, partition_row, has_unknown_action, judge_table, judge_text};
ghost use Rattle.window_table.specs.Answers.{Judges, AnswersText, RefusesLimit, RefusesOverlap};
ghost use Rattle.window_table.specs.Views.{table_of, table_text, partition_text, partition_view};

use crate::channels::has_wrong_ends;
use crate::durations::{has_odd_period, has_short_period, lacks_release};
use crate::fault::TableFault;
use crate::few::{FewPartitions, ModulePartitions};
use crate::limits::{exceeds_counts, exceeds_rows, partition_rows, table_costs};
use crate::names::{has_same_names, has_unknown_name};
use crate::numbered::{channel_rows, window_rows};
use crate::schedule::Schedule;
use crate::table::{ModuleTable, PartitionRow};
use crate::written::{WrittenPartition, WrittenTable, read_written};
use apex_types::{Costs, ModuleAction};
use std::alloc::Global;

/// The costs and the rows of the partitions of a text that is within its limits.
#[tactic(auto, using(crate::proofs::Rules::frame_kept))]
fn limited(
    alloc: Global,
    written: &WrittenTable<'_>,
) -> Result<(Costs, Vec<PartitionRow>), TableFault>
    ensures kept { IfOk result
        (λ rows. (exceeds_counts (table_text written.now) ≡ false)
        × (exceeds_rows (table_text written.now) ≡ false)
        × (has_costs_outside (table_text written.now).costs ≡ false)
        × (list_any (exceeds_partition written.now.frame)
        (map partition_text written.now.partitions.items)
        ≡ false)
        × (rows.0 ≡ costs_or_written (table_text written.now).costs)
        × (map partition_row (map partition_text written.now.partitions.items)
        ≡ map partition_view rows.1.items)) }
    ensures refused { RefusesLimit result (exceeds_limits (table_text written.now)) }
{
    if exceeds_counts(written) {
        return Err(TableFault::Limit);
    }
    if exceeds_rows(written) {
        return Err(TableFault::Limit);
    }
    let costs = table_costs(alloc, &written.costs)?;
    let rows = partition_rows(alloc, written.frame, written.partitions.as_slice())?;
    Ok((costs, rows))
}

fn frame_row(frame: i64) -> u32
    requires { is_outside 1 (pos MOST_FRAME_TICKS) frame ≡ false }
    ensures same { pos result ≡ frame }
    ensures number { result ≡ nat_abs frame }
    ensures there { 0 < result }
{
    frame as u32
}

/// The partitions of a text that is within its limits.
#[tactic(auto, using(crate::proofs::Rules::few_partitions, crate::proofs::Rules::few_ports))]
fn few_partitions<'a>(written: &'a WrittenTable<'a>) -> FewPartitions<'a>
    requires counts { exceeds_counts (table_text written.now) ≡ false }
    requires limits { list_any (exceeds_partition written.now.frame)
        (map partition_text written.now.partitions.items)
        ≡ false }
    ensures { result.rows.now ≡ written.now.partitions.items }
{
    FewPartitions {
        rows: written.partitions.as_slice(),
    }
}

/// The table of a text that is within its limits and has these costs and these rows of partitions.
#[tactic(auto, using(crate::proofs::Rules::frame_kept, crate::proofs::Rules::few_partitions, crate::proofs::Rules::few_ports, crate::proofs::Rules::windows_within, crate::proofs::Rules::channels_within, crate::proofs::Rules::windows_known, crate::proofs::Rules::ends_known), unfolding(module_meaning::specs::TableRules::numbered))]
fn numbered(
    alloc: Global,
    written: &WrittenTable<'_>,
    costs: Costs,
    partitions: Vec<PartitionRow>,
) -> Result<ModuleTable, TableFault>
    requires counts { exceeds_counts (table_text written.now) ≡ false }
    requires within { exceeds_rows (table_text written.now) ≡ false }
    requires limits { list_any (exceeds_partition written.now.frame)
        (map partition_text written.now.partitions.items)
        ≡ false }
    requires known { has_unknown_name (table_text written.now) ≡ false }
    requires costs { costs ≡ costs_or_written (table_text written.now).costs }
    requires rows { map partition_row (map partition_text written.now.partitions.items)
        ≡ map partition_view partitions.items }
    ensures kept { IfOk result
        (λ t. (overlaps (table_text written.now) ≡ false)
        × (numbered (table_text written.now) ≡ table_of t)
        × (t.partitions.items ≡ partitions.items)) }
    ensures refused { RefusesOverlap result (overlaps (table_text written.now)) }
{
    let rows = few_partitions(written);
    let channels = channel_rows(alloc, rows, written.channels.as_slice())?;
    let frame = frame_row(written.frame);
    let windows = window_rows(alloc, frame, rows, written.windows.as_slice())?;
    Ok(ModuleTable {
        schedule: Schedule { frame, windows },
        fault: written.fault.unwrap_or(ModuleAction::Ignore),
        costs,
        partitions,
        channels,
    })
}

#[tactic(auto, using(std::proofs::lemmas::List::drop_more))]
fn lacks_health(partitions: &[WrittenPartition<'_>]) -> bool
    ensures { result ≡ list_any (λ p. is_none p.health) (map partition_text partitions.now) }
{
    for partition in partitions {
        if partition.health.is_none() {
            return true;
        }
    }
    false
}

/// Returns true if a health table has not exactly the seven errors, or an action is unknown.
fn has_unknown_action(written: &WrittenTable<'_>) -> bool
    ensures { result ≡ has_unknown_action (table_text written.now) }
{
    written.fault.is_none() || lacks_health(written.partitions.as_slice())
}

/// The first rule on numbered rows that a table breaks.
#[tactic(auto, unfolding(module_meaning::specs::TableRules::judge_table))]
fn broken_rule(
    alloc: Global,
    written: &WrittenTable<'_>,
    table: &ModuleTable,
) -> Result<(), TableFault>
    requires periods { list_any (λ p. p.period == 0) (map partition_view table.now.partitions.items)
        ≡ false }
    requires placed { overlaps (table_text written.now) ≡ false }
    ensures { Judges (λ u. table_of table.now) result
        (judge_table (table_text written.now) (table_of table.now)) }
{
    let schedule = &table.schedule;
    let partitions = table.partitions.as_slice();
    if has_odd_period(schedule.frame, partitions) {
        return Err(TableFault::Period);
    }
    if has_short_period(schedule, ModulePartitions { rows: partitions }) {
        return Err(TableFault::Duration);
    }
    let windows = schedule.windows.as_slice();
    if lacks_release(windows, ModulePartitions { rows: partitions }) {
        return Err(TableFault::Release);
    }
    if has_wrong_ends(alloc, partitions, table.channels.as_slice())? {
        return Err(TableFault::Ends);
    }
    if has_unknown_action(written) {
        return Err(TableFault::Health);
    }
    Ok(())
}

/// The table of a text, if it keeps the rules.
#[tactic(auto, using(crate::proofs::Rules::few_partitions, crate::proofs::Rules::few_ports, crate::proofs::Rules::periods_there), unfolding(module_meaning::specs::TableRules::judge_text, module_meaning::specs::TableRules::judge_table))]
fn judge(alloc: Global, written: &WrittenTable<'_>) -> Result<ModuleTable, TableFault>
    ensures { Judges table_of result (judge_text (table_text written.now)) }
{
    let (costs, partitions) = limited(alloc, written)?;
    if has_same_names(written) {
        return Err(TableFault::Name);
    }
    if has_unknown_name(few_partitions(written), written) {
        return Err(TableFault::Name);
    }
    let table = numbered(alloc, written, costs, partitions)?;
    broken_rule(alloc, written, &table)?;
    Ok(table)
}

/// The module table of a TOML text, or the first rule that it breaks.
///
/// # Errors
///
/// The refusals are in the order of their checks; `Memory` is possible at any time.
#[tactic(auto, unfolding(module_meaning::specs::TableRules::verdict))]
pub fn read_table(alloc: Global, text: &[u8]) -> Result<ModuleTable, TableFault>
    ensures { AnswersText text.now result }
{
    match toml::table_from_slice(alloc, text) {
        Ok(document) => {
            let written = read_written(alloc, &document)?;
            judge(alloc, &written)
        }
        Err(error) => {
            if error.is_memory() {
                Err(TableFault::Memory)
            } else {
                Err(TableFault::Document)
            }
        }
    }
}
