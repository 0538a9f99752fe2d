//! The costs of the bodies of accepted sources.

ghost use Rattle.std.specs.Prelude.{◌≡◌, length, map, IfOk, IfErr};
ghost use Rattle.image.specs.Items.{partition_of};
ghost use Rattle.window_table.specs.Views.{table_of};
ghost use Rattle.module.specs.Costs.{AreCosts, AreCostsOf, IsAcceptedModule, IsCostOf, IsCostRefusal, IsCostRefusedWith};
ghost use Rattle.module.specs.Sources.{AreSources};

use crate::accepting::accept_sources;
use crate::building::accept_table;
use crate::fault::BuildFault;
use apex_types::{Costs, Name};
use pal::{BodyCost, Checked, cost_report};
use std::alloc::{AllocError, Global};
use window_table::{ModuleTable, PartitionRow};

/// The costs of the bodies of a partition's program: INIT, the handler, the processes, the procedures.
#[derive(Drop)]
pub struct PartitionCosts {
    pub partition: Name,
    pub bodies: Vec<BodyCost>,
}

/// A module table and the sources of its partitions, all of them accepted.
#[derive(Drop)]
pub struct AcceptedModule {
    pub table: ModuleTable,
    /// One for each partition, in the order of the table.
    pub sources: Vec<Checked>,
}

/// The module table and the sources of its partitions, whose texts are given in the same order.
///
/// # Errors
///
/// `Memory` if no memory is left. Otherwise, in this order: the lowest rule that the table breaks;
/// a number of sources that is not the number of partitions; and the lowest rule that a source
/// breaks, with its line, of the first partition whose source is refused.
pub fn accept_module(
    alloc: Global,
    table: &[u8],
    sources: &[&[u8]],
) -> Result<AcceptedModule, BuildFault>
    ensures accepted { IfOk result
        (λ accepted. IsAcceptedModule table.now (map (λ s. s.now) sources.now) accepted) }
    ensures refused { IfErr result
        (λ fault. IsCostRefusal table.now (map (λ s. s.now) sources.now) fault) }
{
    let table = accept_table(alloc, table)?;
    let sources = accept_with(alloc, &table, sources)?;
    Ok(AcceptedModule { table, sources })
}

/// The sources with an accepted table.
fn accept_with(
    alloc: Global,
    table: &ModuleTable,
    sources: &[&[u8]],
) -> Result<Vec<Checked>, BuildFault>
    ensures accepted { IfOk result
        (λ accepted.
        AreSources (table_of table.now).partitions (map (λ s. s.now) sources.now) accepted.items) }
    ensures refused { IfErr result
        (λ fault. IsCostRefusedWith (table_of table.now) (map (λ s. s.now) sources.now) fault) }
{
    if sources.len() != table.partitions.len() {
        return Err(BuildFault::Sources);
    }
    let rows = table.partitions.as_slice();
    accept_sources(alloc, rows, sources)
}

/// The costs of the bodies of a module table's partitions, whose source texts are given in the same
/// order.
///
/// # Errors
///
/// Those of [`accept_module`].
pub fn costs(
    alloc: Global,
    table: &[u8],
    sources: &[&[u8]],
) -> Result<Vec<PartitionCosts>, BuildFault>
    ensures costs { IfOk result
        (λ costs. AreCosts table.now (map (λ s. s.now) sources.now) costs.items) }
    ensures refused { IfErr result
        (λ fault. IsCostRefusal table.now (map (λ s. s.now) sources.now) fault) }
{
    let AcceptedModule { table, sources } = accept_module(alloc, table, sources)?;
    let rows = table.partitions.as_slice();
    Ok(costs_of_sources(alloc, &table.costs, rows, sources)?)
}

/// The costs of accepted sources, one for each partition.
fn costs_of_sources(
    alloc: Global,
    costs: &Costs,
    rows: &[PartitionRow],
    sources: Vec<Checked>,
) -> Result<Vec<PartitionCosts>, AllocError>
    requires { length sources.items ≡ length rows.now }
    ensures { IfOk result
        (λ reports.
        AreCostsOf costs.now (map partition_of rows.now) sources.items reports.items) }
{
    let mut reports = Vec::with_capacity(alloc, rows.len())?;
    let mut place = 0usize;
    for source in sources {
        let row = &rows[place];
        reports.push(partition_costs(alloc, costs, row, source)?)?;
        place += 1;
    }
    Ok(reports)
}

/// The costs of a partition's program.
fn partition_costs(
    alloc: Global,
    costs: &Costs,
    row: &PartitionRow,
    source: Checked,
) -> Result<PartitionCosts, AllocError>
    ensures { IfOk result (λ report. IsCostOf costs.now (partition_of row.now) source report) }
{
    match cost_report(alloc, costs, &source) {
        Ok(bodies) => Ok(PartitionCosts {
            partition: row.name,
            bodies,
        }),
        Err(_) => Err(AllocError),
    }
}
