//! The findings of all partitions.

ghost use Rattle.std.specs.Prelude.{◌≡◌, ◌++◌, IfOk, OnOk};
ghost use Rattle.pal_base.specs.WrittenView.{program_of};
ghost use Rattle.window_table.specs.Views.{table_of};
ghost use Rattle.lint.specs.Findings as meant;
ghost use Rattle.lint.specs.Sentences.{have_findings, status};
ghost use Rattle.lint.specs.Views.{found_all};

use crate::channels::add_at_ports;
use crate::finding::Finding;
use crate::gathering::findings;
use crate::slow::add_slow_processes;
use crate::stacks::add_small_stacks;
use apex_types::PortRow;
use pal_base::program::Program as Checked;
use pal_base::syntax::Program as Written;
use std::alloc::{AllocError, Global};
use window_table::{ModuleTable, PartitionRow};

/// The name of a partition, and what is found in its source.
#[derive(Drop)]
pub struct PartitionFindings<'a> {
    pub partition: &'a str,
    pub findings: Vec<Finding<'a>>,
}

/// Adds what is found about the ports of the partition with this number in a table, and about the
/// checked program of its source.
fn add_row_findings<'a>(
    alloc: Global,
    table: &ModuleTable,
    number: usize,
    ports: &'a [PortRow],
    checked: &'a Checked,
    findings: &mut Vec<Finding<'a>>,
) -> Result<(), AllocError>
    ensures { OnOk result
        (found_all findings.new.items
        ≡ found_all findings.old.items
        ++ meant.row_findings (table_of table.now) number ports.now checked.now) }
{
    add_at_ports(&table.partitions, &table.channels, number, ports, findings)?;
    add_slow_processes(&table.costs, &checked.processes, findings)?;
    add_small_stacks(alloc, checked, findings)
}

/// What is found for the partition of a row, which has this number in the table, in its source as
/// written and as checked. Fails only if memory runs out.
pub fn partition_findings<'a>(
    alloc: Global,
    table: &'a ModuleTable,
    number: usize,
    row: &'a PartitionRow,
    written: &'a Written,
    checked: &'a Checked,
) -> Result<PartitionFindings<'a>, AllocError>
    ensures partition { IfOk result (λ found. found.partition.now ≡ row.now.name) }
    ensures findings { IfOk result
        (λ found. found_all found.findings.items
        ≡ meant.partition_findings (table_of table.now) number row.now.ports.items
        (program_of written.now) checked.now) }
{
    let mut found = findings(alloc, &table.partitions, &row.ports, written)?;
    add_row_findings(alloc, table, number, &row.ports, checked, &mut found)?;
    Ok(PartitionFindings {
        partition: row.name.as_str(),
        findings: found,
    })
}

/// Returns true if something is found in any partition.
pub fn have_findings(found: &[PartitionFindings<'_>]) -> bool
    ensures { result ≡ have_findings found.now }
{
    found.iter().any(|partition| !partition.findings.is_empty())
}

/// The exit status: 3 if something is found in any partition, else 0.
pub fn status(found: &[PartitionFindings<'_>]) -> u8
    ensures { result ≡ status found.now }
{
    if have_findings(found) { 3 } else { 0 }
}
