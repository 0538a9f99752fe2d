//! Processes whose bodies cost more than their time capacities.

ghost use Rattle.std.specs.Prelude.{◌≡◌, ◌++◌, IfOk, OnOk};
ghost use Rattle.lint.specs.Slow as meant;
ghost use Rattle.lint.specs.Views.{found_all};

use crate::finding::{Finding, FindingKind, add_if};
use apex_types::Costs;
use pal_base::cost::cost_of_body;
use pal_base::program::Process;
use std::alloc::{AllocError, Global};

/// Returns true if a time capacity is less than these ticks.
fn is_above(ticks: u64, capacity: Option<u64>) -> bool
    ensures { result ≡ meant.is_above ticks capacity }
{
    match capacity {
        Some(capacity) => capacity < ticks,
        None => false,
    }
}

/// Adds the processes of a checked program whose bodies cost more than their time capacities, each
/// construct counted once. They have no lines.
#[tactic(auto, using(std::proofs::lemmas::List::drop_more))]
pub fn add_slow_processes<'a>(
    costs: &Costs,
    processes: &'a [Process],
    findings: &mut Vec<Finding<'a>>,
) -> Result<(), AllocError>
    ensures { OnOk result
        (found_all findings.new.items
        ≡ found_all findings.old.items ++ meant.slow_processes costs.now processes.now) }
{
    for process in processes {
        let finding = Finding {
            line: 0,
            kind: FindingKind::AboveCapacity,
            subject: process.name.as_str(),
        };
        let ticks = cost_of_body(costs, &process.body).ticks;
        add_if(is_above(ticks, process.capacity), finding, findings)?;
    }
    Ok(())
}

/// The processes of a checked program whose bodies cost more than their time capacities, each
/// construct counted once. They have no lines. Fails only if memory runs out.
pub fn slow_processes<'a>(
    alloc: Global,
    costs: &Costs,
    processes: &'a [Process],
) -> Result<Vec<Finding<'a>>, AllocError>
    ensures { IfOk result
        (λ findings. found_all findings.items ≡ meant.slow_processes costs.now processes.now) }
{
    let mut findings = Vec::new(alloc);
    add_slow_processes(costs, processes, &mut findings)?;
    Ok(findings)
}
