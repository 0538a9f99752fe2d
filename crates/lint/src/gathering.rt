//! All that is found in a source.

ghost use Rattle.std.specs.Prelude.{◌≡◌, ◌++◌, map, IfOk, OnOk};
ghost use Rattle.pal_base.specs.View.{texts};
ghost use Rattle.pal_base.specs.WrittenView.{program_of};
ghost use Rattle.window_table.specs.Views.{partition_view};
ghost use Rattle.lint.specs.Calls.{all_calls, calls_of_init, calls_of_procedures, done_in};
ghost use Rattle.lint.specs.DeclarationsView.{declared_in};
ghost use Rattle.lint.specs.Findings as meant;
ghost use Rattle.lint.specs.Views.{calls_seen, found_all, mentions_seen};

use crate::call_table::CallTable;
use crate::calls::{Call, add_procedures, all_calls, calls_of, done_in};
use crate::declarations::Declarations;
use crate::finding::Finding;
use crate::mentions::{Mention, add_all};
use crate::unused::add_unused;
use crate::{does, lives, locks, port_rules, recursion};
use apex_types::{ObjectKind, PortRow};
use pal_base::syntax::Program;
use std::alloc::{AllocError, Global};
use window_table::PartitionRow;

/// The calls of the procedures of a program that does this.
fn procedure_calls<'a>(
    alloc: Global,
    program: &'a Program,
    done: &[Mention<'a>],
) -> Result<Vec<Call<'a>>, AllocError>
    requires { mentions_seen (texts program.now.names.keys) done.now
        ≡ done_in (program_of program.now) }
    ensures { IfOk result
        (λ calls. calls_seen (texts program.now.names.keys) calls.items
        ≡ calls_of_procedures (done_in (program_of program.now))
        (program_of program.now).declarations) }
{
    let mut calls = Vec::new(alloc);
    add_procedures(
        alloc,
        &program.names,
        done,
        &program.declarations,
        &mut calls,
    )?;
    Ok(calls)
}

/// The calls of INIT of a program that does this.
fn init_calls<'a>(
    alloc: Global,
    program: &'a Program,
    done: &[Mention<'a>],
) -> Result<Vec<Call<'a>>, AllocError>
    requires { mentions_seen (texts program.now.names.keys) done.now
        ≡ done_in (program_of program.now) }
    ensures { IfOk result
        (λ calls. calls_seen (texts program.now.names.keys) calls.items
        ≡ calls_of_init (program_of program.now)) }
{
    calls_of(alloc, &program.names, done, &program.init.body)
}

/// The calls of INIT and of the procedures of a program that does this.
fn init_and_procedure_calls<'a>(
    alloc: Global,
    program: &'a Program,
    done: &[Mention<'a>],
) -> Result<Vec<Call<'a>>, AllocError>
    requires { mentions_seen (texts program.now.names.keys) done.now
        ≡ done_in (program_of program.now) }
    ensures { IfOk result
        (λ calls. calls_seen (texts program.now.names.keys) calls.items
        ≡ calls_of_init (program_of program.now)
        ++ calls_of_procedures (done_in (program_of program.now))
        (program_of program.now).declarations) }
{
    let mut calls = init_calls(alloc, program, done)?;
    add_procedures(
        alloc,
        &program.names,
        done,
        &program.declarations,
        &mut calls,
    )?;
    Ok(calls)
}

/// Adds what is found about ports, and about calls.
fn add_port_findings<'a>(
    rows: &'a [PartitionRow],
    ports: &'a [PortRow],
    program: &'a Program,
    declarations: &Declarations<'_>,
    calls: &[Call<'_>],
    findings: &mut Vec<Finding<'a>>,
) -> Result<(), AllocError>
    requires calls { calls_seen (texts program.now.names.keys) calls.now
        ≡ all_calls (program_of program.now) }
    requires declarations { declared_in declarations.now
        ≡ (program_of program.now).declarations }
    ensures { OnOk result
        (found_all findings.new.items
        ≡ found_all findings.old.items
        ++ meant.port_findings (map partition_view rows.now) ports.now (program_of program.now)) }
{
    let names = &program.names;
    port_rules::add_unknown(names, ports, &program.declarations, findings)?;
    port_rules::add_better_row(names, rows, ports, &program.declarations, findings)?;
    port_rules::add_undeclared(names, ports, &program.declarations, findings)?;
    does::add_at_calls(names, ports, declarations, calls, findings)
}

/// Adds what is found about indices, divisions, loops and recursion.
fn add_body_findings<'a>(
    alloc: Global,
    program: &'a Program,
    declarations: &Declarations<'_>,
    findings: &mut Vec<Finding<'a>>,
) -> Result<(), AllocError>
    requires { declared_in declarations.now ≡ (program_of program.now).declarations }
    ensures { OnOk result
        (found_all findings.new.items
        ≡ found_all findings.old.items ++ meant.body_findings (program_of program.now)) }
{
    let names = &program.names;
    let mut mentions = Vec::new(alloc);
    add_all(&mut mentions, program)?;
    does::add_at_mentions(names, declarations, &mentions, findings)?;
    recursion::add_endless_procedures(alloc, names, &program.declarations, findings)
}

/// Adds what is found in calls and bodies.
fn add_use_findings<'a>(
    alloc: Global,
    rows: &'a [PartitionRow],
    ports: &'a [PortRow],
    program: &'a Program,
    calls: &[Call<'_>],
    findings: &mut Vec<Finding<'a>>,
) -> Result<(), AllocError>
    requires { calls_seen (texts program.now.names.keys) calls.now
        ≡ all_calls (program_of program.now) }
    ensures { OnOk result
        (found_all findings.new.items
        ≡ found_all findings.old.items
        ++ (meant.port_findings (map partition_view rows.now) ports.now (program_of program.now)
        ++ meant.body_findings (program_of program.now))) }
{
    let declarations = Declarations::of(alloc, &program.names, &program.declarations)?;
    add_port_findings(rows, ports, program, &declarations, calls, findings)?;
    add_body_findings(alloc, program, &declarations, findings)
}

/// Adds what is found about creation, starts and signals, by a table of the calls.
fn add_by_table<'a>(
    program: &'a Program,
    calls: &[Call<'_>],
    table: &CallTable<'_>,
    findings: &mut Vec<Finding<'a>>,
) -> Result<(), AllocError>
    requires calls { calls_seen (texts program.now.names.keys) calls.now
        ≡ all_calls (program_of program.now) }
    requires table { table.now ≡ all_calls (program_of program.now) }
    ensures { OnOk result
        (found_all findings.new.items
        ≡ found_all findings.old.items ++ meant.creation_findings (program_of program.now)) }
{
    let names = &program.names;
    let declarations = program.declarations.as_slice();
    let (semaphore, event) = (ObjectKind::Semaphore, ObjectKind::Event);
    lives::add_objects(names, table, declarations, findings)?;
    lives::add_uncreated(names, table, &program.processes, findings)?;
    lives::add_handler(names, calls, &program.handler, findings)?;
    lives::add_unstarted(names, table, &program.processes, findings)?;
    lives::add_all_never_signalled(names, calls, semaphore, declarations, findings)?;
    lives::add_all_never_signalled(names, calls, event, declarations, findings)
}

/// Adds what is found about creation, starts and signals.
fn add_creations<'a>(
    alloc: Global,
    program: &'a Program,
    calls: &[Call<'_>],
    findings: &mut Vec<Finding<'a>>,
) -> Result<(), AllocError>
    requires { calls_seen (texts program.now.names.keys) calls.now
        ≡ all_calls (program_of program.now) }
    ensures { OnOk result
        (found_all findings.new.items
        ≡ found_all findings.old.items ++ meant.creation_findings (program_of program.now)) }
{
    let table = CallTable::of(alloc, &program.names, &*calls)?;
    add_by_table(program, calls, &table, findings)
}

/// Adds what is found about NORMAL, about periods and about the handler.
fn add_by_procedures<'a>(
    alloc: Global,
    program: &'a Program,
    done: &[Mention<'a>],
    findings: &mut Vec<Finding<'a>>,
) -> Result<(), AllocError>
    requires { mentions_seen (texts program.now.names.keys) done.now
        ≡ done_in (program_of program.now) }
    ensures { OnOk result
        (found_all findings.new.items
        ≡ found_all findings.old.items ++ meant.round_findings (program_of program.now)) }
{
    let names = &program.names;
    let processes = program.processes.as_slice();
    let calls = procedure_calls(alloc, program, done)?;
    lives::add_without_waits(alloc, names, done, &calls, processes, findings)?;
    lives::add_long_capacities(names, processes, findings)?;
    lives::add_no_error_status(alloc, names, done, &calls, &program.handler, findings)
}

/// Adds what is found about NORMAL, about periods, about the handler and about waits.
fn add_waits<'a>(
    alloc: Global,
    program: &'a Program,
    done: &[Mention<'a>],
    findings: &mut Vec<Finding<'a>>,
) -> Result<(), AllocError>
    requires { mentions_seen (texts program.now.names.keys) done.now
        ≡ done_in (program_of program.now) }
    ensures { OnOk result
        (found_all findings.new.items
        ≡ found_all findings.old.items ++ meant.wait_findings (program_of program.now)) }
{
    let names = &program.names;
    let calls = init_and_procedure_calls(alloc, program, done)?;
    lives::add_never_normal(names, &calls, program.init.line, findings)?;
    add_by_procedures(alloc, program, done, findings)?;
    let calls = init_calls(alloc, program, done)?;
    lives::add_waits(names, &calls, findings)?;
    locks::add_locked_waits(program, findings)
}

/// What is found in a source for a partition with these ports, in a table with these rows: about
/// ports, calls and bodies, about creation, starts and signals, about NORMAL, periods, the handler
/// and waits, and about names that no statement names. Fails only if memory runs out.
pub fn findings<'a>(
    alloc: Global,
    rows: &'a [PartitionRow],
    ports: &'a [PortRow],
    program: &'a Program,
) -> Result<Vec<Finding<'a>>, AllocError>
    ensures { IfOk result
        (λ findings. found_all findings.items
        ≡ meant.findings (map partition_view rows.now) ports.now (program_of program.now)) }
{
    let done = done_in(alloc, program)?;
    let calls = all_calls(alloc, program, &done)?;
    let mut findings = Vec::new(alloc);
    add_use_findings(alloc, rows, ports, program, &calls, &mut findings)?;
    add_creations(alloc, program, &calls, &mut findings)?;
    add_waits(alloc, program, &done, &mut findings)?;
    add_unused(alloc, program, &mut findings)?;
    Ok(findings)
}
