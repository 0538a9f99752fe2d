//! What is never created, started or ended in its first round, and what waits where nothing may.

ghost use Rattle.std.specs.Prelude.{◌≡◌, ◌++◌, [], ℕ, List, map, flat_map, option_map, OnOk};
ghost use Rattle.pal_base.specs.View.{declaration_of, declared_of, exprs_of, integer_of, name_of, process_of, stack_body_of, texts};
ghost use Rattle.lint.specs.Lives as meant;
ghost use Rattle.lint.specs.Plain.{plains};
ghost use Rattle.lint.specs.Views.{call_of, calls_seen, found_all, mentions_seen};

use crate::arrays::is_less;
use crate::call_table::{CallTable, is_kind};
use crate::calls::{Call, add_procedures, calls_of};
use crate::finding::{Finding, FindingKind, add_if, add_unless};
use crate::mentions::Mention;
use crate::names::text_of;
use crate::plain::{is_zero, last_plain, value_of};
use crate::services::{always_waits, has_time_out};
use crate::wanted::{Wanted, expect, is_met, is_met_in_either};
use apex_types::{ObjectKind, Service};
use indexmap::IndexSet;
use pal_base::syntax::{
    Declaration, DeclarationKind, Expr, Identifier, Numeral, Process, StackBody,
};
use std::alloc::{AllocError, Global};

/// The kind of object that a declaration makes known.
fn object_kind(kind: &DeclarationKind) -> Option<ObjectKind>
    ensures { (names : List (List ℕ)) → result ≡ meant.object_kind (declared_of names kind.now) }
{
    match kind {
        DeclarationKind::Semaphore { .. } => Some(ObjectKind::Semaphore),
        DeclarationKind::Event => Some(ObjectKind::Event),
        DeclarationKind::Buffer { .. } => Some(ObjectKind::Buffer),
        DeclarationKind::Blackboard { .. } => Some(ObjectKind::Blackboard),
        DeclarationKind::Port => Some(ObjectKind::Port),
        DeclarationKind::Variable(_) => None,
        DeclarationKind::Array { .. } => None,
        DeclarationKind::Procedure { .. } => None,
    }
}

/// Adds the finding that what has this kind and name is never created.
fn expect_creation<'a>(
    names: &'a IndexSet<String>,
    table: &CallTable<'_>,
    kind: Option<ObjectKind>,
    name: Identifier,
    line: u32,
    findings: &mut Vec<Finding<'a>>,
) -> Result<(), AllocError>
    ensures { OnOk result
        (found_all findings.new.items
        ≡ found_all findings.old.items
        ++ meant.never_created table.now kind (name_of (texts names.now.keys) name)) }
{
    let Some(kind) = kind else {
        return Ok(());
    };
    let subject = text_of(names, name.name);
    let finding = Finding {
        line,
        kind: FindingKind::NeverCreated,
        subject,
    };
    add_unless(table.creates(kind, subject), finding, findings)
}

/// Adds the objects and the ports that no call creates.
#[tactic(auto, using(std::proofs::lemmas::List::drop_more))]
pub fn add_objects<'a>(
    names: &'a IndexSet<String>,
    table: &CallTable<'_>,
    declarations: &[Declaration],
    findings: &mut Vec<Finding<'a>>,
) -> Result<(), AllocError>
    ensures { OnOk result
        (found_all findings.new.items
        ≡ found_all findings.old.items
        ++ meant.objects_never_created table.now
        (map (declaration_of (texts names.now.keys)) declarations.now)) }
{
    for declaration in declarations {
        let kind = object_kind(&declaration.kind);
        let line = declaration.line;
        expect_creation(names, table, kind, declaration.name, line, findings)?;
    }
    Ok(())
}

/// Adds the processes that no call creates.
#[tactic(auto, using(std::proofs::lemmas::List::drop_more))]
pub fn add_uncreated<'a>(
    names: &'a IndexSet<String>,
    table: &CallTable<'_>,
    processes: &[Process],
    findings: &mut Vec<Finding<'a>>,
) -> Result<(), AllocError>
    ensures { OnOk result
        (found_all findings.new.items
        ≡ found_all findings.old.items
        ++ meant.processes_never_created table.now
        (map (process_of (texts names.now.keys)) processes.now)) }
{
    for process in processes {
        let kind = Some(ObjectKind::Process);
        expect_creation(names, table, kind, process.name, process.line, findings)?;
    }
    Ok(())
}

/// Adds the handler, if no call creates it.
pub fn add_handler<'a>(
    names: &'a IndexSet<String>,
    calls: &[Call<'_>],
    handler: &Option<StackBody>,
    findings: &mut Vec<Finding<'a>>,
) -> Result<(), AllocError>
    ensures { OnOk result
        (found_all findings.new.items
        ≡ found_all findings.old.items
        ++ meant.handler_never_created (calls_seen (texts names.now.keys) calls.now)
        (option_map (stack_body_of (texts names.now.keys)) handler.now)) }
{
    let Some(handler) = handler else {
        return Ok(());
    };
    let finding = Finding {
        line: handler.line,
        kind: FindingKind::HandlerNeverCreated,
        subject: "",
    };
    expect(names, Wanted::HandlerCreation, calls, finding, findings)
}

/// Adds the finding that no call may start the process of this number and name.
fn expect_start<'a>(
    names: &'a IndexSet<String>,
    table: &CallTable<'_>,
    number: u64,
    process: &Process,
    findings: &mut Vec<Finding<'a>>,
) -> Result<(), AllocError>
    ensures { OnOk result
        (found_all findings.new.items
        ≡ found_all findings.old.items
        ++ meant.lacking (meant.Start number (name_of (texts names.now.keys) process.now.name))
        table.now
        (meant.found FindingKind.NeverStarted
        (name_of (texts names.now.keys) process.now.name))) }
{
    let subject = text_of(names, process.name.name);
    let finding = Finding {
        line: process.line,
        kind: FindingKind::NeverStarted,
        subject,
    };
    add_unless(table.starts(number, subject), finding, findings)
}

/// Adds the processes that no call may start. They are numbered from 1.
#[tactic(auto, using(std::proofs::lemmas::List::drop_more))]
pub fn add_unstarted<'a>(
    names: &'a IndexSet<String>,
    table: &CallTable<'_>,
    processes: &[Process],
    findings: &mut Vec<Finding<'a>>,
) -> Result<(), AllocError>
    ensures { OnOk result
        (found_all findings.new.items
        ≡ found_all findings.old.items
        ++ meant.never_started table.now 1
        (map (process_of (texts names.now.keys)) processes.now)) }
{
    let mut number: u64 = 1;
    for process in processes {
        expect_start(names, table, number, process, findings)?;
        number += 1;
    }
    Ok(())
}

/// Adds the finding that neither INIT nor a procedure may enter NORMAL, at the line of INIT. The
/// calls are those of INIT and of the procedures.
pub fn add_never_normal<'a>(
    names: &'a IndexSet<String>,
    calls: &[Call<'_>],
    line: u32,
    findings: &mut Vec<Finding<'a>>,
) -> Result<(), AllocError>
    ensures { OnOk result
        (found_all findings.new.items
        ≡ found_all findings.old.items
        ++ meant.lacking meant.NormalMode (calls_seen (texts names.now.keys) calls.now)
        (meant.found FindingKind.NeverNormal [])) }
{
    let finding = Finding {
        line,
        kind: FindingKind::NeverNormal,
        subject: "",
    };
    expect(names, Wanted::NormalMode, calls, finding, findings)
}

/// Adds a semaphore or an event that a call waits for, and that no call may signal or set.
fn add_never_signalled<'a>(
    names: &'a IndexSet<String>,
    calls: &[Call<'_>],
    kind: ObjectKind,
    number: u64,
    name: Identifier,
    findings: &mut Vec<Finding<'a>>,
) -> Result<(), AllocError>
    ensures { OnOk result
        (found_all findings.new.items
        ≡ found_all findings.old.items
        ++ meant.never_signalled (calls_seen (texts names.now.keys) calls.now) kind number
        (name_of (texts names.now.keys) name)) }
{
    if !is_met(names, Wanted::Wait(kind, number, name.name), calls) {
        return Ok(());
    }
    let finding = Finding {
        line: name.line,
        kind: FindingKind::NeverSignalled,
        subject: text_of(names, name.name),
    };
    let wanted = Wanted::Signal(kind, number, name.name);
    expect(names, wanted, calls, finding, findings)
}

/// Adds the semaphores or the events that calls wait for, and that no call may signal or set. Those
/// of a kind are numbered from 1.
#[tactic(auto, using(std::proofs::lemmas::List::drop_more))]
pub fn add_all_never_signalled<'a>(
    names: &'a IndexSet<String>,
    calls: &[Call<'_>],
    kind: ObjectKind,
    declarations: &[Declaration],
    findings: &mut Vec<Finding<'a>>,
) -> Result<(), AllocError>
    ensures { OnOk result
        (found_all findings.new.items
        ≡ found_all findings.old.items
        ++ meant.all_never_signalled (calls_seen (texts names.now.keys) calls.now) kind 1
        (map (declaration_of (texts names.now.keys)) declarations.now)) }
{
    let mut number: u64 = 1;
    for declaration in declarations {
        if is_kind(kind, object_kind(&declaration.kind)) {
            add_never_signalled(names, calls, kind, number, declaration.name, findings)?;
            number += 1;
        }
    }
    Ok(())
}

/// Adds a periodic process that does not wait for its next release, nor does a procedure. The calls
/// are those of the procedures.
fn add_without_wait<'a, 'p>(
    alloc: Global,
    names: &'a IndexSet<String>,
    done: &[Mention<'p>],
    calls: &[Call<'_>],
    process: &'p Process,
    findings: &mut Vec<Finding<'a>>,
) -> Result<(), AllocError>
    ensures { OnOk result
        (found_all findings.new.items
        ≡ found_all findings.old.items
        ++ meant.without_wait (mentions_seen (texts names.now.keys) done.now)
        (calls_seen (texts names.now.keys) calls.now)
        (process_of (texts names.now.keys) process.now)) }
{
    if process.period.negative {
        return Ok(());
    }
    let own = calls_of(alloc, names, done, &process.body)?;
    let finding = Finding {
        line: process.line,
        kind: FindingKind::NoPeriodicWait,
        subject: text_of(names, process.name.name),
    };
    let waits = is_met_in_either(names, Wanted::PeriodicWait, &own, calls);
    add_unless(waits, finding, findings)
}

/// Adds the periodic processes that do not wait for their next release. The calls are those of the
/// procedures.
#[tactic(auto, using(std::proofs::lemmas::List::drop_more))]
pub fn add_without_waits<'a, 'p>(
    alloc: Global,
    names: &'a IndexSet<String>,
    done: &[Mention<'p>],
    calls: &[Call<'_>],
    processes: &'p [Process],
    findings: &mut Vec<Finding<'a>>,
) -> Result<(), AllocError>
    ensures { OnOk result
        (found_all findings.new.items
        ≡ found_all findings.old.items
        ++ meant.without_waits (mentions_seen (texts names.now.keys) done.now)
        (calls_seen (texts names.now.keys) calls.now)
        (map (process_of (texts names.now.keys)) processes.now)) }
{
    for process in processes {
        add_without_wait(alloc, names, done, calls, process, findings)?;
    }
    Ok(())
}

/// Returns true if a time capacity is above a period.
fn is_longer(capacity: &Numeral, period: &Numeral) -> bool
    ensures { result ≡ meant.is_longer (integer_of capacity.now) (integer_of period.now) }
{
    !capacity.negative && !period.negative && is_less(value_of(period), value_of(capacity))
}

/// Adds the processes whose time capacity is above their period.
#[tactic(auto, using(std::proofs::lemmas::List::drop_more))]
pub fn add_long_capacities<'a>(
    names: &'a IndexSet<String>,
    processes: &[Process],
    findings: &mut Vec<Finding<'a>>,
) -> Result<(), AllocError>
    ensures { OnOk result
        (found_all findings.new.items
        ≡ found_all findings.old.items
        ++ flat_map meant.long_capacity (map (process_of (texts names.now.keys)) processes.now)) }
{
    for process in processes {
        let finding = Finding {
            line: process.line,
            kind: FindingKind::LongCapacity,
            subject: text_of(names, process.name.name),
        };
        let longer = is_longer(&process.capacity, &process.period);
        add_if(longer, finding, findings)?;
    }
    Ok(())
}

/// Adds the handler, if neither it nor a procedure takes an error. The calls are those of the
/// procedures.
pub fn add_no_error_status<'a, 'p>(
    alloc: Global,
    names: &'a IndexSet<String>,
    done: &[Mention<'p>],
    calls: &[Call<'_>],
    handler: &'p Option<StackBody>,
    findings: &mut Vec<Finding<'a>>,
) -> Result<(), AllocError>
    ensures { OnOk result
        (found_all findings.new.items
        ≡ found_all findings.old.items
        ++ meant.takes_no_error (mentions_seen (texts names.now.keys) done.now)
        (calls_seen (texts names.now.keys) calls.now)
        (option_map (stack_body_of (texts names.now.keys)) handler.now)) }
{
    let Some(handler) = handler else {
        return Ok(());
    };
    let finding = Finding {
        line: handler.line,
        kind: FindingKind::NoErrorStatus,
        subject: "",
    };
    let own = calls_of(alloc, names, done, &handler.body)?;
    let takes = is_met_in_either(names, Wanted::ErrorStatus, &own, calls);
    add_unless(takes, finding, findings)
}

/// Returns true if a service with these arguments waits, or if its time-out is not written as 0.
pub fn may_wait(service: Service, arguments: &[Expr]) -> bool
    ensures { (names : List (List ℕ))
        → result ≡ meant.may_wait service (plains (exprs_of names arguments.now)) }
{
    always_waits(service) || (has_time_out(service) && !is_zero(last_plain(arguments)))
}

/// Returns true if a call may wait.
fn waits(call: &Call<'_>) -> bool
    ensures { (names : List (List ℕ)) → result ≡ meant.waits (call_of names call.now) }
{
    may_wait(call.service, call.arguments)
}

/// Adds the calls of INIT that wait.
#[tactic(auto, using(std::proofs::lemmas::List::drop_more))]
pub fn add_waits<'a>(
    names: &'a IndexSet<String>,
    calls: &[Call<'_>],
    findings: &mut Vec<Finding<'a>>,
) -> Result<(), AllocError>
    ensures { OnOk result
        (found_all findings.new.items
        ≡ found_all findings.old.items
        ++ flat_map meant.wait_in_init (calls_seen (texts names.now.keys) calls.now)) }
{
    for call in calls {
        let finding = Finding {
            line: call.line,
            kind: FindingKind::WaitInInit,
            subject: call.service.word(),
        };
        add_if(waits(call), finding, findings)?;
    }
    Ok(())
}
