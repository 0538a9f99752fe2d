//! What is wrong about the ports of a source.

ghost use Rattle.std.specs.Prelude.{◌≡◌, ◌≤◌, ◌++◌, ℕ, List, map, option_map, option_copied, OnOk, if◌then◌else◌};
ghost use Rattle.module_meaning.specs.Table.{at_number};
ghost use Rattle.pal_base.specs.View.{declaration_of, declared_of, id_text, name_of, texts};
ghost use Rattle.window_table.specs.Views.{partition_view};
ghost use Rattle.lint.specs.Ports as meant;
ghost use Rattle.lint.specs.Services.{numbered_kind};
ghost use Rattle.lint.specs.Views.{call_of, found_all, id_seen};

use crate::calls::Call;
use crate::finding::{Finding, FindingKind, add_if, add_unless};
use crate::names::text_of;
use crate::plain::{first_plain, name_in};
use crate::services::{numbered_kind, port_direction, port_kind};
use crate::uses::Id;
use apex_types::{ObjectKind, PortDirection, PortKind, PortRow};
use indexmap::IndexSet;
use pal_base::syntax::{Declaration, DeclarationKind, NameId};
use std::alloc::AllocError;
use window_table::PartitionRow;

/// The port of a row with this name.
#[tactic(auto, using(std::proofs::lemmas::List::drop_more))]
fn port_named<'a>(ports: &'a [PortRow], name: &str) -> Option<&'a PortRow>
    ensures { option_copied result ≡ meant.port_named ports.now name.now }
{
    for port in ports {
        if port.name.as_str() == name {
            return Some(port);
        }
    }
    None
}

/// Returns true if a row has a port of this name.
fn has_port(ports: &[PortRow], name: &str) -> bool
    ensures { result ≡ meant.has_port ports.now name.now }
{
    ports.iter().any(|port| port.name.as_str() == name)
}

/// Returns true if a port is declared that the row has not.
fn is_unknown(ports: &[PortRow], kind: &DeclarationKind, name: &str) -> bool
    ensures { (names : List (List ℕ))
        → result ≡ meant.is_unknown ports.now (declared_of names kind.now) name.now }
{
    match kind {
        DeclarationKind::Port => !has_port(ports, name),
        DeclarationKind::Variable(_) => false,
        DeclarationKind::Array { .. } => false,
        DeclarationKind::Semaphore { .. } => false,
        DeclarationKind::Event => false,
        DeclarationKind::Buffer { .. } => false,
        DeclarationKind::Blackboard { .. } => false,
        DeclarationKind::Procedure { .. } => false,
    }
}

/// Adds the declared ports that the row has not.
#[tactic(auto, using(std::proofs::lemmas::List::drop_more))]
pub fn add_unknown<'a>(
    names: &'a IndexSet<String>,
    ports: &[PortRow],
    declarations: &[Declaration],
    findings: &mut Vec<Finding<'a>>,
) -> Result<(), AllocError>
    ensures { OnOk result
        (found_all findings.new.items
        ≡ found_all findings.old.items
        ++ meant.unknown_ports ports.now
        (map (declaration_of (texts names.now.keys)) declarations.now)) }
{
    for declaration in declarations {
        let subject = text_of(names, declaration.name.name);
        let finding = Finding {
            line: declaration.line,
            kind: FindingKind::UnknownPort,
            subject,
        };
        let unknown = is_unknown(ports, &declaration.kind, subject);
        add_if(unknown, finding, findings)?;
    }
    Ok(())
}

/// 1 if a port is declared that the row has not, else 0.
fn misfit(names: &IndexSet<String>, ports: &[PortRow], declaration: &Declaration) -> usize
    ensures exact { result
        ≡ (if meant.is_unknown ports.now
        (declared_of (texts names.now.keys) declaration.now.kind)
        (name_of (texts names.now.keys) declaration.now.name) then 1 else 0) }
    ensures small { result ≤ 1 }
{
    let name = text_of(names, declaration.name.name);
    if is_unknown(ports, &declaration.kind, name) {
        1
    } else {
        0
    }
}

/// How many of the declared ports the row has not.
#[tactic(auto, using(std::proofs::lemmas::List::drop_more))]
fn misfits(names: &IndexSet<String>, ports: &[PortRow], declarations: &[Declaration]) -> usize
    ensures { result
        ≡ meant.misfits ports.now (map (declaration_of (texts names.now.keys)) declarations.now) }
{
    let mut count: usize = 0;
    for declaration in declarations {
        count += misfit(names, ports, declaration);
    }
    count
}

/// Adds the first partition whose row lacks fewer than `own` of the declared ports.
#[tactic(auto, using(std::proofs::lemmas::List::drop_more))]
fn add_first_better<'a>(
    names: &IndexSet<String>,
    rows: &'a [PartitionRow],
    own: usize,
    declarations: &[Declaration],
    findings: &mut Vec<Finding<'a>>,
) -> Result<(), AllocError>
    ensures { OnOk result
        (found_all findings.new.items
        ≡ found_all findings.old.items
        ++ meant.better_row own (map (declaration_of (texts names.now.keys)) declarations.now)
        (map partition_view rows.now)) }
{
    for row in rows {
        if misfits(names, &row.ports, declarations) < own {
            findings.push(Finding {
                line: 0,
                kind: FindingKind::FitsAnother,
                subject: row.name.as_str(),
            })?;
            return Ok(());
        }
    }
    Ok(())
}

/// Adds the first partition whose row lacks fewer of the declared ports than the partition's own.
pub fn add_better_row<'a>(
    names: &IndexSet<String>,
    rows: &'a [PartitionRow],
    own: &[PortRow],
    declarations: &[Declaration],
    findings: &mut Vec<Finding<'a>>,
) -> Result<(), AllocError>
    ensures { OnOk result
        (found_all findings.new.items
        ≡ found_all findings.old.items
        ++ meant.better_row
        (meant.misfits own.now (map (declaration_of (texts names.now.keys)) declarations.now))
        (map (declaration_of (texts names.now.keys)) declarations.now)
        (map partition_view rows.now)) }
{
    let lacking = misfits(names, own, declarations);
    add_first_better(names, rows, lacking, declarations, findings)
}

/// Returns true if a declaration is of a port of this name.
fn is_port_of(name: &str, kind: &DeclarationKind, declared: &str) -> bool
    ensures { (names : List (List ℕ))
        → result ≡ meant.is_port_of name.now (declared_of names kind.now) declared.now }
{
    match kind {
        DeclarationKind::Port => declared == name,
        DeclarationKind::Variable(_) => false,
        DeclarationKind::Array { .. } => false,
        DeclarationKind::Semaphore { .. } => false,
        DeclarationKind::Event => false,
        DeclarationKind::Buffer { .. } => false,
        DeclarationKind::Blackboard { .. } => false,
        DeclarationKind::Procedure { .. } => false,
    }
}

/// Returns true if a port of this name is declared.
#[tactic(auto, using(std::proofs::lemmas::List::drop_more))]
fn declares_port(names: &IndexSet<String>, name: &str, declarations: &[Declaration]) -> bool
    ensures { result
        ≡ meant.declares_port name.now
        (map (declaration_of (texts names.now.keys)) declarations.now) }
{
    for declaration in declarations {
        let declared = text_of(names, declaration.name.name);
        if is_port_of(name, &declaration.kind, declared) {
            return true;
        }
    }
    false
}

/// Adds the ports of the row that are not declared.
#[tactic(auto, using(std::proofs::lemmas::List::drop_more))]
pub fn add_undeclared<'a>(
    names: &IndexSet<String>,
    ports: &'a [PortRow],
    declarations: &[Declaration],
    findings: &mut Vec<Finding<'a>>,
) -> Result<(), AllocError>
    ensures { OnOk result
        (found_all findings.new.items
        ≡ found_all findings.old.items
        ++ meant.undeclared_ports
        (map (declaration_of (texts names.now.keys)) declarations.now) ports.now) }
{
    for port in ports {
        let subject = port.name.as_str();
        let finding = Finding {
            line: 0,
            kind: FindingKind::UndeclaredPort,
            subject,
        };
        add_unless(
            declares_port(names, subject, declarations),
            finding,
            findings,
        )?;
    }
    Ok(())
}

/// The port of a number, from 1.
fn port_numbered(ports: &[PortRow], number: u64) -> Option<&PortRow>
    ensures { option_copied result ≡ at_number ports.now number }
{
    let place = number.checked_sub(1)?;
    ports.get(place as usize)
}

/// The port that an argument denotes.
pub fn port_of_id<'a>(names: &IndexSet<String>, ports: &'a [PortRow], id: Id) -> Option<&'a PortRow>
    ensures { option_copied result
        ≡ meant.port_of_id ports.now (id_seen (texts names.now.keys) id) }
{
    match id {
        Id::Numbered(number) => port_numbered(ports, number),
        Id::Named(ObjectKind::Port, object) => port_named(ports, text_of(names, object)),
        _ => None,
    }
}

/// The port that an argument names.
fn port_of_name<'a>(
    names: &IndexSet<String>,
    ports: &'a [PortRow],
    name: Option<NameId>,
) -> Option<&'a PortRow>
    ensures { option_copied result
        ≡ meant.port_of_name ports.now (option_map (id_text (texts names.now.keys)) name) }
{
    match name {
        Some(name) => port_named(ports, text_of(names, name)),
        None => None,
    }
}

/// The port that a call is about: that which its first argument names where a service takes a name,
/// else that which the argument means.
fn port_of_call<'a>(
    names: &IndexSet<String>,
    ports: &'a [PortRow],
    call: &Call<'_>,
) -> Option<&'a PortRow>
    ensures { option_copied result
        ≡ meant.port_of_call ports.now (numbered_kind call.now.service)
        (call_of (texts names.now.keys) call.now) }
{
    match numbered_kind(call.service) {
        Some(_) => port_of_name(names, ports, name_in(first_plain(call.arguments))),
        None => port_of_id(names, ports, call.id),
    }
}

/// Returns true if a service is for ports of the other kind.
fn contradicts_kind(queuing: Option<bool>, row: &PortRow) -> bool
    ensures { result ≡ meant.contradicts_kind queuing row.now }
{
    match (queuing, row.kind) {
        (Some(true), PortKind::Sampling { .. }) => true,
        (Some(true), PortKind::Queuing { .. }) => false,
        (Some(false), PortKind::Sampling { .. }) => false,
        (Some(false), PortKind::Queuing { .. }) => true,
        (None, _) => false,
    }
}

/// Returns true if a service is for ports of the other direction.
fn contradicts_direction(wanted: Option<PortDirection>, direction: PortDirection) -> bool
    ensures { result ≡ meant.contradicts_direction wanted direction }
{
    match (wanted, direction) {
        (Some(PortDirection::Source), PortDirection::Destination) => true,
        (Some(PortDirection::Destination), PortDirection::Source) => true,
        _ => false,
    }
}

/// Adds a call on a port that is for ports of the other kind, and one that is for ports of the
/// other direction.
pub fn add_wrong_use<'a>(
    names: &IndexSet<String>,
    ports: &'a [PortRow],
    call: &Call<'_>,
    findings: &mut Vec<Finding<'a>>,
) -> Result<(), AllocError>
    ensures { OnOk result
        (found_all findings.new.items
        ≡ found_all findings.old.items
        ++ meant.wrong_use ports.now (call_of (texts names.now.keys) call.now)) }
{
    let queuing = port_kind(call.service);
    if queuing.is_none() {
        return Ok(());
    }
    let Some(row) = port_of_call(names, ports, call) else {
        return Ok(());
    };
    let finding = Finding {
        line: call.line,
        kind: FindingKind::WrongKind,
        subject: row.name.as_str(),
    };
    add_if(contradicts_kind(queuing, row), finding, findings)?;
    let wrong = contradicts_direction(port_direction(call.service), row.direction);
    let kind = FindingKind::WrongDirection;
    add_if(wrong, Finding { kind, ..finding }, findings)
}
