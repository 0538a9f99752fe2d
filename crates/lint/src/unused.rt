//! Variables, procedures and parameters that no statement names.

ghost use Rattle.std.specs.Prelude.{◌≡◌, ◌++◌, ℕ, List, map, flat_map, option_map, OnOk, IfOk};
ghost use Rattle.pal_base.specs.View.{texts, name_of, body_of, stack_body_of, process_of, declaration_of, declared_of};
ghost use Rattle.pal_base.specs.WrittenView.{program_of};
ghost use Rattle.lint.specs.Unused as meant;
ghost use Rattle.lint.specs.UsedNames.{used_names};
ghost use Rattle.lint.specs.Mentions.{all_mentions};
ghost use Rattle.lint.specs.Views.{found_all, mentions_seen};

use crate::finding::{Finding, FindingKind, add_unless};
use crate::mentions::{Mention, add_all, mentions_of};
use crate::names::text_of;
use crate::used::Used;
use indexmap::IndexSet;
use pal_base::syntax::{
    Body, Declaration, DeclarationKind, Identifier, Process, Program, StackBody,
};
use std::alloc::{AllocError, Global};

/// What the statements of a program do.
fn all_mentions(alloc: Global, program: &Program) -> Result<Vec<Mention<'_>>, AllocError>
    ensures { IfOk result
        (λ mentions. mentions_seen (texts program.now.names.keys) mentions.items
        ≡ all_mentions (program_of program.now)) }
{
    let mut mentions = Vec::new(alloc);
    add_all(&mut mentions, program)?;
    Ok(mentions)
}

/// Adds a finding if a name is not used.
fn expect_use<'a>(
    names: &'a IndexSet<String>,
    used: &Used<'_>,
    kind: FindingKind,
    name: Identifier,
    findings: &mut Vec<Finding<'a>>,
) -> Result<(), AllocError>
    ensures { OnOk result
        (found_all findings.new.items
        ≡ found_all findings.old.items
        ++ meant.unused (used_names used.now) kind (name_of (texts names.now.keys) name)) }
{
    let subject = text_of(names, name.name);
    let finding = Finding {
        line: name.line,
        kind,
        subject,
    };
    add_unless(used.has(subject), finding, findings)
}

/// Adds a variable, an array or a procedure that is not used.
fn add_declaration<'a>(
    names: &'a IndexSet<String>,
    used: &Used<'_>,
    declaration: &Declaration,
    findings: &mut Vec<Finding<'a>>,
) -> Result<(), AllocError>
    ensures { OnOk result
        (found_all findings.new.items
        ≡ found_all findings.old.items
        ++ meant.unused_declaration (used_names used.now)
        (declared_of (texts names.now.keys) declaration.now.kind)
        (name_of (texts names.now.keys) declaration.now.name)) }
{
    let name = declaration.name;
    match &declaration.kind {
        DeclarationKind::Variable(_) | DeclarationKind::Array { .. } => {
            expect_use(names, used, FindingKind::UnusedVariable, name, findings)
        }
        DeclarationKind::Procedure { .. } => {
            expect_use(names, used, FindingKind::UnusedProcedure, name, findings)
        }
        DeclarationKind::Semaphore { .. } => Ok(()),
        DeclarationKind::Event => Ok(()),
        DeclarationKind::Buffer { .. } => Ok(()),
        DeclarationKind::Blackboard { .. } => Ok(()),
        DeclarationKind::Port => Ok(()),
    }
}

/// Adds the variables, arrays and procedures that are not used.
#[tactic(auto, using(std::proofs::lemmas::List::drop_more))]
fn add_declarations<'a>(
    names: &'a IndexSet<String>,
    used: &Used<'_>,
    declarations: &[Declaration],
    findings: &mut Vec<Finding<'a>>,
) -> Result<(), AllocError>
    ensures { OnOk result
        (found_all findings.new.items
        ≡ found_all findings.old.items
        ++ meant.unused_declarations (used_names used.now)
        (map (declaration_of (texts names.now.keys)) declarations.now)) }
{
    for declaration in declarations {
        add_declaration(names, used, declaration, findings)?;
    }
    Ok(())
}

/// Adds the variables, arrays and procedures of a program that no statement of it names.
fn add_unused_declarations<'a>(
    alloc: Global,
    program: &'a Program,
    findings: &mut Vec<Finding<'a>>,
) -> Result<(), AllocError>
    ensures { OnOk result
        (found_all findings.new.items
        ≡ found_all findings.old.items
        ++ meant.unused_declarations (meant.all_names (program_of program.now))
        (program_of program.now).declarations) }
{
    let names = &program.names;
    let all = all_mentions(alloc, program)?;
    let used = Used::of(alloc, names, &all)?;
    add_declarations(names, &used, &program.declarations, findings)
}

/// Adds those of some parameters or locals that are not used.
#[tactic(auto, using(std::proofs::lemmas::List::drop_more))]
fn add_own<'a>(
    names: &'a IndexSet<String>,
    used: &Used<'_>,
    kind: FindingKind,
    own: &[Identifier],
    findings: &mut Vec<Finding<'a>>,
) -> Result<(), AllocError>
    ensures { OnOk result
        (found_all findings.new.items
        ≡ found_all findings.old.items
        ++ flat_map (meant.unused (used_names used.now) kind)
        (map (name_of (texts names.now.keys)) own.now)) }
{
    for name in own {
        expect_use(names, used, kind, *name, findings)?;
    }
    Ok(())
}

/// The names that the statements of a body name.
fn names_of_body<'a>(
    alloc: Global,
    names: &'a IndexSet<String>,
    body: &Body,
) -> Result<Used<'a>, AllocError>
    ensures { IfOk result
        (λ used. (name : List ℕ)
        → meant.is_used (used_names used) name
        ≡ meant.is_used (meant.names_of (body_of (texts names.now.keys) body.now)) name) }
{
    let mentions = mentions_of(alloc, names, body)?;
    Used::of(alloc, names, &mentions)
}

/// Adds the parameters and the locals that no statement of their body names.
fn add_in_body<'a>(
    alloc: Global,
    names: &'a IndexSet<String>,
    parameters: &[Identifier],
    body: &Body,
    findings: &mut Vec<Finding<'a>>,
) -> Result<(), AllocError>
    ensures { OnOk result
        (found_all findings.new.items
        ≡ found_all findings.old.items
        ++ meant.unused_in_body (map (name_of (texts names.now.keys)) parameters.now)
        (body_of (texts names.now.keys) body.now)) }
{
    let used = names_of_body(alloc, names, body)?;
    let (parameter, local) = (FindingKind::UnusedParameter, FindingKind::UnusedVariable);
    add_own(names, &used, parameter, parameters, findings)?;
    add_own(names, &used, local, &body.locals, findings)
}

/// The same of the handler, if there is one.
fn add_in_handler<'a>(
    alloc: Global,
    names: &'a IndexSet<String>,
    handler: &Option<StackBody>,
    findings: &mut Vec<Finding<'a>>,
) -> Result<(), AllocError>
    ensures { OnOk result
        (found_all findings.new.items
        ≡ found_all findings.old.items
        ++ meant.unused_in_handler
        (option_map (stack_body_of (texts names.now.keys)) handler.now)) }
{
    match handler {
        Some(handler) => add_in_body(alloc, names, &[], &handler.body, findings),
        None => Ok(()),
    }
}

/// The same of processes.
#[tactic(auto, using(std::proofs::lemmas::List::drop_more))]
fn add_in_processes<'a>(
    alloc: Global,
    names: &'a IndexSet<String>,
    processes: &[Process],
    findings: &mut Vec<Finding<'a>>,
) -> Result<(), AllocError>
    ensures { OnOk result
        (found_all findings.new.items
        ≡ found_all findings.old.items
        ++ meant.unused_in_processes (map (process_of (texts names.now.keys)) processes.now)) }
{
    for process in processes {
        add_in_body(alloc, names, &[], &process.body, findings)?;
    }
    Ok(())
}

/// The same of a procedure, if the declaration is one.
fn add_in_procedure<'a>(
    alloc: Global,
    names: &'a IndexSet<String>,
    kind: &DeclarationKind,
    findings: &mut Vec<Finding<'a>>,
) -> Result<(), AllocError>
    ensures { OnOk result
        (found_all findings.new.items
        ≡ found_all findings.old.items
        ++ meant.unused_in_kind (declared_of (texts names.now.keys) kind.now)) }
{
    match kind {
        DeclarationKind::Procedure { parameters, body } => {
            add_in_body(alloc, names, parameters, body, findings)
        }
        DeclarationKind::Variable(_) => Ok(()),
        DeclarationKind::Array { .. } => Ok(()),
        DeclarationKind::Semaphore { .. } => Ok(()),
        DeclarationKind::Event => Ok(()),
        DeclarationKind::Buffer { .. } => Ok(()),
        DeclarationKind::Blackboard { .. } => Ok(()),
        DeclarationKind::Port => Ok(()),
    }
}

/// The same of the procedures among declarations.
#[tactic(auto, using(std::proofs::lemmas::List::drop_more))]
fn add_in_procedures<'a>(
    alloc: Global,
    names: &'a IndexSet<String>,
    declarations: &[Declaration],
    findings: &mut Vec<Finding<'a>>,
) -> Result<(), AllocError>
    ensures { OnOk result
        (found_all findings.new.items
        ≡ found_all findings.old.items
        ++ meant.unused_in_procedures
        (map (declaration_of (texts names.now.keys)) declarations.now)) }
{
    for declaration in declarations {
        add_in_procedure(alloc, names, &declaration.kind, findings)?;
    }
    Ok(())
}

/// Adds the variables, procedures and parameters of a program that no statement names.
pub fn add_unused<'a>(
    alloc: Global,
    program: &'a Program,
    findings: &mut Vec<Finding<'a>>,
) -> Result<(), AllocError>
    ensures { OnOk result
        (found_all findings.new.items
        ≡ found_all findings.old.items ++ meant.unused_names (program_of program.now)) }
{
    let names = &program.names;
    add_unused_declarations(alloc, program, findings)?;
    add_in_body(alloc, names, &[], &program.init.body, findings)?;
    add_in_handler(alloc, names, &program.handler, findings)?;
    add_in_processes(alloc, names, &program.processes, findings)?;
    add_in_procedures(alloc, names, &program.declarations, findings)
}
