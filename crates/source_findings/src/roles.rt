//! What the names of a program mean.

ghost use Rattle.std.specs.Prelude.{◌≡◌, ◌++◌, List, ℕ, map, IfOk, OnOk};
ghost use Rattle.pal_base.specs.View.{declared_of, name_of, texts};
ghost use Rattle.pal_base.specs.View as view;
ghost use Rattle.pal_base.specs.WrittenView.{program_of};
ghost use Rattle.pal_meaning.specs.WellFormed as well_formed;
ghost use Rattle.source_findings.specs.Roles as spec;
ghost use Rattle.source_findings.specs.Views.{entries_of, entry_of};

use apex_types::ObjectKind;
use indexmap::IndexSet;
use pal_base::syntax::{Declaration, DeclarationKind, Identifier, Process, Program};
use std::alloc::{AllocError, Global};

/// What a name means.
#[derive(Clone, Copy)]
pub enum Role {
    /// It is not declared.
    Nothing,
    /// A variable, a parameter or a local.
    Variable,
    Array,
    /// A procedure with this number of parameters.
    Procedure(usize),
    /// An object, a port or a process.
    Object(ObjectKind),
}

/// A name and what it means.
#[derive(Clone, Copy)]
pub struct Entry<'a> {
    pub name: &'a str,
    pub role: Role,
}

/// The text of a name.
pub fn text_of(names: &IndexSet<String>, name: Identifier) -> &str
    ensures { result.now ≡ name_of (texts names.now.keys) name }
{
    match names.get_index(name.name.0) {
        Some(text) => text.as_str(),
        None => "",
    }
}

/// What a name means, by the first entry that has it.
#[tactic(auto, using(std::proofs::lemmas::List::drop_more))]
pub fn role_of(name: &str, entries: &[Entry<'_>]) -> Role
    ensures { result ≡ spec.role_of name.now (entries_of entries.now) }
{
    for entry in entries {
        if entry.name.as_bytes() == name.as_bytes() {
            return entry.role;
        }
    }
    Role::Nothing
}

/// The first of two roles, or the second one if the first is nothing.
pub fn or_else(role: Role, other: Role) -> Role
    ensures { result ≡ spec.or_else role other }
{
    match role {
        Role::Nothing => other,
        _ => role,
    }
}

pub fn is_nothing(role: Role) -> bool
    ensures { result ≡ spec.is_nothing role }
{
    match role {
        Role::Nothing => true,
        _ => false,
    }
}

/// Returns true if what a name means fits where something is wanted.
pub fn fits(found: Role, wanted: Role) -> bool
    ensures { result ≡ spec.fits found wanted }
{
    match (found, wanted) {
        (Role::Variable, Role::Variable) | (Role::Array, Role::Array) => true,
        (Role::Procedure(parameters), Role::Procedure(arguments)) => parameters == arguments,
        (Role::Object(found), Role::Object(wanted)) => is_same_kind(found, wanted),
        _ => false,
    }
}

fn is_same_kind(found: ObjectKind, wanted: ObjectKind) -> bool
    ensures { result ≡ well_formed.is_same_kind found wanted }
{
    match (found, wanted) {
        (ObjectKind::Semaphore, ObjectKind::Semaphore)
        | (ObjectKind::Event, ObjectKind::Event)
        | (ObjectKind::Buffer, ObjectKind::Buffer)
        | (ObjectKind::Blackboard, ObjectKind::Blackboard)
        | (ObjectKind::Port, ObjectKind::Port)
        | (ObjectKind::Process, ObjectKind::Process) => true,
        _ => false,
    }
}

/// What a declaration makes of its name.
fn declared_role(kind: &DeclarationKind) -> Role
    ensures { (names : List (List ℕ)) → result ≡ spec.declared_role (declared_of names kind.now) }
{
    match kind {
        DeclarationKind::Variable(_) => Role::Variable,
        DeclarationKind::Array { .. } => Role::Array,
        DeclarationKind::Semaphore { .. } => Role::Object(ObjectKind::Semaphore),
        DeclarationKind::Event => Role::Object(ObjectKind::Event),
        DeclarationKind::Buffer { .. } => Role::Object(ObjectKind::Buffer),
        DeclarationKind::Blackboard { .. } => Role::Object(ObjectKind::Blackboard),
        DeclarationKind::Port => Role::Object(ObjectKind::Port),
        DeclarationKind::Procedure { parameters, .. } => Role::Procedure(parameters.len()),
    }
}

/// The entry of a declaration.
pub fn declaration_entry<'a>(names: &'a IndexSet<String>, declaration: &Declaration) -> Entry<'a>
    ensures { entry_of result ≡ spec.declaration_entry (view.declaration_of (texts names.now.keys) declaration.now) }
{
    Entry {
        name: text_of(names, declaration.name),
        role: declared_role(&declaration.kind),
    }
}

/// The entry of a process.
pub fn process_entry<'a>(names: &'a IndexSet<String>, process: &Process) -> Entry<'a>
    ensures { entry_of result ≡ spec.process_entry (view.process_of (texts names.now.keys) process.now) }
{
    Entry {
        name: text_of(names, process.name),
        role: Role::Object(ObjectKind::Process),
    }
}

/// The entry of a parameter or a local.
pub fn own_entry<'a>(names: &'a IndexSet<String>, name: Identifier) -> Entry<'a>
    ensures { entry_of result ≡ spec.own_entry (name_of (texts names.now.keys) name) }
{
    Entry {
        name: text_of(names, name),
        role: Role::Variable,
    }
}

/// The entries of the declarations and the processes of a program.
///
/// # Errors
///
/// Only if memory runs out.
pub fn declared_entries<'a>(
    alloc: Global,
    program: &'a Program,
) -> Result<Vec<Entry<'a>>, AllocError>
    ensures { IfOk result
        (λ entries. entries_of entries.items ≡ spec.declared_entries (program_of program.now)) }
{
    let names = &program.names;
    let mut entries = Vec::new(alloc);
    add_declarations(names, &mut entries, &program.declarations)?;
    add_processes(names, &mut entries, &program.processes)?;
    Ok(entries)
}

#[tactic(auto, using(std::proofs::lemmas::List::drop_more, std::proofs::lemmas::List::append_assoc, crate::proofs::Lists::append_nil))]
fn add_declarations<'a>(
    names: &'a IndexSet<String>,
    entries: &mut Vec<Entry<'a>>,
    declarations: &[Declaration],
) -> Result<(), AllocError>
    ensures { OnOk result
        (entries_of entries.new.items
        ≡ entries_of entries.old.items
        ++ map spec.declaration_entry
        (map (view.declaration_of (texts names.now.keys)) declarations.now)) }
{
    for declaration in declarations {
        entries.push(declaration_entry(names, declaration))?;
    }
    Ok(())
}

#[tactic(auto, using(std::proofs::lemmas::List::drop_more, std::proofs::lemmas::List::append_assoc, crate::proofs::Lists::append_nil))]
fn add_processes<'a>(
    names: &'a IndexSet<String>,
    entries: &mut Vec<Entry<'a>>,
    processes: &[Process],
) -> Result<(), AllocError>
    ensures { OnOk result
        (entries_of entries.new.items
        ≡ entries_of entries.old.items
        ++ map spec.process_entry
        (map (view.process_of (texts names.now.keys)) processes.now)) }
{
    for process in processes {
        entries.push(process_entry(names, process))?;
    }
    Ok(())
}
