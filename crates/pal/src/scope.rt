//! The names that a body sees.

ghost use Rattle.std.specs.Prelude.{◌≡◌, ◌++◌, ◌&&◌, ◌+◌, [], List, ℕ, map, is_ok, is_some, IfOk, OnOk};
ghost use Rattle.pal_meaning.specs.Resolve as resolve;
ghost use Rattle.pal_meaning.specs.Resolve.{Entry, own_entries, scope_of, find, place_of, array_place_of, array_size_of, object_number_of, procedure_number_of};
ghost use Rattle.pal_meaning.specs.WellFormed as well_formed;
ghost use Rattle.pal_meaning.specs.WellFormed.{are_new};
ghost use Rattle.pal_base.specs.View.{texts, name_of};
ghost use Rattle.pal.specs.Tables.{entries_of};
ghost use Rattle.pal.specs.Scopes.{names_of, sees};

use crate::lines::{Check, Line, check_that, earliest};
use crate::meanings::slot;
use crate::table::{NameTable, text_of};
use apex_types::{Denotation, ObjectKind, Place};
use indexmap::IndexSet;
use pal_base::syntax::Identifier;
use std::alloc::{AllocError, Global};

/// The meanings of the names in a body: its parameters and locals, and the declarations of the
/// program.
#[derive(Drop)]
pub struct Scope<'a> {
    pub names: &'a IndexSet<String>,
    pub declared: &'a NameTable<'a>,
    pub own: NameTable<'a>,
}

/// The scope of a body, and whether its parameters and locals are new names.
#[derive(Drop)]
pub struct Entered<'a> {
    pub scope: Scope<'a>,
    /// An error is the first line that declares a name again.
    pub fresh: Check,
}

/// Enters the parameters and the locals of a body.
pub fn enter_body<'a>(
    alloc: Global,
    names: &'a IndexSet<String>,
    declared: &'a NameTable<'a>,
    parameters: &[Identifier],
    locals: &[Identifier],
) -> Result<Entered<'a>, AllocError>
    ensures names { IfOk result (λ e. names_of e.scope ≡ texts names.now.keys) }
    ensures sees { IfOk result
        (λ e. sees e.scope
        ≡ scope_of
        (own_entries 0
        (map (name_of (texts names.now.keys)) parameters.now
        ++ map (name_of (texts names.now.keys)) locals.now))
        (entries_of declared.now)) }
    ensures fresh { IfOk result
        (λ e. is_ok e.fresh
        ≡ are_new (entries_of declared.now) []
        (own_entries 0
        (map (name_of (texts names.now.keys)) parameters.now
        ++ map (name_of (texts names.now.keys)) locals.now))) }
{
    let mut own = NameTable::new(alloc);
    let one = enter_names(names, declared, &mut own, 0, parameters)?;
    let other = enter_names(names, declared, &mut own, parameters.len(), locals)?;
    let scope = Scope {
        names,
        declared,
        own,
    };
    Ok(Entered {
        scope,
        fresh: earliest(one, other),
    })
}

/// Enters parameters or locals, with this many before them.
fn enter_names<'a>(
    names: &'a IndexSet<String>,
    declared: &NameTable<'a>,
    own: &mut NameTable<'a>,
    before: usize,
    identifiers: &[Identifier],
) -> Result<Check, AllocError>
    ensures sees { OnOk result
        ((name : List ℕ) (rest : List Entry)
        → find name (entries_of own.new ++ rest)
        ≡ find name
        (entries_of own.old
        ++ (own_entries before (map (name_of (texts names.now.keys)) identifiers.now)
        ++ rest))) }
    ensures fresh { IfOk result
        (λ checked. (rest : List Entry)
        → (is_ok checked && are_new (entries_of declared.now) (entries_of own.new) rest)
        ≡ are_new (entries_of declared.now) (entries_of own.old)
        (own_entries before (map (name_of (texts names.now.keys)) identifiers.now) ++ rest)) }
{
    let mut checked = Ok(());
    for (index, identifier) in identifiers.iter().enumerate() {
        let text = text_of(names, identifier.name);
        let is_free = declared.get(text).is_none();
        let meaning = Denotation::Scalar(Place::Slot(slot(before, index)));
        let is_new = own.enter(text, meaning)?;
        let line = identifier.line;
        checked = earliest(
            checked,
            earliest(check_that(is_new, line), check_that(is_free, line)),
        );
    }
    Ok(checked)
}

impl<'a> Scope<'a> {
    /// The meaning of `name`.
    pub fn get(&self, name: Identifier) -> Option<Denotation>
        ensures { result ≡ sees self.now (name_of (names_of self.now) name) }
    {
        let text = text_of(self.names, name.name);
        match self.own.get(text) {
            Some(meaning) => Some(meaning),
            None => self.declared.get(text),
        }
    }

    /// Checks that the name has a meaning. The error is its line.
    pub fn check_known(&self, name: Identifier) -> Check
        ensures { is_ok result ≡ is_some (sees self.now (name_of (names_of self.now) name)) }
    {
        check_that(self.get(name).is_some(), name.line)
    }

    /// Checks that the name is that of a scalar. The error is its line.
    pub fn check_scalar(&self, name: Identifier) -> Check
        ensures { is_ok result
            ≡ well_formed.is_scalar (sees self.now (name_of (names_of self.now) name)) }
    {
        match self.get(name) {
            Some(Denotation::Scalar(_)) => Ok(()),
            _ => Err(Line(name.line)),
        }
    }

    /// Checks that the name is that of an array. The error is its line.
    pub fn check_array(&self, name: Identifier) -> Check
        ensures { is_ok result
            ≡ well_formed.is_array (sees self.now (name_of (names_of self.now) name)) }
    {
        match self.get(name) {
            Some(Denotation::Array(_, _)) => Ok(()),
            _ => Err(Line(name.line)),
        }
    }

    /// Checks that the name is that of a procedure with this many parameters. The error is its line.
    pub fn check_procedure(&self, name: Identifier, arguments: usize) -> Check
        ensures { is_ok result
            ≡ well_formed.is_procedure arguments
            (sees self.now (name_of (names_of self.now) name)) }
    {
        match self.get(name) {
            Some(Denotation::Procedure(_, parameters)) => check_that(
                parameters == arguments,
                name.line,
            ),
            _ => Err(Line(name.line)),
        }
    }

    /// Checks that the name is that of an object, a port or a process of this kind. The error is
    /// its line.
    pub fn check_object(&self, name: Identifier, kind: ObjectKind) -> Check
        ensures { is_ok result
            ≡ well_formed.is_object kind (sees self.now (name_of (names_of self.now) name)) }
    {
        match self.get(name) {
            Some(Denotation::Object(found, _)) => check_that(is_same_kind(found, kind), name.line),
            _ => Err(Line(name.line)),
        }
    }

    /// The place of a scalar; for any other name the first word of the data.
    pub fn place(&self, name: Identifier) -> Place
        ensures { result ≡ place_of (sees self.now (name_of (names_of self.now) name)) }
    {
        match self.get(name) {
            Some(Denotation::Scalar(place)) => place,
            _ => Place::Data(0),
        }
    }

    /// The place and the size of an array; for any other name 0 and 0.
    pub fn array(&self, name: Identifier) -> (u32, i64)
        ensures place { result.0
            ≡ array_place_of (sees self.now (name_of (names_of self.now) name)) }
        ensures size { result.1 ≡ array_size_of (sees self.now (name_of (names_of self.now) name)) }
    {
        match self.get(name) {
            Some(Denotation::Array(place, size)) => (place, size),
            _ => (0, 0),
        }
    }

    /// The number of an object, a port or a process; for any other name 0.
    pub fn number(&self, name: Identifier) -> u32
        ensures { result ≡ object_number_of (sees self.now (name_of (names_of self.now) name)) }
    {
        match self.get(name) {
            Some(Denotation::Object(_, number)) => number,
            _ => 0,
        }
    }

    /// The number of a procedure; for any other name 0.
    pub fn procedure(&self, name: Identifier) -> u32
        ensures { result ≡ procedure_number_of (sees self.now (name_of (names_of self.now) name)) }
    {
        match self.get(name) {
            Some(Denotation::Procedure(number, _)) => number,
            _ => 0,
        }
    }
}

/// Returns true if both kinds are the same.
fn is_same_kind(found: ObjectKind, kind: ObjectKind) -> bool
    ensures { result ≡ well_formed.is_same_kind found kind }
{
    match (found, kind) {
        (ObjectKind::Semaphore, ObjectKind::Semaphore)
        | (ObjectKind::Event, ObjectKind::Event)
        | (ObjectKind::Buffer, ObjectKind::Buffer)
        | (ObjectKind::Blackboard, ObjectKind::Blackboard)
        | (ObjectKind::Port, ObjectKind::Port)
        | (ObjectKind::Process, ObjectKind::Process) => true,
        _ => false,
    }
}
