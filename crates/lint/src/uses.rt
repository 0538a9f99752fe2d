//! What the arguments of a call mean.

ghost use Rattle.std.specs.Prelude.{◌≡◌, ℕ, List, Some, option_map};
ghost use Rattle.pal_base.specs.View.{id_text, texts};
ghost use Rattle.pal_meaning.specs.WellFormed as well_formed;
ghost use Rattle.lint.specs.Uses as meant;
ghost use Rattle.lint.specs.Views.{created_of, id_seen, mention_of, mentions_seen, plain_of, scope_of, standing_of, thing_of};

use crate::mentions::{Mention, Thing};
use crate::names::{has_name, is_same_name, text_of};
use crate::plain::Plain;
use apex_types::ObjectKind;
use indexmap::IndexSet;
use pal_base::syntax::{Identifier, NameId};

/// What a variable stands for.
#[derive(Clone, Copy)]
pub enum Standing {
    /// Nothing writes it.
    Never,
    /// Each write gives it the number of this thing.
    Always(Thing),
    Varies,
}

/// The names of a body's parameters and locals, what its statements do, and what those of the
/// whole program do.
#[derive(Clone, Copy)]
pub struct Scope<'a, 'o, 'p> {
    pub parameters: &'a [Identifier],
    pub locals: &'a [Identifier],
    pub own: &'o [Mention<'a>],
    pub program: &'p [Mention<'a>],
}

/// An object, a port or a process, and the variable that got its number.
#[derive(Clone, Copy)]
pub struct Created {
    pub kind: ObjectKind,
    pub object: NameId,
    pub variable: NameId,
}

/// What an argument means where a number is asked for.
#[derive(Clone, Copy)]
pub enum Id {
    /// The number as it is written.
    Numbered(u64),
    /// An object, a port or a process.
    Named(ObjectKind, NameId),
    /// The process that has failed.
    Failed,
    /// A variable that nothing writes.
    Unset,
    /// It cannot be seen.
    Unseen,
}

/// Returns true if both kinds are the same.
pub fn is_same_kind(found: ObjectKind, kind: ObjectKind) -> bool
    ensures { result ≡ well_formed.is_same_kind found kind }
{
    match (found, kind) {
        (ObjectKind::Semaphore, ObjectKind::Semaphore)
        | (ObjectKind::Event, ObjectKind::Event)
        | (ObjectKind::Buffer, ObjectKind::Buffer)
        | (ObjectKind::Blackboard, ObjectKind::Blackboard)
        | (ObjectKind::Port, ObjectKind::Port)
        | (ObjectKind::Process, ObjectKind::Process) => true,
        _ => false,
    }
}

/// Returns true if both are the same thing.
fn is_same_thing(names: &IndexSet<String>, thing: Thing, other: Thing) -> bool
    ensures { result
        ≡ meant.is_same_thing (thing_of (texts names.now.keys) thing)
        (thing_of (texts names.now.keys) other) }
{
    match (thing, other) {
        (Thing::Object(kind, name), Thing::Object(other, text)) => {
            is_same_kind(kind, other) && is_same_name(names, name, text)
        }
        (Thing::Failure, Thing::Failure) => true,
        _ => false,
    }
}

/// What a variable stands for after one more write.
fn with_write(names: &IndexSet<String>, so_far: Standing, thing: Option<Thing>) -> Standing
    ensures { standing_of (texts names.now.keys) result
        ≡ meant.with_write (standing_of (texts names.now.keys) so_far)
        (option_map (thing_of (texts names.now.keys)) thing) }
{
    match (so_far, thing) {
        (Standing::Never, Some(thing)) => Standing::Always(thing),
        (Standing::Always(thing), Some(other)) => {
            if is_same_thing(names, thing, other) {
                Standing::Always(thing)
            } else {
                Standing::Varies
            }
        }
        _ => Standing::Varies,
    }
}

/// What a variable stands for after one more mention.
fn with_mention(
    names: &IndexSet<String>,
    so_far: Standing,
    name: NameId,
    mention: &Mention<'_>,
) -> Standing
    ensures { standing_of (texts names.now.keys) result
        ≡ meant.with_mention (standing_of (texts names.now.keys) so_far)
        (id_text (texts names.now.keys) name) (mention_of (texts names.now.keys) mention.now) }
{
    match *mention {
        Mention::Write(variable, thing) => {
            if is_same_name(names, variable, name) {
                with_write(names, so_far, thing)
            } else {
                so_far
            }
        }
        Mention::Read(_) | Mention::Element(_, _) | Mention::Apply(_, _) => so_far,
        Mention::ByZero(_) | Mention::Test | Mention::Ask(_) => so_far,
        Mention::Leave | Mention::Endless(_) => so_far,
    }
}

/// What a variable stands for after these mentions.
#[tactic(auto, using(std::proofs::lemmas::List::drop_more))]
fn standing_after(names: &IndexSet<String>, name: NameId, mentions: &[Mention<'_>]) -> Standing
    ensures { standing_of (texts names.now.keys) result
        ≡ meant.standing_after meant.Never (id_text (texts names.now.keys) name)
        (mentions_seen (texts names.now.keys) mentions.now) }
{
    let mut so_far = Standing::Never;
    for mention in mentions {
        so_far = with_mention(names, so_far, name, mention);
    }
    so_far
}

/// What a variable of this name stands for in a body.
fn stands_for(names: &IndexSet<String>, scope: &Scope<'_, '_, '_>, name: NameId) -> Standing
    ensures { standing_of (texts names.now.keys) result
        ≡ meant.standing (scope_of (texts names.now.keys) scope.now)
        (id_text (texts names.now.keys) name) }
{
    if has_name(names, scope.parameters, name) {
        Standing::Varies
    } else if has_name(names, scope.locals, name) {
        standing_after(names, name, scope.own)
    } else {
        standing_after(names, name, scope.program)
    }
}

/// What was created last, if this variable got its number.
fn last_created(names: &IndexSet<String>, created: Option<Created>, name: NameId) -> Id
    ensures { id_seen (texts names.now.keys) result
        ≡ meant.last_created (option_map (created_of (texts names.now.keys)) created)
        (id_text (texts names.now.keys) name) }
{
    match created {
        Some(last) => {
            if is_same_name(names, last.variable, name) {
                Id::Named(last.kind, last.object)
            } else {
                Id::Unseen
            }
        }
        None => Id::Unseen,
    }
}

/// What a thing is where a number is asked for.
fn id_of_thing(thing: Thing) -> Id
    ensures { (names : List (List ℕ)) → id_seen names result ≡ meant.id_of_thing (thing_of names thing) }
{
    match thing {
        Thing::Object(kind, name) => Id::Named(kind, name),
        Thing::Failure => Id::Failed,
    }
}

/// What a variable means that stands for this.
fn id_of_variable(
    names: &IndexSet<String>,
    standing: Standing,
    created: Option<Created>,
    name: NameId,
) -> Id
    ensures { id_seen (texts names.now.keys) result
        ≡ meant.id_of_variable (standing_of (texts names.now.keys) standing)
        (option_map (created_of (texts names.now.keys)) created)
        (id_text (texts names.now.keys) name) }
{
    match standing {
        Standing::Never => Id::Unset,
        Standing::Always(thing) => id_of_thing(thing),
        Standing::Varies => last_created(names, created, name),
    }
}

/// What an argument of a call in a body means.
pub fn id_of(
    names: &IndexSet<String>,
    scope: &Scope<'_, '_, '_>,
    created: Option<Created>,
    argument: Option<Plain>,
) -> Id
    ensures { id_seen (texts names.now.keys) result
        ≡ meant.id_of (scope_of (texts names.now.keys) scope.now)
        (option_map (created_of (texts names.now.keys)) created)
        (option_map (plain_of (texts names.now.keys)) argument) }
{
    match argument {
        Some(Plain::Literal(Some(number))) => Id::Numbered(number),
        Some(Plain::Name(name)) => {
            id_of_variable(names, stands_for(names, scope, name), created, name)
        }
        _ => Id::Unseen,
    }
}

/// Returns true if an argument may mean the object of this kind, number and name.
pub fn may_be(names: &IndexSet<String>, kind: ObjectKind, number: u64, name: NameId, id: Id) -> bool
    ensures { result
        ≡ meant.may_be kind number (id_text (texts names.now.keys) name)
        (id_seen (texts names.now.keys) id) }
{
    match id {
        Id::Numbered(other) => other == number,
        Id::Named(other, object) => is_same_kind(other, kind) && is_same_name(names, object, name),
        Id::Unseen => true,
        Id::Failed => false,
        Id::Unset => false,
    }
}

/// Returns true if an argument means this object, as far as it can be seen.
pub fn means(names: &IndexSet<String>, kind: ObjectKind, number: u64, name: NameId, id: Id) -> bool
    ensures { result
        ≡ meant.means kind number (id_text (texts names.now.keys) name)
        (id_seen (texts names.now.keys) id) }
{
    match id {
        Id::Unseen => false,
        _ => may_be(names, kind, number, name, id),
    }
}

/// Returns true if what an argument means may be this number.
pub fn may_be_number(number: u64, id: Id) -> bool
    ensures { (names : List (List ℕ)) → result ≡ meant.may_be_number number (id_seen names id) }
{
    match id {
        Id::Numbered(other) => other == number,
        Id::Named(_, _) => true,
        Id::Failed => true,
        Id::Unset => true,
        Id::Unseen => true,
    }
}

/// Returns true if it is a variable that nothing writes.
pub fn is_unset(id: Id) -> bool
    ensures { (names : List (List ℕ)) → result ≡ meant.is_unset (id_seen names id) }
{
    match id {
        Id::Unset => true,
        Id::Numbered(_) => false,
        Id::Named(_, _) => false,
        Id::Failed => false,
        Id::Unseen => false,
    }
}
