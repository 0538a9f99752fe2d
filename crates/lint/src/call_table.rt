//! The calls of a program, for look-ups of what they create and start.

ghost use Rattle.std.specs.Prelude.{◌≡◌, ◌||◌, ℕ, List, IfOk, OnOk};
ghost use Rattle.std.specs.List.{list_any};
ghost use Rattle.pal_base.specs.View.{texts};
ghost use Rattle.lint.specs.Lives as meant;
ghost use Rattle.lint.specs.Unused.{is_used};
ghost use Rattle.lint.specs.UsedNames.{used_names};
ghost use Rattle.lint.specs.Views.{call_of, calls_seen};

use crate::calls::Call;
use crate::names::text_of;
use crate::plain::{first_plain, name_in};
use crate::services::created_kind;
use crate::starts::Starts;
use crate::used::Used;
use crate::uses::is_same_kind;
use apex_types::ObjectKind;
use indexmap::IndexSet;
use std::alloc::{AllocError, Global};
use std::marker::Model;

/// The calls of a program. A contract sees the list of them.
#[derive(Drop)]
pub struct CallTable<'a> {
    /// Read by contracts only, as is `calls`.
    names: &'a IndexSet<String>,
    calls: &'a [Call<'a>],
    /// The names of what they create, by its kind.
    semaphores: Used<'a>,
    events: Used<'a>,
    buffers: Used<'a>,
    blackboards: Used<'a>,
    ports: Used<'a>,
    processes: Used<'a>,
    /// The processes that they may start.
    starts: Starts<'a>,
}

impl<'a> Model for CallTable<'a> {
    ghost use Rattle.std.specs.Prelude.{List};
    ghost use Rattle.lint.specs.Calls.{Call as Item};
    ghost use Rattle.lint.specs.CallTableView.{IsCallTable, calls_in};

    ghost Value = { List Item };

    ghost view = { calls_in };

    ghost invariant = { IsCallTable };
}

impl<'a> CallTable<'a> {
    /// The table of these calls.
    pub fn of(
        alloc: Global,
        names: &'a IndexSet<String>,
        calls: &'a [Call<'a>],
    ) -> Result<CallTable<'a>, AllocError>
        ensures { IfOk result (λ table. table ≡ calls_seen (texts names.now.keys) calls.now) }
    {
        Ok(CallTable {
            names,
            calls,
            semaphores: created_of(alloc, names, ObjectKind::Semaphore, calls)?,
            events: created_of(alloc, names, ObjectKind::Event, calls)?,
            buffers: created_of(alloc, names, ObjectKind::Buffer, calls)?,
            blackboards: created_of(alloc, names, ObjectKind::Blackboard, calls)?,
            ports: created_of(alloc, names, ObjectKind::Port, calls)?,
            processes: created_of(alloc, names, ObjectKind::Process, calls)?,
            starts: Starts::of(alloc, names, calls)?,
        })
    }

    /// Returns true if a call creates what has this kind and name.
    pub fn creates(&self, kind: ObjectKind, name: &str) -> bool
        ensures { result ≡ list_any (meant.meets (meant.Creation kind name.now)) self.now }
    {
        match kind {
            ObjectKind::Semaphore => self.semaphores.has(name),
            ObjectKind::Event => self.events.has(name),
            ObjectKind::Buffer => self.buffers.has(name),
            ObjectKind::Blackboard => self.blackboards.has(name),
            ObjectKind::Port => self.ports.has(name),
            ObjectKind::Process => self.processes.has(name),
        }
    }

    /// Returns true if a call may start the process of this number and name.
    pub fn starts(&self, number: u64, name: &str) -> bool
        ensures { result ≡ list_any (meant.meets (meant.Start number name.now)) self.now }
    {
        self.starts.has(number, name)
    }
}

/// Returns true if both kinds are the same.
pub fn is_kind(kind: ObjectKind, created: Option<ObjectKind>) -> bool
    ensures { result ≡ meant.is_kind kind created }
{
    match created {
        Some(other) => is_same_kind(other, kind),
        None => false,
    }
}

/// Adds the name of what a call creates, if it is of the kind.
fn add_created<'a>(
    names: &'a IndexSet<String>,
    kind: ObjectKind,
    call: &Call<'_>,
    created: &mut Used<'a>,
) -> Result<(), AllocError>
    ensures { OnOk result
        ((name : List ℕ)
        → is_used (used_names created.new) name
        ≡ (is_used (used_names created.old) name
        || meant.meets (meant.Creation kind name) (call_of (texts names.now.keys) call.now))) }
{
    if !is_kind(kind, created_kind(call.service)) {
        return Ok(());
    }
    match name_in(first_plain(call.arguments)) {
        Some(name) => created.add(text_of(names, name)),
        None => Ok(()),
    }
}

/// The names of what calls create, of a kind.
fn created_of<'a>(
    alloc: Global,
    names: &'a IndexSet<String>,
    kind: ObjectKind,
    calls: &[Call<'_>],
) -> Result<Used<'a>, AllocError>
    ensures { IfOk result
        (λ created. (name : List ℕ)
        → is_used (used_names created) name
        ≡ list_any (meant.meets (meant.Creation kind name))
        (calls_seen (texts names.now.keys) calls.now)) }
{
    let mut created = Used::new(alloc);
    for call in calls {
        add_created(names, kind, call, &mut created)?;
    }
    Ok(created)
}
