//! The processes that calls start, for look-ups by number and by name.

ghost use Rattle.std.specs.Prelude.{◌≡◌, ◌||◌, ℕ, List, IfOk, OnOk};
ghost use Rattle.std.specs.List.{list_any};
ghost use Rattle.apex_types.specs.declared.denotation.ObjectKind.TheVariants as object;
ghost use Rattle.pal_base.specs.View.{texts};
ghost use Rattle.lint.specs.Lives as meant;
ghost use Rattle.lint.specs.Started.{is_started};
ghost use Rattle.lint.specs.Uses.{may_be};
ghost use Rattle.lint.specs.Views.{call_of, calls_seen, id_seen};

use crate::calls::Call;
use crate::names::text_of;
use crate::services::is_start;
use crate::used::Used;
use crate::uses::{Id, is_same_kind};
use apex_types::ObjectKind;
use indexmap::IndexSet;
use std::alloc::{AllocError, Global};

/// The processes that calls may start.
#[derive(Drop)]
pub struct Starts<'a> {
    /// The numbers that are written.
    pub numbers: IndexSet<u64>,
    /// The names of those that were created last.
    pub names: Used<'a>,
    /// True if a call may start any process, since its argument cannot be seen.
    pub any: bool,
}

impl<'a> Starts<'a> {
    /// The processes that these calls may start.
    pub fn of(
        alloc: Global,
        names: &'a IndexSet<String>,
        calls: &[Call<'_>],
    ) -> Result<Starts<'a>, AllocError>
        ensures { IfOk result
            (λ starts. (number : ℕ) (name : List ℕ)
            → is_started starts number name
            ≡ list_any (meant.meets (meant.Start number name))
            (calls_seen (texts names.now.keys) calls.now)) }
    {
        let mut starts = Starts {
            numbers: IndexSet::new(alloc),
            names: Used::new(alloc),
            any: false,
        };
        for call in calls {
            starts.add_call(names, call)?;
        }
        Ok(starts)
    }

    /// Adds the process that a call may start, if it starts one.
    fn add_call(&mut self, names: &'a IndexSet<String>, call: &Call<'_>) -> Result<(), AllocError>
        ensures { OnOk result
            ((number : ℕ) (name : List ℕ)
            → is_started self.new number name
            ≡ (is_started self.old number name
            || meant.meets (meant.Start number name) (call_of (texts names.now.keys) call.now))) }
    {
        if is_start(call.service) {
            self.add(names, call.id)?;
        }
        Ok(())
    }

    /// Adds the process that an argument denotes.
    fn add(&mut self, names: &'a IndexSet<String>, id: Id) -> Result<(), AllocError>
        ensures { OnOk result
            ((number : ℕ) (name : List ℕ)
            → is_started self.new number name
            ≡ (is_started self.old number name
            || may_be object.Process number name (id_seen (texts names.now.keys) id))) }
    {
        match id {
            Id::Numbered(number) => {
                self.numbers.insert(number)?;
            }
            Id::Named(kind, object) => {
                if is_same_kind(kind, ObjectKind::Process) {
                    self.names.add(text_of(names, object))?;
                }
            }
            Id::Unseen => self.any = true,
            Id::Failed => {}
            Id::Unset => {}
        }
        Ok(())
    }

    /// Returns true if the process of this number and name is among them.
    pub fn has(&self, number: u64, name: &str) -> bool
        ensures { result ≡ is_started self.now number name.now }
    {
        self.any || self.names.has(name) || self.numbers.contains(&number)
    }
}
