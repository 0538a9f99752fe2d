//! Semaphores.

ghost use Rattle.std.specs.Prelude.{◌≡◌, true, false};
ghost use Rattle.kernel_meaning.specs.Objects as meaning;

use apex_types::{Discipline, SemaphoreRow};
use std::marker::Model;

/// A semaphore. A contract sees it as the semaphore of the definitions.
#[derive(Clone, Copy)]
pub struct Semaphore {
    row: SemaphoreRow,
    created: bool,
    value: u32,
}

impl Model for Semaphore {
    ghost use Rattle.kernel_meaning.specs.Objects as meaning;

    ghost Value = { meaning.Semaphore };

    ghost use Rattle.sync_objects_base.specs.View.{semaphore_of, semaphore_fields};

    ghost view = { semaphore_of };

    ghost inverse = { semaphore_fields };
}

impl Semaphore {
    /// A semaphore before it is created.
    pub(crate) fn fresh(row: SemaphoreRow) -> Semaphore
        ensures { result ≡ meaning.fresh_semaphore row }
    {
        Semaphore {
            row,
            created: false,
            value: row.value,
        }
    }

    /// Whether it is created.
    pub fn is_created(self) -> bool
        ensures { result ≡ self.created }
    {
        self.created
    }

    /// How often it can be taken before a process has to wait.
    pub fn value(self) -> u32
        ensures { result ≡ self.value }
    {
        self.value
    }

    /// The greatest value that it may have.
    pub fn maximum(self) -> u32
        ensures { result ≡ self.row.maximum }
    {
        self.row.maximum
    }

    /// The order in which waiting processes are released.
    pub fn discipline(self) -> Discipline
        ensures { result ≡ self.row.discipline }
    {
        self.row.discipline
    }

    /// The same semaphore, created.
    pub(crate) fn created(self) -> Semaphore
        ensures { result ≡ record self { created = true } }
    {
        Semaphore {
            created: true,
            ..self
        }
    }

    /// The same semaphore with another value.
    pub fn with_value(self, value: u32) -> Semaphore
        ensures { result ≡ record self { value = value } }
    {
        Semaphore { value, ..self }
    }

    /// The same semaphore before it is created.
    pub(crate) fn cleared(self) -> Semaphore
        ensures { result ≡ meaning.cleared_semaphore self }
    {
        Semaphore::fresh(self.row)
    }
}
