//! Events.

ghost use Rattle.std.specs.Prelude.{◌≡◌, true, false};
ghost use Rattle.kernel_meaning.specs.Objects as meaning;

use std::marker::Model;

/// An event. A contract sees it as the event of the definitions.
#[derive(Clone, Copy)]
pub struct ApexEvent {
    created: bool,
    up: bool,
}

impl Model for ApexEvent {
    ghost use Rattle.kernel_meaning.specs.Objects as meaning;

    ghost Value = { meaning.ApexEvent };

    ghost use Rattle.sync_objects_base.specs.View.{event_of, event_fields};

    ghost view = { event_of };

    ghost inverse = { event_fields };
}

impl ApexEvent {
    /// An event before it is created.
    pub(crate) fn fresh() -> ApexEvent
        ensures { result ≡ meaning.fresh_event }
    {
        ApexEvent {
            created: false,
            up: false,
        }
    }

    /// Whether it is created.
    pub fn is_created(self) -> bool
        ensures { result ≡ self.created }
    {
        self.created
    }

    /// Whether it is up; while it is down, processes wait for it.
    pub fn is_up(self) -> bool
        ensures { result ≡ self.up }
    {
        self.up
    }

    /// The same event, created.
    pub(crate) fn created(self) -> ApexEvent
        ensures { result ≡ record self { created = true } }
    {
        ApexEvent {
            created: true,
            ..self
        }
    }

    /// The same event, up or down.
    pub fn with_state(self, up: bool) -> ApexEvent
        ensures { result ≡ record self { up = up } }
    {
        ApexEvent { up, ..self }
    }
}
