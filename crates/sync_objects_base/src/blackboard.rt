//! Blackboards.

ghost use Rattle.std.specs.Prelude.{◌≡◌, true, false, option_map};
ghost use Rattle.kernel_meaning.specs.Objects as meaning;
ghost use Rattle.sync_objects_base.specs.Status.{blackboard_status};

use apex_types::{BlackboardRow, Words};
use std::marker::Model;

/// A blackboard. A contract sees it as the blackboard of the definitions.
#[derive(Drop)]
pub struct Blackboard {
    row: BlackboardRow,
    created: bool,
    shown: Option<Words>,
}

impl Model for Blackboard {
    ghost use Rattle.kernel_meaning.specs.Objects as meaning;

    ghost Value = { meaning.Blackboard };

    ghost use Rattle.sync_objects_base.specs.View.{blackboard_of};

    ghost view = { blackboard_of };
}

/// The status of a blackboard, without its message.
#[derive(Clone, Copy)]
pub struct BlackboardStatus {
    pub row: BlackboardRow,
    pub created: bool,
    /// Whether it displays a message.
    pub occupied: bool,
}

/// A copy of the words.
fn copied(words: &Words) -> Words
    ensures { result ≡ words.now }
{
    let mut copy = Words::new();
    copy.try_extend_from_slice(words.as_slice()).unwrap();
    copy
}

impl Blackboard {
    /// A blackboard before it is created.
    pub(crate) fn fresh(row: BlackboardRow) -> Blackboard
        ensures { result ≡ meaning.fresh_blackboard row }
    {
        Blackboard {
            row,
            created: false,
            shown: None,
        }
    }

    /// Resets the blackboard: it is not created, and displays nothing.
    pub(crate) fn clear(&mut self)
        ensures { self.new ≡ meaning.cleared_blackboard self.old }
    {
        self.created = false;
        self.shown = None;
    }

    /// Creates the blackboard.
    pub(crate) fn create(&mut self)
        ensures { self.new ≡ record self.old { created = true } }
    {
        self.created = true;
    }

    /// Displays a message, or none.
    pub(crate) fn show(&mut self, shown: Option<Words>)
        ensures { self.new ≡ record self.old { shown = shown } }
    {
        self.shown = shown;
    }

    /// The message that it displays.
    pub fn shown(&self) -> Option<Words>
        ensures { result ≡ self.now.shown }
    {
        match &self.shown {
            Some(words) => Some(copied(words)),
            None => None,
        }
    }

    /// Its status.
    pub fn status(&self) -> BlackboardStatus
        ensures { result ≡ blackboard_status self.now }
    {
        BlackboardStatus {
            row: self.row,
            created: self.created,
            occupied: self.shown.is_some(),
        }
    }
}
