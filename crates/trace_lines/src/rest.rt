//! What one trace has from the first difference on.

ghost use Rattle.std.specs.Prelude.{◌≡◌, ◌∷◌, ◌++◌, [], List, Some, None};
ghost use Rattle.apex_types.specs.declared.event.Event.{Event};
ghost use Rattle.trace_lines.specs.Parts.{IsRest};

use apex_types::Event;

/// The first line from then on, if there is one, and how many there are. The count stops at
/// `u64::MAX`.
#[derive(Drop)]
pub struct Rest {
    pub line: Option<Event>,
    pub lines: u64,
}

impl Rest {
    /// No line.
    pub fn none() -> Rest
        ensures { IsRest result [] }
    {
        Rest {
            line: None,
            lines: 0,
        }
    }

    /// One more line.
    pub fn add(&mut self, event: Event)
        ensures lines { (lines : List Event) → IsRest self.old lines
            → IsRest self.new (lines ++ event ∷ []) }
        ensures none { self.old.line ≡ None → self.new.line ≡ Some event }
        ensures some { (first : Event) → self.old.line ≡ Some first
            → self.new.line ≡ Some first }
    {
        if self.line.is_none() {
            self.line = Some(event);
        }
        self.lines = self.lines.saturating_add(1);
    }
}
