//! Laws over traces and their texts: each is the contract of a function with an empty body.

ghost use Rattle.std.specs.Prelude.{◌≡◌, ℕ, ◌++◌, List};
ghost use Rattle.apex_types.specs.Line.{line_of, text_of};
ghost use Rattle.apex_types.specs.declared.event.Event.{Event};
ghost use Rattle.trace_text.specs.Trace.{CanBeWritten, IsReadAs, IsTrace};

/// A line is of one event: if the lines of two events are at the front of one text, the events are
/// one, and the same follows.
pub fn line_is_of_one_event()
    ensures { (one other : Event) (rest more : List ℕ) → CanBeWritten one → CanBeWritten other
        → line_of one ++ rest ≡ line_of other ++ more → (one ≡ other) × (rest ≡ more) }
{}

/// The text of a trace is read as its events, and as no others.
pub fn read_back()
    ensures again { (events : List Event) → IsTrace events → IsReadAs (text_of events) events }
    ensures one { (text : List ℕ) (events others : List Event) → IsReadAs text events
        → IsReadAs text others → events ≡ others }
{}

/// The events that a text is read as are a trace, and the text is the text of that trace.
pub fn read_is_written()
    ensures { (text : List ℕ) (events : List Event) → IsReadAs text events
        → IsTrace events × (text_of events ≡ text) }
{}
