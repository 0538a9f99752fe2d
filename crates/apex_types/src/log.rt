//! Where the events of a step are recorded.

ghost use Rattle.std.specs.Prelude.{◌≡◌, ◌≤◌, ◌<◌, ◌+◌, ◌-◌, ◌++◌, ◌↔◌, ℕ, List, [], ◌∷◌, length, IsTrue};

use crate::event::{Event, Events, LineKind};
use crate::identity::Ticks;
use crate::name::Name;

/// A recorder of the events of a step, one after another.
///
/// It holds a list of pieces: a list of events holds the events themselves, and a buffer of a trace
/// the bytes of their lines. No call allocates memory.
pub trait EventLog {
    ghost use Rattle.apex_types.specs.Output.{event_of};
    ghost use Rattle.apex_types.specs.declared.event.Event.{Event};
    ghost use Rattle.apex_types.specs.Limits.{MOST_WORDS};
    ghost use Rattle.apex_types.specs.declared.limits.TheConstants.{MOST_EVENTS};

    ghost Piece: { Type 0 };

    /// The pieces that it holds.
    ghost held: { Self → List Piece };

    /// The pieces that it holds for a list of events.
    ghost pieces: { List Event → List Piece };

    /// The number of further events that it has room for, whatever they are.
    ghost room: { Self → ℕ };

    /// Records an event of a partition, or of the module itself; `words` are those of its message.
    fn tell(&mut self, tick: Ticks, partition: &Option<Name>, kind: &LineKind, words: &[i64])
        requires room { 0 < room self.old }
        requires few { length words.now ≤ MOST_WORDS }
        ensures held { held self.new
            ≡ held self.old
            ++ pieces (record {
              tick = tick;
              partition = partition.now;
              kind = event_of kind.now words.now;
            } ∷ []) }
        ensures room { room self.old ≤ room self.new + 1 };

    /// Whether it holds nothing.
    fn is_empty(&self) -> bool
        ensures { IsTrue result ↔ (held self.now ≡ []) };

    ghost none: { pieces [] ≡ [] };

    ghost more: { (before after : List Event)
        → pieces (before ++ after) ≡ pieces before ++ pieces after };

    ghost silent: { (events : List Event) → pieces events ≡ [] → events ≡ [] };

    ghost empty: { (log : Self) → held log ≡ [] → MOST_EVENTS ≤ room log };
}

impl EventLog for Events {
    ghost use Rattle.std.proofs.Common.{refl};
    ghost use Rattle.apex_types.specs.Lines.{room_of_none};
    ghost use Rattle.apex_types.specs.declared.event.Event.{Event};
    ghost use Rattle.apex_types.specs.declared.limits.TheConstants.{MOST_EVENTS};

    ghost Piece = { Event };

    ghost held = { λ log. log.items };

    ghost pieces = { λ events. events };

    ghost room = { λ log. MOST_EVENTS - length log.items };

    ghost none = { refl };

    ghost more = { λ before after. refl };

    ghost silent = { λ events h. h };

    ghost empty = { λ log h. room_of_none log.items h };

    fn tell(&mut self, tick: Ticks, partition: &Option<Name>, kind: &LineKind, words: &[i64]) {
        self.push(Event {
            tick,
            partition: *partition,
            kind: kind.with_words(words),
        });
    }

    fn is_empty(&self) -> bool {
        self.as_slice().is_empty()
    }
}
