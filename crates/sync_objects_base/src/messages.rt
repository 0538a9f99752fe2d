//! Rings of messages.

ghost use Rattle.std.specs.Prelude.{◌≡◌, ◌<◌, ◌++◌, [], ◌∷◌, length};

use apex_types::{Words, refill};
use circular_buffer::HeapCircularBuffer;

/// Appends a message to a ring that has room for it. Just the words of the message are copied, and
/// not all the words that a message may have.
pub fn append(ring: &mut HeapCircularBuffer<Words>, message: &Words)
    requires { length ring.old.items < ring.old.capacity }
    ensures items { ring.new.items ≡ ring.old.items ++ message.now ∷ [] }
    ensures capacity { ring.new.capacity ≡ ring.old.capacity }
{
    let place = ring.len();
    let _ = ring.try_push_back(Words::new());
    if let Some(last) = ring.get_mut(place) {
        refill(last, message);
    }
}
