//! Whether two lines are of the same process, or of the same partition.

ghost use Rattle.std.specs.Prelude.{◌≡◌, ◌↔◌, IsTrue};
ghost use Rattle.apex_types.specs.Line.{subject_text};
ghost use Rattle.engine_meaning.specs.Digits.{same};
ghost use Rattle.trace_stays.specs.Same.{is_same_partition};

use crate::words::subject_word;
use apex_types::{Name, Subject};

/// Returns true if a line writes both with the same word.
pub fn is_same_subject(one: &Subject, other: &Subject) -> bool
    ensures { result ≡ same (subject_text one.now) (subject_text other.now) }
{
    subject_word(one).as_bytes() == subject_word(other).as_bytes()
}

/// Returns true if both are the same partition, or the module itself.
pub fn is_same_partition(one: &Option<Name>, other: &Option<Name>) -> bool
    ensures same { IsTrue result ↔ (one.now ≡ other.now) }
    ensures value { result ≡ is_same_partition one.now other.now }
{
    match (one, other) {
        (Some(one), Some(other)) => one.as_bytes() == other.as_bytes(),
        (None, None) => true,
        _ => false,
    }
}
