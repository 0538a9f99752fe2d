//! A bit for each priority.

ghost use Rattle.std.specs.Prelude.{◌≡◌, ◌<◌, ◌*◌, ◌+◌, ℕ, slice_index, if◌then◌else◌, ◌==◌};
ghost use Rattle.std.specs.Int.{bit_at};
ghost use Rattle.apex_types.specs.declared.limits.TheConstants.{MARK_BITS};
ghost use Rattle.links.specs.Levels.{IsFirstMark};

use apex_types::limits::MARK_BITS;

/// The level of a priority is 255 less the priority: bit b of word w is that of level MARK_BITS * w + b.
pub(crate) type Marks = [u64; 4];

/// Sets the bit of a level if its list has any entry, and clears it otherwise.
pub(crate) fn put(marks: &mut Marks, level: u8, any: bool)
    ensures { (w b : ℕ) → b < MARK_BITS
        → bit_at (slice_index marks.new w) b
        ≡ (if MARK_BITS * w + b == level then (if any then 1 else 0) else bit_at (slice_index marks.old w) b) }
{
    let word = usize::from(level / MARK_BITS);
    let bit = 1 << (level % MARK_BITS);
    if any {
        marks[word] |= bit;
    } else {
        marks[word] &= !bit;
    }
}

/// The least level whose bit is set.
pub(crate) fn first(marks: &Marks) -> Option<u8>
    ensures { IsFirstMark marks.now result }
{
    let mut word = 0;
    while word < 4 && marks[word] == 0 {
        word += 1;
    }
    if word < 4 {
        Some(word as u8 * MARK_BITS + marks[word].trailing_zeros() as u8)
    } else {
        None
    }
}
