//! Reads of an instruction in the memory that the processor borrows.

ghost use Rattle.std.specs.Prelude.{◌≡◌, length, slice_get};
ghost use Rattle.engine_meaning.specs.Operators.{element_at};
ghost use Rattle.machine_meaning.specs.MachineControl.{word_at, element_word};
ghost use Rattle.engine_meaning.specs.Operators.{has_array_within, is_range_within};

use apex_types::ArrayPlace;
use regions::PartitionMem;

/// The word at `place`; `None` past the end.
pub(crate) fn load(words: &[i64], place: usize) -> Option<i64>
    ensures { result ≡ slice_get words.now place }
{
    words.get(place).copied()
}

/// The word at `address`; `None` outside of the words.
pub(crate) fn load_at(words: &[i64], address: i64) -> Option<i64>
    ensures { result ≡ word_at words.now address }
{
    if address < 0 {
        return None;
    }
    load(words, address.unsigned_abs() as usize)
}

/// The place of an element of the array of `size` words at `place`; `None` if the array lies
/// outside of the data, or the element outside of the array.
pub(crate) fn element_place(words: &[i64], place: u32, size: i64, index: i64) -> Option<usize>
    ensures { result ≡ element_at words.now place size index }
{
    if size < 0 || index < 0 {
        return None;
    }
    let place = u64::from(place);
    if index < size && place + size.unsigned_abs() <= words.len() as u64 {
        Some((place + index.unsigned_abs()) as usize)
    } else {
        None
    }
}

/// The element of the array of `size` words at `place`; `None` if the array lies outside of the
/// data, or the element outside of the array.
pub(crate) fn element(words: &[i64], place: u32, size: i64, index: i64) -> Option<i64>
    ensures { result ≡ element_word words.now (element_at words.now place size index) }
{
    let place = element_place(words, place, size, index)?;
    load(words, place)
}

/// Whether the array argument of a call, if it has one, lies within the data.
pub(crate) fn holds(memory: &PartitionMem, array: Option<ArrayPlace>) -> bool
    ensures { result ≡ has_array_within (length memory.now.words) array }
{
    match array {
        None => true,
        Some(array) => holds_range(memory, array.base, array.size),
    }
}

/// Whether the `size` words from `base` on lie within the data.
fn holds_range(memory: &PartitionMem, base: i64, size: i64) -> bool
    ensures { result ≡ is_range_within (length memory.now.words) base size }
{
    if base < 0 || size < 0 {
        return false;
    }
    base.unsigned_abs() + size.unsigned_abs() <= memory.data_len() as u64
}
