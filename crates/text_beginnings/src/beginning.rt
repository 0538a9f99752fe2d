//! The tests on beginnings of texts.

ghost use Rattle.std.specs.Int.{from_le_bytes, w16};
ghost use Rattle.std.specs.Prelude.{◌≡◌, ◌≤◌, drop, length, take};
ghost use Rattle.text_beginnings.specs.Settled.{has_other_magic, has_other_version, is_control, is_version, settles_image, settles_inputs, settles_source, settles_table};

use apex_types::limits::MOST_SOURCE_BYTES;
use apex_types::{FIRST_VERSION, MAGIC, SECOND_VERSION, THIRD_VERSION};

/// The most bytes of a table that is read: 16 MiB. All that the limits allow takes some hundred KiB,
/// so comments have room, and a file without an end is not read for ever.
pub const MOST_TABLE_BYTES: usize = 1 << 24;

/// Returns true if there are more bytes than a table that is read has.
pub fn is_longer_than_a_table(bytes: &[u8]) -> bool
    ensures { result ≡ settles_table bytes.now }
{
    bytes.len() > MOST_TABLE_BYTES
}

/// Returns true if there are more bytes than a source may have.
pub fn is_longer_than_a_source(bytes: &[u8]) -> bool
    ensures { result ≡ settles_source bytes.now }
{
    bytes.len() > MOST_SOURCE_BYTES as usize
}

/// Returns true if the bytes begin with another magic or version than every image.
pub fn is_foreign(bytes: &[u8]) -> bool
    ensures { result ≡ settles_image bytes.now }
{
    has_other_magic(bytes) || has_other_version(bytes)
}

/// Returns true if the first eight bytes are others than those of every image.
fn has_other_magic(bytes: &[u8]) -> bool
    ensures { result ≡ has_other_magic bytes.now }
{
    bytes.len() >= 8 && &bytes[..8] != MAGIC.as_slice()
}

/// Returns true if the two bytes after the magic are the number of no version.
fn has_other_version(bytes: &[u8]) -> bool
    ensures { result ≡ has_other_version bytes.now }
{
    bytes.len() >= 10 && !is_version(version_at(bytes))
}

/// The number of the version, after the magic.
fn version_at(bytes: &[u8]) -> u16
    requires { 10 ≤ length bytes.now }
    ensures { result ≡ from_le_bytes w16 (take 2 (drop 8 bytes.now)) }
{
    u16::from_le_bytes([bytes[8], bytes[9]])
}

fn is_version(number: u16) -> bool
    ensures { result ≡ is_version number }
{
    number == FIRST_VERSION || number == SECOND_VERSION || number == THIRD_VERSION
}

/// Returns true if one of the bytes is in no line of a device or replay text.
#[tactic(auto, using(std::proofs::lemmas::List::drop_more))]
pub fn has_control(bytes: &[u8]) -> bool
    ensures { result ≡ settles_inputs bytes.now }
{
    for byte in bytes {
        if is_control(*byte) {
            return true;
        }
    }
    false
}

fn is_control(byte: u8) -> bool
    ensures { result ≡ is_control byte }
{
    byte < 32 && byte != b'\n'
}
