//! Numbers and names.

ghost use Rattle.std.specs.Prelude.{◌≡◌, ◌≤◌, length, IfOk};
ghost use Rattle.std.specs.Str.{bytes_eq};
ghost use Rattle.std.specs.Int.{w16, w32, w64};
ghost use Rattle.machine_meaning.specs.ImageReading.{number_at, byte_at, word_at, limited_at, small_at, bytes_at, name_at};
ghost use Rattle.image.specs.Views.{Gives};

use crate::fault::ImageFault;
use apex_types::Name;
use apex_types::limits::MOST_NAME_BYTES;

pub fn byte_at(bytes: &[u8]) -> Result<(u8, &[u8]), ImageFault>
    ensures { Gives (λ x. (x.0, x.1.now)) result (byte_at bytes.now) }
{
    match bytes {
        [] => Err(ImageFault::Truncated),
        [first, rest @ ..] => Ok((*first, rest)),
    }
}

pub fn u16_at(bytes: &[u8]) -> Result<(u16, &[u8]), ImageFault>
    ensures { Gives (λ x. (x.0, x.1.now)) result (number_at w16 bytes.now) }
{
    match bytes.split_first_chunk::<2>() {
        Some((front, rest)) => Ok((u16::from_le_bytes(*front), rest)),
        None => Err(ImageFault::Truncated),
    }
}

pub fn u32_at(bytes: &[u8]) -> Result<(u32, &[u8]), ImageFault>
    ensures { Gives (λ x. (x.0, x.1.now)) result (number_at w32 bytes.now) }
{
    match bytes.split_first_chunk::<4>() {
        Some((front, rest)) => Ok((u32::from_le_bytes(*front), rest)),
        None => Err(ImageFault::Truncated),
    }
}

pub fn u64_at(bytes: &[u8]) -> Result<(u64, &[u8]), ImageFault>
    ensures { Gives (λ x. (x.0, x.1.now)) result (number_at w64 bytes.now) }
{
    match bytes.split_first_chunk::<8>() {
        Some((front, rest)) => Ok((u64::from_le_bytes(*front), rest)),
        None => Err(ImageFault::Truncated),
    }
}

#[tactic(auto, unfolding(machine_meaning::specs::ImageReading::word_at))]
pub fn i64_at(bytes: &[u8]) -> Result<(i64, &[u8]), ImageFault>
    ensures { Gives (λ x. (x.0, x.1.now)) result (word_at bytes.now) }
{
    match bytes.split_first_chunk::<8>() {
        Some((front, rest)) => Ok((i64::from_le_bytes(*front), rest)),
        None => Err(ImageFault::Truncated),
    }
}

#[tactic(auto, unfolding(machine_meaning::specs::ImageReading::small_at))]
pub fn u8_within(bytes: &[u8], low: u8, high: u8) -> Result<(u8, &[u8]), ImageFault>
    ensures low { IfOk result (λ x. low ≤ x.0) }
    ensures high { IfOk result (λ x. x.0 ≤ high) }
    ensures exact { Gives (λ x. (x.0, x.1.now)) result (small_at low high bytes.now) }
{
    let (number, rest) = byte_at(bytes)?;
    if number < low || high < number {
        return Err(ImageFault::Limit);
    }
    Ok((number, rest))
}

#[tactic(auto, unfolding(machine_meaning::specs::ImageReading::limited_at))]
pub fn u16_within(bytes: &[u8], low: u16, high: u16) -> Result<(u16, &[u8]), ImageFault>
    ensures low { IfOk result (λ x. low ≤ x.0) }
    ensures high { IfOk result (λ x. x.0 ≤ high) }
    ensures exact { Gives (λ x. (x.0, x.1.now)) result (limited_at w16 low high bytes.now) }
{
    let (number, rest) = u16_at(bytes)?;
    if number < low || high < number {
        return Err(ImageFault::Limit);
    }
    Ok((number, rest))
}

#[tactic(auto, unfolding(machine_meaning::specs::ImageReading::limited_at))]
pub fn u32_within(bytes: &[u8], low: u32, high: u32) -> Result<(u32, &[u8]), ImageFault>
    ensures low { IfOk result (λ x. low ≤ x.0) }
    ensures high { IfOk result (λ x. x.0 ≤ high) }
    ensures exact { Gives (λ x. (x.0, x.1.now)) result (limited_at w32 low high bytes.now) }
{
    let (number, rest) = u32_at(bytes)?;
    if number < low || high < number {
        return Err(ImageFault::Limit);
    }
    Ok((number, rest))
}

#[tactic(auto, unfolding(machine_meaning::specs::ImageReading::limited_at))]
pub fn u64_within(bytes: &[u8], low: u64, high: u64) -> Result<(u64, &[u8]), ImageFault>
    ensures exact { Gives (λ x. (x.0, x.1.now)) result (limited_at w64 low high bytes.now) }
{
    let (number, rest) = u64_at(bytes)?;
    if number < low || high < number {
        return Err(ImageFault::Limit);
    }
    Ok((number, rest))
}

#[tactic(auto, unfolding(machine_meaning::specs::ImageReading::bytes_at))]
pub fn bytes_at(size: usize, bytes: &[u8]) -> Result<(&[u8], &[u8]), ImageFault>
    ensures { Gives (λ x. (x.0.now, x.1.now)) result (bytes_at size bytes.now) }
{
    if bytes.len() < size {
        return Err(ImageFault::Truncated);
    }
    Ok(bytes.split_at(size))
}

/// The length of a name is judged before its bytes, its form when all are there.
#[tactic(auto, unfolding(machine_meaning::specs::ImageReading::name_at))]
pub fn name_at(bytes: &[u8]) -> Result<(Name, &[u8]), ImageFault>
    ensures { Gives (λ x. (x.0, x.1.now)) result (name_at bytes.now) }
{
    let (size, rest) = u8_within(bytes, 1, MOST_NAME_BYTES as u8)?;
    let (text, rest) = bytes_at(usize::from(size), rest)?;
    match Name::new(text) {
        Some(name) => Ok((name, rest)),
        None => Err(ImageFault::Limit),
    }
}

pub fn same_name(one: &Name, other: &Name) -> bool
    ensures { result ≡ bytes_eq one.now other.now }
{
    one.as_bytes() == other.as_bytes()
}
