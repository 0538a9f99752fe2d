//! The windows of a module table, as the script of the page reads them.

ghost use Rattle.std.specs.Prelude.{◌≡◌, ◌++◌, flat_map, IfOk, OnOk, string_bytes};
ghost use Rattle.trace_page.specs.Windows.{name_at, row_text, windows_text};

use apex_types::{Name, PartitionId, WindowRow};
use std::alloc::{AllocError, Global};
use trace_stays::MemoryFull;

/// The text for windows that are not known.
pub const NOT_KNOWN: &str = "null";

/// The frame and its windows, each with the name of its partition.
///
/// # Errors
///
/// Memory ran out.
pub fn windows_text(
    alloc: Global,
    frame: u32,
    windows: &[WindowRow],
    names: &[Name],
) -> Result<Vec<u8>, MemoryFull>
    ensures { IfOk result (λ text. text.items ≡ windows_text frame windows.now names.now) }
{
    let mut text = Vec::new(alloc);
    let begin = format!(in alloc; "{{\"frame\":{frame},\"windows\":[")?;
    text.extend_from_slice(begin.as_bytes())?;
    push_rows(alloc, &mut text, windows, names)?;
    text.extend_from_slice(b"]}")?;
    Ok(text)
}

#[tactic(auto, using(std::proofs::lemmas::List::drop_more))]
fn push_rows(
    alloc: Global,
    text: &mut Vec<u8>,
    windows: &[WindowRow],
    names: &[Name],
) -> Result<(), AllocError>
    ensures { OnOk result
        (text.new.items ≡ text.old.items ++ flat_map (row_text names.now) windows.now) }
{
    for window in windows {
        let row = row(alloc, window, names)?;
        text.extend_from_slice(row.as_bytes())?;
    }
    Ok(())
}

fn row(alloc: Global, window: &WindowRow, names: &[Name]) -> Result<String, AllocError>
    ensures { IfOk result (λ row. string_bytes row ≡ row_text names.now window.now) }
{
    let name = name_of(names, window.partition);
    let offset = window.offset;
    let length = window.length;
    format!(in alloc; "[\"{name}\",{offset},{length}],")
}

/// The name of a partition; an empty text if there is no such partition.
fn name_of(names: &[Name], partition: PartitionId) -> &str
    ensures { result.now ≡ name_at names.now partition.0 }
{
    match partition.place() {
        Some(place) => match names.get(usize::from(place)) {
            Some(name) => name.as_str(),
            None => "",
        },
        None => "",
    }
}
