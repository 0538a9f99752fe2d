//! The explanations of a refused image, device text and replay text.

ghost use Rattle.std.specs.Prelude.{◌≡◌, IfSome, option_map, string_bytes};
ghost use Rattle.engine_meaning.specs.Digits.{same};
ghost use Rattle.finding_lines.specs.Reports.{report_of};
ghost use Rattle.image.specs.Items.{items_of, partition_of};
ghost use Rattle.image.specs.Views.{image_of};
ghost use Rattle.machine_meaning.specs.ImageReading.{image_at};
ghost use Rattle.command_line.specs.Files as spec;
ghost use Rattle.image_findings.specs.Views.{names_of};
ghost use Rattle.image_findings.specs.Named.{input_names};

use crate::explanations::report::explanation;
use crate::explanations::sentences::{device_sentence, image_sentence, replay_sentence};
use apex_types::DeviceFault;
use finding_lines::Report;
use image::{Image, ImageFault, PartitionItem, load_image};
use image_findings::{Names, device_names, input_names};
use std::alloc::Global;
use window_table::PartitionRow;

/// The explanation of a refused image: a line with the sentence of its fault, and the lines of what is
/// wrong with it. There is none if memory runs out.
pub fn explain_image(
    alloc: Global,
    report: Report<'_>,
    bytes: &[u8],
    fault: ImageFault,
) -> Option<String>
    ensures { IfSome result
        (λ text. spec.IsImageExplanation (report_of report.entry) bytes.now fault (string_bytes text)) }
{
    let lines = image_findings::explain_image(alloc, report, bytes)?;
    explanation(alloc, report.form, image_sentence(fault), lines.as_str())
}

/// The explanation of a device text that is refused for the image of these bytes.
/// There is none if memory runs out.
pub fn explain_devices(
    alloc: Global,
    report: Report<'_>,
    image: &[u8],
    text: &[u8],
    fault: DeviceFault,
) -> Option<String>
    ensures { IfSome result
        (λ lines.
        spec.IsDeviceExplanation (report_of report.entry) image.now text.now fault (string_bytes lines)) }
{
    let image = loaded(alloc, image)?;
    let names = device_names(alloc, &image).ok()?;
    let lines = text_lines(alloc, report, &names, text)?;
    explanation(alloc, report.form, device_sentence(fault), lines.as_str())
}

/// The image of these bytes, if they are one and there is memory for it.
fn loaded(alloc: Global, bytes: &[u8]) -> Option<Image>
    ensures { IfSome result (λ image. spec.IsImage bytes.now (image_of image)) }
{
    match load_image(alloc, bytes) {
        Ok(image) => Some(image),
        Err(_) => None,
    }
}

/// The lines of what is wrong with a text of these names.
fn text_lines(alloc: Global, report: Report<'_>, names: &Names<'_>, text: &[u8]) -> Option<String>
    ensures { IfSome result
        (λ lines. spec.AreOfText (report_of report.entry) (names_of names.now) text.now (string_bytes lines)) }
{
    match image_findings::explain_text(alloc, report, names, text) {
        Ok(lines) => lines,
        Err(_) => None,
    }
}

/// The explanation of a replay text that is refused for the partition of that name of the image of
/// these bytes. There is none if memory runs out.
pub fn explain_inputs(
    alloc: Global,
    report: Report<'_>,
    image: &[u8],
    partition: &str,
    text: &[u8],
    fault: DeviceFault,
) -> Option<String>
    ensures { IfSome result
        (λ lines.
        spec.IsReplayExplanation (report_of report.entry) image.now partition.now text.now fault
        (string_bytes lines)) }
{
    let image = loaded(alloc, image)?;
    let lines = partition_lines(alloc, report, &image, partition, text)?;
    explanation(alloc, report.form, replay_sentence(fault), lines.as_str())
}

/// The lines of what is wrong with a replay text for the partition of that name.
fn partition_lines(
    alloc: Global,
    report: Report<'_>,
    image: &Image,
    partition: &str,
    text: &[u8],
) -> Option<String>
    ensures { IfSome result
        (λ lines.
        spec.AreOfPartition (report_of report.entry) (image_of image.now) partition.now text.now
        (string_bytes lines)) }
{
    let row = row_named(image.partitions.as_slice(), partition)?;
    row_lines(alloc, report, row, text)
}

/// The lines of what is wrong with a replay text for the partition of this row.
fn row_lines(alloc: Global, report: Report<'_>, row: &PartitionRow, text: &[u8]) -> Option<String>
    ensures { IfSome result
        (λ lines.
        spec.AreOfText (report_of report.entry) (input_names (partition_of row.now)) text.now
        (string_bytes lines)) }
{
    let names = input_names(alloc, row).ok()?;
    text_lines(alloc, report, &names, text)
}

/// The row of the partition of that name.
fn row_named<'a>(items: &'a [PartitionItem], name: &str) -> Option<&'a PartitionRow>
    ensures { option_map (λ row. partition_of row.now) result
        ≡ spec.row_named name.now (items_of items.now) }
{
    let (item, others) = items.split_first()?;
    if item.row.name.as_bytes() == name.as_bytes() {
        Some(&item.row)
    } else {
        row_named(others, name)
    }
}
