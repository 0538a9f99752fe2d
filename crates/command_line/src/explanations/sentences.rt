//! The sentence of each rule by which a table, a source, an image, a device text, a replay text or a
//! command is refused. The pages quote them word for word.

ghost use Rattle.std.specs.Prelude.{◌≡◌};
ghost use Rattle.command_line.specs.Sentences.{command_sentence, device_sentence, file_sentence, image_sentence, replay_sentence, source_sentence, table_sentence, write_sentence};

use apex_types::DeviceFault;
use image::ImageFault;
use pal_base::fault::Refusal;
use streams::Reason;
use window_table::TableFault;

/// Why a command is refused that breaks no rule for a text or an image.
#[derive(Clone, Copy, PartialEq, Eq)]
pub enum CommandFault {
    /// There are fewer or more sources than partitions.
    Sources,
    /// A program has more than 65,536 instructions.
    Compile,
    /// More than 2^40 ticks are wanted.
    Ticks,
    /// The image has no partition of the name.
    Partition,
    /// A partition gets more than 65,536 inputs.
    Inputs,
    /// A table has more bytes than one that is read.
    LongTable,
    Memory,
    /// Standard output took no more bytes.
    Write,
}

/// The sentence of a rule for module tables.
pub fn table_sentence(fault: TableFault) -> &'static str
    ensures { result.now ≡ table_sentence fault }
{
    match fault {
        TableFault::Document => {
            "The bytes are not a TOML document: they are not UTF-8 or not TOML, a key stands twice, or an integer does not fit 64 bits."
        }
        TableFault::Shape => {
            "A key is missing, is unknown, or has a value of another type; or a `kind`, `direction` or `discipline` is not one of its words."
        }
        TableFault::Limit => "A number, a count or a name is outside its limits.",
        TableFault::Name => {
            "Two partitions, two channels or two ports of a partition have the same name; or a window's partition or a channel's end names something that is not in the table."
        }
        TableFault::Overlap => {
            "A window begins before the end of the one before it in the text, or ends past the frame."
        }
        TableFault::Period => "The frame is not a multiple of a partition's period.",
        TableFault::Duration => {
            "In one of its periods a partition's windows offer fewer ticks than its duration."
        }
        TableFault::Release => "A partition has no window with `release = true`.",
        TableFault::Ends => {
            "The ends of a channel do not fit together: their number, partitions, directions, kinds or words break a rule."
        }
        TableFault::Health => {
            "An `hm` does not have exactly the seven keys, or an action in an `hm` or in `fault` is not one of its words."
        }
        TableFault::Memory => "Memory ran out; this says nothing about the files.",
    }
}

/// The sentence of a rule for sources.
pub fn source_sentence(refusal: Refusal) -> &'static str
    ensures { result.now ≡ source_sentence refusal }
{
    match refusal {
        Refusal::Text =>
            "A byte is above 127, in a comment too, or the text has more than 1,048,576 bytes.",
        Refusal::Grammar => "The text is not in the grammar.",
        Refusal::Name => "A name is not declared, or is declared again.",
        Refusal::Kind => {
            "A name is of the wrong kind, the number of arguments or targets is wrong, or a `return` is outside a procedure."
        }
        Refusal::Limit => "A name, a number, a count or a frame is outside a limit.",
        Refusal::Period => { "A process's period is neither -1 nor a multiple of the partition's." }
        Refusal::Memory => "Memory ran out; this says nothing about the files.",
    }
}

/// The sentence of a rule for images.
pub fn image_sentence(fault: ImageFault) -> &'static str
    ensures { result.now ≡ image_sentence fault }
{
    match fault {
        ImageFault::Truncated => "A field of the image is not all there.",
        ImageFault::Foreign => {
            "The file is not an image of version 1, 2 or 3: the first eight bytes or the version are different."
        }
        ImageFault::Limit => {
            "A value in the image is outside its limit, or breaks a rule of the module table."
        }
        ImageFault::Order => {
            "A name was used before among its kind, or a window begins before the end of the one before it."
        }
        ImageFault::Trailing => "Bytes follow the last field of the image.",
        ImageFault::Memory => "Memory ran out; this says nothing about the files.",
    }
}

/// The sentence of a rule for device texts.
pub fn device_sentence(fault: DeviceFault) -> &'static str
    ensures { result.now ≡ device_sentence fault }
{
    match fault {
        DeviceFault::Form => {
            "The line has none of the forms, or it is the last one and has no line feed."
        }
        DeviceFault::Order => "The tick of the line is below that of the line before.",
        DeviceFault::Name => {
            "No channel or no partition has this name, or the source of the channel is a port."
        }
        DeviceFault::Size => {
            "The message has more words than the ports of the channel take, or 65,536 lines stand before this one."
        }
    }
}

/// The sentence of a rule for replay texts. The first two are those of device texts.
pub fn replay_sentence(fault: DeviceFault) -> &'static str
    ensures { result.now ≡ replay_sentence fault }
{
    match fault {
        DeviceFault::Form | DeviceFault::Order => device_sentence(fault),
        DeviceFault::Name => {
            "The partition has no destination port of this name, or the name behind `FAULT` is not the partition's."
        }
        DeviceFault::Size => {
            "The message has more words than the port takes, or 65,536 lines stand before this one."
        }
    }
}

/// The sentence of a refusal that breaks no rule for a text or an image.
pub fn command_sentence(fault: CommandFault) -> &'static str
    ensures { result.now ≡ command_sentence fault }
{
    match fault {
        CommandFault::Sources => { "There are fewer or more sources than partitions in the table." }
        CommandFault::Compile => "The program of the partition has more than 65,536 instructions.",
        CommandFault::Ticks => "The number of ticks is above 1,099,511,627,776, which is 2^40.",
        CommandFault::Partition => "The image has no partition of this name.",
        CommandFault::Inputs => {
            "More than 65,536 inputs come to the partition, and a replay text has no more lines."
        }
        CommandFault::LongTable => "The table has more than 16,777,216 bytes.",
        CommandFault::Memory => "Memory ran out; this says nothing about the files.",
        CommandFault::Write => "Standard output took no more bytes.",
    }
}

/// The sentence of a file that was not opened, read or written, for this reason.
pub fn file_sentence(reason: Reason) -> &'static str
    ensures { result.now ≡ file_sentence reason }
{
    match reason {
        Reason::Missing => "The file cannot be opened, read or written: nothing has this name.",
        Reason::NoFolder => {
            "The file cannot be opened, read or written: a folder in its name is missing."
        }
        Reason::NotInFolder => {
            "The file cannot be opened, read or written: what its name takes for a folder is none."
        }
        Reason::Folder => "The file cannot be opened, read or written: it is a folder.",
        Reason::Denied => "The file cannot be opened, read or written: it is not allowed.",
        Reason::Unwritable => {
            "The file cannot be opened, read or written: nothing can be written there."
        }
        Reason::Full => "The file cannot be opened, read or written: no room is left there.",
        Reason::WasRead => "The file is not written, because this command has read it.",
        Reason::Left => "The file cannot be opened, read or written: whoever read it has gone.",
        Reason::Other => "The file cannot be opened, read or written.",
    }
}

/// The sentence of bytes that standard output did not take, for this reason.
pub fn write_sentence(reason: Reason) -> &'static str
    ensures { result.now ≡ write_sentence reason }
{
    match reason {
        Reason::Full => "Standard output took no more bytes: no room is left there.",
        Reason::Left => "Standard output took no more bytes: whoever read them has gone.",
        _ => command_sentence(CommandFault::Write),
    }
}
