//! The laws of isolation.

ghost use Rattle.std.specs.Prelude.{◌≡◌, ℕ, List, Some, Ok};
ghost use Rattle.apex_types.specs.declared.device.DeviceLine.{DeviceLine};
ghost use Rattle.toml.specs.Data.{Members};
ghost use Rattle.machine_meaning.specs.MachineMeaning.{verdict_for};
ghost use Rattle.module_meaning.specs.DeviceText.{verdict as device_verdict};
ghost use Rattle.machine_meaning.specs.Image.{Image};
ghost use Rattle.module_meaning.specs.Table.{Partition, Table, at_number};
ghost use Rattle.machine_meaning.specs.ImageLimits.{IsLawful};
ghost use Rattle.pal_meaning.specs.Program.{Program};
ghost use Rattle.module_meaning.specs.TableRules.{verdict};
ghost use Rattle.machine_meaning.specs.MachineMeaning.{machine_trace};
ghost use Rattle.module_meaning.specs.SourceMeaning.{source_trace};
ghost use Rattle.isolation.specs.Alone.{InputLine};
ghost use Rattle.isolation.specs.Brought.{part};
ghost use Rattle.isolation.specs.Slices.{Slice, machine_inputs, slice, slice_trace};
ghost use Rattle.isolation.specs.SourceSlices.{source_inputs, source_slice, source_slice_trace};

/// For each partition, the trace of an image shows the trace of that partition run alone, from its
/// slice of the image and from the inputs that the run brings it: whatever code the others run.
pub fn part_is_alone()
    ensures { (image : Image) (text : List ℕ) (lines : List DeviceLine) (p : ℕ) (s : Slice) (n : ℕ)
        → IsLawful image → verdict_for image text ≡ Ok lines → slice image p ≡ Some s
        → part s.item.partition.name (machine_trace image lines n)
        ≡ slice_trace s (machine_inputs image p lines n) n }
{}

/// Two modules that agree in a partition's slice, and bring it the same inputs, give it the same
/// trace.
pub fn same_slice_same_part()
    ensures { (one other : Image) (text words : List ℕ) (lines others : List DeviceLine) (p : ℕ)
        (s : Slice) (n : ℕ)
        → IsLawful one → IsLawful other → verdict_for one text ≡ Ok lines
        → verdict_for other words ≡ Ok others → slice one p ≡ Some s → slice other p ≡ Some s
        → machine_inputs one p lines n ≡ machine_inputs other p others n
        → part s.item.partition.name (machine_trace one lines n)
        ≡ part s.item.partition.name (machine_trace other others n) }
{}

/// The same for the meaning of sources: what it shows of a partition depends on the partition's own
/// row and program, on its surroundings, and on its inputs.
pub fn source_part_is_alone()
    ensures { (ms : Members) (t : Table) (sources : List Program) (text : List ℕ)
        (lines : List DeviceLine) (p : ℕ) (row : Partition) (program : Program) (n : ℕ)
        → verdict ms ≡ Ok t → device_verdict t.partitions t.channels text ≡ Ok lines
        → at_number t.partitions p ≡ Some row → at_number sources p ≡ Some program
        → part row.name (source_trace t sources lines n)
        ≡ source_slice_trace (source_slice t sources p row program)
        (source_inputs t sources p lines n) n }
{}
