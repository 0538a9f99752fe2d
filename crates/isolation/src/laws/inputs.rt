//! The laws on the text of inputs.

ghost use Rattle.std.specs.Prelude.{◌≡◌, ◌≤◌, ◌^◌, ℕ, List, Some, Ok, length};
ghost use Rattle.apex_types.specs.Limits.{MOST_DEVICE_LINES, MOST_TICKS};
ghost use Rattle.apex_types.specs.declared.device.DeviceLine.{DeviceLine};
ghost use Rattle.machine_meaning.specs.MachineMeaning.{verdict_for};
ghost use Rattle.machine_meaning.specs.Image.{Image};
ghost use Rattle.module_meaning.specs.Table.{Partition};
ghost use Rattle.machine_meaning.specs.ImageLimits.{IsLawful};
ghost use Rattle.isolation.specs.Alone.{InputLine};
ghost use Rattle.isolation.specs.InputText.{AreInputs, AreWritable, HasNames, replay_text};
ghost use Rattle.isolation.specs.ReplayText.{replay_verdict};
ghost use Rattle.isolation.specs.Slices.{Slice, machine_inputs, slice};

/// The text of at most 65,536 inputs is accepted as a replay text of their partition, and means
/// these inputs.
pub fn written_inputs_are_read()
    ensures { (row : Partition) (lines : List InputLine) → HasNames row → AreInputs row 0 lines
        → length lines ≤ MOST_DEVICE_LINES → replay_verdict row (replay_text row lines) ≡ Ok lines }
{}

/// The inputs that a run of at most 2^40 ticks brings a partition are allowed: they are in the
/// order of their ticks. Each message arrives at one of the partition's destination ports, with at
/// least 1 word and at most the words that the port takes. That all words are words of 64 bits is a
/// premise.
pub fn inputs_are_allowed()
    ensures { (image : Image) (text : List ℕ) (lines : List DeviceLine) (p : ℕ) (s : Slice) (n : ℕ)
        → IsLawful image → verdict_for image text ≡ Ok lines → slice image p ≡ Some s
        → n ≤ MOST_TICKS → AreWritable (machine_inputs image p lines n)
        → AreInputs s.item.partition 0 (machine_inputs image p lines n) }
{}

/// So the text of the inputs that a run brings a partition is accepted as a replay text of the
/// partition, and read as exactly these inputs, if they are at most 65,536.
pub fn inputs_of_a_run_are_read()
    ensures { (image : Image) (text : List ℕ) (lines : List DeviceLine) (p : ℕ) (s : Slice) (n : ℕ)
        → IsLawful image → verdict_for image text ≡ Ok lines → slice image p ≡ Some s
        → n ≤ MOST_TICKS → AreWritable (machine_inputs image p lines n)
        → length (machine_inputs image p lines n) ≤ MOST_DEVICE_LINES
        → replay_verdict s.item.partition
        (replay_text s.item.partition (machine_inputs image p lines n))
        ≡ Ok (machine_inputs image p lines n) }
{}
