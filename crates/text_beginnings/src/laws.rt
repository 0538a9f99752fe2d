//! The laws: what a beginning settles holds, whatever follows.

ghost use Rattle.std.specs.Prelude.{◌≡◌, ◌++◌, ℕ, true, List};
ghost use Rattle.isolation.specs.ReplayText.{replay_verdict};
ghost use Rattle.machine_meaning.specs.ImageReading.{image_at};
ghost use Rattle.module_meaning.specs.DeviceText.{verdict};
ghost use Rattle.module_meaning.specs.Table.{Channel, Partition};
ghost use Rattle.pal_meaning.specs.Grammar.{IsText};
ghost use Rattle.text_beginnings.specs.Settled.{settles_image, settles_inputs, settles_source};

/// Bytes that begin so are read as these.
#[tactic(auto, using(crate::proofs::Images::no_image))]
pub fn image_is_settled()
    ensures { (bytes rest : List ℕ) → settles_image bytes ≡ true
        → image_at (bytes ++ rest) ≡ image_at bytes }
{}

/// As a device text and as a replay text, a text that begins so is judged as this.
#[tactic(auto, using(crate::proofs::Inputs::same_device_text, crate::proofs::Inputs::same_replay_text))]
pub fn inputs_are_settled()
    ensures devices { (rows : List Partition) (channels : List Channel) (bytes rest : List ℕ)
        → settles_inputs bytes ≡ true
        → verdict rows channels (bytes ++ rest) ≡ verdict rows channels bytes }
    ensures replay { (row : Partition) (bytes rest : List ℕ) → settles_inputs bytes ≡ true
        → replay_verdict row (bytes ++ rest) ≡ replay_verdict row bytes }
{}

/// No text that begins so is that of a source.
pub fn source_is_settled()
    ensures { (bytes rest : List ℕ) → settles_source bytes ≡ true → IsText (bytes ++ rest) → ⊥ }
{}
