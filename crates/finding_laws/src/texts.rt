//! A text is refused by a rule if and only if what is found breaks it.

ghost use Rattle.std.specs.Prelude.{◌≡◌, ℕ, List};
ghost use Rattle.isolation.specs.ReplayText.{replay_verdict};
ghost use Rattle.module_meaning.specs.DeviceText.{pieces, verdict};
ghost use Rattle.module_meaning.specs.Table.{Channel, Partition};
ghost use Rattle.finding_laws.specs.Rules.{refusal_of, rule_in};
ghost use Rattle.image_findings.specs.First.{first_wrong};
ghost use Rattle.image_findings.specs.Named.{device_names_of, input_names};

/// What is found in a refused device text breaks the rule by which it is refused. Nothing is found
/// in an accepted text.
pub fn device_refusals_are_found()
    ensures { (rows : List Partition) (channels : List Channel) (text : List ℕ)
        → refusal_of (verdict rows channels text)
        ≡ rule_in (first_wrong (device_names_of rows channels) 0 0 (pieces 10 text)) }
{}

/// What is found in a refused replay text breaks the rule by which it is refused. Nothing is found
/// in an accepted text.
pub fn replay_refusals_are_found()
    ensures { (row : Partition) (text : List ℕ)
        → refusal_of (replay_verdict row text)
        ≡ rule_in (first_wrong (input_names row) 0 0 (pieces 10 text)) }
{}
