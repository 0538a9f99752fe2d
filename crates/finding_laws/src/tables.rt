//! A rule is broken if and only if there is a finding.

ghost use Rattle.std.specs.Prelude.{◌≡◌, ◌≢◌, ◌||◌, ℕ, List, Some, false, is_none, map, nat_abs, true};
ghost use Rattle.toml.specs.Data.{Members};
ghost use Rattle.module_meaning.specs.Accepted.{IsDocument};
ghost use Rattle.module_meaning.specs.Table.{has_odd_period, has_short_period, has_wrong_ends, lacks_release};
ghost use Rattle.module_meaning.specs.TableRules as rule;
ghost use Rattle.window_table.specs.Refusals.{IsOf};
ghost use Rattle.window_table.specs.declared.fault.TableFault.{TableFault};
ghost use Rattle.window_table.specs.declared.fault.TableFault.TheVariants.{Memory};
ghost use Rattle.finding_laws.specs.Any.{AreFew, has_any};
ghost use Rattle.table_findings.specs.Durations.{short_periods};
ghost use Rattle.table_findings.specs.Ends.{ends};
ghost use Rattle.table_findings.specs.Health.{health};
ghost use Rattle.table_findings.specs.Limits.{limits};
ghost use Rattle.table_findings.specs.Names.{names};
ghost use Rattle.table_findings.specs.Refused.{findings};
ghost use Rattle.table_findings.specs.Schedule.{odd_periods, overlaps, without_release};
ghost use Rattle.table_findings.specs.Shape.{shape};

/// A document lacks the keys, the types or the words of a table if and only if a place is found
/// where it does.
pub fn wrong_shapes_are_found()
    ensures { (bytes : List ℕ) (ms : Members) → IsDocument bytes ms
        → is_none (rule.table_text_of ms) ≡ has_any (shape ms) }
{}

/// A table has a number, a count or a name outside its limits if and only if one is found. Its costs
/// are not more than there are keys for them, as those of each document are.
pub fn limits_are_found()
    ensures { (t : rule.TableText) → AreFew t.costs → rule.exceeds_limits t ≡ has_any (limits t) }
{}

/// Two rows have the same name, or a name denotes nothing, if and only if one such name is found.
pub fn wrong_names_are_found()
    ensures { (t : rule.TableText) → rule.has_same_names t || rule.has_unknown_name t
        ≡ has_any (names t) }
{}

/// A window begins before the end of the one before it, or ends past the frame, if and only if one
/// is found.
pub fn overlaps_are_found()
    ensures { (t : rule.TableText) → rule.overlaps t ≡ has_any (overlaps t) }
{}

/// In a table within its limits, a period does not divide the frame if and only if one is found.
pub fn odd_periods_are_found()
    ensures { (t : rule.TableText) → rule.exceeds_limits t ≡ false
        → has_odd_period (nat_abs t.frame) (map rule.partition_row t.partitions)
        ≡ has_any (odd_periods t) }
{}

/// In a table within its limits whose partitions differ in name, one of its periods offers a
/// partition less than its duration if and only if one is found.
pub fn short_periods_are_found()
    ensures { (t : rule.TableText) → rule.exceeds_limits t ≡ false → rule.has_same_names t ≡ false
        → has_short_period (rule.numbered t).schedule (rule.numbered t).partitions
        ≡ has_any (short_periods t) }
{}

/// Where partitions differ in name, one has no release window if and only if one is found.
pub fn missing_releases_are_found()
    ensures { (t : rule.TableText) → rule.has_same_names t ≡ false
        → lacks_release (rule.numbered t).schedule.windows (rule.numbered t).partitions
        ≡ has_any (without_release t) }
{}

/// In a table within its limits whose names all denote something, the ends of channels do not
/// fit together if and only if one such end is found.
pub fn wrong_ends_are_found()
    ensures { (t : rule.TableText) → rule.exceeds_limits t ≡ false
        → rule.has_unknown_name t ≡ false
        → has_wrong_ends (rule.numbered t).partitions (rule.numbered t).channels
        ≡ has_any (ends t) }
{}

/// A document of a table has a wrong health table or an unknown action if and only if one is found.
pub fn wrong_health_is_found()
    ensures { (bytes : List ℕ) (ms : Members) (t : rule.TableText) → IsDocument bytes ms
        → rule.table_text_of ms ≡ Some t → rule.has_unknown_action t ≡ has_any (health ms) }
{}

/// A document that a rule refuses has a place where it breaks this rule.
pub fn each_refusal_is_found()
    ensures { (bytes : List ℕ) (ms : Members) (f : TableFault) → IsDocument bytes ms
        → IsOf f (rule.verdict ms) → f ≢ Memory → has_any (findings f ms) ≡ true }
{}
