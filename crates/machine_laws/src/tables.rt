//! Module tables that are accepted, and the images that they describe.

ghost use Rattle.std.specs.Prelude.{◌≡◌, ◌≤◌, ℕ, List, length, map, Ok, All};
ghost use Rattle.apex_types.specs.Versions.{third_limits};
ghost use Rattle.apex_types.specs.declared.identity.At.{At};
ghost use Rattle.apex_types.specs.declared.version.ImageVersion.TheVariants.{Third};
ghost use Rattle.toml.specs.Data.{Members};
ghost use Rattle.module_meaning.specs.Table.{Table, Partition};
ghost use Rattle.machine_meaning.specs.Image.{Item};
ghost use Rattle.module_meaning.specs.TableRules.{verdict};
ghost use Rattle.machine_meaning.specs.ImageLimits.{IsSection, IsWithinLimits, IsLawful};
ghost use Rattle.kernel_meaning.specs.Kernel.{Kernel};
ghost use Rattle.kernel_meaning.specs.PartitionServices.{next_release_of};
ghost use Rattle.module_meaning.specs.Table.{fixed_of};
ghost use Rattle.kernel_meaning.specs.WindowFacts.{HasOneEnd, HasOneOwner, IsNextRelease};
ghost use Rattle.kernel_meaning.specs.Windows.{next_release};

/// An accepted table whose partitions have become lawful sections is within all limits of an image.
pub fn accepted_table_is_within_limits()
    ensures { (ms : Members) (t : Table) (items : List Item) → verdict ms ≡ Ok t
        → map (λ it. it.partition) items ≡ t.partitions
        → All (λ it. IsSection third_limits it.partition.period it.section) items
        → IsWithinLimits
        (record {
          schedule = t.schedule;
          fault = t.fault;
          version = Third t.costs;
          items = items;
          channels = t.channels;
        }) }
{}

/// It is a lawful image: it also keeps the rules that are judged when all fields are read.
pub fn accepted_table_is_lawful()
    ensures { (ms : Members) (t : Table) (items : List Item) → verdict ms ≡ Ok t
        → map (λ it. it.partition) items ≡ t.partitions
        → All (λ it. IsSection third_limits it.partition.period it.section) items
        → IsLawful
        (record {
          schedule = t.schedule;
          fault = t.fault;
          version = Third t.costs;
          items = items;
          channels = t.channels;
        }) }
{}

/// Each partition has a next release after every tick: the computed one.
pub fn accepted_table_releases()
    ensures { (ms : Members) (t : Table) (p : ℕ) (at : At) → verdict ms ≡ Ok t → 1 ≤ p
        → p ≤ length t.partitions → at.origin.0 ≤ at.now.0
        → IsNextRelease t.schedule p at (next_release t.schedule p at) }
{}

/// A partition's kernel knows only its own windows. The next release that it computes from them is
/// the module's: the least later tick at which one of its windows marked release starts.
pub fn accepted_table_releases_by_own_windows()
    ensures { (ms : Members) (t : Table) (p : ℕ) (row : Partition) (k : Kernel) (at : At)
        → verdict ms ≡ Ok t → 1 ≤ p → p ≤ length t.partitions → k.fixed ≡ fixed_of t.schedule p row
        → at.origin.0 ≤ at.now.0 → IsNextRelease t.schedule p at (next_release_of at k) }
{}

/// At most one window holds a tick, so at most one partition owns it.
pub fn accepted_table_has_one_owner()
    ensures { (ms : Members) (t : Table) (at : At) → verdict ms ≡ Ok t → HasOneOwner t.schedule at }
{}

/// At most one window ends at a tick.
pub fn accepted_table_has_one_end()
    ensures { (ms : Members) (t : Table) (at : At) → verdict ms ≡ Ok t → HasOneEnd t.schedule at }
{}
