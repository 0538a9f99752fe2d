//! Images and their spellings.

ghost use Rattle.std.specs.Prelude.{◌≡◌, ℕ, ◌^◌, ◌<◌, ◌≤◌, ◌++◌, List, [], length, Ok, slice_index};
ghost use Rattle.apex_types.specs.declared.identity.At.{At};
ghost use Rattle.machine_meaning.specs.Image.{Image};
ghost use Rattle.module_meaning.specs.Table.{Partition};
ghost use Rattle.machine_meaning.specs.ImageSpelling.{spelling};
ghost use Rattle.machine_meaning.specs.ImageReading.{image_at};
ghost use Rattle.machine_meaning.specs.ImageLimits.{IsLawful};
ghost use Rattle.kernel_meaning.specs.Kernel.{Kernel};
ghost use Rattle.kernel_meaning.specs.PartitionServices.{next_release_of};
ghost use Rattle.module_meaning.specs.Table.{fixed_of};
ghost use Rattle.kernel_meaning.specs.WindowFacts.{HasOneEnd, HasOneOwner, IsNextRelease};
ghost use Rattle.kernel_meaning.specs.Windows.{next_release};

/// An image that is read is lawful, and the bytes are its spelling.
pub fn read_is_spelled()
    ensures { (bytes : List ℕ) (image : Image) → ((i : ℕ) → slice_index bytes i < 2 ^ 8)
        → image_at bytes ≡ Ok image → IsLawful image × (bytes ≡ spelling image) }
{}

/// A lawful image is read again from its spelling.
pub fn spelled_is_read()
    ensures { (image : Image) → IsLawful image → image_at (spelling image) ≡ Ok image }
{}

/// No spelling begins another: if the spelling of a lawful image is that of another one followed by
/// any bytes, then the images are equal and there are no such bytes.
pub fn no_spelling_begins_another()
    ensures { (one other : Image) (rest : List ℕ) → IsLawful one → IsLawful other
        → spelling other ≡ spelling one ++ rest → (one ≡ other) × (rest ≡ []) }
{}

/// Each partition of a lawful image has a next release after every tick: the computed one.
pub fn lawful_image_releases()
    ensures { (image : Image) (p : ℕ) (at : At) → IsLawful image → 1 ≤ p → p ≤ length image.items
        → at.origin.0 ≤ at.now.0
        → IsNextRelease image.schedule p at (next_release image.schedule p at) }
{}

/// A partition's kernel knows only its own windows. The next release that it computes from them is
/// the module's: the least later tick at which one of its windows marked release starts.
pub fn lawful_image_releases_by_own_windows()
    ensures { (image : Image) (p : ℕ) (row : Partition) (k : Kernel) (at : At) → IsLawful image
        → 1 ≤ p → p ≤ length image.items → k.fixed ≡ fixed_of image.schedule p row
        → at.origin.0 ≤ at.now.0 → IsNextRelease image.schedule p at (next_release_of at k) }
{}

/// At most one window holds a tick, so at most one partition owns it.
pub fn lawful_image_has_one_owner()
    ensures { (image : Image) (at : At) → IsLawful image → HasOneOwner image.schedule at }
{}

/// At most one window ends at a tick.
pub fn lawful_image_has_one_end()
    ensures { (image : Image) (at : At) → IsLawful image → HasOneEnd image.schedule at }
{}
