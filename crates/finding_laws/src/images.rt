//! A fault of an image is seen at one byte.

ghost use Rattle.std.specs.Prelude.{◌≡◌, ◌++◌, false, true, ℕ, List};
ghost use Rattle.finding_laws.specs.Once.{IsSeenOnce};
ghost use Rattle.image_findings.specs.Seen.{is_truncated};
ghost use Rattle.machine_meaning.specs.ImageReading.{image_at};

/// Where bytes end within a field of an image, each beginning of them does.
pub fn beginnings_are_cut()
    ensures { (bytes more : List ℕ)
        → is_truncated (image_at (bytes ++ more)) ≡ true
        → is_truncated (image_at bytes) ≡ true }
{}

/// Of bytes that do not end within a field of an image there is exactly one with which they do not end
/// so any more.
pub fn fault_is_seen_once()
    ensures { (bytes : List ℕ)
        → is_truncated (image_at bytes) ≡ false
        → IsSeenOnce bytes }
{}
