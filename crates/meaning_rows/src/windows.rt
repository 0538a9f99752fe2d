//! The owner of a tick, the end of a window, and the next release.

ghost use Rattle.std.specs.Prelude.{◌≡◌, ◌∷◌, [], Some, None, map};
ghost use Rattle.meaning_rows.specs.Rows.{at_ticks, sparse_schedule, split_schedule};
ghost use Rattle.kernel_meaning.specs.Windows.{ended, next_release, owner};

/// A partition with two windows in a frame of 16 ticks: its messages move at 4, 16, 20 and 32.
fn split()
    ensures owners { map (owner split_schedule) (at_ticks 0 33) ≡ Some 1 ∷ Some 1 ∷ Some 1 ∷ Some 1 ∷ Some 2 ∷ Some 2 ∷ Some 2 ∷ Some 2 ∷ Some 2 ∷ Some 2 ∷ Some 2 ∷ Some 2 ∷ Some 1 ∷ Some 1 ∷ Some 1 ∷ Some 1 ∷ Some 1 ∷ Some 1 ∷ Some 1 ∷ Some 1 ∷ Some 2 ∷ Some 2 ∷ Some 2 ∷ Some 2 ∷ Some 2 ∷ Some 2 ∷ Some 2 ∷ Some 2 ∷ Some 1 ∷ Some 1 ∷ Some 1 ∷ Some 1 ∷ Some 1 ∷ [] }
    ensures ends { map (ended split_schedule) (at_ticks 0 33) ≡ None ∷ None ∷ None ∷ None ∷ Some 1 ∷ None ∷ None ∷ None ∷ None ∷ None ∷ None ∷ None ∷ Some 2 ∷ None ∷ None ∷ None ∷ Some 1 ∷ None ∷ None ∷ None ∷ Some 1 ∷ None ∷ None ∷ None ∷ None ∷ None ∷ None ∷ None ∷ Some 2 ∷ None ∷ None ∷ None ∷ Some 1 ∷ [] }
    ensures releases_of_first { map (next_release split_schedule 1) (at_ticks 0 33) ≡ 12 ∷ 12 ∷ 12 ∷ 12 ∷ 12 ∷ 12 ∷ 12 ∷ 12 ∷ 12 ∷ 12 ∷ 12 ∷ 12 ∷ 16 ∷ 16 ∷ 16 ∷ 16 ∷ 28 ∷ 28 ∷ 28 ∷ 28 ∷ 28 ∷ 28 ∷ 28 ∷ 28 ∷ 28 ∷ 28 ∷ 28 ∷ 28 ∷ 32 ∷ 32 ∷ 32 ∷ 32 ∷ 44 ∷ [] }
    ensures releases_of_second { map (next_release split_schedule 2) (at_ticks 0 33) ≡ 4 ∷ 4 ∷ 4 ∷ 4 ∷ 20 ∷ 20 ∷ 20 ∷ 20 ∷ 20 ∷ 20 ∷ 20 ∷ 20 ∷ 20 ∷ 20 ∷ 20 ∷ 20 ∷ 20 ∷ 20 ∷ 20 ∷ 20 ∷ 36 ∷ 36 ∷ 36 ∷ 36 ∷ 36 ∷ 36 ∷ 36 ∷ 36 ∷ 36 ∷ 36 ∷ 36 ∷ 36 ∷ 36 ∷ [] }
{}

/// Ticks of no partition, a window that is no release, and a frame of 10 ticks that starts again at
/// tick 23.
fn sparse()
    ensures owners { map (owner sparse_schedule) (at_ticks 23 21) ≡ None ∷ Some 1 ∷ Some 1 ∷ Some 1 ∷ Some 2 ∷ Some 2 ∷ None ∷ Some 1 ∷ Some 1 ∷ None ∷ None ∷ Some 1 ∷ Some 1 ∷ Some 1 ∷ Some 2 ∷ Some 2 ∷ None ∷ Some 1 ∷ Some 1 ∷ None ∷ None ∷ [] }
    ensures ends { map (ended sparse_schedule) (at_ticks 23 21) ≡ None ∷ None ∷ None ∷ None ∷ Some 1 ∷ None ∷ Some 2 ∷ None ∷ None ∷ Some 1 ∷ None ∷ None ∷ None ∷ None ∷ Some 1 ∷ None ∷ Some 2 ∷ None ∷ None ∷ Some 1 ∷ None ∷ [] }
    ensures releases_of_first { map (next_release sparse_schedule 1) (at_ticks 23 21) ≡ 24 ∷ 34 ∷ 34 ∷ 34 ∷ 34 ∷ 34 ∷ 34 ∷ 34 ∷ 34 ∷ 34 ∷ 34 ∷ 44 ∷ 44 ∷ 44 ∷ 44 ∷ 44 ∷ 44 ∷ 44 ∷ 44 ∷ 44 ∷ 44 ∷ [] }
    ensures releases_of_second { map (next_release sparse_schedule 2) (at_ticks 23 21) ≡ 27 ∷ 27 ∷ 27 ∷ 27 ∷ 37 ∷ 37 ∷ 37 ∷ 37 ∷ 37 ∷ 37 ∷ 37 ∷ 37 ∷ 37 ∷ 37 ∷ 47 ∷ 47 ∷ 47 ∷ 47 ∷ 47 ∷ 47 ∷ 47 ∷ [] }
{}
