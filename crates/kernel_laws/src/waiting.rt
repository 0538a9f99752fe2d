//! The waiting lists and their numbers: who begins to wait, who leaves, and who is released first.

ghost use Rattle.std.specs.Prelude.{◌≡◌, ◌↔◌, ◌+◌, ℕ, Some, slice_get};
ghost use Rattle.apex_types.specs.declared.codes.Discipline.{Discipline};
ghost use Rattle.apex_types.specs.declared.identity.ListKey.{ListKey};
ghost use Rattle.apex_types.specs.declared.process.Entry.{Entry};
ghost use Rattle.kernel_laws.specs.Choice.{takes};
ghost use Rattle.kernel_meaning.specs.Queues.{Queues, without_in_all, list_at, joins, emptied};
ghost use Rattle.kernel_laws.specs.WaitingOrder.{AreQueues, IsReleasedFirst};

/// When a process no longer waits, the others keep their order by their numbers, in each list.
pub fn one_leaves()
    ensures { (disciplines : ListKey → Discipline) (number : ℕ → ℕ) (next p : ℕ) (queues : Queues)
        → AreQueues disciplines number next queues
        → AreQueues disciplines number next (without_in_all p queues) }
{}

/// A process that begins to wait takes a fresh and greater number.
pub fn one_begins_to_wait()
    ensures { (disciplines : ListKey → Discipline) (number : ℕ → ℕ) (next : ℕ) (k : ListKey)
        (e : Entry) (queues : Queues) → AreQueues disciplines number next queues
        → AreQueues disciplines (takes number e.process.0 next) (next + 1)
        (joins k (disciplines k) e queues) }
{}

/// An entry is at the head of a list if and only if it is released first.
pub fn head_is_released_first()
    ensures { (disciplines : ListKey → Discipline) (number : ℕ → ℕ) (next : ℕ) (k : ListKey)
        (e : Entry) (queues : Queues) → AreQueues disciplines number next queues
        → (slice_get (list_at queues k) 0 ≡ Some e
        ↔ IsReleasedFirst (disciplines k) number (list_at queues k) e) }
{}

/// If no process waits, any numbers will do.
pub fn nobody_waits()
    ensures { (disciplines : ListKey → Discipline) (number : ℕ → ℕ) (next : ℕ) (queues : Queues)
        → AreQueues disciplines number next (emptied queues) }
{}
