//! Objects by the numbers that programs give.

ghost use Rattle.std.specs.Prelude.{◌≡◌, ◌<◌, length, IfSome};
ghost use Rattle.sync_objects_base.specs.Found.{placed_in};
ghost use Rattle.kernel_meaning.specs.Objects.{numbered_in};

/// The index of the object with number `id`, from 0; `None` if there is no such object.
#[tactic(auto, using(crate::proofs::Numbers::numbers))]
pub fn place_of<T>(items: &[T], id: i64) -> Option<usize>
    ensures found { numbered_in items.now id ≡ placed_in items.now result }
    ensures within { IfSome result (λ place. place < length items.now) }
{
    if id < 1 || id as u64 > items.len() as u64 {
        return None;
    }
    Some(id as usize - 1)
}
