//! For each process, the list that contains it.

ghost use Rattle.std.specs.Prelude.{◌≡◌, None, slice_index_or, slice_set};

use crate::lists::ListId;
use apex_types::ProcessIndex;

/// The list that contains a process.
pub(crate) fn home_of(homes: &[Option<ListId>], process: ProcessIndex) -> Option<ListId>
    ensures { result ≡ slice_index_or homes.now process.0 None }
{
    match homes.get(usize::from(process.0)) {
        Some(home) => *home,
        None => None,
    }
}

/// Records that a process is in another list, or in none.
#[tactic(auto, using(std::proofs::lemmas::List::set_past))]
pub(crate) fn put_home(homes: &mut [Option<ListId>], process: ProcessIndex, home: Option<ListId>)
    ensures { homes.new ≡ slice_set homes.old process.0 home }
{
    let place = usize::from(process.0);
    if place < homes.len() {
        homes[place] = home;
    }
}
