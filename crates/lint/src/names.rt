//! The names of a source.

ghost use Rattle.std.specs.Prelude.{◌≡◌, map};
ghost use Rattle.std.specs.List.{list_any};
ghost use Rattle.std.specs.Str.{bytes_eq};
ghost use Rattle.pal_base.specs.View.{id_text, name_of, texts};

use indexmap::IndexSet;
use pal_base::syntax::{Identifier, NameId};

/// The text of a name; empty if no name has this number.
pub fn text_of(names: &IndexSet<String>, name: NameId) -> &str
    ensures { result.now ≡ id_text (texts names.now.keys) name }
{
    match names.get_index(name.0) {
        Some(text) => text.as_str(),
        None => "",
    }
}

/// Returns true if two names have the same text.
pub fn is_same_name(names: &IndexSet<String>, one: NameId, other: NameId) -> bool
    ensures { result
        ≡ bytes_eq (id_text (texts names.now.keys) one) (id_text (texts names.now.keys) other) }
{
    text_of(names, one) == text_of(names, other)
}

/// Returns true if one of these names has the same text as a name.
#[tactic(auto, using(std::proofs::lemmas::List::drop_more))]
pub fn has_name(names: &IndexSet<String>, list: &[Identifier], name: NameId) -> bool
    ensures { result
        ≡ list_any (λ other. bytes_eq other (id_text (texts names.now.keys) name))
        (map (name_of (texts names.now.keys)) list.now) }
{
    for other in list {
        if is_same_name(names, other.name, name) {
            return true;
        }
    }
    false
}
