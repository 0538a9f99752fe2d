//! Tables of the meanings of a program's names.

ghost use Rattle.std.specs.Prelude.{◌≡◌, ◌++◌, ◌∷◌, ◌&&◌, [], List, ℕ, not, is_some, true, IfOk, OnOk};
ghost use Rattle.pal_meaning.specs.Resolve.{Entry, find};
ghost use Rattle.pal_meaning.specs.WellFormed.{are_new};
ghost use Rattle.pal_base.specs.View.{texts, id_text};
ghost use Rattle.pal.specs.Tables.{entries_of};

use apex_types::Denotation;
use indexmap::{IndexMap, IndexSet};
use pal_base::syntax::NameId;
use std::alloc::{AllocError, Global};

/// The meanings of names by their texts, in the order of entry.
#[derive(Drop)]
pub struct NameTable<'a> {
    pub entries: IndexMap<&'a str, Denotation>,
}

impl<'a> NameTable<'a> {
    /// An empty table.
    pub fn new(alloc: Global) -> Self
        ensures { entries_of result ≡ [] }
    {
        NameTable {
            entries: IndexMap::new(alloc),
        }
    }

    /// The meaning of the name with this text.
    pub fn get(&self, text: &str) -> Option<Denotation>
        ensures { result ≡ find text.now (entries_of self.now) }
    {
        self.entries.get(text).copied()
    }

    /// Gives the name a meaning, unless it has one already. Returns true if the name is new.
    pub fn enter(&mut self, text: &'a str, meaning: Denotation) -> Result<bool, AllocError>
        ensures sees { OnOk result
            ((name : List ℕ) (rest : List Entry)
            → find name (entries_of self.new ++ rest)
            ≡ find name
            (entries_of self.old ++ record { name = text.now; meaning = meaning } ∷ rest)) }
        ensures fresh { IfOk result
            (λ is_new. (declared rest : List Entry)
            → (is_new && not (is_some (find text.now declared)) && are_new declared
            (entries_of self.new) rest)
            ≡ are_new declared (entries_of self.old)
            (record { name = text.now; meaning = meaning } ∷ rest)) }
        ensures behind { IfOk result
            (λ is_new. is_new ≡ true
            → entries_of self.new
            ≡ entries_of self.old ++ record { name = text.now; meaning = meaning } ∷ []) }
    {
        if self.get(text).is_some() {
            return Ok(false);
        }
        self.entries.insert(text, meaning)?;
        Ok(true)
    }
}

/// The text of a name; empty if no name has this number.
pub fn text_of(names: &IndexSet<String>, name: NameId) -> &str
    ensures { result.now ≡ id_text (texts names.now.keys) name }
{
    match names.get_index(name.0) {
        Some(text) => text.as_str(),
        None => "",
    }
}
