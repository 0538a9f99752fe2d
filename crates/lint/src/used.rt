//! Names, for look-ups by their texts.

ghost use Rattle.std.specs.Prelude.{◌≡◌, ◌||◌, [], ℕ, List, IfOk, OnOk};
ghost use Rattle.std.specs.Str.{bytes_eq};
ghost use Rattle.pal_base.specs.View.{texts};
ghost use Rattle.lint.specs.Unused.{is_used};
ghost use Rattle.lint.specs.UsedNames.{used_names};
ghost use Rattle.lint.specs.Mentions.{is_mentioned, names_in};
ghost use Rattle.lint.specs.Views.{mention_of, mentions_seen};

use crate::mentions::{Mention, name_of_mention};
use crate::names::text_of;
use indexmap::IndexSet;
use std::alloc::{AllocError, Global};

/// The texts of some names, each of them once.
#[derive(Drop)]
pub struct Used<'a> {
    pub texts: IndexSet<&'a str>,
}

impl<'a> Used<'a> {
    /// No texts.
    pub fn new(alloc: Global) -> Used<'a>
        ensures { used_names result ≡ [] }
    {
        Used {
            texts: IndexSet::new(alloc),
        }
    }

    /// The texts of the names that are mentioned.
    pub fn of(
        alloc: Global,
        names: &'a IndexSet<String>,
        mentions: &[Mention<'_>],
    ) -> Result<Used<'a>, AllocError>
        ensures { IfOk result
            (λ known. (name : List ℕ)
            → is_used (used_names known) name
            ≡ is_used (names_in (mentions_seen (texts names.now.keys) mentions.now)) name) }
    {
        let mut known = Used::new(alloc);
        for mention in mentions {
            known.add_mention(names, mention)?;
        }
        Ok(known)
    }

    /// Adds the name of a mention, if it has one.
    fn add_mention(
        &mut self,
        names: &'a IndexSet<String>,
        mention: &Mention<'_>,
    ) -> Result<(), AllocError>
        ensures { OnOk result
            ((name : List ℕ)
            → is_used (used_names self.new) name
            ≡ (is_used (used_names self.old) name
            || is_mentioned name (mention_of (texts names.now.keys) mention.now))) }
    {
        match name_of_mention(mention) {
            Some(name) => self.add(text_of(names, name)),
            None => Ok(()),
        }
    }

    /// Adds a text.
    pub fn add(&mut self, text: &'a str) -> Result<(), AllocError>
        ensures { OnOk result
            ((name : List ℕ)
            → is_used (used_names self.new) name
            ≡ (is_used (used_names self.old) name || bytes_eq text.now name)) }
    {
        self.texts.insert(text)?;
        Ok(())
    }

    /// Returns true if a name is among them.
    pub fn has(&self, name: &str) -> bool
        ensures { result ≡ is_used (used_names self.now) name.now }
    {
        self.texts.contains(name)
    }
}
