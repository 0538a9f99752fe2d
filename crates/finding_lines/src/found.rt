//! The entries that are found so far, with a note of the last element of each array.

ghost use Rattle.std.specs.Prelude.{◌≡◌, ◌++◌, ◌∷◌, [], IfOk, IfSome, OnOk, OnSome, string_bytes};
ghost use Rattle.finding_lines.specs.Entries as spec;
ghost use Rattle.finding_lines.specs.Noted.{IsOfElement, IsOfNoElement, path_text, step_text};
ghost use Rattle.finding_lines.specs.Views.{entries_of, entry_of, owned_path, owned_step};

use crate::path::{Entry, OwnedStep, copied, leads_to_element};
use indexmap::IndexMap;
use std::alloc::{AllocError, Global};
use std::marker::Model;

/// The last element of an array so far.
#[derive(Clone, Copy)]
pub struct Last {
    /// The place of its entry.
    place: usize,
    /// How many elements the array has with it.
    elements: usize,
}

/// The entries of a text so far. A contract sees the list of them.
#[derive(Drop)]
pub struct Found {
    entries: Vec<Entry>,
    /// The last element of each array, by the text of the array's path.
    lasts: IndexMap<String, Last>,
}

impl Model for Found {
    ghost use Rattle.std.specs.Prelude.{List};
    ghost use Rattle.finding_lines.specs.Entries.{Entry as Item};
    ghost use Rattle.finding_lines.specs.FoundView.{AreNoted, entries_found};

    ghost Value = { List Item };

    ghost view = { entries_found };

    ghost invariant = { AreNoted };
}

impl Found {
    /// No entries so far.
    pub fn new(alloc: Global) -> Found
        ensures { result ≡ [] }
    {
        Found {
            entries: Vec::new(alloc),
            lasts: IndexMap::new(alloc),
        }
    }

    /// The entries.
    pub fn into_entries(self) -> Vec<Entry>
        ensures { entries_of result.items ≡ self }
    {
        self.entries
    }

    /// How many elements the array at a path has so far. A path of another array may have the same
    /// text, so a note counts only for the path of its entry.
    pub fn elements_at(&self, alloc: Global, path: &[OwnedStep]) -> Option<usize>
        ensures { IfSome result (λ elements. elements ≡ spec.elements_at (owned_path path.now) self.now) }
    {
        let text = path_text(alloc, path).ok()?;
        let Some(last) = self.lasts.get(text.as_str()) else {
            return Some(0);
        };
        if last.place < self.entries.len() {
            let entry = &self.entries[last.place];
            if leads_to_element(path, entry.path.as_slice()) {
                return Some(last.elements);
            }
        }
        Some(elements_among(path, self.entries.as_slice()))
    }

    /// Adds the entry of a path, with what is left of the text at its key and at its value.
    pub fn add(
        &mut self,
        alloc: Global,
        path: &[OwnedStep],
        at_key: &str,
        at_value: &str,
    ) -> Option<()>
        ensures { OnSome result (self.new ≡ spec.added self.old (owned_path path.now) at_key.now at_value.now) }
    {
        let entry = Entry {
            path: copied(alloc, path).ok()?,
            key_left: at_key.len(),
            value_left: at_value.len(),
        };
        match path.split_last() {
            Some((OwnedStep::Element(_), array)) => self.add_element(alloc, array, entry),
            Some((OwnedStep::Key(_), _)) => self.add_other(entry),
            None => self.add_other(entry),
        }
    }
}

impl Found {
    /// Adds the entry of an element of the array at a path, and notes it as the last one. Without
    /// memory for the note it is not added.
    fn add_element(&mut self, alloc: Global, array: &[OwnedStep], entry: Entry) -> Option<()>
        requires { IsOfElement (owned_path array.now) (owned_path entry.path.items) }
        ensures { OnSome result (self.new ≡ self.old ++ entry_of entry ∷ []) }
    {
        let elements = self.elements_at(alloc, array)?.checked_add(1)?;
        let text = path_text(alloc, array).ok()?;
        let last = Last {
            place: self.entries.len(),
            elements,
        };
        self.entries.push(entry).ok()?;
        match self.lasts.insert(text, last) {
            Ok(_) => Some(()),
            Err(_) => {
                self.entries.pop();
                None
            }
        }
    }

    /// Adds an entry that is not that of an element.
    fn add_other(&mut self, entry: Entry) -> Option<()>
        requires { IsOfNoElement (owned_path entry.path.items) }
        ensures { OnSome result (self.new ≡ self.old ++ entry_of entry ∷ []) }
    {
        self.entries.push(entry).ok()?;
        Some(())
    }
}

/// How many elements the array at a path has among these entries.
#[tactic(auto, using(std::proofs::lemmas::List::drop_more))]
fn elements_among(path: &[OwnedStep], found: &[Entry]) -> usize
    ensures { result ≡ spec.elements_at (owned_path path.now) (entries_of found.now) }
{
    let mut elements: usize = 0;
    for entry in found {
        if leads_to_element(path, entry.path.as_slice()) {
            elements += 1;
        }
    }
    elements
}

/// The text of a path. Paths that differ may have the same text.
#[tactic(auto, using(std::proofs::lemmas::List::drop_more))]
fn path_text(alloc: Global, path: &[OwnedStep]) -> Result<String, AllocError>
    ensures { IfOk result (λ text. string_bytes text ≡ path_text (owned_path path.now)) }
{
    let mut text = String::new(alloc);
    for step in path {
        push_step(alloc, &mut text, step)?;
    }
    Ok(text)
}

/// Adds the text of a step.
fn push_step(alloc: Global, text: &mut String, step: &OwnedStep) -> Result<(), AllocError>
    ensures { OnOk result
        (string_bytes text.new ≡ string_bytes text.old ++ step_text (owned_step step.now)) }
{
    match step {
        OwnedStep::Key(key) => {
            let key = key.as_str();
            text.push_str(&format!(in alloc; ".{key}")?)
        }
        OwnedStep::Element(index) => text.push_str(&format!(in alloc; "#{index}")?),
    }
}
