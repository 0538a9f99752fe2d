//! The walk over a TOML text.

ghost use Rattle.std.specs.Prelude.{◌≡◌, ◌<◌, IfSome, length, Some, option_map, slice_index};
ghost use Rattle.finding_lines.specs.Entries as spec;
ghost use Rattle.finding_lines.specs.Views.{entries_in, entries_of, entry_of, owned_path, path_of};

use crate::found::Found;
use crate::header::{element_path, table_path};
use crate::inside::inside;
use crate::lexical::{after_bracket, header_key, key_equals, skip_bom};
use crate::path::{Entry, OwnedStep, Step, copied, key_path, leads_to};
use std::alloc::Global;
use toml_parser::RECURSION_LIMIT;
use toml_parser::text::{byte_at, first, skip, skip_blank};

/// The places of the key paths of a TOML text.
#[derive(Drop)]
pub struct TomlPlaces {
    entries: Vec<Entry>,
}

impl TomlPlaces {
    /// The places of a text, if it is a TOML document and there is memory for them.
    pub fn read(alloc: Global, text: &str) -> Option<TomlPlaces>
        ensures { IfSome result
            (λ places. spec.entries text.now ≡ Some (entries_in places)) }
    {
        let entries = entries(alloc, text)?;
        Some(TomlPlaces { entries })
    }

    /// The entries, in the order of the text.
    pub fn entries(&self) -> &[Entry]
        ensures { entries_of result.now ≡ entries_in self.now }
    {
        self.entries.as_slice()
    }

    /// The first entry at a path or below it.
    #[tactic(auto, using(std::proofs::lemmas::List::drop_more))]
    pub fn first_at(&self, path: &[Step<'_>]) -> Option<&Entry>
        ensures { option_map (λ entry. entry_of entry.now) result
            ≡ spec.first_at (path_of path.now) (entries_in self.now) }
    {
        for entry in &self.entries {
            if leads_to(path, entry.path.as_slice()) {
                return Some(entry);
            }
        }
        None
    }
}

/// All entries of a text, in their order.
fn entries(alloc: Global, text: &str) -> Option<Vec<Entry>>
    ensures { IfSome result (λ found. spec.entries text.now ≡ Some (entries_of found.items)) }
{
    let mut section = Vec::new(alloc);
    let mut found = Found::new(alloc);
    let mut rest = skip_bom(text);
    'lines: loop {
        let start = skip_blank(rest, true);
        if start.is_empty() {
            return Some(found.into_entries());
        }
        rest = line(alloc, &mut section, &mut found, start)?;
    }
}

/// Appends the entries of a line: a header in double brackets, a header in single brackets, or a
/// pair. After a header `section` is its path. Returns what follows.
fn line<'a>(
    alloc: Global,
    section: &mut Vec<OwnedStep>,
    found: &mut Found,
    start: &'a str,
) -> Option<&'a str>
    ensures value { IfSome result
        (λ rest. spec.line (owned_path section.old.items, found.old) start.now
        ≡ Some ((owned_path section.new.items, found.new), rest.now)) }
    ensures shorter { IfSome result (λ rest. length rest.now < length start.now) }
{
    if first(start) == b'[' && byte_at(start, 1) == b'[' {
        array_line(alloc, section, found, start)
    } else if first(start) == b'[' {
        table_line(alloc, section, found, start)
    } else {
        pair_line(alloc, section.as_slice(), found, start)
    }
}

/// A header in double brackets.
fn array_line<'a>(
    alloc: Global,
    section: &mut Vec<OwnedStep>,
    found: &mut Found,
    start: &'a str,
) -> Option<&'a str>
    requires { slice_index start.now 1 ≡ 91 }
    ensures value { IfSome result
        (λ rest. spec.array_line found.old start.now
        ≡ Some ((owned_path section.new.items, found.new), rest.now)) }
    ensures shorter { IfSome result (λ rest. length rest.now < length start.now) }
{
    let (key, rest) = header_key(alloc, skip(start, 2))?;
    let after = after_bracket(rest)?;
    *section = element_path(alloc, found, &key)?;
    found.add(alloc, section.as_slice(), start, start)?;
    Some(after)
}

/// A header in single brackets.
fn table_line<'a>(
    alloc: Global,
    section: &mut Vec<OwnedStep>,
    found: &mut Found,
    start: &'a str,
) -> Option<&'a str>
    requires { slice_index start.now 0 ≡ 91 }
    ensures value { IfSome result
        (λ rest. spec.table_line found.old start.now
        ≡ Some ((owned_path section.new.items, found.new), rest.now)) }
    ensures shorter { IfSome result (λ rest. length rest.now < length start.now) }
{
    let (key, rest) = header_key(alloc, skip(start, 1))?;
    *section = table_path(alloc, found, &key)?;
    found.add(alloc, section.as_slice(), start, start)?;
    Some(rest)
}

/// A key and its value.
fn pair_line<'a>(
    alloc: Global,
    section: &[OwnedStep],
    found: &mut Found,
    start: &'a str,
) -> Option<&'a str>
    ensures value { IfSome result
        (λ rest. spec.pair_line (owned_path section.now) found.old start.now
        ≡ Some ((owned_path section.now, found.new), rest.now)) }
    ensures shorter { IfSome result (λ rest. length rest.now < length start.now) }
{
    let (key, at_value) = key_equals(alloc, start)?;
    let path = key_path(alloc, section, &key)?;
    found.add(alloc, path.as_slice(), start, at_value)?;
    inside(alloc, path.as_slice(), found, at_value, RECURSION_LIMIT)
}
