//! The entries of a value: the elements of an array and the pairs of an inline table, and those in
//! them.

ghost use Rattle.std.specs.Prelude.{◌≡◌, ℕ, ◌<◌, IfSome, length, Some};
ghost use Rattle.finding_lines.specs.Entries as spec;
ghost use Rattle.finding_lines.specs.Views.{owned_path};

use crate::found::Found;
use crate::lexical::{after_element, behind_atom, key_equals};
use crate::path::{OwnedStep, copied, key_path};
use std::alloc::Global;
use toml_parser::text::{first, skip, skip_blank};

/// Appends the entries of the value at the front of the text, with arrays and inline tables at most
/// `depth` deep, and returns what follows the value.
#[cycle(inside)]
pub fn inside<'a>(
    alloc: Global,
    path: &[OwnedStep],
    found: &mut Found,
    text: &'a str,
    depth: usize,
) -> Option<&'a str>
    ensures value { IfSome result
        (λ rest. spec.inside depth (owned_path path.now) found.old text.now
        ≡ Some (found.new, rest.now)) }
    ensures shorter { IfSome result (λ rest. length rest.now < length text.now) }
{
    let byte = first(text);
    if byte != b'[' && byte != b'{' {
        return behind_atom(alloc, text);
    }
    if depth == 0 {
        return None;
    }
    if byte == b'[' {
        elements(alloc, path, found, skip(text, 1), depth - 1)
    } else {
        members(alloc, path, found, skip(text, 1), depth - 1)
    }
}

/// Appends the entries of the elements of an array.
#[cycle(inside)]
fn elements<'a>(
    alloc: Global,
    path: &[OwnedStep],
    found: &mut Found,
    text: &'a str,
    depth: usize,
) -> Option<&'a str>
    ensures value { IfSome result
        (λ rest. (n : ℕ) → length text.now < n
        → spec.elements (spec.inside depth) n (owned_path path.now) 0 found.old
        text.now
        ≡ Some (found.new, rest.now)) }
    ensures shorter { IfSome result (λ rest. length rest.now < length text.now) }
{
    let mut rest = text;
    let mut index: usize = 0;
    'items: loop {
        let start = skip_blank(rest, true);
        if first(start) == b']' {
            return Some(skip(start, 1));
        }
        let here = element_path(alloc, path, index)?;
        found.add(alloc, here.as_slice(), start, start)?;
        let after = inside(alloc, here.as_slice(), found, start, depth)?;
        rest = after_element(after, b']')?;
        index = index.checked_add(1)?;
    }
}

/// Appends the entries of the pairs of an inline table.
#[cycle(inside)]
fn members<'a>(
    alloc: Global,
    path: &[OwnedStep],
    found: &mut Found,
    text: &'a str,
    depth: usize,
) -> Option<&'a str>
    ensures value { IfSome result
        (λ rest. (n : ℕ) → length text.now < n
        → spec.members (spec.inside depth) n (owned_path path.now) found.old
        text.now
        ≡ Some (found.new, rest.now)) }
    ensures shorter { IfSome result (λ rest. length rest.now < length text.now) }
{
    let mut rest = text;
    'items: loop {
        let start = skip_blank(rest, true);
        if first(start) == b'}' {
            return Some(skip(start, 1));
        }
        let (key, at_value) = key_equals(alloc, start)?;
        let here = key_path(alloc, path, &key)?;
        found.add(alloc, here.as_slice(), start, at_value)?;
        let after = inside(alloc, here.as_slice(), found, at_value, depth)?;
        rest = after_element(after, b'}')?;
    }
}

/// The path of an element of the array at a path.
#[tactic(auto, using(std::proofs::lemmas::List::map_push))]
pub fn element_path(alloc: Global, path: &[OwnedStep], index: usize) -> Option<Vec<OwnedStep>>
    ensures { IfSome result
        (λ whole. owned_path whole.items ≡ spec.longer (owned_path path.now) index) }
{
    let mut whole = copied(alloc, path).ok()?;
    whole.push(OwnedStep::Element(index)).ok()?;
    Some(whole)
}
