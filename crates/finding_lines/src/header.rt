//! The paths that headers name.

ghost use Rattle.std.specs.Prelude.{◌≡◌, [], IfSome};
ghost use Rattle.toml_parser.specs.Reading.{key_view, path_view};
ghost use Rattle.finding_lines.specs.Entries as spec;
ghost use Rattle.finding_lines.specs.Views.{owned_path};

use crate::found::Found;
use crate::path::OwnedStep;
use std::alloc::Global;
use toml_parser::Key;

/// The path, or that of its last element if it is that of an array.
fn through(alloc: Global, found: &Found, path: Vec<OwnedStep>) -> Option<Vec<OwnedStep>>
    ensures { IfSome result
        (λ whole. owned_path whole.items ≡ spec.through found.now (owned_path path.items)) }
{
    let mut path = path;
    let elements = found.elements_at(alloc, path.as_slice())?;
    if elements != 0 {
        path.push(OwnedStep::Element(elements - 1)).ok()?;
    }
    Some(path)
}

/// The path of the keys of a header before its last one.
fn header_path(alloc: Global, found: &Found, keys: &[String]) -> Option<Vec<OwnedStep>>
    ensures { IfSome result
        (λ whole. owned_path whole.items ≡ spec.header_path found.now [] (path_view keys.now)) }
{
    let mut path = Vec::new(alloc);
    for key in keys {
        path = through(alloc, found, with_key(alloc, path, key.as_str())?)?;
    }
    Some(path)
}

/// The path of a key of the table at a path.
fn with_key(alloc: Global, path: Vec<OwnedStep>, key: &str) -> Option<Vec<OwnedStep>>
    ensures { IfSome result
        (λ whole. owned_path whole.items ≡ spec.with_key (owned_path path.items) key.now) }
{
    let mut path = path;
    path.push(OwnedStep::Key(String::from_str(alloc, key).ok()?))
        .ok()?;
    Some(path)
}

/// The path that a header in single brackets names.
pub fn table_path(alloc: Global, found: &Found, key: &Key) -> Option<Vec<OwnedStep>>
    ensures { IfSome result
        (λ whole. owned_path whole.items ≡ spec.table_path found.now (key_view key.now)) }
{
    let path = header_path(alloc, found, key.path.as_slice())?;
    with_key(alloc, path, key.last.as_str())
}

/// The path of the new element that a header in double brackets makes.
pub fn element_path(alloc: Global, found: &Found, key: &Key) -> Option<Vec<OwnedStep>>
    ensures { IfSome result
        (λ whole. owned_path whole.items ≡ spec.element_path found.now (key_view key.now)) }
{
    let mut path = table_path(alloc, found, key)?;
    let elements = found.elements_at(alloc, path.as_slice())?;
    path.push(OwnedStep::Element(elements)).ok()?;
    Some(path)
}
