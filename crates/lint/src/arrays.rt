//! Arrays that are smaller than the messages that services store in them, lengths above those of the
//! messages that they send, and indices beyond an array.

ghost use Rattle.std.specs.Prelude.{◌≡◌, ◌++◌, ℕ, List, option_map, OnOk};
ghost use Rattle.pal_base.specs.View.{id_text, texts};
ghost use Rattle.lint.specs.Arrays as meant;
ghost use Rattle.lint.specs.DeclarationsView.{declared_in};
ghost use Rattle.lint.specs.Plain.{name_in, number_in, second_plain, third_plain};
ghost use Rattle.lint.specs.Views.{call_of, found_all, id_seen};

use crate::calls::Call;
use crate::declarations::Declarations;
use crate::finding::{Finding, FindingKind, add_if};
use crate::names::text_of;
use crate::plain::{name_in, number_in, second_plain, third_plain};
use crate::port_rules::port_of_id;
use crate::services::{sent_kind, stored_kind};
use crate::uses::{Id, is_same_kind};
use apex_types::{ObjectKind, PortRow};
use indexmap::IndexSet;
use pal_base::syntax::NameId;
use std::alloc::AllocError;

/// The words of a message of the object of this kind that an argument denotes.
fn object_words(
    names: &IndexSet<String>,
    declarations: &Declarations<'_>,
    kind: ObjectKind,
    id: Id,
) -> Option<u64>
    ensures { result
        ≡ meant.words_or_none
        (meant.object_of (declared_in declarations.now) kind (id_seen (texts names.now.keys) id)) }
{
    match id {
        Id::Numbered(number) => declarations.words_at(kind, number),
        Id::Named(other, object) => {
            if is_same_kind(other, kind) {
                declarations.words_named(text_of(names, object))
            } else {
                None
            }
        }
        _ => None,
    }
}

/// The words of a message of the object or the port of this kind that an argument denotes.
fn words_of(
    names: &IndexSet<String>,
    ports: &[PortRow],
    declarations: &Declarations<'_>,
    kind: ObjectKind,
    id: Id,
) -> Option<u64>
    ensures { result
        ≡ meant.words_of ports.now (declared_in declarations.now) kind (id_seen (texts names.now.keys) id) }
{
    if is_same_kind(kind, ObjectKind::Port) {
        match port_of_id(names, ports, id) {
            Some(row) => Some(u64::from(row.words)),
            None => None,
        }
    } else {
        object_words(names, declarations, kind, id)
    }
}

/// The size of the array that an argument names.
pub fn array_of(
    names: &IndexSet<String>,
    declarations: &Declarations<'_>,
    name: Option<NameId>,
) -> Option<u64>
    ensures { result
        ≡ meant.array_of (declared_in declarations.now) (option_map (id_text (texts names.now.keys)) name) }
{
    match name {
        Some(name) => declarations.size_named(text_of(names, name)),
        None => None,
    }
}

/// Returns true if both are known, and the size is less than the words.
pub fn is_less(size: Option<u64>, words: Option<u64>) -> bool
    ensures { result ≡ meant.is_less size words }
{
    match (size, words) {
        (Some(size), Some(words)) => size < words,
        _ => false,
    }
}

/// The text of a name; empty if there is none.
pub fn text_or_none(names: &IndexSet<String>, name: Option<NameId>) -> &str
    ensures { result.now
        ≡ meant.name_or_none (option_map (id_text (texts names.now.keys)) name) }
{
    match name {
        Some(name) => text_of(names, name),
        None => "",
    }
}

/// Adds a call whose array is smaller than the messages that it may store in it.
pub fn add_small_array<'a>(
    names: &'a IndexSet<String>,
    ports: &[PortRow],
    declarations: &Declarations<'_>,
    call: &Call<'_>,
    findings: &mut Vec<Finding<'a>>,
) -> Result<(), AllocError>
    ensures { OnOk result
        (found_all findings.new.items
        ≡ found_all findings.old.items
        ++ meant.small_array ports.now (declared_in declarations.now) (call_of (texts names.now.keys) call.now)) }
{
    let Some(kind) = stored_kind(call.service) else {
        return Ok(());
    };
    let array = name_in(second_plain(call.arguments));
    let size = array_of(names, declarations, array);
    let words = words_of(names, ports, declarations, kind, call.id);
    let finding = Finding {
        line: call.line,
        kind: FindingKind::SmallArray,
        subject: text_or_none(names, array),
    };
    add_if(is_less(size, words), finding, findings)
}

/// The name that is the array of a call.
fn array_in(call: &Call<'_>) -> Option<NameId>
    ensures { (names : List (List ℕ))
        → option_map (id_text names) result
        ≡ name_in (second_plain (call_of names call.now).arguments) }
{
    name_in(second_plain(call.arguments))
}

/// The number that is the length of the message of a call.
fn length_in(call: &Call<'_>) -> Option<u64>
    ensures { (names : List (List ℕ))
        → result ≡ number_in (third_plain (call_of names call.now).arguments) }
{
    number_in(third_plain(call.arguments))
}

/// Adds a call with a length that is above the words of the messages that it may send.
pub fn add_long_length<'a>(
    names: &'a IndexSet<String>,
    ports: &[PortRow],
    declarations: &Declarations<'_>,
    call: &Call<'_>,
    findings: &mut Vec<Finding<'a>>,
) -> Result<(), AllocError>
    ensures { OnOk result
        (found_all findings.new.items
        ≡ found_all findings.old.items
        ++ meant.long_length ports.now (declared_in declarations.now) (call_of (texts names.now.keys) call.now)) }
{
    let Some(kind) = sent_kind(call.service) else {
        return Ok(());
    };
    let words = words_of(names, ports, declarations, kind, call.id);
    let finding = Finding {
        line: call.line,
        kind: FindingKind::LongLength,
        subject: text_or_none(names, array_in(call)),
    };
    add_if(is_less(words, length_in(call)), finding, findings)
}

/// Returns true if both are known, and the index is not below the size.
pub fn is_beyond(size: Option<u64>, index: Option<u64>) -> bool
    ensures { result ≡ meant.is_beyond size index }
{
    match (size, index) {
        (Some(size), Some(index)) => size <= index,
        _ => false,
    }
}
