//! Names of partitions, processes, ports and channels.

ghost use Rattle.apex_types.specs.Limits.{MOST_NAME_BYTES};
ghost use Rattle.apex_types.specs.NameText.{is_lower_case, is_name, is_name_byte};
ghost use Rattle.std.specs.List.{list_all};
ghost use Rattle.std.specs.Prelude.{◌≡◌, ◌≤◌, ◌↔◌, length, take, IfSome, IsSome, IsTrue};

use crate::limits::MOST_NAME_BYTES;
use std::marker::Model;
use std::str;

/// A name: a lower-case letter, then lower-case letters, digits or `_`, at most
/// [`MOST_NAME_BYTES`] in all.
/// A contract sees it as the list of its bytes.
#[derive(Clone, Copy, Debug)]
pub struct Name {
    text: [u8; MOST_NAME_BYTES],
    len: u8,
}

impl Model for Name {
    ghost use Rattle.std.specs.Prelude.{ℕ, List, take, length};
    ghost use Rattle.apex_types.specs.StoredName.{IsStored, stored};

    ghost Value = { List ℕ };

    ghost view = { λ n. take n.len n.text };

    ghost invariant = { λ n. IsStored n.text n.len };

    ghost inverse = { λ t. record { text = stored t; len = length t } };
}

impl Name {
    /// The name with this text, if it has the form of a name.
    #[tactic(auto, using(crate::proofs::NameText::name_IsStored))]
    pub fn new(text: &[u8]) -> Option<Name>
        ensures accepted { IsSome result ↔ IsTrue (is_name text.now) }
        ensures value { IfSome result (λ name. name ≡ text.now) }
    {
        if !has_name_form(text) {
            return None;
        }
        let mut stored = [0; MOST_NAME_BYTES];
        stored[..text.len()].copy_from_slice(text);
        Some(Name {
            text: stored,
            len: text.len() as u8,
        })
    }

    /// The text of the name, at least one byte.
    pub fn as_bytes(&self) -> &[u8]
        ensures text { result.now ≡ self.now }
        ensures form { IsTrue (is_name result.now) }
        ensures short { length result.now ≤ MOST_NAME_BYTES }
    {
        let (text, _) = self.text.split_at(self.len as usize);
        text
    }

    /// The bytes in which the name lies: its text first.
    pub(crate) fn stored(&self) -> &[u8; MOST_NAME_BYTES]
        ensures text { take (length self.now) result.now ≡ self.now }
        ensures long { length result.now ≡ MOST_NAME_BYTES }
    {
        &self.text
    }

    /// The number of bytes of its text.
    pub(crate) fn len(&self) -> usize
        ensures len { result ≡ length self.now }
        ensures short { result ≤ MOST_NAME_BYTES }
    {
        usize::from(self.len)
    }

    /// The text of the name.
    #[tactic(auto, using(crate::proofs::NameText::name_IsUtf8))]
    pub fn as_str(&self) -> &str
        ensures text { result.now ≡ self.now }
        ensures short { length result.now ≤ MOST_NAME_BYTES }
    {
        str::from_utf8(self.as_bytes()).unwrap()
    }
}

fn is_lower_case_letter(byte: u8) -> bool
    ensures { result ≡ is_lower_case byte }
{
    b'a' <= byte && byte <= b'z'
}

fn is_in_name(byte: u8) -> bool
    ensures { result ≡ is_name_byte byte }
{
    is_lower_case_letter(byte) || (b'0' <= byte && byte <= b'9') || byte == b'_'
}

fn are_in_name(bytes: &[u8]) -> bool
    ensures { result ≡ list_all is_name_byte bytes.now }
{
    bytes.iter().all(|byte| is_in_name(*byte))
}

fn has_name_form(text: &[u8]) -> bool
    ensures { result ≡ is_name text.now }
{
    match text.split_first() {
        Some((first, rest)) => {
            is_lower_case_letter(*first) && are_in_name(rest) && rest.len() < MOST_NAME_BYTES
        }
        None => false,
    }
}
