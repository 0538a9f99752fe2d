//! The kinds of texts that are judged.

ghost use Rattle.text_beginnings.specs.Kinds.{settles};

use crate::beginning::{has_control, is_foreign, is_longer_than_a_source, is_longer_than_a_table};
use streams::Reading;

/// What a text is judged as.
#[derive(Clone, Copy, PartialEq, Eq)]
pub enum TextKind {
    Table,
    Source,
    Image,
    /// A device or replay text.
    Inputs,
}

impl Reading for TextKind {
    ghost suffices = { λ kind bytes. settles kind bytes };

    fn is_enough(&self, bytes: &[u8]) -> bool {
        match self {
            TextKind::Table => is_longer_than_a_table(bytes),
            TextKind::Source => is_longer_than_a_source(bytes),
            TextKind::Image => is_foreign(bytes),
            TextKind::Inputs => has_control(bytes),
        }
    }
}
