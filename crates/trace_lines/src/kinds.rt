//! Kinds of lines.

ghost use Rattle.std.specs.Prelude.{◌≡◌, Some, option_copied};
ghost use Rattle.text_lines.specs.Pieces.{pieces_of};
ghost use Rattle.trace_lines.specs.KindSets.{has_kind, keyword_in, no_kinds, with_kind, with_words};

use apex_types::EventKind;
use text_lines::split_at;
use trace_text::{Keyword, keyword_of};

/// A set of kinds of lines, by the words that say what a line is about.
#[derive(Clone, Copy)]
pub struct Kinds {
    state: bool,
    ret: bool,
    mode: bool,
    hm: bool,
    report: bool,
    move_: bool,
    arrive: bool,
    lost: bool,
    out: bool,
}

impl Kinds {
    /// No kind.
    pub fn none() -> Kinds
        ensures { result ≡ no_kinds }
    {
        Kinds {
            state: false,
            ret: false,
            mode: false,
            hm: false,
            report: false,
            move_: false,
            arrive: false,
            lost: false,
            out: false,
        }
    }

    /// These kinds and one more.
    pub fn with(self, kind: Keyword) -> Kinds
        ensures { result ≡ with_kind kind self }
    {
        match kind {
            Keyword::State => Kinds {
                state: true,
                ..self
            },
            Keyword::Return => Kinds { ret: true, ..self },
            Keyword::Mode => Kinds { mode: true, ..self },
            Keyword::Error => Kinds { hm: true, ..self },
            Keyword::Report => Kinds {
                report: true,
                ..self
            },
            Keyword::Move => Kinds {
                move_: true,
                ..self
            },
            Keyword::Arrive => Kinds {
                arrive: true,
                ..self
            },
            Keyword::Lost => Kinds { lost: true, ..self },
            Keyword::Out => Kinds { out: true, ..self },
        }
    }

    /// The kinds of the words in this text, with commas between them; none if one of them is not
    /// `STATE`, `RET`, `MODE`, `HM`, `REPORT`, `MOVE`, `ARRIVE`, `LOST` or `OUT`.
    pub fn named(text: &[u8]) -> Option<Kinds>
        ensures { result ≡ with_words (pieces_of 44 (Some text.now)) (Some no_kinds) }
    {
        kinds_in(text)
    }

    /// Returns true if lines of this kind are among them.
    pub fn has(&self, kind: &EventKind) -> bool
        ensures { result ≡ has_kind (keyword_in kind.now) self.now }
    {
        match kind {
            EventKind::State(_, _) => self.state,
            EventKind::Return(_, _, _) => self.ret,
            EventKind::Mode(_) => self.mode,
            EventKind::Error(_, _, _) => self.hm,
            EventKind::Report(_, _) => self.report,
            EventKind::Move(_, _) => self.move_,
            EventKind::Arrive(_, _) => self.arrive,
            EventKind::Lost(_, _) => self.lost,
            EventKind::Out(_, _) => self.out,
        }
    }
}

fn kinds_in(text: &[u8]) -> Option<Kinds>
    ensures { result ≡ with_words (pieces_of 44 (Some text.now)) (Some no_kinds) }
{
    let mut kinds = Kinds::none();
    let mut rest = Some(text);
    while let Some(text) = rest {
        let (word, behind) = split_at(b',', text);
        let kind = keyword_of(word)?;
        kinds = kinds.with(kind);
        rest = behind;
    }
    Some(kinds)
}
