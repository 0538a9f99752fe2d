//! The words for the kinds of events.

ghost use Rattle.std.specs.Prelude.{◌≡◌};
ghost use Rattle.trace_text.specs.Reading as meant;

/// The word before the fields of an event.
#[derive(Clone, Copy, PartialEq, Eq)]
pub enum Keyword {
    State,
    Return,
    Mode,
    Error,
    Report,
    Move,
    Arrive,
    Lost,
    Out,
}

static KEYWORDS: [Keyword; 9] = [
    Keyword::State,
    Keyword::Return,
    Keyword::Mode,
    Keyword::Error,
    Keyword::Report,
    Keyword::Move,
    Keyword::Arrive,
    Keyword::Lost,
    Keyword::Out,
];

impl Keyword {
    ghost use Rattle.trace_text.specs.Reading.{keyword_text};

    fn word(self) -> &'static str
        ensures { result.now ≡ keyword_text self }
    {
        match self {
            Keyword::State => "STATE",
            Keyword::Return => "RET",
            Keyword::Mode => "MODE",
            Keyword::Error => "HM",
            Keyword::Report => "REPORT",
            Keyword::Move => "MOVE",
            Keyword::Arrive => "ARRIVE",
            Keyword::Lost => "LOST",
            Keyword::Out => "OUT",
        }
    }
}

/// The keyword that is written so.
pub fn keyword_of(text: &[u8]) -> Option<Keyword>
    ensures { result ≡ meant.keyword_of text.now }
{
    KEYWORDS
        .iter()
        .copied()
        .find(|keyword| keyword.word().as_bytes() == text)
}
