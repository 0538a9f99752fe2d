//! What is said of the words that fit where a text leaves the grammar.

use finding_lines::Shown;
use pal_base::looking::{LookedFor, WordKind};
use pal_base::mark::Mark;
use std::fmt;

/// What may be said of a place, and the kinds of words that have to fit there.
struct Choice {
    phrase: &'static str,
    words: &'static [WordKind],
}

/// The first of which all words fit is said.
static CHOICES: [Choice; 21] = [
    Choice {
        phrase: "a declaration or `init`",
        words: &[WordKind::Mark(Mark::Var), WordKind::Mark(Mark::Init)],
    },
    Choice {
        phrase: "an operator, `,` or `)`",
        words: &[
            WordKind::Mark(Mark::Or),
            WordKind::Mark(Mark::Comma),
            WordKind::Mark(Mark::ParenthesisCloses),
        ],
    },
    Choice {
        phrase: "an operator or `;`",
        words: &[WordKind::Mark(Mark::Or), WordKind::Mark(Mark::Semicolon)],
    },
    Choice {
        phrase: "an operator or `{`",
        words: &[WordKind::Mark(Mark::Or), WordKind::Mark(Mark::BraceOpens)],
    },
    Choice {
        phrase: "an operator or `]`",
        words: &[
            WordKind::Mark(Mark::Or),
            WordKind::Mark(Mark::BracketCloses),
        ],
    },
    Choice {
        phrase: "an operator or `)`",
        words: &[
            WordKind::Mark(Mark::Or),
            WordKind::Mark(Mark::ParenthesisCloses),
        ],
    },
    Choice {
        phrase: "`local`, a statement or `}`",
        words: &[
            WordKind::Mark(Mark::Local),
            WordKind::Mark(Mark::Work),
            WordKind::Mark(Mark::BraceCloses),
        ],
    },
    Choice {
        phrase: "a statement or `}`",
        words: &[
            WordKind::Mark(Mark::Work),
            WordKind::Mark(Mark::BraceCloses),
        ],
    },
    Choice {
        phrase: "an expression or `)`",
        words: &[
            WordKind::Mark(Mark::Not),
            WordKind::Mark(Mark::ParenthesisCloses),
        ],
    },
    Choice {
        phrase: "an expression",
        words: &[WordKind::Mark(Mark::Not)],
    },
    Choice {
        phrase: "a number or `;`",
        words: &[WordKind::Number, WordKind::Mark(Mark::Semicolon)],
    },
    Choice {
        phrase: "a number",
        words: &[WordKind::Number],
    },
    Choice {
        phrase: "`fifo` or `priority`",
        words: &[WordKind::Mark(Mark::Fifo), WordKind::Mark(Mark::Priority)],
    },
    Choice {
        phrase: "a name or `)`",
        words: &[WordKind::Name, WordKind::Mark(Mark::ParenthesisCloses)],
    },
    Choice {
        phrase: "`,` or `)`",
        words: &[
            WordKind::Mark(Mark::Comma),
            WordKind::Mark(Mark::ParenthesisCloses),
        ],
    },
    Choice {
        phrase: "`,` or `;`",
        words: &[WordKind::Mark(Mark::Comma), WordKind::Mark(Mark::Semicolon)],
    },
    Choice {
        phrase: "`handler`, `process` or the end of the text",
        words: &[
            WordKind::Mark(Mark::Handler),
            WordKind::Mark(Mark::Process),
            WordKind::End,
        ],
    },
    Choice {
        phrase: "`process` or the end of the text",
        words: &[WordKind::Mark(Mark::Process), WordKind::End],
    },
    Choice {
        phrase: "`:=` or `[`",
        words: &[
            WordKind::Mark(Mark::Becomes),
            WordKind::Mark(Mark::BracketOpens),
        ],
    },
    Choice {
        phrase: "`->` or `;`",
        words: &[WordKind::Mark(Mark::Arrow), WordKind::Mark(Mark::Semicolon)],
    },
    Choice {
        phrase: "`=` or `;`",
        words: &[WordKind::Mark(Mark::Equal), WordKind::Mark(Mark::Semicolon)],
    },
];

/// What is said of the words that fit at a place.
#[derive(Clone, Copy)]
pub enum Wanted {
    Phrase(&'static str),
    /// A word of this kind. A mark is in quotation marks.
    Word(WordKind),
}

impl fmt::Display for Wanted {
    fn fmt<W: fmt::Write>(&self, f: &mut fmt::Formatter<W>) -> fmt::Result {
        match *self {
            Wanted::Phrase(phrase) => f.write_str(phrase),
            Wanted::Word(WordKind::Name) => f.write_str("a name"),
            Wanted::Word(WordKind::Number) => f.write_str("a number"),
            Wanted::Word(WordKind::Service) => f.write_str("a service"),
            Wanted::Word(WordKind::Mark(mark)) => write!(f, "`{}`", Shown(mark.text())),
            Wanted::Word(WordKind::End) => f.write_str("the end of the text"),
        }
    }
}

/// What is said of the words that fit at a place: the first choice of which all words could fit, with
/// one more level if necessary, or else the first word.
pub fn wanted_at(place: &LookedFor) -> Wanted {
    if place.is_too_deep {
        return Wanted::Phrase("a text of at most 64 levels");
    }
    for choice in &CHOICES {
        if choice.words.iter().all(|kind| could_stand(place, *kind)) {
            return Wanted::Phrase(choice.phrase);
        }
    }
    match place.words.as_slice().first() {
        Some(kind) => Wanted::Word(*kind),
        None => Wanted::Phrase("a text of the grammar"),
    }
}

/// Returns true if a word of this kind fits there, with one more level if necessary.
fn could_stand(place: &LookedFor, kind: WordKind) -> bool {
    place.words.contains(&kind) || place.deeper.contains(&kind)
}
