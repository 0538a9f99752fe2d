//! What is written out of habit where a text leaves the grammar, and what Pal has for it.

use pal_base::looking::{LookedFor, WordKind};
use pal_base::mark::Mark;

const COMMENT: &str = "A comment begins with `#`.";

const NO_TEXTS: &str = "There are no texts in Pal: write a number.";

const TWICE: &str = "Write the variable on both sides, as in `n := n + 1;`.";

/// Signs before a place and at it, and what is advised. The first that fits is taken.
static SIGNS: [(&str, &str, &str); 22] = [
    (
        "",
        "\r",
        "Its lines end in a carriage return: save the text with line feeds only.",
    ),
    ("", "\0", "Leave the NUL out: a source is text."),
    ("=", "=", "Write one `=`: it compares."),
    ("", "==", "Write `:=` to assign."),
    ("", "!=", "Write `<>`."),
    ("", "!", "Write `not`."),
    ("", "&", "Write `and`."),
    ("", "|", "Write `or`."),
    ("/", "/", COMMENT),
    ("/", "*", COMMENT),
    ("", "//", COMMENT),
    ("", "/*", COMMENT),
    ("", "+=", TWICE),
    ("", "-=", TWICE),
    ("", "*=", TWICE),
    ("", "/=", TWICE),
    ("", "++", TWICE),
    ("", "--", TWICE),
    ("", "\"", NO_TEXTS),
    ("", "'", NO_TEXTS),
    ("", ".", "Numbers are whole: write one without a point."),
    ("}", ";", "Leave it out: no `;` follows a `}`."),
];

/// What is advised for the signs on both sides of a place.
pub fn sign_advice(before: &[u8], ahead: &[u8]) -> Option<&'static str> {
    for (last, first, advice) in &SIGNS {
        if ends_with(before, last.as_bytes()) && ahead.starts_with(first.as_bytes()) {
            return Some(*advice);
        }
    }
    None
}

fn ends_with(text: &[u8], end: &[u8]) -> bool {
    let (_, last) = text.split_at(text.len().saturating_sub(end.len()));
    last == end
}

/// Words of other languages, and what is advised.
static FOREIGN: [(&str, &str); 6] = [
    (
        "for foreach loop repeat until do",
        "Loops are written with `while`, as in `while n < 3 { .. }`.",
    ),
    ("elif elsif elseif", "Write `else { if .. { .. } }`."),
    ("switch case", "Write an `if` for each case."),
    (
        "break continue",
        "Let the test of the `while` end the loop.",
    ),
    (
        "int let const constant static define",
        "Write `var`: Pal has no types and no constants.",
    ),
    (
        "fn func function def void procedure",
        "Write `proc name(..) { .. }`, before `init`.",
    ),
];

/// What is advised for a word of another language.
pub fn foreign_advice(word: &[u8]) -> Option<&'static str> {
    for (words, advice) in &FOREIGN {
        if is_among(word, words) {
            return Some(*advice);
        }
    }
    None
}

/// Returns true if a word is one of those in a text with blanks between them.
fn is_among(word: &[u8], words: &str) -> bool {
    words.split(' ').any(|other| word == other.as_bytes())
}

const ORDER: &str =
    "The order of a source is declarations, `init`, the handler if there is one, and then the processes.";

const DECLARING: &str = "var array semaphore event buffer blackboard port proc";

const HERE: &str = "No `{` is open here: leave it out, or look for one too many before it.";

/// Words at a place, another word that fits there, and what is advised. The first that fits is taken.
static MISPLACED: [(&str, WordKind, &str); 14] = [
    (DECLARING, WordKind::Mark(Mark::Process), ORDER),
    ("init handler", WordKind::Mark(Mark::Process), ORDER),
    ("handler process", WordKind::Mark(Mark::Init), ORDER),
    (
        "local",
        WordKind::Mark(Mark::Work),
        "Locals come first in a body, before its statements.",
    ),
    ("}", WordKind::Mark(Mark::Process), HERE),
    (
        "if",
        WordKind::Mark(Mark::BraceOpens),
        "Write `else { if .. { .. } }`.",
    ),
    (
        "=",
        WordKind::Mark(Mark::Becomes),
        "Write `:=`: `=` compares.",
    ),
    (
        "(",
        WordKind::Mark(Mark::Becomes),
        "A call of a procedure is an expression: write `x := f(..);`.",
    ),
    (
        "= <> < <= > >=",
        WordKind::Mark(Mark::Or),
        "Comparisons are not chained: write `and` between two of them.",
    ),
    (
        ",",
        WordKind::Number,
        "Write blanks between the values, and no commas.",
    ),
    ("{", WordKind::Number, "Write numbers without braces."),
    (",", WordKind::Mark(Mark::Or), "A statement ends with `;`."),
    (
        ",",
        WordKind::Mark(Mark::Semicolon),
        "Write a declaration for each name.",
    ),
    (
        "+ - * / % (",
        WordKind::Mark(Mark::Semicolon),
        "Write a number here, and no expression.",
    ),
];

/// What is advised for a word that is at a place where other words fit.
pub fn misplaced_advice(place: &LookedFor, word: &[u8]) -> Option<&'static str> {
    for (words, fits, advice) in &MISPLACED {
        if place.words.contains(fits) && is_among(word, words) {
            return Some(*advice);
        }
    }
    None
}

/// The names of the standard for values, and their numbers. PAL.md lists them.
static VALUES: [(&str, i8); 11] = [
    (
        "NO_ERROR IDLE NORMAL_START DORMANT DOWN EMPTY SOURCE INVALID FALSE",
        0,
    ),
    ("DEADLINE_MISSED MIN_LOCK_LEVEL", 0),
    (
        "NO_ACTION COLD_START PARTITION_RESTART READY UP OCCUPIED DESTINATION VALID TRUE",
        1,
    ),
    ("APPLICATION_ERROR", 1),
    (
        "NOT_AVAILABLE WARM_START HM_MODULE_RESTART RUNNING NUMERIC_ERROR",
        2,
    ),
    (
        "INVALID_PARAM NORMAL HM_PARTITION_RESTART WAITING ILLEGAL_REQUEST",
        3,
    ),
    ("INVALID_CONFIG STACK_OVERFLOW", 4),
    ("INVALID_MODE MEMORY_VIOLATION", 5),
    ("TIMED_OUT HARDWARE_FAULT", 6),
    ("MAX_LOCK_LEVEL", 16),
    ("INFINITE_TIME_VALUE INFINITE_TIME INFINITE", -1),
];

/// The number of a value that has this name in the standard.
pub fn standard_value(name: &[u8]) -> Option<i8> {
    for (names, number) in &VALUES {
        if is_among(name, names) {
            return Some(*number);
        }
    }
    None
}
