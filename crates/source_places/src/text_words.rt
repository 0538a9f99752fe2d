//! The places of the words of a Pal source.

ghost use Rattle.std.specs.Prelude.{◌≡◌, drop, false, find, length, nat_eq, option_map};
ghost use Rattle.std.specs.List.{prefix_len, starts_with};
ghost use Rattle.pal_meaning.specs.Grammar as grammar;
ghost use Rattle.pal_meaning.specs.Grammar.{behind_blanks, in_name, in_service, is_lower, is_upper, word_at};
ghost use Rattle.pal_meaning.specs.Lines.{from_word};
ghost use Rattle.engine_meaning.specs.Digits.{is_digit};
ghost use Rattle.source_places.specs.Words as spec;

use pal_base::mark::{Mark, SIGNS};

/// The text from the word on that has `count` words before it; nothing if there are no more words.
#[tactic(auto, unfolding(pal_meaning::specs::Lines::from_word))]
pub fn from_word(text: &[u8], count: usize) -> &[u8]
    ensures { result.now ≡ from_word count text.now }
{
    let mut rest = text;
    let mut left = count;
    while 0 < left {
        rest = behind_word(behind_blanks(rest));
        left -= 1;
    }
    behind_blanks(rest)
}

/// The text from the second word on, of one that begins with a word.
pub fn next_word(text: &[u8]) -> &[u8]
    ensures { result.now ≡ spec.next_word text.now }
{
    behind_blanks(behind_word(text))
}

/// The first word of a text that begins with one.
#[tactic(auto, using(std::proofs::lemmas::List::take_min))]
pub fn first_word(text: &[u8]) -> &[u8]
    ensures { result.now ≡ spec.first_word text.now }
{
    let length = text.len().saturating_sub(behind_word(text).len());
    let (word, _) = text.split_at(length.min(text.len()));
    word
}

/// The text after the blanks and the comments at the front.
#[tactic(auto, unfolding(pal_meaning::specs::Grammar::behind_blanks))]
fn behind_blanks(text: &[u8]) -> &[u8]
    ensures { result.now ≡ behind_blanks false text.now }
{
    let mut rest = text;
    let mut is_comment = false;
    while let Some((byte, others)) = rest.split_first() {
        if *byte == b'\n' {
            is_comment = false;
        } else if *byte == b'#' {
            is_comment = true;
        } else if !is_comment && !is_blank(*byte) {
            return rest;
        }
        rest = others;
    }
    rest
}

fn is_blank(byte: u8) -> bool
    ensures { result ≡ grammar.is_blank byte }
{
    byte == b' ' || byte == b'\t' || byte == b'\n'
}

/// The text after the word at the front.
#[tactic(auto, unfolding(pal_meaning::specs::Grammar::word_at, pal_meaning::specs::Grammar::sign_word))]
fn behind_word(text: &[u8]) -> &[u8]
    ensures { result.now ≡ (word_at text.now).1 }
{
    let Some((first, others)) = text.split_first() else {
        return text;
    };
    if is_lower(*first) {
        behind_name(text)
    } else if is_digit(*first) {
        behind_digits(text)
    } else if is_upper(*first) {
        behind_service(text)
    } else {
        match sign_length(text) {
            Some(length) => behind(text, length),
            None => others,
        }
    }
}

/// The text after its first `count` bytes.
#[tactic(auto, using(std::proofs::lemmas::List::drop_min))]
fn behind(text: &[u8], count: usize) -> &[u8]
    ensures { result.now ≡ drop count text.now }
{
    let (_, rest) = text.split_at(count.min(text.len()));
    rest
}

fn behind_name(text: &[u8]) -> &[u8]
    ensures { result.now ≡ grammar.behind in_name text.now }
{
    behind(text, name_length(text))
}

fn name_length(text: &[u8]) -> usize
    ensures { result ≡ prefix_len in_name text.now }
{
    text.iter().take_while(|byte| is_in_name(**byte)).count()
}

fn behind_digits(text: &[u8]) -> &[u8]
    ensures { result.now ≡ grammar.behind is_digit text.now }
{
    behind(text, digits_length(text))
}

fn digits_length(text: &[u8]) -> usize
    ensures { result ≡ prefix_len is_digit text.now }
{
    text.iter().take_while(|byte| is_digit(**byte)).count()
}

fn behind_service(text: &[u8]) -> &[u8]
    ensures { result.now ≡ grammar.behind in_service text.now }
{
    behind(text, service_length(text))
}

fn service_length(text: &[u8]) -> usize
    ensures { result ≡ prefix_len in_service text.now }
{
    text.iter().take_while(|byte| is_in_service(**byte)).count()
}

fn is_lower(byte: u8) -> bool
    ensures { result ≡ is_lower byte }
{
    b'a' <= byte && byte <= b'z'
}

fn is_digit(byte: u8) -> bool
    ensures { result ≡ is_digit byte }
{
    b'0' <= byte && byte <= b'9'
}

fn is_upper(byte: u8) -> bool
    ensures { result ≡ is_upper byte }
{
    b'A' <= byte && byte <= b'Z'
}

fn is_in_name(byte: u8) -> bool
    ensures { result ≡ in_name byte }
{
    is_lower(byte) || is_digit(byte) || byte == b'_'
}

fn is_in_service(byte: u8) -> bool
    ensures { result ≡ in_service byte }
{
    is_upper(byte) || byte == b'_'
}

/// The length of the longest sign at the front.
fn sign_length(text: &[u8]) -> Option<usize>
    ensures { result
        ≡ option_map (λ sign. length sign)
        (find (λ sign. starts_with nat_eq text.now sign) grammar.signs) }
{
    let mut marks: &[Mark] = &SIGNS;
    while let Some((mark, others)) = marks.split_first() {
        let sign = mark.text();
        if text.starts_with(sign) {
            return Some(sign.len());
        }
        marks = others;
    }
    None
}
