//! The words of a source text.

ghost use Rattle.std.specs.Prelude.{◌≡◌, ◌+◌, ◌-◌, ◌*◌, ◌<◌, ◌≤◌, length, map, drop, option_map, find, nat_eq, IfOk, IfErr, IfSome, OnOk, false};
ghost use Rattle.std.specs.List.{starts_with};
ghost use Rattle.std.specs.Str.{IsAscii};
ghost use Rattle.apex_types.specs.ServiceShape.{service_word};
ghost use Rattle.apex_types.specs.ServiceShape.{services};
ghost use Rattle.pal_meaning.specs.Grammar as grammar;
ghost use Rattle.engine_meaning.specs.Digits as numerals;
ghost use Rattle.pal_meaning.specs.Lines.{feeds, word_line};
ghost use Rattle.pal_meaning.specs.Grammar.{is_blank, is_lower, is_upper, behind_blanks, behind};
ghost use Rattle.engine_meaning.specs.Digits.{is_digit, front, same};
ghost use Rattle.pal_base.specs.declared.fault.Refusal.TheVariants.{Memory};
ghost use Rattle.pal_base.specs.Lined.{HasFewLines, AreLined};
ghost use Rattle.pal_base.specs.Marks.{mark_text};
ghost use Rattle.pal_base.specs.Runs.{member};
ghost use Rattle.pal_base.specs.View.{texts, natural_of};
ghost use Rattle.pal_base.specs.WordView.{word_of, token_of, Extends, IsKnown};

use crate::fault::PalFault;
use crate::mark::{GRAMMAR_WORDS, Mark, SIGNS};
use crate::syntax::{NameId, Natural};
use apex_types::{SERVICES, Service};
use indexmap::IndexSet;
use std::alloc::Global;

/// A word of a source text.
#[derive(Clone, Copy)]
pub enum Word {
    Name(NameId),
    Number(Natural),
    Service(Service),
    Mark(Mark),
    /// A character that begins no word of the grammar. No program has one.
    Stray,
}

/// A word with its place in the text.
#[derive(Clone, Copy)]
pub struct Token {
    pub word: Word,
    pub line: u32,
}

/// A source text as words.
#[derive(Drop)]
pub struct Words {
    /// Each name of the text once, in the order in which they are first seen.
    pub names: IndexSet<String>,
    pub tokens: Vec<Token>,
    pub last_line: u32,
}

/// The words of a source text, in their order: each is the longest that begins at its place.
pub fn words_of(alloc: Global, text: &[u8]) -> Result<Words, PalFault>
    ensures words { IfOk result
        (λ w. map (token_of (texts w.names.keys)) w.tokens.items ≡ grammar.words_of text.now) }
    ensures lines { IfOk result
        (λ w. HasFewLines text.now
        → AreLined text.now 0 w.tokens.items
        × (w.last_line ≡ word_line text.now (length w.tokens.items))) }
    ensures memory { IfErr result (λ e. e.refusal ≡ Memory) }
{
    let mut names = IndexSet::new(alloc);
    let mut tokens = Vec::new(alloc);
    let (mut rest, mut line) = behind_blanks(text, 1);
    while !rest.is_empty() {
        let (word, after) = word_at(alloc, &mut names, rest)?;
        tokens.push(Token { word, line })?;
        (rest, line) = behind_blanks(after, line);
    }
    Ok(Words {
        names,
        tokens,
        last_line: line,
    })
}

#[tactic(auto, unfolding(pal_meaning::specs::Grammar::behind_blanks))]
/// The text after the blanks and the comments at the front, and the line in which it begins.
fn behind_blanks(text: &[u8], line: u32) -> (&[u8], u32)
    ensures text { result.0.now ≡ behind_blanks false text.now }
    ensures few { result.1 + length result.0.now ≤ line + length text.now }
    ensures line { line + length text.now < 4294967296
        → result.1 + feeds result.0.now ≡ line + feeds text.now }
{
    let mut rest = text;
    let mut line = line;
    let mut is_comment = false;
    while let Some((byte, others)) = rest.split_first() {
        if *byte == b'\n' {
            line = line.saturating_add(1);
            is_comment = false;
        } else if *byte == b'#' {
            is_comment = true;
        } else if !is_comment && !is_blank(*byte) {
            return (rest, line);
        }
        rest = others;
    }
    (rest, line)
}

fn is_blank(byte: u8) -> bool
    ensures { result ≡ is_blank byte }
{
    byte == b' ' || byte == b'\t' || byte == b'\n'
}

fn is_lower(byte: u8) -> bool
    ensures { result ≡ is_lower byte }
{
    b'a' <= byte && byte <= b'z'
}

fn is_digit(byte: u8) -> bool
    ensures { result ≡ is_digit byte }
{
    b'0' <= byte && byte <= b'9'
}

fn is_upper(byte: u8) -> bool
    ensures { result ≡ is_upper byte }
{
    b'A' <= byte && byte <= b'Z'
}

/// The kinds of runs of bytes: lower-case letters, digits and underscores; only digits; upper-case
/// letters and underscores.
#[derive(Clone, Copy, PartialEq, Eq)]
enum Run {
    Name,
    Digits,
    Service,
}

fn belongs(byte: u8, run: Run) -> bool
    ensures { result ≡ member run byte }
{
    match run {
        Run::Name => is_lower(byte) || is_digit(byte) || byte == b'_',
        Run::Digits => is_digit(byte),
        Run::Service => is_upper(byte) || byte == b'_',
    }
}

/// The word at the front, and the text after it.
#[tactic(auto, unfolding(pal_meaning::specs::Grammar::word_at, pal_meaning::specs::Grammar::lower_word, pal_meaning::specs::Grammar::upper_word, pal_meaning::specs::Grammar::sign_word))]
fn word_at<'a>(
    alloc: Global,
    names: &mut IndexSet<String>,
    text: &'a [u8],
) -> Result<(Word, &'a [u8]), PalFault>
    ensures rest { IfOk result (λ x. x.1.now ≡ (grammar.word_at text.now).1) }
    ensures word { IfOk result
        (λ x. word_of (texts names.new.keys) x.0 ≡ (grammar.word_at text.now).0) }
    ensures grows { OnOk result (Extends (texts names.old.keys) (texts names.new.keys)) }
    ensures known { IfOk result (λ x. IsKnown (texts names.new.keys) x.0) }
    ensures memory { IfErr result (λ e. e.refusal ≡ Memory) }
{
    let Some((first, others)) = text.split_first() else {
        return Ok((Word::Stray, text));
    };
    if is_lower(*first) {
        let (run, rest) = split_run(text, Run::Name);
        return match grammar_word(run) {
            Some(mark) => Ok((Word::Mark(mark), rest)),
            None => Ok((name_of(alloc, names, run)?, rest)),
        };
    }
    if is_digit(*first) {
        let (run, rest) = split_run(text, Run::Digits);
        return Ok((Word::Number(natural(run)), rest));
    }
    if is_upper(*first) {
        let (run, rest) = split_run(text, Run::Service);
        return match service_of(run) {
            Some(service) => Ok((Word::Service(service), rest)),
            None => Ok((Word::Stray, rest)),
        };
    }
    match sign_at(text) {
        Some((mark, rest)) => Ok((Word::Mark(mark), rest)),
        None => Ok((Word::Stray, others)),
    }
}

/// The longest run of this kind at the front of the text, and the rest.
fn split_run(text: &[u8], run: Run) -> (&[u8], &[u8])
    ensures front { result.0.now ≡ front (member run) text.now }
    ensures behind { result.1.now ≡ behind (member run) text.now }
{
    let mut count = 0;
    let mut rest = text;
    while let Some((byte, others)) = rest.split_first() {
        if !belongs(*byte, run) {
            break;
        }
        count += 1;
        rest = others;
    }
    text.split_at(count)
}

/// The mark with this spelling.
fn grammar_word(run: &[u8]) -> Option<Mark>
    ensures { option_map mark_text result ≡ find (λ mark. same mark run.now) grammar.grammar_words }
{
    let mut marks: &[Mark] = &GRAMMAR_WORDS;
    while let Some((mark, others)) = marks.split_first() {
        if mark.text() == run {
            return Some(*mark);
        }
        marks = others;
    }
    None
}

/// The name with this text. A new name goes after the others.
fn name_of(alloc: Global, names: &mut IndexSet<String>, run: &[u8]) -> Result<Word, PalFault>
    requires { IsAscii run.now }
    ensures word { IfOk result (λ w. word_of (texts names.new.keys) w ≡ grammar.Name run.now) }
    ensures grows { OnOk result (Extends (texts names.old.keys) (texts names.new.keys)) }
    ensures known { IfOk result (λ w. IsKnown (texts names.new.keys) w) }
    ensures memory { IfErr result (λ e. e.refusal ≡ Memory) }
{
    let Ok(text) = str::from_utf8(run) else {
        unreachable!()
    };
    let key = String::from_str(alloc, text)?;
    let (number, _) = names.insert_full(key)?;
    Ok(Word::Name(NameId(number)))
}

/// The service of this name, if it is one.
fn service_of(run: &[u8]) -> Option<Service>
    ensures { result ≡ find (λ s. same (service_word s) run.now) services }
{
    let mut candidates: &[Service] = &SERVICES;
    while let Some((service, others)) = candidates.split_first() {
        if service.word().as_bytes() == run {
            return Some(*service);
        }
        candidates = others;
    }
    None
}

/// The longest sign at the front, and the text after it.
fn sign_at(text: &[u8]) -> Option<(Mark, &[u8])>
    ensures sign { option_map (λ x. mark_text x.0) result
        ≡ find (λ sign. starts_with nat_eq text.now sign) grammar.signs }
    ensures rest { IfSome result (λ x. x.1.now ≡ drop (length (mark_text x.0)) text.now) }
{
    let mut marks: &[Mark] = &SIGNS;
    while let Some((mark, others)) = marks.split_first() {
        let sign = mark.text();
        if text.starts_with(sign) {
            let (_, rest) = text.split_at(sign.len());
            return Some((*mark, rest));
        }
        marks = others;
    }
    None
}

#[tactic(auto, using(crate::proofs::Decimals::stays_too_large), unfolding(engine_meaning::specs::Digits::decimal_value))]
/// The number of these digits, if it is at most 2^63 - 1.
fn natural(digits: &[u8]) -> Natural
    ensures { natural_of result ≡ grammar.within (numerals.decimal_value digits.now) }
{
    let mut value = 0;
    for digit in digits {
        match with_digit(value, *digit) {
            Some(larger) => value = larger,
            None => return Natural::TooLarge,
        }
    }
    Natural::Within(value as i64)
}

/// The greatest number that a source text may have.
const GREATEST: u64 = 9_223_372_036_854_775_807;

/// Ten times the value and the digit, if that is at most 2^63 - 1.
fn with_digit(value: u64, digit: u8) -> Option<u64>
    ensures { result ≡ grammar.within (value * 10 + (digit - 48)) }
{
    if GREATEST / 10 < value {
        return None;
    }
    let larger = value * 10 + u64::from(digit.saturating_sub(b'0'));
    if GREATEST < larger {
        None
    } else {
        Some(larger)
    }
}
