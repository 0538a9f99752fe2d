//! Finds the words that the grammar looks for where a text leaves it: tries each kind of word
//! there.

ghost use Rattle.std.specs.Prelude.{◌≡◌, length, IfOk};
ghost use Rattle.pal_base.specs.Leaving.{IsLookedFor, IsMisfit};
ghost use Rattle.pal_base.specs.Lined.{first_line};
ghost use Rattle.pal_base.specs.Seen.{seen};

use crate::mark::{GRAMMAR_WORDS, Mark, SIGNS};
use crate::source::{Misfit, ReadError, Source};
use crate::syntax::{NameId, Natural};
use crate::word::{Token, Word, Words, words_of};
use apex_types::Service;
use std::alloc::{AllocError, Global};

/// A kind of word: a name, a number, the name of a service, a mark, or the end of the text.
#[derive(Clone, Copy, PartialEq, Eq)]
pub enum WordKind {
    Name,
    Number,
    Service,
    Mark(Mark),
    End,
}

impl WordKind {
    /// A word of this kind; the end of the text is none.
    fn word(self) -> Option<Word> {
        match self {
            WordKind::Name => Some(Word::Name(NameId(0))),
            WordKind::Number => Some(Word::Number(Natural::Within(0))),
            WordKind::Service => Some(Word::Service(Service::GetTime)),
            WordKind::Mark(mark) => Some(Word::Mark(mark)),
            WordKind::End => None,
        }
    }
}

/// The words that the grammar looks for at the first word of a text that does not fit.
#[derive(Drop)]
pub struct LookedFor {
    /// The number of words before that word.
    pub place: usize,
    /// The line of that word, or the last line of the text.
    pub line: u32,
    /// That word opens one level too many.
    pub is_too_deep: bool,
    /// The words that fit there.
    pub words: Vec<WordKind>,
    /// The words that would fit there at one level more.
    pub deeper: Vec<WordKind>,
}

/// Returns the words that the grammar looks for at the first word of a text that does not fit;
/// `None` if the text is in the grammar.
///
/// # Errors
///
/// Only if memory runs out.
pub fn looked_for(alloc: Global, text: &[u8]) -> Result<Option<LookedFor>, AllocError>
    ensures { IfOk result (λ found. IsLookedFor text.now found) }
{
    let Ok(words) = words_of(alloc, text) else {
        return Err(AllocError);
    };
    let Words {
        names,
        tokens,
        last_line,
    } = words;
    let source = Source { names, last_line };
    let Some(misfit) = source.misfit(alloc, tokens.as_slice())? else {
        return Ok(None);
    };
    let count = tokens.len().saturating_sub(misfit.left);
    let (before, behind) = tokens.as_slice().split_at(count);
    Ok(Some(source.looked_for(alloc, before, behind, misfit.is_too_deep)?))
}

impl Source {
    /// The place where these words leave the grammar; `None` if they do not.
    fn misfit(&self, alloc: Global, tokens: &[Token]) -> Result<Option<Misfit>, AllocError>
        ensures { IfOk result (λ found. IsMisfit (seen self.now tokens.now) found) }
    {
        match self.program(alloc, tokens) {
            Ok(_) => Ok(None),
            Err(ReadError::Refused(misfit)) => Ok(Some(misfit)),
            Err(ReadError::Memory) => Err(AllocError),
        }
    }

    /// Returns the words that fit between `before` and `behind`.
    fn looked_for(
        &self,
        alloc: Global,
        before: &[Token],
        behind: &[Token],
        is_too_deep: bool,
    ) -> Result<LookedFor, AllocError>
        ensures place { IfOk result (λ it. it.place ≡ length before.now) }
        ensures line { IfOk result (λ it. it.line ≡ first_line self.now.last_line behind.now) }
    {
        let mut words = Vec::new(alloc);
        let mut deeper = Vec::new(alloc);
        let marks = GRAMMAR_WORDS
            .iter()
            .chain(&SIGNS)
            .map(|mark| WordKind::Mark(*mark));
        let kinds = [WordKind::Name, WordKind::Number, WordKind::Service];
        for kind in kinds.into_iter().chain(marks).chain([WordKind::End]) {
            match self.misfit_of(alloc, before, kind)? {
                None => words.push(kind)?,
                Some(misfit) if misfit.is_too_deep => deeper.push(kind)?,
                Some(_) => {}
            }
        }
        Ok(LookedFor {
            place: before.len(),
            line: self.line_of(behind),
            is_too_deep,
            words,
            deeper,
        })
    }

    /// How a word of this kind does not fit after those, or the end; `None` if it fits.
    fn misfit_of(
        &self,
        alloc: Global,
        before: &[Token],
        kind: WordKind,
    ) -> Result<Option<Misfit>, AllocError> {
        let Some(word) = kind.word() else {
            return self.misfit(alloc, before);
        };
        let mut tokens = Vec::from_slice(alloc, before)?;
        tokens.push(Token { word, line: 0 })?;
        let misfit = self.misfit(alloc, tokens.as_slice())?;
        // If none of the words is left, more of them are wanted, and this one fits.
        Ok(misfit.filter(|misfit| misfit.left > 0))
    }
}
