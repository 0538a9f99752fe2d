//! Reading of single words.

ghost use Rattle.std.specs.Prelude.{◌≡◌, ◌<◌, ◌+◌, length, IfOk, IfSome, false, is_ok};
ghost use Rattle.pal_meaning.specs.Grammar as grammar;
ghost use Rattle.pal_laws.specs.GrammarReading as reading;
ghost use Rattle.pal_base.specs.Lined.{first_line, refused_line};
ghost use Rattle.pal_base.specs.Marks.{mark_text};
ghost use Rattle.pal_base.specs.Seen.{seen, names_of, rank_of, Gives, Finds, IsLeft, refusal_of};
ghost use Rattle.pal_base.specs.View.{name_of, number_of, integer_of};

use crate::fault::{PalFault, Refusal};
use crate::mark::Mark;
use crate::syntax::{Identifier, Numeral};
use crate::word::{Token, Word};
use apex_types::{BinaryOperator, Discipline, Service};
use indexmap::IndexSet;
use std::alloc::{AllocError, AllocFailed};

/// The place where the words of a text leave the grammar.
#[derive(Clone, Copy)]
pub struct Misfit {
    /// The number of words from that place on.
    pub left: usize,
    /// The word there would open one level too many.
    pub is_too_deep: bool,
}

/// Why nothing was read: memory ran out, or the grammar does not allow the word there.
#[derive(Clone, Copy)]
pub enum ReadError {
    Memory,
    Refused(Misfit),
}

impl From<AllocError> for ReadError {
    ghost use Rattle.std.specs.Prelude.{◌≡◌};
    ghost use Rattle.pal_base.specs.declared.source.ReadError.TheVariants.{Memory};

    ghost from_gives = { λ _ e. e ≡ Memory };

    fn from(_: AllocError) -> Self {
        ReadError::Memory
    }
}

impl<T: Drop> From<AllocFailed<T>> for ReadError {
    ghost use Rattle.std.specs.Prelude.{◌≡◌};
    ghost use Rattle.pal_base.specs.declared.source.ReadError.TheVariants.{Memory};

    ghost from_gives = { λ _ e. e ≡ Memory };

    fn from(_: AllocFailed<T>) -> Self {
        ReadError::Memory
    }
}

/// The parts that all words of a text share: its names, and the line in which it ends.
#[derive(Drop)]
pub struct Source {
    pub names: IndexSet<String>,
    pub last_line: u32,
}

/// The result of a reader at the front of the words, and the words after it.
pub type Read<'a, T> = Result<(T, &'a [Token]), ReadError>;

/// The ranks of the operators of chains, the weakest first.
#[derive(Clone, Copy, PartialEq, Eq)]
pub enum Rank {
    Disjunction,
    Conjunction,
    Comparison,
    Sum,
    Product,
}

static DISJUNCTIONS: [BinaryOperator; 1] = [BinaryOperator::Or];

static CONJUNCTIONS: [BinaryOperator; 1] = [BinaryOperator::And];

static COMPARISONS: [BinaryOperator; 6] = [
    BinaryOperator::Equal,
    BinaryOperator::NotEqual,
    BinaryOperator::Less,
    BinaryOperator::LessOrEqual,
    BinaryOperator::Greater,
    BinaryOperator::GreaterOrEqual,
];

static SUMS: [BinaryOperator; 2] = [BinaryOperator::Add, BinaryOperator::Subtract];

static PRODUCTS: [BinaryOperator; 3] = [
    BinaryOperator::Multiply,
    BinaryOperator::Divide,
    BinaryOperator::Remainder,
];

/// The operators of this rank.
fn operators_of(rank: Rank) -> &'static [BinaryOperator]
    ensures { result.now ≡ reading.operators_of (rank_of rank) }
{
    match rank {
        Rank::Disjunction => &DISJUNCTIONS,
        Rank::Conjunction => &CONJUNCTIONS,
        Rank::Comparison => &COMPARISONS,
        Rank::Sum => &SUMS,
        Rank::Product => &PRODUCTS,
    }
}

/// The mark of an operator.
fn mark_of(operator: BinaryOperator) -> Mark
    ensures { mark_text result ≡ reading.operator_mark operator }
{
    match operator {
        BinaryOperator::Add => Mark::Plus,
        BinaryOperator::Subtract => Mark::Minus,
        BinaryOperator::Multiply => Mark::Times,
        BinaryOperator::Divide => Mark::Slash,
        BinaryOperator::Remainder => Mark::Percent,
        BinaryOperator::Equal => Mark::Equal,
        BinaryOperator::NotEqual => Mark::NotEqual,
        BinaryOperator::Less => Mark::Less,
        BinaryOperator::LessOrEqual => Mark::LessOrEqual,
        BinaryOperator::Greater => Mark::Greater,
        BinaryOperator::GreaterOrEqual => Mark::GreaterOrEqual,
        BinaryOperator::And => Mark::And,
        BinaryOperator::Or => Mark::Or,
    }
}

impl Source {
    /// The line of the word at the front, or the last line of the text.
    pub fn line_of(&self, tokens: &[Token]) -> u32
        ensures { result ≡ first_line self.now.last_line tokens.now }
    {
        match tokens.first() {
            Some(token) => token.line,
            None => self.last_line,
        }
    }

    /// The refusal of a text with these words, in the line of the first word that is refused.
    pub fn fault(&self, tokens: &[Token], error: ReadError) -> PalFault
        ensures refusal { result.refusal ≡ refusal_of error }
        ensures line { result.line ≡ refused_line self.now.last_line tokens.now error }
    {
        match error {
            ReadError::Memory => PalFault::MEMORY,
            ReadError::Refused(misfit) => {
                let (_, behind) = tokens.split_at(tokens.len().saturating_sub(misfit.left));
                PalFault {
                    refusal: Refusal::Grammar,
                    line: self.line_of(behind),
                }
            }
        }
    }

    #[tactic(auto, using(crate::proofs::Turns::as_many))]
    /// The error that the grammar does not allow the word at the front.
    pub fn refused(&self, tokens: &[Token]) -> ReadError
        ensures { IsLeft result (length (seen self.now tokens.now)) }
    {
        ReadError::Refused(Misfit {
            left: tokens.len(),
            is_too_deep: false,
        })
    }

    #[tactic(auto, using(crate::proofs::Turns::as_many))]
    /// The error that the word before these opens one level too many.
    pub fn too_deep(&self, tokens: &[Token]) -> ReadError
        ensures { IsLeft result (length (seen self.now tokens.now) + 1) }
    {
        ReadError::Refused(Misfit {
            left: tokens.len() + 1,
            is_too_deep: true,
        })
    }

    #[tactic(auto, unfolding(pal_laws::specs::GrammarReading::expect))]
    /// The words after this mark, if it is at the front.
    pub fn behind<'a>(&self, tokens: &'a [Token], mark: Mark) -> Option<&'a [Token]>
        ensures shorter { IfSome result (λ r. length r.now < length tokens.now) }
        ensures exact { Finds (λ r. seen self.now r.now) (seen self.now tokens.now) result
            (reading.expect (mark_text mark) (seen self.now tokens.now)) }
    {
        let (token, rest) = tokens.split_first()?;
        match token.word {
            Word::Mark(found) => {
                if found.text() == mark.text() {
                    Some(rest)
                } else {
                    None
                }
            }
            _ => None,
        }
    }

    /// Returns true if this mark is at the front.
    pub fn stands(&self, tokens: &[Token], mark: Mark) -> bool
        ensures { result ≡ is_ok (reading.expect (mark_text mark) (seen self.now tokens.now)) }
    {
        match self.behind(tokens, mark) {
            Some(_) => true,
            None => false,
        }
    }

    /// The words after this mark, which has to be at the front.
    pub fn expect<'a>(&self, tokens: &'a [Token], mark: Mark) -> Result<&'a [Token], ReadError>
        ensures shorter { IfOk result (λ r. length r.now < length tokens.now) }
        ensures exact { Gives (λ r. seen self.now r.now) result
            (reading.expect (mark_text mark) (seen self.now tokens.now)) }
    {
        match self.behind(tokens, mark) {
            Some(rest) => Ok(rest),
            None => Err(self.refused(tokens)),
        }
    }

    #[tactic(auto, unfolding(pal_laws::specs::GrammarReading::name_at))]
    /// The name at the front, if one is there.
    pub fn name_at<'a>(&self, tokens: &'a [Token]) -> Option<(Identifier, &'a [Token])>
        ensures shorter { IfSome result (λ x. length x.1.now < length tokens.now) }
        ensures exact { Finds (λ x. (name_of (names_of self.now) x.0, seen self.now x.1.now))
            (seen self.now tokens.now) result (reading.name_at (seen self.now tokens.now)) }
    {
        let (token, rest) = tokens.split_first()?;
        match token.word {
            Word::Name(name) => Some((
                Identifier {
                    name,
                    line: token.line,
                },
                rest,
            )),
            _ => None,
        }
    }

    /// The name that has to be at the front.
    pub fn name<'a>(&self, tokens: &'a [Token]) -> Read<'a, Identifier>
        ensures shorter { IfOk result (λ x. length x.1.now < length tokens.now) }
        ensures exact { Gives (λ x. (name_of (names_of self.now) x.0, seen self.now x.1.now)) result
            (reading.name_at (seen self.now tokens.now)) }
    {
        match self.name_at(tokens) {
            Some(found) => Ok(found),
            None => Err(self.refused(tokens)),
        }
    }

    #[tactic(auto, unfolding(pal_laws::specs::GrammarReading::number_at))]
    /// The number at the front, if one is there.
    pub fn number_at<'a>(&self, tokens: &'a [Token]) -> Option<(Numeral, &'a [Token])>
        ensures shorter { IfSome result (λ x. length x.1.now < length tokens.now) }
        ensures plain { IfSome result (λ x. x.0.negative ≡ false) }
        ensures exact { Finds (λ x. (number_of x.0, seen self.now x.1.now))
            (seen self.now tokens.now) result (reading.number_at (seen self.now tokens.now)) }
    {
        let (token, rest) = tokens.split_first()?;
        match token.word {
            Word::Number(magnitude) => Some((
                Numeral {
                    magnitude,
                    negative: false,
                    line: token.line,
                },
                rest,
            )),
            _ => None,
        }
    }

    /// The number that has to be at the front.
    pub fn number<'a>(&self, tokens: &'a [Token]) -> Read<'a, Numeral>
        ensures shorter { IfOk result (λ x. length x.1.now < length tokens.now) }
        ensures plain { IfOk result (λ x. x.0.negative ≡ false) }
        ensures exact { Gives (λ x. (number_of x.0, seen self.now x.1.now)) result
            (reading.number_at (seen self.now tokens.now)) }
    {
        match self.number_at(tokens) {
            Some(found) => Ok(found),
            None => Err(self.refused(tokens)),
        }
    }

    #[tactic(auto, unfolding(pal_laws::specs::GrammarReading::integer_at))]
    /// The number that has to be at the front, with or without a minus sign.
    pub fn integer<'a>(&self, tokens: &'a [Token]) -> Read<'a, Numeral>
        ensures shorter { IfOk result (λ x. length x.1.now < length tokens.now) }
        ensures exact { Gives (λ x. (integer_of x.0, seen self.now x.1.now)) result
            (reading.integer_at (seen self.now tokens.now)) }
    {
        match self.behind(tokens, Mark::Minus) {
            Some(rest) => {
                let (number, rest) = self.number(rest)?;
                Ok((
                    Numeral {
                        magnitude: number.magnitude,
                        negative: true,
                        line: number.line,
                    },
                    rest,
                ))
            }
            None => self.number(tokens),
        }
    }

    #[tactic(auto, unfolding(pal_laws::specs::GrammarReading::discipline_at))]
    /// The discipline that has to be at the front.
    pub fn discipline<'a>(&self, tokens: &'a [Token]) -> Read<'a, Discipline>
        ensures shorter { IfOk result (λ x. length x.1.now < length tokens.now) }
        ensures exact { Gives (λ x. (x.0, seen self.now x.1.now)) result
            (reading.discipline_at (seen self.now tokens.now)) }
    {
        if let Some(rest) = self.behind(tokens, Mark::Fifo) {
            return Ok((Discipline::Fifo, rest));
        }
        let rest = self.expect(tokens, Mark::Priority)?;
        Ok((Discipline::Priority, rest))
    }

    #[tactic(auto, unfolding(pal_laws::specs::GrammarReading::service_at))]
    /// The service at the front, if one is there.
    pub fn service_at<'a>(&self, tokens: &'a [Token]) -> Option<(Service, &'a [Token])>
        ensures shorter { IfSome result (λ x. length x.1.now < length tokens.now) }
        ensures exact { Finds (λ x. (x.0, seen self.now x.1.now)) (seen self.now tokens.now) result
            (reading.service_at (seen self.now tokens.now)) }
    {
        let (token, rest) = tokens.split_first()?;
        match token.word {
            Word::Service(service) => Some((service, rest)),
            _ => None,
        }
    }

    #[tactic(auto, unfolding(pal_laws::specs::GrammarReading::one_of))]
    /// The operator of this rank at the front, if one is there.
    pub fn operator_at<'a>(
        &self,
        tokens: &'a [Token],
        rank: Rank,
    ) -> Option<(BinaryOperator, &'a [Token])>
        ensures shorter { IfSome result (λ x. length x.1.now < length tokens.now) }
        ensures exact { Finds (λ x. (x.0, seen self.now x.1.now)) (seen self.now tokens.now) result
            (reading.operator_at (rank_of rank) (seen self.now tokens.now)) }
    {
        let mut operators = operators_of(rank);
        while let Some((operator, others)) = operators.split_first() {
            if let Some(rest) = self.behind(tokens, mark_of(*operator)) {
                return Some((*operator, rest));
            }
            operators = others;
        }
        None
    }
}
