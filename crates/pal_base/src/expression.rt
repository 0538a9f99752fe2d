//! Reading of expressions. `levels` is how many levels may still be opened.

ghost use Rattle.std.specs.Prelude.{◌<◌, ◌≤◌, length, map, codes, IfOk};
ghost use Rattle.pal_laws.specs.GrammarReading as reading;
ghost use Rattle.pal_base.specs.Reads.{and_more, listed, arguments_read};
ghost use Rattle.pal_base.specs.Rows.{pair_of};
ghost use Rattle.pal_base.specs.Seen.{seen, names_of, rank_of, Gives};
ghost use Rattle.pal_base.specs.View.{name_of, expr_of, exprs_of, links_of};

use crate::mark::Mark;
use crate::source::{Rank, Read, Source};
use crate::syntax::{Expr, Identifier, Link};
use crate::word::Token;
use apex_types::UnaryOperator;
use std::alloc::Global;

impl Source {
    #[tactic(auto, unfolding(pal_laws::specs::GrammarReading::expr_at))]
    /// The expression at the front.
    pub fn expression<'a>(&self, alloc: Global, levels: u32, tokens: &'a [Token]) -> Read<'a, Expr>
        ensures shorter { IfOk result (λ x. length x.1.now < length tokens.now) }
        ensures exact { Gives (λ x. (expr_of (names_of self.now) x.0, seen self.now x.1.now)) result
            (reading.expr_at levels (seen self.now tokens.now)) }
    {
        self.chain(alloc, Rank::Disjunction, levels, tokens)
    }

    /// The operands of this rank at the front, with the operators between them.
    #[tactic(auto, unfolding(pal_laws::specs::GrammarReading::ranked, pal_laws::specs::GrammarReading::chain_with))]
    #[cycle(expression)]
    fn chain<'a>(
        &self,
        alloc: Global,
        rank: Rank,
        levels: u32,
        tokens: &'a [Token],
    ) -> Read<'a, Expr>
        ensures shorter { IfOk result (λ x. length x.1.now < length tokens.now) }
        ensures exact { Gives (λ x. (expr_of (names_of self.now) x.0, seen self.now x.1.now)) result
            (reading.ranked (reading.unary_at levels) (rank_of rank) (seen self.now tokens.now)) }
    {
        let (first, rest) = self.operand(alloc, rank, levels, tokens)?;
        let (links, rest) = self.links(alloc, rank, levels, rest)?;
        if links.is_empty() {
            return Ok((first, rest));
        }
        Ok((Expr::Chain(Box::new(alloc, first)?, links), rest))
    }

    /// An operand of the operators of this rank.
    #[tactic(auto, unfolding(pal_laws::specs::GrammarReading::ranked, pal_laws::specs::GrammarReading::operand_with, pal_laws::specs::GrammarReading::conjunctions_with, pal_laws::specs::GrammarReading::comparisons_with, pal_laws::specs::GrammarReading::sums_with, pal_laws::specs::GrammarReading::products_with))]
    #[cycle(expression)]
    fn operand<'a>(
        &self,
        alloc: Global,
        rank: Rank,
        levels: u32,
        tokens: &'a [Token],
    ) -> Read<'a, Expr>
        ensures shorter { IfOk result (λ x. length x.1.now < length tokens.now) }
        ensures exact { Gives (λ x. (expr_of (names_of self.now) x.0, seen self.now x.1.now)) result
            (reading.operand_with (reading.unary_at levels) (rank_of rank)
            (seen self.now tokens.now)) }
    {
        match rank {
            Rank::Disjunction => self.chain(alloc, Rank::Conjunction, levels, tokens),
            Rank::Conjunction => self.chain(alloc, Rank::Comparison, levels, tokens),
            Rank::Comparison => self.chain(alloc, Rank::Sum, levels, tokens),
            Rank::Sum => self.chain(alloc, Rank::Product, levels, tokens),
            Rank::Product => self.unary(alloc, levels, tokens),
        }
    }

    /// The operators of this rank with their right operands; of comparisons one at most.
    #[cycle(expression)]
    fn links<'a>(
        &self,
        alloc: Global,
        rank: Rank,
        levels: u32,
        tokens: &'a [Token],
    ) -> Read<'a, Vec<Link>>
        ensures shorter { IfOk result (λ x. length x.1.now ≤ length tokens.now) }
        ensures exact { Gives (λ x. (links_of (names_of self.now) x.0.items, seen self.now x.1.now))
            result
            (reading.links_at (reading.operand_with (reading.unary_at levels) (rank_of rank))
            (rank_of rank) (seen self.now tokens.now)) }
    {
        match rank {
            Rank::Comparison => self.one_link(alloc, levels, tokens),
            _ => self.all_links(alloc, rank, levels, tokens),
        }
    }

    /// One comparison with its right operand, or none.
    #[tactic(auto, unfolding(pal_laws::specs::GrammarReading::links_at, pal_laws::specs::GrammarReading::link_at))]
    #[cycle(expression)]
    fn one_link<'a>(&self, alloc: Global, levels: u32, tokens: &'a [Token]) -> Read<'a, Vec<Link>>
        ensures shorter { IfOk result (λ x. length x.1.now ≤ length tokens.now) }
        ensures exact { Gives (λ x. (links_of (names_of self.now) x.0.items, seen self.now x.1.now))
            result
            (reading.links_at (reading.operand_with (reading.unary_at levels) reading.Comparison)
            reading.Comparison (seen self.now tokens.now)) }
    {
        let mut links = Vec::new(alloc);
        match self.operator_at(tokens, Rank::Comparison) {
            None => Ok((links, tokens)),
            Some((operator, rest)) => {
                let (operand, rest) = self.operand(alloc, Rank::Comparison, levels, rest)?;
                links.push(Link { operator, operand })?;
                Ok((links, rest))
            }
        }
    }

    /// All operators of this rank with their right operands.
    #[cycle(expression)]
    fn all_links<'a>(
        &self,
        alloc: Global,
        rank: Rank,
        levels: u32,
        tokens: &'a [Token],
    ) -> Read<'a, Vec<Link>>
        ensures shorter { IfOk result (λ x. length x.1.now ≤ length tokens.now) }
        ensures exact { Gives
            (λ x. (map (pair_of (names_of self.now)) x.0.items, seen self.now x.1.now)) result
            (reading.repeat
            (reading.link_at (reading.operand_with (reading.unary_at levels) (rank_of rank))
            (rank_of rank))
            (seen self.now tokens.now)) }
    {
        let mut links = Vec::new(alloc);
        let mut rest = tokens;
        while let Some((operator, behind)) = self.operator_at(rest, rank) {
            let (operand, after) = self.operand(alloc, rank, levels, behind)?;
            links.push(Link { operator, operand })?;
            rest = after;
        }
        Ok((links, rest))
    }

    /// An operand that is no chain.
    #[tactic(auto, unfolding(pal_laws::specs::GrammarReading::unary_read, pal_laws::specs::GrammarReading::unary_with, pal_laws::specs::GrammarReading::operated_at))]
    #[cycle(expression)]
    fn unary<'a>(&self, alloc: Global, levels: u32, tokens: &'a [Token]) -> Read<'a, Expr>
        ensures shorter { IfOk result (λ x. length x.1.now < length tokens.now) }
        ensures exact { Gives (λ x. (expr_of (names_of self.now) x.0, seen self.now x.1.now)) result
            (reading.unary_read levels (seen self.now tokens.now)) }
    {
        if let Some(rest) = self.behind(tokens, Mark::Minus) {
            return self.operated(alloc, UnaryOperator::Negate, levels, rest);
        }
        if let Some(rest) = self.behind(tokens, Mark::Not) {
            return self.operated(alloc, UnaryOperator::Not, levels, rest);
        }
        if let Some((number, rest)) = self.number_at(tokens) {
            return Ok((Expr::Number(number), rest));
        }
        if let Some((name, rest)) = self.name_at(tokens) {
            return self.named(alloc, name, levels, rest);
        }
        let rest = self.expect(tokens, Mark::ParenthesisOpens)?;
        let (inside, rest) = self.nested(alloc, levels, rest)?;
        let rest = self.expect(rest, Mark::ParenthesisCloses)?;
        Ok((Expr::Parenthesis(Box::new(alloc, inside)?), rest))
    }

    /// The operand of a unary operator, one level further in.
    #[tactic(auto, unfolding(pal_laws::specs::GrammarReading::operated_at, pal_laws::specs::GrammarReading::deeper_at))]
    #[cycle(expression)]
    fn operated<'a>(
        &self,
        alloc: Global,
        operator: UnaryOperator,
        levels: u32,
        tokens: &'a [Token],
    ) -> Read<'a, Expr>
        ensures shorter { IfOk result (λ x. length x.1.now < length tokens.now) }
        ensures exact { Gives (λ x. (expr_of (names_of self.now) x.0, seen self.now x.1.now)) result
            (reading.operated_at operator levels (seen self.now tokens.now)) }
    {
        if levels == 0 {
            return Err(self.too_deep(tokens));
        }
        let (operand, rest) = self.unary(alloc, levels - 1, tokens)?;
        Ok((Expr::Unary(operator, Box::new(alloc, operand)?), rest))
    }

    /// An expression one level further in, after the word that opens the level.
    #[tactic(auto, unfolding(pal_laws::specs::GrammarReading::nested_at, pal_laws::specs::GrammarReading::expr_at))]
    #[cycle(expression)]
    pub fn nested<'a>(&self, alloc: Global, levels: u32, tokens: &'a [Token]) -> Read<'a, Expr>
        ensures shorter { IfOk result (λ x. length x.1.now < length tokens.now) }
        ensures exact { Gives (λ x. (expr_of (names_of self.now) x.0, seen self.now x.1.now)) result
            (reading.nested_at levels (seen self.now tokens.now)) }
    {
        if levels == 0 {
            return Err(self.too_deep(tokens));
        }
        self.chain(alloc, Rank::Disjunction, levels - 1, tokens)
    }

    /// Reads the expression that begins with this name: an element, a call or only the name.
    #[tactic(auto, unfolding(pal_laws::specs::GrammarReading::named_with))]
    #[cycle(expression)]
    fn named<'a>(
        &self,
        alloc: Global,
        name: Identifier,
        levels: u32,
        tokens: &'a [Token],
    ) -> Read<'a, Expr>
        ensures shorter { IfOk result (λ x. length x.1.now ≤ length tokens.now) }
        ensures exact { Gives (λ x. (expr_of (names_of self.now) x.0, seen self.now x.1.now)) result
            (reading.named_with (reading.nested_at levels) (reading.arguments_at levels)
            (name_of (names_of self.now) name) (seen self.now tokens.now)) }
    {
        if let Some(rest) = self.behind(tokens, Mark::BracketOpens) {
            let (index, rest) = self.nested(alloc, levels, rest)?;
            let rest = self.expect(rest, Mark::BracketCloses)?;
            return Ok((Expr::Element(name, Box::new(alloc, index)?), rest));
        }
        if let Some(rest) = self.behind(tokens, Mark::ParenthesisOpens) {
            let (arguments, rest) = self.arguments(alloc, levels, rest)?;
            return Ok((Expr::Apply(name, arguments), rest));
        }
        Ok((Expr::Name(name), tokens))
    }

    /// Reads the arguments after the opening parenthesis of their list, up to the closing one.
    #[tactic(auto, unfolding(crate::specs::Reads::arguments_read, crate::specs::Reads::arguments_within, pal_laws::specs::GrammarReading::expr_at))]
    #[cycle(expression)]
    pub fn arguments<'a>(
        &self,
        alloc: Global,
        levels: u32,
        tokens: &'a [Token],
    ) -> Read<'a, Vec<Expr>>
        ensures shorter { IfOk result (λ x. length x.1.now < length tokens.now) }
        ensures exact { Gives (λ x. (exprs_of (names_of self.now) x.0.items, seen self.now x.1.now))
            result (arguments_read levels (seen self.now tokens.now)) }
    {
        if levels == 0 {
            return Err(self.too_deep(tokens));
        }
        if let Some(rest) = self.behind(tokens, Mark::ParenthesisCloses) {
            return Ok((Vec::new(alloc), rest));
        }
        let (first, rest) = self.chain(alloc, Rank::Disjunction, levels - 1, tokens)?;
        let (arguments, rest) = self.more_arguments(alloc, levels - 1, first, rest)?;
        let rest = self.expect(rest, Mark::ParenthesisCloses)?;
        Ok((arguments, rest))
    }

    /// This argument and all that follow with commas before them.
    #[tactic(auto, unfolding(pal_laws::specs::GrammarReading::expr_at))]
    #[cycle(expression)]
    fn more_arguments<'a>(
        &self,
        alloc: Global,
        levels: u32,
        first: Expr,
        tokens: &'a [Token],
    ) -> Read<'a, Vec<Expr>>
        ensures shorter { IfOk result (λ x. length x.1.now ≤ length tokens.now) }
        ensures exact { Gives
            (λ x. (map (expr_of (names_of self.now)) x.0.items, seen self.now x.1.now)) result
            (and_more (expr_of (names_of self.now) first)
            (listed (codes ",") (reading.expr_at levels) (seen self.now tokens.now))) }
    {
        let mut arguments = Vec::new(alloc);
        arguments.push(first)?;
        let mut rest = tokens;
        while let Some(behind) = self.behind(rest, Mark::Comma) {
            let (argument, after) = self.chain(alloc, Rank::Disjunction, levels, behind)?;
            arguments.push(argument)?;
            rest = after;
        }
        Ok((arguments, rest))
    }
}
