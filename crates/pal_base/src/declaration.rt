//! Reading of declarations.

ghost use Rattle.std.specs.Prelude.{◌<◌, ◌≤◌, length, map, option_map, codes, IfOk};
ghost use Rattle.pal_laws.specs.GrammarReading as reading;
ghost use Rattle.pal_base.specs.Reads.{and_more, up_to, integers_read};
ghost use Rattle.pal_base.specs.Seen.{seen, names_of, Gives};
ghost use Rattle.pal_base.specs.View.{name_of, integer_of, declaration_of};

use crate::mark::Mark;
use crate::source::{Read, Source};
use crate::syntax::{Declaration, DeclarationKind, Identifier, Numeral};
use crate::word::Token;
use std::alloc::Global;

impl Source {
    /// The declarations up to the word `init`.
    pub fn declarations<'a>(&self, alloc: Global, tokens: &'a [Token]) -> Read<'a, Vec<Declaration>>
        ensures shorter { IfOk result (λ x. length x.1.now ≤ length tokens.now) }
        ensures exact { Gives
            (λ x.
            (map (declaration_of (names_of self.now)) x.0.items, seen self.now x.1.now))
            result (reading.declarations_at (seen self.now tokens.now)) }
    {
        let mut declarations = Vec::new(alloc);
        let mut rest = tokens;
        while !self.stands(rest, Mark::Init) {
            let (declaration, after) = self.declaration(alloc, rest)?;
            declarations.push(declaration)?;
            rest = after;
        }
        Ok((declarations, rest))
    }

    #[tactic(auto, unfolding(pal_laws::specs::GrammarReading::declaration_at))]
    /// A declaration.
    fn declaration<'a>(&self, alloc: Global, tokens: &'a [Token]) -> Read<'a, Declaration>
        ensures shorter { IfOk result (λ x. length x.1.now < length tokens.now) }
        ensures exact { Gives (λ x. (declaration_of (names_of self.now) x.0, seen self.now x.1.now))
            result (reading.declaration_at (seen self.now tokens.now)) }
    {
        let line = self.line_of(tokens);
        if let Some(rest) = self.behind(tokens, Mark::Var) {
            return self.variable(line, rest);
        }
        if let Some(rest) = self.behind(tokens, Mark::Array) {
            return self.array(alloc, line, rest);
        }
        if let Some(rest) = self.behind(tokens, Mark::Semaphore) {
            return self.semaphore(line, rest);
        }
        if let Some(rest) = self.behind(tokens, Mark::Event) {
            return self.event(line, rest);
        }
        if let Some(rest) = self.behind(tokens, Mark::Buffer) {
            return self.buffer(line, rest);
        }
        if let Some(rest) = self.behind(tokens, Mark::Blackboard) {
            return self.blackboard(line, rest);
        }
        if let Some(rest) = self.behind(tokens, Mark::Port) {
            return self.port(line, rest);
        }
        let rest = self.expect(tokens, Mark::Proc)?;
        self.procedure(alloc, line, rest)
    }

    #[tactic(auto, unfolding(pal_laws::specs::GrammarReading::variable_at))]
    /// Reads the declaration after the word `var` of that line.
    fn variable<'a>(&self, line: u32, tokens: &'a [Token]) -> Read<'a, Declaration>
        ensures shorter { IfOk result (λ x. length x.1.now < length tokens.now) }
        ensures exact { Gives (λ x. (declaration_of (names_of self.now) x.0, seen self.now x.1.now))
            result (reading.variable_at (seen self.now tokens.now)) }
    {
        let (name, rest) = self.name(tokens)?;
        let (value, rest) = self.first_value(rest)?;
        let rest = self.expect(rest, Mark::Semicolon)?;
        let kind = DeclarationKind::Variable(value);
        Ok((Declaration { line, name, kind }, rest))
    }

    #[tactic(auto, unfolding(pal_laws::specs::GrammarReading::first_value_at))]
    /// An equals sign and a number, or nothing.
    fn first_value<'a>(&self, tokens: &'a [Token]) -> Read<'a, Option<Numeral>>
        ensures shorter { IfOk result (λ x. length x.1.now ≤ length tokens.now) }
        ensures exact { Gives (λ x. (option_map integer_of x.0, seen self.now x.1.now)) result
            (reading.first_value_at (seen self.now tokens.now)) }
    {
        match self.behind(tokens, Mark::Equal) {
            Some(rest) => {
                let (value, rest) = self.integer(rest)?;
                Ok((Some(value), rest))
            }
            None => Ok((None, tokens)),
        }
    }

    #[tactic(auto, unfolding(pal_laws::specs::GrammarReading::array_at))]
    /// Reads the declaration after the word `array` of that line.
    fn array<'a>(&self, alloc: Global, line: u32, tokens: &'a [Token]) -> Read<'a, Declaration>
        ensures shorter { IfOk result (λ x. length x.1.now < length tokens.now) }
        ensures exact { Gives (λ x. (declaration_of (names_of self.now) x.0, seen self.now x.1.now))
            result (reading.array_at (seen self.now tokens.now)) }
    {
        let (name, rest) = self.name(tokens)?;
        let rest = self.expect(rest, Mark::BracketOpens)?;
        let (size, rest) = self.number(rest)?;
        let rest = self.expect(rest, Mark::BracketCloses)?;
        let (values, rest) = self.first_values(alloc, rest)?;
        let kind = DeclarationKind::Array { size, values };
        Ok((Declaration { line, name, kind }, rest))
    }

    #[tactic(auto, unfolding(pal_laws::specs::GrammarReading::first_values_at))]
    /// An equals sign and one or more numbers, or nothing, and a semicolon.
    fn first_values<'a>(&self, alloc: Global, tokens: &'a [Token]) -> Read<'a, Vec<Numeral>>
        ensures shorter { IfOk result (λ x. length x.1.now < length tokens.now) }
        ensures exact { Gives (λ x. (map integer_of x.0.items, seen self.now x.1.now)) result
            (reading.first_values_at (seen self.now tokens.now)) }
    {
        match self.behind(tokens, Mark::Equal) {
            Some(rest) => self.integers(alloc, rest),
            None => {
                let rest = self.expect(tokens, Mark::Semicolon)?;
                Ok((Vec::new(alloc), rest))
            }
        }
    }

    #[tactic(auto, unfolding(crate::specs::Reads::integers_read))]
    /// One or more numbers, and a semicolon.
    fn integers<'a>(&self, alloc: Global, tokens: &'a [Token]) -> Read<'a, Vec<Numeral>>
        ensures shorter { IfOk result (λ x. length x.1.now < length tokens.now) }
        ensures exact { Gives (λ x. (map integer_of x.0.items, seen self.now x.1.now)) result
            (integers_read (seen self.now tokens.now)) }
    {
        let (first, rest) = self.integer(tokens)?;
        let (values, rest) = self.more_integers(alloc, first, rest)?;
        let rest = self.expect(rest, Mark::Semicolon)?;
        Ok((values, rest))
    }

    /// This number and all that follow up to a semicolon.
    fn more_integers<'a>(
        &self,
        alloc: Global,
        first: Numeral,
        tokens: &'a [Token],
    ) -> Read<'a, Vec<Numeral>>
        ensures shorter { IfOk result (λ x. length x.1.now ≤ length tokens.now) }
        ensures exact { Gives (λ x. (map integer_of x.0.items, seen self.now x.1.now)) result
            (and_more (integer_of first)
            (up_to (codes ";") reading.integer_at (seen self.now tokens.now))) }
    {
        let mut values = Vec::new(alloc);
        values.push(first)?;
        let mut rest = tokens;
        while !self.stands(rest, Mark::Semicolon) {
            let (value, after) = self.integer(rest)?;
            values.push(value)?;
            rest = after;
        }
        Ok((values, rest))
    }

    #[tactic(auto, unfolding(pal_laws::specs::GrammarReading::semaphore_at))]
    /// Reads the declaration after the word `semaphore` of that line.
    fn semaphore<'a>(&self, line: u32, tokens: &'a [Token]) -> Read<'a, Declaration>
        ensures shorter { IfOk result (λ x. length x.1.now < length tokens.now) }
        ensures exact { Gives (λ x. (declaration_of (names_of self.now) x.0, seen self.now x.1.now))
            result (reading.semaphore_at (seen self.now tokens.now)) }
    {
        let (name, rest) = self.name(tokens)?;
        let (first, rest) = self.number(rest)?;
        let (maximum, rest) = self.number(rest)?;
        let (discipline, rest) = self.discipline(rest)?;
        let rest = self.expect(rest, Mark::Semicolon)?;
        let kind = DeclarationKind::Semaphore {
            first,
            maximum,
            discipline,
        };
        Ok((Declaration { line, name, kind }, rest))
    }

    #[tactic(auto, unfolding(pal_laws::specs::GrammarReading::event_at))]
    /// Reads the declaration after the word `event` of that line.
    fn event<'a>(&self, line: u32, tokens: &'a [Token]) -> Read<'a, Declaration>
        ensures shorter { IfOk result (λ x. length x.1.now < length tokens.now) }
        ensures exact { Gives (λ x. (declaration_of (names_of self.now) x.0, seen self.now x.1.now))
            result (reading.event_at (seen self.now tokens.now)) }
    {
        let (name, rest) = self.name(tokens)?;
        let rest = self.expect(rest, Mark::Semicolon)?;
        let kind = DeclarationKind::Event;
        Ok((Declaration { line, name, kind }, rest))
    }

    #[tactic(auto, unfolding(pal_laws::specs::GrammarReading::buffer_at))]
    /// Reads the declaration after the word `buffer` of that line.
    fn buffer<'a>(&self, line: u32, tokens: &'a [Token]) -> Read<'a, Declaration>
        ensures shorter { IfOk result (λ x. length x.1.now < length tokens.now) }
        ensures exact { Gives (λ x. (declaration_of (names_of self.now) x.0, seen self.now x.1.now))
            result (reading.buffer_at (seen self.now tokens.now)) }
    {
        let (name, rest) = self.name(tokens)?;
        let (words, rest) = self.number(rest)?;
        let (messages, rest) = self.number(rest)?;
        let (discipline, rest) = self.discipline(rest)?;
        let rest = self.expect(rest, Mark::Semicolon)?;
        let kind = DeclarationKind::Buffer {
            words,
            messages,
            discipline,
        };
        Ok((Declaration { line, name, kind }, rest))
    }

    #[tactic(auto, unfolding(pal_laws::specs::GrammarReading::blackboard_at))]
    /// Reads the declaration after the word `blackboard` of that line.
    fn blackboard<'a>(&self, line: u32, tokens: &'a [Token]) -> Read<'a, Declaration>
        ensures shorter { IfOk result (λ x. length x.1.now < length tokens.now) }
        ensures exact { Gives (λ x. (declaration_of (names_of self.now) x.0, seen self.now x.1.now))
            result (reading.blackboard_at (seen self.now tokens.now)) }
    {
        let (name, rest) = self.name(tokens)?;
        let (words, rest) = self.number(rest)?;
        let rest = self.expect(rest, Mark::Semicolon)?;
        let kind = DeclarationKind::Blackboard { words };
        Ok((Declaration { line, name, kind }, rest))
    }

    #[tactic(auto, unfolding(pal_laws::specs::GrammarReading::port_at))]
    /// Reads the declaration after the word `port` of that line.
    fn port<'a>(&self, line: u32, tokens: &'a [Token]) -> Read<'a, Declaration>
        ensures shorter { IfOk result (λ x. length x.1.now < length tokens.now) }
        ensures exact { Gives (λ x. (declaration_of (names_of self.now) x.0, seen self.now x.1.now))
            result (reading.port_at (seen self.now tokens.now)) }
    {
        let (name, rest) = self.name(tokens)?;
        let rest = self.expect(rest, Mark::Semicolon)?;
        let kind = DeclarationKind::Port;
        Ok((Declaration { line, name, kind }, rest))
    }

    #[tactic(auto, unfolding(pal_laws::specs::GrammarReading::procedure_at))]
    /// Reads the declaration after the word `proc` of that line.
    fn procedure<'a>(&self, alloc: Global, line: u32, tokens: &'a [Token]) -> Read<'a, Declaration>
        ensures shorter { IfOk result (λ x. length x.1.now < length tokens.now) }
        ensures exact { Gives (λ x. (declaration_of (names_of self.now) x.0, seen self.now x.1.now))
            result (reading.procedure_at (seen self.now tokens.now)) }
    {
        let (name, rest) = self.name(tokens)?;
        let rest = self.expect(rest, Mark::ParenthesisOpens)?;
        let (parameters, rest) = self.parameters(alloc, rest)?;
        let (body, rest) = self.body(alloc, rest)?;
        let kind = DeclarationKind::Procedure { parameters, body };
        Ok((Declaration { line, name, kind }, rest))
    }

    #[tactic(auto, unfolding(pal_laws::specs::GrammarReading::parameters_at))]
    /// The parameters up to the closing parenthesis, and that parenthesis.
    fn parameters<'a>(&self, alloc: Global, tokens: &'a [Token]) -> Read<'a, Vec<Identifier>>
        ensures shorter { IfOk result (λ x. length x.1.now < length tokens.now) }
        ensures exact { Gives
            (λ x. (map (name_of (names_of self.now)) x.0.items, seen self.now x.1.now)) result
            (reading.parameters_at (seen self.now tokens.now)) }
    {
        if let Some(rest) = self.behind(tokens, Mark::ParenthesisCloses) {
            return Ok((Vec::new(alloc), rest));
        }
        let (names, rest) = self.names(alloc, tokens)?;
        let rest = self.expect(rest, Mark::ParenthesisCloses)?;
        Ok((names, rest))
    }
}
