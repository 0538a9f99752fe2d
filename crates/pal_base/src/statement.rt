//! Reading of statements and blocks. `levels` is how many levels may still be opened.

ghost use Rattle.std.specs.Prelude.{◌<◌, ◌≤◌, length, map, codes, IfOk};
ghost use Rattle.pal_laws.specs.GrammarReading as reading;
ghost use Rattle.pal_base.specs.Reads.{and_more, listed, service_call_read, stmt_read};
ghost use Rattle.pal_base.specs.Seen.{seen, names_of, Gives, IsLeft};
ghost use Rattle.pal_base.specs.View.{name_of, kind_of, stmt_of, block_of, body_of};

use crate::mark::Mark;
use crate::source::{Misfit, Read, ReadError, Source};
use crate::syntax::{Body, Identifier, Stmt, StmtKind};
use crate::word::Token;
use apex_types::Service;
use apex_types::limits::MOST_LEVELS;
use std::alloc::Global;

/// The number of levels that may be opened in a body, which opens the first.
const LEVELS_IN_BODY: u32 = MOST_LEVELS - 1;

impl Source {
    #[tactic(auto, unfolding(pal_laws::specs::GrammarReading::body_at))]
    /// A body: its locals, then its statements, within braces.
    pub fn body<'a>(&self, alloc: Global, tokens: &'a [Token]) -> Read<'a, Body>
        ensures shorter { IfOk result (λ x. length x.1.now < length tokens.now) }
        ensures exact { Gives (λ x. (body_of (names_of self.now) x.0, seen self.now x.1.now)) result
            (reading.body_at (seen self.now tokens.now)) }
    {
        let line = self.line_of(tokens);
        let rest = self.expect(tokens, Mark::BraceOpens)?;
        let (locals, rest) = self.locals(alloc, rest)?;
        let (statements, rest) = self.statements(alloc, LEVELS_IN_BODY, rest)?;
        let body = Body {
            line,
            locals,
            statements,
        };
        Ok((body, rest))
    }

    /// The declarations of locals at the front.
    fn locals<'a>(&self, alloc: Global, tokens: &'a [Token]) -> Read<'a, Vec<Identifier>>
        ensures shorter { IfOk result (λ x. length x.1.now ≤ length tokens.now) }
        ensures exact { Gives
            (λ x. (map (name_of (names_of self.now)) x.0.items, seen self.now x.1.now)) result
            (reading.locals_at (seen self.now tokens.now)) }
    {
        let mut locals = Vec::new(alloc);
        let mut rest = tokens;
        while let Some(behind) = self.behind(rest, Mark::Local) {
            let (name, after) = self.local(behind)?;
            locals.push(name)?;
            rest = after;
        }
        Ok((locals, rest))
    }

    #[tactic(auto, unfolding(pal_laws::specs::GrammarReading::local_at))]
    /// The name of a local and its semicolon.
    fn local<'a>(&self, tokens: &'a [Token]) -> Read<'a, Identifier>
        ensures shorter { IfOk result (λ x. length x.1.now < length tokens.now) }
        ensures exact { Gives (λ x. (name_of (names_of self.now) x.0, seen self.now x.1.now)) result
            (reading.local_at (seen self.now tokens.now)) }
    {
        let (name, rest) = self.name(tokens)?;
        let rest = self.expect(rest, Mark::Semicolon)?;
        Ok((name, rest))
    }

    #[tactic(auto, unfolding(pal_laws::specs::GrammarReading::block_read))]
    /// Statements within braces.
    #[cycle(statement)]
    fn block<'a>(&self, alloc: Global, levels: u32, tokens: &'a [Token]) -> Read<'a, Vec<Stmt>>
        ensures shorter { IfOk result (λ x. length x.1.now < length tokens.now) }
        ensures exact { Gives (λ x. (block_of (names_of self.now) x.0.items, seen self.now x.1.now))
            result (reading.block_read levels (seen self.now tokens.now)) }
    {
        if levels == 0 {
            return Err(self.refused(tokens));
        }
        let rest = self.expect(tokens, Mark::BraceOpens)?;
        self.statements(alloc, levels - 1, rest)
    }

    /// The statements up to the closing brace, and that brace.
    #[cycle(statement)]
    fn statements<'a>(&self, alloc: Global, levels: u32, tokens: &'a [Token]) -> Read<'a, Vec<Stmt>>
        ensures shorter { IfOk result (λ x. length x.1.now < length tokens.now) }
        ensures exact { Gives (λ x. (block_of (names_of self.now) x.0.items, seen self.now x.1.now))
            result (reading.statements_at levels (seen self.now tokens.now)) }
    {
        let mut statements = Vec::new(alloc);
        let mut rest = tokens;
        while !self.stands(rest, Mark::BraceCloses) {
            let (statement, after) = self.statement(alloc, levels, rest)?;
            statements.push(statement)?;
            rest = after;
        }
        let rest = self.expect(rest, Mark::BraceCloses)?;
        Ok((statements, rest))
    }

    /// A statement.
    #[cycle(statement)]
    fn statement<'a>(&self, alloc: Global, levels: u32, tokens: &'a [Token]) -> Read<'a, Stmt>
        ensures shorter { IfOk result (λ x. length x.1.now < length tokens.now) }
        ensures exact { Gives (λ x. (stmt_of (names_of self.now) x.0, seen self.now x.1.now)) result
            (stmt_read levels (seen self.now tokens.now)) }
    {
        let line = self.line_of(tokens);
        let (kind, rest) = self.statement_kind(alloc, levels, tokens)?;
        Ok((Stmt { line, kind }, rest))
    }

    #[tactic(auto, unfolding(crate::specs::Reads::stmt_read))]
    #[cycle(statement)]
    fn statement_kind<'a>(
        &self,
        alloc: Global,
        levels: u32,
        tokens: &'a [Token],
    ) -> Read<'a, StmtKind>
        ensures shorter { IfOk result (λ x. length x.1.now < length tokens.now) }
        ensures exact { Gives (λ x. (kind_of (names_of self.now) x.0, seen self.now x.1.now)) result
            (stmt_read levels (seen self.now tokens.now)) }
    {
        if let Some((name, rest)) = self.name_at(tokens) {
            return self.assignment(alloc, name, levels, rest);
        }
        if let Some((service, rest)) = self.service_at(tokens) {
            return self.service_call(alloc, service, levels, rest);
        }
        if let Some(rest) = self.behind(tokens, Mark::Work) {
            return self.work(rest);
        }
        if let Some(rest) = self.behind(tokens, Mark::Return) {
            return self.returned(alloc, levels, rest);
        }
        if levels == 0 {
            return Err(self.no_statement(tokens));
        }
        if let Some(rest) = self.behind(tokens, Mark::If) {
            return self.branch(alloc, levels, rest);
        }
        let rest = self.expect(tokens, Mark::While)?;
        self.repetition(alloc, levels, rest)
    }

    #[tactic(auto, using(crate::proofs::Turns::as_many))]
    /// The error that no statement of the last level begins with the word at the front: those that
    /// have a block open one level more.
    fn no_statement(&self, tokens: &[Token]) -> ReadError
        ensures { IsLeft result (length (seen self.now tokens.now)) }
    {
        ReadError::Refused(Misfit {
            left: tokens.len(),
            is_too_deep: self.stands(tokens, Mark::If) || self.stands(tokens, Mark::While),
        })
    }

    /// Reads the loop after the word `while`.
    #[tactic(auto, unfolding(pal_laws::specs::GrammarReading::while_with))]
    #[cycle(statement)]
    fn repetition<'a>(&self, alloc: Global, levels: u32, tokens: &'a [Token]) -> Read<'a, StmtKind>
        ensures shorter { IfOk result (λ x. length x.1.now < length tokens.now) }
        ensures exact { Gives (λ x. (kind_of (names_of self.now) x.0, seen self.now x.1.now)) result
            (reading.while_with (reading.block_read levels) levels (seen self.now tokens.now)) }
    {
        let (test, rest) = self.expression(alloc, levels, tokens)?;
        let (block, rest) = self.block(alloc, levels, rest)?;
        Ok((StmtKind::While(test, block), rest))
    }

    #[tactic(auto, unfolding(pal_laws::specs::GrammarReading::branch_with))]
    /// Reads the branches after the word `if`.
    #[cycle(statement)]
    fn branch<'a>(&self, alloc: Global, levels: u32, tokens: &'a [Token]) -> Read<'a, StmtKind>
        ensures shorter { IfOk result (λ x. length x.1.now < length tokens.now) }
        ensures exact { Gives (λ x. (kind_of (names_of self.now) x.0, seen self.now x.1.now)) result
            (reading.branch_with (reading.block_read levels) levels (seen self.now tokens.now)) }
    {
        let (test, rest) = self.expression(alloc, levels, tokens)?;
        let (then, rest) = self.block(alloc, levels, rest)?;
        match self.behind(rest, Mark::Else) {
            Some(behind) => {
                let (other, rest) = self.block(alloc, levels, behind)?;
                Ok((StmtKind::IfElse(test, then, other), rest))
            }
            None => Ok((StmtKind::If(test, then), rest)),
        }
    }

    #[tactic(auto, unfolding(pal_laws::specs::GrammarReading::work_at))]
    /// Reads the statement after the word `work`.
    fn work<'a>(&self, tokens: &'a [Token]) -> Read<'a, StmtKind>
        ensures shorter { IfOk result (λ x. length x.1.now < length tokens.now) }
        ensures exact { Gives (λ x. (kind_of (names_of self.now) x.0, seen self.now x.1.now)) result
            (reading.work_at (seen self.now tokens.now)) }
    {
        let (ticks, rest) = self.number(tokens)?;
        let rest = self.expect(rest, Mark::Semicolon)?;
        Ok((StmtKind::Work(ticks), rest))
    }

    #[tactic(auto, unfolding(pal_laws::specs::GrammarReading::return_at))]
    /// Reads the statement after the word `return`.
    fn returned<'a>(&self, alloc: Global, levels: u32, tokens: &'a [Token]) -> Read<'a, StmtKind>
        ensures shorter { IfOk result (λ x. length x.1.now < length tokens.now) }
        ensures exact { Gives (λ x. (kind_of (names_of self.now) x.0, seen self.now x.1.now)) result
            (reading.return_at levels (seen self.now tokens.now)) }
    {
        let (value, rest) = self.expression(alloc, levels, tokens)?;
        let rest = self.expect(rest, Mark::Semicolon)?;
        Ok((StmtKind::Return(value), rest))
    }

    #[tactic(auto, unfolding(pal_laws::specs::GrammarReading::assignment_at))]
    /// Reads the assignment after the name at its front.
    fn assignment<'a>(
        &self,
        alloc: Global,
        name: Identifier,
        levels: u32,
        tokens: &'a [Token],
    ) -> Read<'a, StmtKind>
        ensures shorter { IfOk result (λ x. length x.1.now < length tokens.now) }
        ensures exact { Gives (λ x. (kind_of (names_of self.now) x.0, seen self.now x.1.now)) result
            (reading.assignment_at levels (name_of (names_of self.now) name)
            (seen self.now tokens.now)) }
    {
        if let Some(rest) = self.behind(tokens, Mark::BracketOpens) {
            let (index, rest) = self.nested(alloc, levels, rest)?;
            let rest = self.expect(rest, Mark::BracketCloses)?;
            let rest = self.expect(rest, Mark::Becomes)?;
            let (value, rest) = self.expression(alloc, levels, rest)?;
            let rest = self.expect(rest, Mark::Semicolon)?;
            return Ok((StmtKind::AssignElement(name, index, value), rest));
        }
        let rest = self.expect(tokens, Mark::Becomes)?;
        let (value, rest) = self.expression(alloc, levels, rest)?;
        let rest = self.expect(rest, Mark::Semicolon)?;
        Ok((StmtKind::Assign(name, value), rest))
    }

    #[tactic(auto, unfolding(crate::specs::Reads::service_call_read))]
    /// Reads the request after the name of a service.
    fn service_call<'a>(
        &self,
        alloc: Global,
        service: Service,
        levels: u32,
        tokens: &'a [Token],
    ) -> Read<'a, StmtKind>
        ensures shorter { IfOk result (λ x. length x.1.now < length tokens.now) }
        ensures exact { Gives (λ x. (kind_of (names_of self.now) x.0, seen self.now x.1.now)) result
            (service_call_read levels service (seen self.now tokens.now)) }
    {
        if levels == 0 {
            return Err(self.too_deep(tokens));
        }
        let rest = self.expect(tokens, Mark::ParenthesisOpens)?;
        let (arguments, rest) = self.arguments(alloc, levels, rest)?;
        let (targets, rest) = self.targets(alloc, rest)?;
        let rest = self.expect(rest, Mark::Semicolon)?;
        Ok((StmtKind::CallService(service, arguments, targets), rest))
    }

    #[tactic(auto, unfolding(pal_laws::specs::GrammarReading::targets_at))]
    /// An arrow and the names after it, or nothing.
    fn targets<'a>(&self, alloc: Global, tokens: &'a [Token]) -> Read<'a, Vec<Identifier>>
        ensures shorter { IfOk result (λ x. length x.1.now ≤ length tokens.now) }
        ensures exact { Gives
            (λ x. (map (name_of (names_of self.now)) x.0.items, seen self.now x.1.now)) result
            (reading.targets_at (seen self.now tokens.now)) }
    {
        match self.behind(tokens, Mark::Arrow) {
            Some(rest) => self.names(alloc, rest),
            None => Ok((Vec::new(alloc), tokens)),
        }
    }

    #[tactic(auto, unfolding(pal_laws::specs::GrammarReading::names_at))]
    /// One or more names, with commas between them.
    pub fn names<'a>(&self, alloc: Global, tokens: &'a [Token]) -> Read<'a, Vec<Identifier>>
        ensures shorter { IfOk result (λ x. length x.1.now < length tokens.now) }
        ensures exact { Gives
            (λ x. (map (name_of (names_of self.now)) x.0.items, seen self.now x.1.now)) result
            (reading.names_at (seen self.now tokens.now)) }
    {
        let (first, rest) = self.name(tokens)?;
        self.more_names(alloc, first, rest)
    }

    /// This name and all that follow with commas before them.
    fn more_names<'a>(
        &self,
        alloc: Global,
        first: Identifier,
        tokens: &'a [Token],
    ) -> Read<'a, Vec<Identifier>>
        ensures shorter { IfOk result (λ x. length x.1.now ≤ length tokens.now) }
        ensures exact { Gives
            (λ x. (map (name_of (names_of self.now)) x.0.items, seen self.now x.1.now)) result
            (and_more (name_of (names_of self.now) first)
            (listed (codes ",") reading.name_at (seen self.now tokens.now))) }
    {
        let mut names = Vec::new(alloc);
        names.push(first)?;
        let mut rest = tokens;
        while let Some(behind) = self.behind(rest, Mark::Comma) {
            let (name, after) = self.name(behind)?;
            names.push(name)?;
            rest = after;
        }
        Ok((names, rest))
    }
}
