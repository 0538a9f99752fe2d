//! The tree of a source text.

ghost use Rattle.std.specs.Prelude.{◌<◌, ◌≤◌, length, map, option_map, IfOk, IfErr, MatchOption, OnOk};
ghost use Rattle.std.specs.Str.{IsAscii};
ghost use Rattle.pal_laws.specs.GrammarReading as reading;
ghost use Rattle.pal_meaning.specs.Grammar.{IsText, IsProgramOf};
ghost use Rattle.pal_base.specs.Answers.{IsRefused};
ghost use Rattle.pal_base.specs.Lined.{IsLineOf};
ghost use Rattle.pal_base.specs.Marks.{mark_text};
ghost use Rattle.pal_base.specs.Parts.{parts_of};
ghost use Rattle.pal_base.specs.Seen.{seen, names_of, Gives};
ghost use Rattle.pal_base.specs.View.{stack_body_of, process_of};
ghost use Rattle.pal_base.specs.WrittenView.{program_of};

use crate::fault::{PalFault, Refusal};
use crate::mark::Mark;
use crate::source::{Read, ReadError, Source};
use crate::syntax::{Declaration, Process, Program, StackBody};
use crate::word::{Token, Words, words_of};
use apex_types::limits::MOST_SOURCE_BYTES;
use std::alloc::Global;

/// The greatest length of a source text, in bytes.
const GREATEST_LENGTH: usize = MOST_SOURCE_BYTES as usize;

/// The tree of a source text.
///
/// # Errors
///
/// 1 if the text is not ASCII or is too long, 2 if it is not in the grammar, 7 if memory ran out.
pub fn parse(alloc: Global, text: &[u8]) -> Result<Program, PalFault>
    ensures tree { IfOk result (λ program. IsProgramOf text.now (program_of program)) }
    ensures refusal { IfErr result (λ fault. IsRefused fault.refusal text.now) }
    ensures line { IfErr result (λ fault. IsLineOf fault.refusal fault.line text.now) }
{
    judge_text(text)?;
    let Words {
        names,
        tokens,
        last_line,
    } = words_of(alloc, text)?;
    let source = Source { names, last_line };
    let parts = match source.program(alloc, tokens.as_slice()) {
        Ok(parts) => parts,
        Err(error) => return Err(source.fault(tokens.as_slice(), error)),
    };
    let Source { names, .. } = source;
    Ok(Program {
        names,
        declarations: parts.declarations,
        init: parts.init,
        handler: parts.handler,
        processes: parts.processes,
    })
}

/// Refuses a text that is no source text, in the line of the first byte that is not ASCII, or else
/// of the first byte too many.
fn judge_text(text: &[u8]) -> Result<(), PalFault>
    ensures text { OnOk result (IsText text.now) }
    ensures refusal { IfErr result (λ fault. IsRefused fault.refusal text.now) }
    ensures line { IfErr result (λ fault. IsLineOf fault.refusal fault.line text.now) }
{
    let refusal = Refusal::Text;
    if let Some(line) = line_beyond_ascii(text) {
        return Err(PalFault { refusal, line });
    }
    if GREATEST_LENGTH < text.len() {
        let (front, _) = text.split_at(GREATEST_LENGTH);
        let line = line_behind(front);
        return Err(PalFault { refusal, line });
    }
    Ok(())
}

/// The line of the first byte that is not ASCII.
fn line_beyond_ascii(text: &[u8]) -> Option<u32>
    ensures { MatchOption result (IsAscii text.now) (λ line. IsAscii text.now → ⊥) }
{
    let mut line = 1u32;
    for byte in text {
        if 128 <= *byte {
            return Some(line);
        }
        if *byte == b'\n' {
            line = line.saturating_add(1);
        }
    }
    None
}

/// The line in which the text after `text` begins.
fn line_behind(text: &[u8]) -> u32 {
    let mut line = 1u32;
    for byte in text {
        if *byte == b'\n' {
            line = line.saturating_add(1);
        }
    }
    line
}

/// The parts of a program that are in its words.
#[derive(Drop)]
pub struct Parts {
    declarations: Vec<Declaration>,
    init: StackBody,
    handler: Option<StackBody>,
    processes: Vec<Process>,
}

impl Source {
    #[tactic(auto, unfolding(pal_laws::specs::GrammarReading::program_at))]
    /// The program that these words spell, all of them.
    pub fn program(&self, alloc: Global, tokens: &[Token]) -> Result<Parts, ReadError>
        ensures exact { Gives (parts_of (names_of self.now)) result
            (reading.program_at (seen self.now tokens.now)) }
    {
        let (declarations, rest) = self.declarations(alloc, tokens)?;
        let (init, rest) = self.stack_body(alloc, Mark::Init, rest)?;
        let (handler, rest) = self.handler(alloc, rest)?;
        let (processes, rest) = self.processes(alloc, rest)?;
        if !rest.is_empty() {
            return Err(self.refused(rest));
        }
        Ok(Parts {
            declarations,
            init,
            handler,
            processes,
        })
    }

    #[tactic(auto, unfolding(pal_laws::specs::GrammarReading::stack_body_at))]
    /// The body of INIT or of the handler, after its word.
    fn stack_body<'a>(&self, alloc: Global, mark: Mark, tokens: &'a [Token]) -> Read<'a, StackBody>
        ensures shorter { IfOk result (λ x. length x.1.now < length tokens.now) }
        ensures exact { Gives (λ x. (stack_body_of (names_of self.now) x.0, seen self.now x.1.now))
            result (reading.stack_body_at (mark_text mark) (seen self.now tokens.now)) }
    {
        let line = self.line_of(tokens);
        let rest = self.expect(tokens, mark)?;
        let rest = self.expect(rest, Mark::Stack)?;
        let (stack, rest) = self.number(rest)?;
        let (body, rest) = self.body(alloc, rest)?;
        Ok((StackBody { line, stack, body }, rest))
    }

    #[tactic(auto, unfolding(pal_laws::specs::GrammarReading::handler_at))]
    /// The handler, if it is there.
    fn handler<'a>(&self, alloc: Global, tokens: &'a [Token]) -> Read<'a, Option<StackBody>>
        ensures shorter { IfOk result (λ x. length x.1.now ≤ length tokens.now) }
        ensures exact { Gives
            (λ x.
            (option_map (stack_body_of (names_of self.now)) x.0, seen self.now x.1.now))
            result (reading.handler_at (seen self.now tokens.now)) }
    {
        if self.behind(tokens, Mark::Handler).is_none() {
            return Ok((None, tokens));
        }
        let (handler, rest) = self.stack_body(alloc, Mark::Handler, tokens)?;
        Ok((Some(handler), rest))
    }

    /// The processes.
    fn processes<'a>(&self, alloc: Global, tokens: &'a [Token]) -> Read<'a, Vec<Process>>
        ensures shorter { IfOk result (λ x. length x.1.now ≤ length tokens.now) }
        ensures exact { Gives
            (λ x. (map (process_of (names_of self.now)) x.0.items, seen self.now x.1.now)) result
            (reading.processes_at (seen self.now tokens.now)) }
    {
        let mut processes = Vec::new(alloc);
        let mut rest = tokens;
        while let Some(behind) = self.behind(rest, Mark::Process) {
            let (process, after) = self.process(alloc, self.line_of(rest), behind)?;
            processes.push(process)?;
            rest = after;
        }
        Ok((processes, rest))
    }

    #[tactic(auto, unfolding(pal_laws::specs::GrammarReading::process_at))]
    /// Reads the process after the word `process` of that line.
    fn process<'a>(&self, alloc: Global, line: u32, tokens: &'a [Token]) -> Read<'a, Process>
        ensures shorter { IfOk result (λ x. length x.1.now < length tokens.now) }
        ensures exact { Gives (λ x. (process_of (names_of self.now) x.0, seen self.now x.1.now))
            result (reading.process_at (seen self.now tokens.now)) }
    {
        let (name, rest) = self.name(tokens)?;
        let rest = self.expect(rest, Mark::Priority)?;
        let (priority, rest) = self.number(rest)?;
        let rest = self.expect(rest, Mark::Period)?;
        let (period, rest) = self.integer(rest)?;
        let rest = self.expect(rest, Mark::Capacity)?;
        let (capacity, rest) = self.integer(rest)?;
        let rest = self.expect(rest, Mark::Stack)?;
        let (stack, rest) = self.number(rest)?;
        let (body, rest) = self.body(alloc, rest)?;
        let process = Process {
            line,
            name,
            priority,
            period,
            capacity,
            stack,
            body,
        };
        Ok((process, rest))
    }
}
