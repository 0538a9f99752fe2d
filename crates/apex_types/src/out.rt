//! The output of a step of the kernel, without its new state.

ghost use Rattle.std.specs.Prelude.{◌≡◌, ◌≤◌, ◌<◌, ◌+◌, ◌++◌, [], ◌∷◌, length, option_map, slice_get, vec_capacity, true, IfOk, IfSome};
ghost use Rattle.apex_types.specs.OutView.{part_of};
ghost use Rattle.apex_types.specs.Output.{action_of, event_of};
ghost use Rattle.apex_types.specs.Room.{HasRoom, IsEmpty};
ghost use Rattle.apex_types.specs.Limits.{MOST_WORDS};
ghost use Rattle.apex_types.specs.declared.limits.TheConstants.{MOST_OUT_WORDS};

use crate::event::LineKind;
use crate::identity::Runner;
use crate::limits::{MOST_ACTIONS, MOST_EVENTS, MOST_OUT_WORDS};
use crate::process::ActionKind;
use std::alloc::{AllocError, Global};
use std::marker::Model;

/// The place of the words of a line or an action among the words of the output.
#[derive(Clone, Copy)]
struct Part {
    from: u32,
    count: u32,
}

/// A line, with the place of the words of its message.
#[derive(Clone, Copy)]
struct Line {
    kind: LineKind,
    part: Part,
}

/// An action, with the place of its words.
#[derive(Clone, Copy)]
struct Act {
    kind: ActionKind,
    part: Part,
}

/// The lines of a step, and its actions. A contract sees the events and the actions with their
/// words. The words are in one list, so that a line and an action are small.
#[derive(Drop)]
pub struct Out {
    lines: Vec<Line>,
    actions: Vec<Act>,
    words: Vec<i64>,
}

impl Model for Out {
    ghost use Rattle.apex_types.specs.Output.{Output};
    ghost use Rattle.apex_types.specs.OutView.{output_of, HasWords};

    ghost Value = { Output };

    ghost view = { output_of };

    ghost invariant = { HasWords };
}

/// Adds words after the others, and returns their place.
#[inline(always)]
fn add(words: &mut Vec<i64>, message: &[i64]) -> Part
    requires room { length words.old.items + length message.now ≤ MOST_OUT_WORDS }
    requires memory { MOST_OUT_WORDS ≤ vec_capacity words.old }
    ensures items { words.new.items ≡ words.old.items ++ message.now }
    ensures part { result
        ≡ record { from = length words.old.items; count = length message.now } }
    ensures memory { MOST_OUT_WORDS ≤ vec_capacity words.new }
{
    let part = Part {
        from: words.len() as u32,
        count: message.len() as u32,
    };
    // Most lines have no words.
    if !message.is_empty() {
        let _ = words.extend_from_slice(message);
    }
    part
}

/// The words of a part.
fn words_at(words: &[i64], part: Part) -> &[i64]
    requires { part.from + part.count ≤ length words.now }
    ensures { result.now ≡ part_of words.now part }
{
    let from = part.from as usize;
    &words[from..from + part.count as usize]
}

/// Adds a copy of a value where there is memory for it.
fn keep<T: Copy>(list: &mut Vec<T>, value: &T)
    requires { length list.old.items < vec_capacity list.old }
    ensures items { list.new.items ≡ list.old.items ++ value.now ∷ [] }
    ensures memory { vec_capacity list.new ≡ vec_capacity list.old }
{
    list.push_reserved(*value);
}

impl Out {
    /// Without lines or actions, with memory for all that a step may have. `AllocError`: out of
    /// memory.
    pub fn new(alloc: Global) -> Result<Out, AllocError>
        ensures { IfOk result (λ out. IsEmpty out) }
    {
        Ok(Out {
            lines: Vec::with_capacity(alloc, MOST_EVENTS)?,
            actions: Vec::with_capacity(alloc, MOST_ACTIONS)?,
            words: Vec::with_capacity(alloc, MOST_OUT_WORDS)?,
        })
    }

    /// Drops all lines and all actions.
    pub fn clear(&mut self)
        ensures { IsEmpty self.new }
    {
        self.lines.clear();
        self.actions.clear();
        self.words.clear();
    }

    /// Whether there are no lines and no actions.
    pub fn is_empty(&self) -> bool
        ensures { result ≡ true → IsEmpty self.now }
    {
        self.lines.is_empty() && self.actions.is_empty()
    }

    /// Adds a line; `words` are those of its message.
    pub fn tell(&mut self, kind: LineKind, words: &[i64])
        requires room { HasRoom 1 0 self.old }
        requires few { length words.now ≤ MOST_WORDS }
        ensures { self.new
            ≡ record self.old { lines = self.old.lines ++ event_of kind words.now ∷ [] } }
    {
        let part = add(&mut self.words, words);
        keep(&mut self.lines, &Line { kind, part });
    }

    /// Adds an action, with its words.
    pub fn act(&mut self, kind: ActionKind, words: &[i64])
        requires room { HasRoom 0 1 self.old }
        requires few { length words.now ≤ MOST_WORDS }
        ensures { self.new
            ≡ record self.old { actions = self.old.actions ++ action_of kind words.now ∷ [] } }
    {
        let part = add(&mut self.words, words);
        self.actions.push_reserved(Act { kind, part });
    }

    /// Adds the reply to a service call: the code, then the outputs.
    pub fn reply(&mut self, runner: Runner, code: i64, outputs: &[i64])
        requires room { HasRoom 0 1 self.old }
        requires few { length outputs.now < MOST_WORDS }
        ensures { self.new
            ≡ record self.old {
              actions = self.old.actions
                  ++ action_of (ActionKind.Reply runner) (code ∷ outputs.now) ∷ [];
            } }
    {
        let from = self.words.len() as u32;
        self.words.push_reserved(code);
        let outputs = add(&mut self.words, outputs);
        let part = Part {
            from,
            count: 1 + outputs.count,
        };
        self.actions.push_reserved(Act {
            kind: ActionKind::Reply(runner),
            part,
        });
    }

    /// How many lines there are.
    pub fn line_count(&self) -> usize
        ensures { result ≡ length self.now.lines }
    {
        self.lines.len()
    }

    /// How many actions there are.
    pub fn action_count(&self) -> usize
        ensures { result ≡ length self.now.actions }
    {
        self.actions.len()
    }

    /// The line at `place`, from 0, and the words of its message.
    pub fn line(&self, place: usize) -> Option<(&LineKind, &[i64])>
        ensures line { option_map (λ l. event_of l.0.now l.1.now) result
            ≡ slice_get self.now.lines place }
        ensures few { IfSome result (λ l. length l.1.now ≤ MOST_WORDS) }
    {
        let line = self.lines.get(place)?;
        Some((&line.kind, words_at(&self.words, line.part)))
    }

    /// The action at `place`, from 0, and its words.
    pub fn action(&self, place: usize) -> Option<(ActionKind, &[i64])>
        ensures action { option_map (λ a. action_of a.0 a.1.now) result
            ≡ slice_get self.now.actions place }
        ensures few { IfSome result (λ a. length a.1.now ≤ MOST_WORDS) }
    {
        let act = self.actions.get(place)?;
        Some((act.kind, words_at(&self.words, act.part)))
    }
}
