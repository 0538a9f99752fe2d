//! Routines and services: CALL, RET and SVC.

ghost use Rattle.std.specs.Prelude.{◌≡◌, ◌-◌, ◌+◌, ◌≤◌, ◌++◌, ◌∷◌, [], option_map, pos, replicate, slice_get, slice_set};
ghost use Rattle.apex_types.specs.declared.limits.TheConstants.{MOST_ARGUMENT_WORDS};
ghost use Rattle.machine_meaning.specs.MachineControl.{popped, saved_within};
ghost use Rattle.engine_meaning.specs.Operators.{put_words};
ghost use Rattle.processor.specs.Fitting.{IsFittingRoutine};

use crate::access::{holds, load};
use crate::code::Code;
use crate::context::{Context, stack_word};
use crate::outcome::Outcome;
use crate::registers::Registers;
use crate::turn::Turn;
use apex_types::limits::{MOST_ARGUMENT_WORDS, MOST_INSTRUCTIONS};
use apex_types::{Call, ErrorKind, RoutineRow, Service, array_of, call_of};
use arrayvec::ArrayVec;
use regions::{PartitionMem, Reach};

/// The words that a service takes from the stack.
type Arguments = ArrayVec<i64, MOST_ARGUMENT_WORDS>;

/// Changes the word of a stack at `place`, if there is such a word.
#[tactic(auto, using(std::proofs::lemmas::List::set_past))]
fn set(stack: &mut [i64], place: u32, v: i64)
    ensures { stack.new ≡ slice_set stack.old place v }
{
    if (place as usize) < stack.len() {
        stack[place as usize] = v;
    }
}

/// Sets the words of a stack from `from` up to `to` to 0.
fn clear(stack: &mut [i64], from: u32, to: u32)
    ensures { stack.new ≡ put_words stack.old from (replicate (to - from) (pos 0)) }
{
    for place in from..to {
        set(stack, place, 0);
    }
}

/// Clears the locals of a routine whose frame begins at a place, and saves after its slots the
/// instruction after the call and the caller's frame.
fn save(stack: &mut [i64], frame: u32, routine: &RoutineRow, next: u32, caller: u32)
    requires fits { IsFittingRoutine routine.now }
    requires small { frame ≤ 65_535 }
    ensures { stack.new
        ≡ put_words stack.old (frame + routine.now.parameters)
        (replicate (routine.now.slots - routine.now.parameters) (pos 0) ++ pos next ∷ pos caller
        ∷ []) }
{
    let slots = frame + u32::from(routine.slots);
    clear(stack, frame + u32::from(routine.parameters), slots);
    set(stack, slots, i64::from(next));
    set(stack, slots + 1, i64::from(caller));
}

/// The words of the own stack from `from` up to `to`, at most those that a service may take.
fn popped(memory: &PartitionMem, from: u32, to: u32) -> Arguments
    requires order { from ≤ to }
    requires few { to ≤ from + MOST_ARGUMENT_WORDS }
    ensures { result.items ≡ popped (to - from) memory.now.stack to [] }
{
    let mut words = Arguments::new();
    for place in from..to {
        words.push(stack_word(memory, place));
    }
    words
}

/// The routine with number `x`, from 0; `None` if there is no such routine.
fn routine_at(routines: &[RoutineRow], x: u32) -> Option<&RoutineRow>
    ensures { option_map (λ r. r.now) result ≡ slice_get routines.now x }
{
    routines.get(x as usize)
}

/// A saved word of a stack up to a limit.
fn saved(stack: &[i64], place: usize, limit: u32) -> Option<u32>
    ensures { result ≡ saved_within limit (slice_get stack.now place) }
{
    let word = load(stack, place)?;
    if word < 0 || word > i64::from(limit) {
        return None;
    }
    Some(word as u32)
}

impl Registers {
    ghost use Rattle.std.specs.Prelude.{true, ◌≡◌, ◌+◌, ◌-◌, ◌<◌, ◌≤◌, ◌^◌, []};
    ghost use Rattle.machine_meaning.specs.MachineControl.{executes, enters_at};
    ghost use Rattle.processor.specs.Turns.{after, does, is_done};
    ghost use Rattle.apex_types.specs.declared.instruction.Instr.{Instr};

    /// Enters a routine, the frame of which begins at its arguments.
    fn enter_at(&mut self, reach: &mut Reach, frame: u32, routine: &RoutineRow) -> Turn
        requires next { self.old.pc + 1 < 2 ^ 32 }
        requires fits { IsFittingRoutine routine.now }
        requires small { frame ≤ 65_537 }
        ensures effect { after result self.new reach.new
            ≡ does (enters_at frame routine.now) self.old reach.old }
        ensures done { is_done result ≡ true }
    {
        if reach.stack.len() < (frame + routine.frame) as usize {
            return Turn::Fault(ErrorKind::StackOverflow);
        }
        save(&mut reach.stack, frame, routine, self.pc + 1, self.fp);
        self.pc = routine.entry;
        self.fp = frame;
        self.sp = frame + u32::from(routine.slots) + 2;
        Turn::Goes
    }

    /// CALL: the routine of that number, from 0.
    pub(crate) fn enter(&mut self, reach: &mut Reach, code: &Code, x: u32) -> Turn
        requires next { self.old.pc + 1 < 2 ^ 32 }
        ensures effect { after result self.new reach.new
            ≡ does (executes code.now.routines.items (Instr.Call x)) self.old reach.old }
        ensures done { is_done result ≡ true }
    {
        match routine_at(&code.routines, x) {
            Some(routine) => {
                let parameters = u32::from(routine.parameters);
                if self.operands() < parameters {
                    return Turn::Fault(ErrorKind::IllegalRequest);
                }
                self.enter_at(reach, self.sp - parameters, routine)
            }
            None => Turn::Fault(ErrorKind::IllegalRequest),
        }
    }

    /// RET: returns the top operand to the frame and the instruction that were saved after `x`
    /// words.
    pub(crate) fn give_back(&mut self, reach: &mut Reach, x: u32) -> Turn
        ensures effect { after result self.new reach.new
            ≡ does (executes [] (Instr.Return x)) self.old reach.old }
        ensures done { is_done result ≡ true }
    {
        if self.sp <= self.fp {
            return Turn::Fault(ErrorKind::IllegalRequest);
        }
        let place = self.fp as usize + x as usize;
        match (
            saved(&reach.stack, place, MOST_INSTRUCTIONS),
            saved(&reach.stack, place + 1, self.fp),
        ) {
            (Some(pc), Some(fp)) => {
                let value = self.top(reach);
                set(&mut reach.stack, self.fp, value);
                self.pc = pc;
                self.sp = self.fp + 1;
                self.fp = fp;
                Turn::Goes
            }
            _ => Turn::Fault(ErrorKind::MemoryViolation),
        }
    }
}

impl Context {
    ghost use Rattle.std.specs.Prelude.{◌≡◌, ◌+◌, ◌-◌, ◌<◌, ◌≤◌, ◌^◌, []};
    ghost use Rattle.machine_meaning.specs.MachineControl.{executes, arguments, calls};
    ghost use Rattle.processor.specs.Views.{control_of, outcome_of, IsChanged};
    ghost use Rattle.apex_types.specs.declared.instruction.Instr.{Instr};
    ghost use Rattle.apex_types.specs.ServiceShape.{argument_words};
    ghost use Rattle.apex_types.specs.ServiceCalls.{call_of};

    /// The call whose arguments are this number of operands on top.
    #[tactic(auto, using(crate::proofs::Arguments::few))]
    fn called(&self, memory: &PartitionMem, service: Service, words: u32) -> Call
        requires words { words ≡ argument_words service }
        requires operands { words ≤ self.now.sp }
        ensures { result ≡ call_of service (arguments service (control_of self.now memory.now)) }
    {
        let arguments = popped(memory, self.sp - words, self.sp);
        call_of(service, &arguments)
    }

    /// Calls a service whose arguments, this number of words, are on the stack.
    fn call_service(&mut self, memory: &PartitionMem, service: Service, words: u32) -> Outcome
        requires next { self.old.pc + 1 < 2 ^ 32 }
        requires words { words ≡ argument_words service }
        requires operands { words ≤ self.old.sp }
        ensures control { control_of self.new memory.now
            ≡ (calls service (control_of self.old memory.now) memory.now.words).control }
        ensures memory { IsChanged (calls service (control_of self.old memory.now) memory.now.words)
            memory.now memory.now }
        ensures outcome { result
            ≡ outcome_of (calls service (control_of self.old memory.now) memory.now.words).asks }
    {
        let call = self.called(memory, service, words);
        if !holds(memory, array_of(call)) {
            return Outcome::Fault(ErrorKind::MemoryViolation);
        }
        let sp = self.sp - words;
        let awaits = service.answer_words();
        if memory.stack_len() < sp as usize + usize::from(awaits) {
            return Outcome::Fault(ErrorKind::StackOverflow);
        }
        self.pc += 1;
        self.spent = 0;
        self.sp = sp;
        self.awaits = awaits;
        Outcome::Call(call)
    }

    /// SVC: the service of that number.
    pub(crate) fn call_numbered(&mut self, memory: &PartitionMem, x: u32) -> Outcome
        requires next { self.old.pc + 1 < 2 ^ 32 }
        ensures control { control_of self.new memory.now
            ≡ (executes [] (Instr.Service x) (control_of self.old memory.now)
            memory.now.words).control }
        ensures memory { IsChanged
            (executes [] (Instr.Service x) (control_of self.old memory.now) memory.now.words)
            memory.now memory.now }
        ensures outcome { result
            ≡ outcome_of
            (executes [] (Instr.Service x) (control_of self.old memory.now)
            memory.now.words).asks }
    {
        match Service::from_number(x) {
            Some(service) => {
                let words = service.argument_words();
                if self.operands() < words {
                    return Outcome::Fault(ErrorKind::IllegalRequest);
                }
                self.call_service(memory, service, words)
            }
            None => Outcome::Fault(ErrorKind::IllegalRequest),
        }
    }
}
