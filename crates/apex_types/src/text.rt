//! The text of a trace.

ghost use Rattle.std.specs.Prelude.{◌≡◌, ℕ, ◌+◌, ◌-◌, ◌*◌, ◌/◌, ◌%◌, ◌^◌, ◌<◌, ◌≤◌, [], ◌∷◌, ◌++◌, codes, length, take, IfOk, IsTrue, OnErr, OnOk, ◌↔◌};
ghost use Rattle.std.specs.Fmt.{decimal, signed_decimal};
ghost use Rattle.std.specs.Io.KnownBytes.{Appends};
ghost use Rattle.apex_types.specs.Line.{space};
ghost use Rattle.apex_types.specs.CodeWords.{return_code_number, state_word};
ghost use Rattle.apex_types.specs.Line.{culprit_text, kind_text, line_of, partition_text, subject_text, text_of, thirteen_digits, words_text};
ghost use Rattle.apex_types.specs.Stamps.{with_last_digits};
ghost use Rattle.apex_types.specs.Written.{IsWritten, line_text};
ghost use Rattle.apex_types.specs.Line.{TakesBeginning};
ghost use Rattle.apex_types.specs.Output.{event_of};
ghost use Rattle.apex_types.specs.declared.event.EventKind.TheVariants as event;
ghost use Rattle.apex_types.specs.Limits.{MOST_NAME_BYTES, MOST_WORDS};
ghost use Rattle.apex_types.specs.declared.limits.TheConstants.{MOST_KIND_BYTES, MOST_LINE_BYTES, MOST_STEP_BYTES, MOST_WORD_BYTES};

use crate::codes::{ErrorKind, ProcessState, Response, ReturnCode};
use crate::event::{Event, LineKind, Subject};
use crate::identity::Ticks;
use crate::limits::{MOST_LINE_BYTES, MOST_NAME_BYTES, MOST_STEP_BYTES};
use crate::log::EventLog;
use crate::name::Name;
use crate::service::Service;
use crate::sink::{Sink, SinkFault, put_all};
use std::alloc::{AllocError, Global};
use std::marker::Model;

/// The bytes of the lines of a step, in memory that is taken once. A contract sees the bytes.
#[derive(Drop)]
pub struct StepText {
    /// The bytes that the lines of a step may have. Those after the first `len` mean nothing.
    bytes: Vec<u8>,
    len: usize,
}

impl Model for StepText {
    ghost use Rattle.std.specs.Prelude.{ℕ, List, take};
    ghost use Rattle.apex_types.specs.StepBytes.{AreStepBytes};

    ghost Value = { List ℕ };

    ghost view = { λ t. take t.len t.bytes.items };

    ghost invariant = { λ t. AreStepBytes t.len t.bytes.items };
}

impl StepText {
    /// No bytes, with memory for the lines of a step. `AllocError`: out of memory.
    fn new(alloc: Global) -> Result<StepText, AllocError>
        ensures { IfOk result (λ text. text ≡ []) }
    {
        let bytes = Vec::from_elem(alloc, 0, MOST_STEP_BYTES)?;
        Ok(StepText { bytes, len: 0 })
    }

    /// The bytes.
    pub fn as_slice(&self) -> &[u8]
        ensures { result.now ≡ self.now }
    {
        &self.bytes[..self.len]
    }

    /// Whether there are none.
    fn is_empty(&self) -> bool
        ensures { IsTrue result ↔ (self.now ≡ []) }
    {
        self.as_slice().is_empty()
    }

    /// Drops all bytes.
    fn clear(&mut self)
        ensures { self.new ≡ [] }
    {
        self.len = 0;
    }

    /// Appends the line of an event.
    fn push_line(
        &mut self,
        digits: &[u8; 13],
        partition: &Option<Name>,
        kind: &LineKind,
        words: &[i64],
    )
        requires room { length self.old + MOST_LINE_BYTES ≤ MOST_STEP_BYTES }
        requires few { length words.now ≤ MOST_WORDS }
        ensures items { self.new
            ≡ self.old
            ++ line_text digits.now partition.now (event_of kind.now words.now) }
        ensures room { length self.new ≤ length self.old + MOST_LINE_BYTES }
    {
        self.len = put_line(&mut self.bytes, self.len, digits, partition, kind, words);
    }
}

/// A tick with its digits, which the lines of this tick share. A contract sees it as the tick.
#[derive(Drop)]
struct Stamp {
    tick: Ticks,
    /// The first tick of its thousand.
    from: u64,
    digits: [u8; 13],
}

impl Model for Stamp {
    ghost use Rattle.apex_types.specs.Stamps.{IsStamp};
    ghost use Rattle.apex_types.specs.declared.identity.Ticks.{Ticks as Tick};

    ghost Value = { Tick };

    ghost view = { λ s. s.tick };

    ghost invariant = { IsStamp };
}

impl Stamp {
    fn new(tick: Ticks) -> Stamp
        ensures { result ≡ tick }
    {
        Stamp {
            tick,
            from: tick.0 - tick.0 % 1_000,
            digits: digits(tick.0),
        }
    }

    fn digits(&self) -> &[u8; 13]
        ensures { result.now ≡ thirteen_digits self.now.0 }
    {
        &self.digits
    }

    /// Changes the stamp to another tick. Most ticks are of the same thousand as the one before,
    /// and share its first ten digits.
    #[tactic(auto, using(crate::proofs::Digits::same_from))]
    fn renew(&mut self, tick: Ticks)
        ensures { self.new ≡ tick }
    {
        if self.tick.0 == tick.0 {
            return;
        }
        if self.from <= tick.0 && tick.0 - self.from < 1_000 {
            put_last_digits(&mut self.digits, (tick.0 - self.from) as u32);
            self.tick = tick;
        } else {
            *self = Stamp::new(tick);
        }
    }
}

/// Writes the line of an event. Fails only if the sink fails; then a prefix of the line is out.
pub fn write_event<S: Sink>(event: &Event, sink: &mut S) -> Result<(), SinkFault>
    requires { S.failures sink.old < 2 ^ 64 - 1 }
    ensures ok { OnOk result (Appends (S.taken sink.old) (S.taken sink.new) (line_of event.now)) }
    ensures quiet { OnOk result (S.failures sink.new ≡ S.failures sink.old) }
    ensures failed { OnErr result (S.failures sink.new ≡ S.failures sink.old + 1) }
    ensures beginning { OnErr result
        (TakesBeginning (S.taken sink.old) (S.taken sink.new) (line_of event.now)) }
{
    let stamp = Stamp::new(event.tick);
    let (kind, words) = (event.kind.line(), event.kind.words());
    let mut line = [0; MOST_LINE_BYTES];
    let end = put_line(&mut line, 0, stamp.digits(), &event.partition, &kind, words);
    put_all(sink, &line[..end])
}

/// The lines of a step until they are written. An event becomes its line directly; the digits of
/// the last tick are kept for the next lines.
#[derive(Drop)]
pub struct TraceBuffer {
    pub text: StepText,
    stamp: Stamp,
}

impl TraceBuffer {
    /// A buffer without lines, with memory for those of a step. `AllocError`: out of memory.
    pub fn new(alloc: Global) -> Result<TraceBuffer, AllocError>
        ensures { IfOk result (λ trace. trace.text ≡ []) }
    {
        Ok(TraceBuffer {
            text: StepText::new(alloc)?,
            stamp: Stamp::new(Ticks(0)),
        })
    }

    /// Drops all lines.
    pub fn clear(&mut self)
        ensures { self.new.text ≡ [] }
    {
        self.text.clear();
    }

    /// Writes the lines; then none are left. Fails only if the sink fails; then a prefix of their
    /// text is out.
    pub fn write_events<S: Sink>(&mut self, sink: &mut S) -> Result<(), SinkFault>
        requires { S.failures sink.old < 2 ^ 64 - 1 }
        ensures ok { OnOk result
            (Appends (S.taken sink.old) (S.taken sink.new) self.old.text) }
        ensures empty { OnOk result (self.new.text ≡ []) }
        ensures quiet { OnOk result (S.failures sink.new ≡ S.failures sink.old) }
        ensures failed { OnErr result (S.failures sink.new ≡ S.failures sink.old + 1) }
        ensures beginning { OnErr result
            (TakesBeginning (S.taken sink.old) (S.taken sink.new) self.old.text) }
    {
        put_all(sink, self.text.as_slice())?;
        self.text.clear();
        Ok(())
    }
}

impl EventLog for TraceBuffer {
    ghost use Rattle.std.proofs.Common.{refl};
    ghost use Rattle.apex_types.specs.Line.{text_of};
    ghost use Rattle.apex_types.specs.Lines.{lines_left, no_text, text_of_both, whole_room};

    ghost Piece = { ℕ };

    ghost held = { λ log. log.text };

    ghost pieces = { text_of };

    ghost room = { λ log. lines_left log.text };

    ghost none = { refl };

    ghost more = { text_of_both };

    ghost silent = { no_text };

    ghost empty = { λ log h. whole_room log.text h };

    fn tell(&mut self, tick: Ticks, partition: &Option<Name>, kind: &LineKind, words: &[i64]) {
        self.stamp.renew(tick);
        self.text
            .push_line(self.stamp.digits(), partition, kind, words);
    }

    fn is_empty(&self) -> bool {
        self.text.is_empty()
    }
}

/// Writes the line of an event after the first `at` bytes; returns the place after it.
fn put_line(
    line: &mut [u8],
    at: usize,
    digits: &[u8; 13],
    partition: &Option<Name>,
    kind: &LineKind,
    words: &[i64],
) -> usize
    requires room { at + MOST_LINE_BYTES ≤ length line.old }
    requires few { length words.now ≤ MOST_WORDS }
    ensures { IsWritten line.old at line.new result
        (line_text digits.now partition.now (event_of kind.now words.now)) MOST_LINE_BYTES }
{
    let at = put(line, at, digits);
    let at = put_text(line, at, " ");
    let at = put_partition(line, at, partition);
    let at = put_text(line, at, " ");
    let at = put_kind(line, at, kind, words);
    put_text(line, at, "\n")
}

/// Writes a piece after the first `at` bytes; returns the place after it.
fn put(line: &mut [u8], at: usize, piece: &[u8]) -> usize
    requires { at + length piece.now ≤ length line.old }
    ensures { IsWritten line.old at line.new result piece.now (length piece.now) }
{
    let end = at + piece.len();
    line[at..end].copy_from_slice(piece);
    end
}

fn put_text(line: &mut [u8], at: usize, text: &str) -> usize
    requires { at + length text.now ≤ length line.old }
    ensures { IsWritten line.old at line.new result text.now (length text.now) }
{
    put(line, at, text.as_bytes())
}

/// Writes a name. The same number of bytes is copied for each name, and by way of a copy here, so
/// that they need no loop; what comes next is written over those after its text.
#[inline(always)]
fn put_name(line: &mut [u8], at: usize, name: &Name) -> usize
    requires { at + MOST_NAME_BYTES ≤ length line.old }
    ensures { IsWritten line.old at line.new result name.now MOST_NAME_BYTES }
{
    let bytes = *name.stored();
    line[at..at + MOST_NAME_BYTES].copy_from_slice(&bytes);
    at + name.len()
}

/// Changes the last three digits to those of a number below 1,000.
fn put_last_digits(digits: &mut [u8; 13], number: u32)
    requires { number < 1_000 }
    ensures { digits.new ≡ with_last_digits digits.old number }
{
    digits[10] = b'0' + (number / 100) as u8;
    digits[11] = b'0' + (number / 10 % 10) as u8;
    digits[12] = b'0' + (number % 10) as u8;
}

fn digit(number: u64, unit: u64) -> u8
    requires { 0 < unit }
    ensures { result ≡ 48 + number / unit % 10 }
{
    b'0' + (number / unit % 10) as u8
}

fn digits(number: u64) -> [u8; 13]
    ensures { result ≡ thirteen_digits number }
{
    [
        digit(number, 1_000_000_000_000),
        digit(number, 100_000_000_000),
        digit(number, 10_000_000_000),
        digit(number, 1_000_000_000),
        digit(number, 100_000_000),
        digit(number, 10_000_000),
        digit(number, 1_000_000),
        digit(number, 100_000),
        digit(number, 10_000),
        digit(number, 1_000),
        digit(number, 100),
        digit(number, 10),
        digit(number, 1),
    ]
}

fn put_partition(line: &mut [u8], at: usize, partition: &Option<Name>) -> usize
    requires { at + MOST_NAME_BYTES ≤ length line.old }
    ensures { IsWritten line.old at line.new result (partition_text partition.now)
        MOST_NAME_BYTES }
{
    match partition {
        Some(name) => put_name(line, at, name),
        None => put_text(line, at, "-"),
    }
}

fn put_subject(line: &mut [u8], at: usize, who: &Subject) -> usize
    requires { at + MOST_NAME_BYTES ≤ length line.old }
    ensures { IsWritten line.old at line.new result (subject_text who.now) MOST_NAME_BYTES }
{
    match who {
        Subject::Init => put_text(line, at, "INIT"),
        Subject::Handler => put_text(line, at, "HANDLER"),
        Subject::Process(name) => put_name(line, at, name),
    }
}

fn put_culprit(line: &mut [u8], at: usize, who: &Option<Subject>) -> usize
    requires { at + MOST_NAME_BYTES ≤ length line.old }
    ensures { IsWritten line.old at line.new result (culprit_text who.now) MOST_NAME_BYTES }
{
    match who {
        Some(who) => put_subject(line, at, who),
        None => put_text(line, at, "-"),
    }
}

fn put_word(line: &mut [u8], at: usize, word: i64) -> usize
    requires { at + MOST_WORD_BYTES ≤ length line.old }
    ensures { IsWritten line.old at line.new result (space ∷ signed_decimal word) MOST_WORD_BYTES }
{
    let mut buffer = itoa::Buffer::new();
    let at = put_text(line, at, " ");
    put_text(line, at, buffer.format(word))
}

fn put_words(line: &mut [u8], at: usize, words: &[i64]) -> usize
    requires { at + MOST_WORD_BYTES * length words.now ≤ length line.old }
    ensures { IsWritten line.old at line.new result (words_text words.now)
        (MOST_WORD_BYTES * length words.now) }
{
    let mut end = at;
    for word in words {
        end = put_word(line, end, *word);
    }
    end
}

/// Writes the name of a port or channel, and the words of its message.
fn put_message(line: &mut [u8], at: usize, name: &Name, words: &[i64]) -> usize
    requires { at + MOST_NAME_BYTES + MOST_WORD_BYTES * length words.now ≤ length line.old }
    ensures { IsWritten line.old at line.new result (name.now ++ words_text words.now)
        (MOST_NAME_BYTES + MOST_WORD_BYTES * length words.now) }
{
    let at = put_name(line, at, name);
    put_words(line, at, words)
}

/// Writes a space and the word of a state. The length of each word is known where it is copied.
fn put_state(line: &mut [u8], at: usize, state: ProcessState) -> usize
    requires { at + 8 ≤ length line.old }
    ensures { IsWritten line.old at line.new result (codes " " ++ state_word state) 8 }
{
    match state {
        ProcessState::Dormant => put_text(line, at, " DORMANT"),
        ProcessState::Ready => put_text(line, at, " READY"),
        ProcessState::Running => put_text(line, at, " RUNNING"),
        ProcessState::Waiting => put_text(line, at, " WAITING"),
    }
}

/// Writes a space and the digit of a return code.
#[tactic(auto, using(crate::proofs::Digits::code_digit))]
fn put_code(line: &mut [u8], at: usize, code: ReturnCode) -> usize
    requires { at + 2 ≤ length line.old }
    ensures { IsWritten line.old at line.new result
        (codes " " ++ decimal (return_code_number code)) 2 }
{
    put(line, at, &[b' ', b'0' + code.number()])
}

fn put_return(
    line: &mut [u8],
    at: usize,
    who: &Subject,
    service: Service,
    code: ReturnCode,
) -> usize
    requires { at + 70 + MOST_NAME_BYTES ≤ length line.old }
    ensures { IsWritten line.old at line.new result
        (kind_text (event.Return who.now service code)) (70 + MOST_NAME_BYTES) }
{
    let at = put_text(line, at, "RET ");
    let at = put_subject(line, at, who);
    let at = put_text(line, at, " ");
    let at = put_text(line, at, service.word());
    put_code(line, at, code)
}

fn put_error(
    line: &mut [u8],
    at: usize,
    error: ErrorKind,
    who: &Option<Subject>,
    response: Response,
) -> usize
    requires { at + 70 + MOST_NAME_BYTES ≤ length line.old }
    ensures { IsWritten line.old at line.new result
        (kind_text (event.Error error who.now response)) (70 + MOST_NAME_BYTES) }
{
    let at = put_text(line, at, "HM ");
    let at = put_text(line, at, error.word());
    let at = put_text(line, at, " ");
    let at = put_culprit(line, at, who);
    let at = put_text(line, at, " ");
    let at = put_text(line, at, response.level().word());
    let at = put_text(line, at, " ");
    put_text(line, at, response.action_word())
}

fn put_kind(line: &mut [u8], at: usize, kind: &LineKind, words: &[i64]) -> usize
    requires room { at + MOST_KIND_BYTES + MOST_WORD_BYTES * MOST_WORDS ≤ length line.old }
    requires few { length words.now ≤ MOST_WORDS }
    ensures { IsWritten line.old at line.new result (kind_text (event_of kind.now words.now))
        (MOST_KIND_BYTES + MOST_WORD_BYTES * MOST_WORDS) }
{
    match kind {
        LineKind::State(who, state) => {
            let at = put_text(line, at, "STATE ");
            let at = put_subject(line, at, who);
            put_state(line, at, *state)
        }
        LineKind::Return(who, service, code) => put_return(line, at, who, *service, *code),
        LineKind::Mode(mode) => {
            let at = put_text(line, at, "MODE ");
            put_text(line, at, mode.word())
        }
        LineKind::Error(error, who, response) => put_error(line, at, *error, who, *response),
        LineKind::Report(who) => {
            let at = put_text(line, at, "REPORT ");
            let at = put_subject(line, at, who);
            put_words(line, at, words)
        }
        LineKind::Move(port) => {
            let at = put_text(line, at, "MOVE ");
            put_message(line, at, port, words)
        }
        LineKind::Arrive(port) => {
            let at = put_text(line, at, "ARRIVE ");
            put_message(line, at, port, words)
        }
        LineKind::Lost(port) => {
            let at = put_text(line, at, "LOST ");
            put_message(line, at, port, words)
        }
        LineKind::Out(channel) => {
            let at = put_text(line, at, "OUT ");
            put_message(line, at, channel, words)
        }
    }
}
