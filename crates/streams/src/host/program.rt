//! Runs a program with the words of its process.

ghost use Rattle.std.specs.Prelude.{◌≡◌, ◌≢◌, ◌≤◌, ◌-◌, ◌^◌, ◌<◌, ℕ, codes, max};
ghost use Rattle.streams.specs.States.{TakesLine, seen};

use crate::host::prompt::PromptStream;
use crate::{Stream, WriterStream, tell_line};
use std::alloc::AllocGlobal;
use std::env;
use std::io::{self, BufWriter, ErrorKind};
use std::process::ExitCode;
use std::rt::Env;

/// A program, as far as its words and its streams are known.
pub trait Program {
    /// The greatest exit status that it returns.
    ghost greatest: { ℕ };

    /// Does what the words say, the program's name first, and returns the exit status.
    fn obey<O: Stream, E: Stream>(&mut self, words: &[String], out: &mut O, err: &mut E) -> u8
        requires out { O.failures out.old < 2 ^ 64 - 1 }
        requires err { E.failures err.old < 2 ^ 64 - 1 }
        ensures { result ≤ greatest };
}

/// Does what the words of the process say. Reports `memory` if memory runs out for that.
pub fn run<P: Program>(rt: &HostRuntime, program: &mut P, memory: &str) -> ExitCode {
    ExitCode::from(status(rt, program, memory))
}

/// Does what the words of the process say, and returns the exit status.
fn status<P: Program>(rt: &HostRuntime, program: &mut P, memory: &str) -> u8
    ensures { result ≤ max 2 P.greatest }
{
    let mut err = WriterStream::new(rt.stderr());
    let words = match words(rt) {
        Ok(words) => words,
        Err(error) => return wordless(error.kind(), memory, &mut err),
    };
    // Traces, tables and pictures go out by blocks, and a trace soon.
    let Ok(mut writer) = BufWriter::new(rt.alloc(), rt.stdout()) else {
        return wordless(ErrorKind::OutOfMemory, memory, &mut err);
    };
    let mut out = PromptStream::new(WriterStream::new(&mut writer), rt);
    let status = program.obey(words.as_slice(), &mut out, &mut err);
    // Bytes that were not flushed were not taken, and are not written again.
    let _ = writer.into_parts();
    status
}

fn words(rt: &(impl Env + AllocGlobal)) -> io::Result<Vec<String>> {
    Ok(env::args(rt)?.collect(rt.alloc())?)
}

/// The status if the command line cannot be read: memory runs out, or a word is not UTF-8. Its line
/// goes to `err`; if `err` does not take it, only the status reports the error.
fn wordless<E: Stream>(kind: ErrorKind, memory: &str, err: &mut E) -> u8
    requires { E.failures err.old < 2 ^ 64 - 1 }
    ensures memory { kind ≡ ErrorKind.OutOfMemory
        → (result ≡ 1)
        × TakesLine (seen E.taken E.failures E.is_flushed err.old)
        (seen E.taken E.failures E.is_flushed err.new) memory.now }
    ensures other { kind ≢ ErrorKind.OutOfMemory
        → (result ≡ 2)
        × TakesLine (seen E.taken E.failures E.is_flushed err.old)
        (seen E.taken E.failures E.is_flushed err.new)
        (codes "error: a word of the command line is not UTF-8") }
{
    match kind {
        ErrorKind::OutOfMemory => {
            tell_line(err, memory);
            1
        }
        _ => {
            tell_line(err, "error: a word of the command line is not UTF-8");
            2
        }
    }
}
