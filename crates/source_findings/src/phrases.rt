//! What is said of what is wrong with a source, and what is advised. `tests/explanations` holds these
//! texts.

use crate::finding::{Many, Thing, What};
use crate::roles::Role;
use apex_types::{ArgumentKind, ObjectKind, Service};
use finding_lines::{DidYouMean, Shown};
use std::fmt;

/// What is said of an object, a name or an argument of this kind.
fn object_text(kind: ObjectKind) -> &'static str {
    match kind {
        ObjectKind::Semaphore => "a semaphore",
        ObjectKind::Event => "an event",
        ObjectKind::Buffer => "a buffer",
        ObjectKind::Blackboard => "a blackboard",
        ObjectKind::Port => "a port",
        ObjectKind::Process => "a process",
    }
}

fn role_text(role: Role) -> &'static str {
    match role {
        Role::Nothing => "not declared",
        Role::Variable => "a variable",
        Role::Array => "an array",
        Role::Procedure(_) => "a procedure",
        Role::Object(kind) => object_text(kind),
    }
}

fn argument_text(kind: ArgumentKind) -> &'static str {
    match kind {
        ArgumentKind::Word => "an expression",
        ArgumentKind::Array => "an array",
        ArgumentKind::Object(kind) => object_text(kind),
    }
}

fn thing_text(thing: Thing) -> &'static str {
    match thing {
        Thing::Stack => "the stack",
        Thing::Priority => "the priority",
        Thing::Period => "the period",
        Thing::Capacity => "the time capacity",
        Thing::Work => "the number of ticks",
        Thing::First => "the first value",
        Thing::Maximum => "the greatest value",
        Thing::Words => "the number of words of a message",
        Thing::Messages => "the number of messages",
    }
}

/// Who has many of something, and what it is.
fn many_text(many: Many) -> (&'static str, &'static str) {
    let program = "up to here the program";
    match many {
        Many::Locals => ("the body", "locals"),
        Many::Parameters => ("the procedure", "parameters"),
        Many::Values => ("the array", "first values"),
        Many::FrameWords => ("the frame of the procedure", "words"),
        Many::Words => (program, "words of variables and arrays"),
        Many::Semaphores => (program, "semaphores"),
        Many::Events => (program, "events"),
        Many::Buffers => (program, "buffers"),
        Many::Blackboards => (program, "blackboards"),
        Many::Ports => (program, "ports"),
        Many::Procedures => (program, "procedures"),
        Many::Processes => (program, "processes"),
    }
}

/// A number of things, in words for one and for several.
#[derive(Clone, Copy)]
struct Counted {
    number: usize,
    one: &'static str,
    several: &'static str,
}

impl fmt::Display for Counted {
    fn fmt<W: fmt::Write>(&self, f: &mut fmt::Formatter<W>) -> fmt::Result {
        let number = self.number;
        let noun = if number == 1 { self.one } else { self.several };
        write!(f, "{number} {noun}")
    }
}

fn arguments(number: usize) -> Counted {
    Counted {
        number,
        one: "argument",
        several: "arguments",
    }
}

/// What is wrong.
impl fmt::Display for What<'_> {
    fn fmt<W: fmt::Write>(&self, f: &mut fmt::Formatter<W>) -> fmt::Result {
        match *self {
            What::NoAscii(byte) => write!(f, "a byte is {byte}, above 127"),
            What::TooLong => f.write_str("the text has more than 1048576 bytes"),
            What::Unknown { name, .. } => {
                let name = Shown(name.as_bytes());
                write!(f, "`{name}` is not declared")
            }
            What::Again(name) => {
                let name = Shown(name.as_bytes());
                write!(f, "`{name}` is declared before")
            }
            What::Other {
                name,
                found,
                wanted,
            } => other(f, name, found, wanted),
            What::NoName(wanted) => {
                let wanted = role_text(wanted);
                write!(
                    f,
                    "an expression stands where the name of {wanted} is wanted"
                )
            }
            What::Arguments { service, given } => {
                taken(f, service.word(), service.arguments().len(), given)
            }
            What::Targets { service, given } => targets(f, service, given),
            What::Return => f.write_str("a `return` stands outside a procedure"),
            What::Long(name) => {
                let (length, name) = (name.len(), Shown(name.as_bytes()));
                write!(
                    f,
                    "`{name}` has {length} characters, and a name may have 30"
                )
            }
            What::TooLarge => f.write_str("the number is above 9223372036854775807"),
            What::Outside {
                thing,
                number,
                low,
                high,
            } => {
                let thing = thing_text(thing);
                write!(f, "{thing} is {number}, and has to be {low} to {high}")
            }
            What::NoTime {
                thing,
                negative,
                number,
            } => {
                let (thing, sign) = (thing_text(thing), if negative { "-" } else { "" });
                write!(
                    f,
                    "{thing} is {sign}{number}, and has to be -1 or 1 to 1099511627776"
                )
            }
            What::TooMany {
                thing,
                number,
                most,
            } => {
                let (holder, noun) = many_text(thing);
                write!(f, "{holder} has {number} {noun}, and may have {most}")
            }
            What::Frame { words, stack } => {
                write!(
                    f,
                    "the frame of the body has {words} words, and its stack {stack}"
                )
            }
            What::Odd { period, partition } => write!(
                f,
                "the period {period} is no multiple of {partition}, the period of the partition"
            ),
            What::Instructions { number, here } => write!(
                f,
                "the program has {number} instructions, {here} of them in this body, and may have 65536"
            ),
        }
    }
}

/// That a name means something else than what is wanted.
fn other<W: fmt::Write>(
    f: &mut fmt::Formatter<W>,
    name: &str,
    found: Role,
    wanted: Role,
) -> fmt::Result {
    match (found, wanted) {
        (Role::Procedure(takes), Role::Procedure(given)) => taken(f, name, takes, given),
        _ => {
            let name = Shown(name.as_bytes());
            let (found, wanted) = (role_text(found), role_text(wanted));
            write!(f, "`{name}` is {found}, and {wanted} is wanted")
        }
    }
}

/// How many arguments are given and taken.
fn taken<W: fmt::Write>(
    f: &mut fmt::Formatter<W>,
    name: &str,
    takes: usize,
    given: usize,
) -> fmt::Result {
    let (name, given) = (Shown(name.as_bytes()), arguments(given));
    write!(f, "`{name}` is given {given}, and takes {takes}")
}

/// How many targets are given, and how many words a service answers.
fn targets<W: fmt::Write>(
    f: &mut fmt::Formatter<W>,
    service: Service,
    given: usize,
) -> fmt::Result {
    let name = service.word();
    let given = Counted {
        number: given,
        one: "target",
        several: "targets",
    };
    let words = Counted {
        number: usize::from(service.answer_words()),
        one: "word",
        several: "words",
    };
    write!(f, "`{name}` is given {given}, and answers {words}")
}

/// What is advised for what is wrong.
#[derive(Clone, Copy)]
pub struct Advice<'a>(pub What<'a>);

impl fmt::Display for Advice<'_> {
    fn fmt<W: fmt::Write>(&self, f: &mut fmt::Formatter<W>) -> fmt::Result {
        match self.0 {
            What::NoAscii(_) => f.write_str(
                "Write it with ASCII characters alone, also in a comment.",
            ),
            What::TooLong => f.write_str("Write a shorter text."),
            What::Unknown {
                near: Some(near),
                ..
            } => write!(f, "{}", DidYouMean(near)),
            What::Unknown { near: None, .. } => {
                f.write_str("Declare it, or write a name that is declared.")
            }
            What::Again(_) => f.write_str("Give it a name of its own."),
            What::Other {
                found: Role::Procedure(takes),
                wanted: Role::Procedure(_),
                ..
            } => {
                let arguments = arguments(takes);
                write!(f, "Write {arguments}.")
            }
            What::Other { wanted, .. } | What::NoName(wanted) => {
                let wanted = role_text(wanted);
                write!(f, "Write the name of {wanted}.")
            }
            What::Arguments { service, .. } => service_arguments(f, service),
            What::Targets { service, .. } => {
                let names = Counted {
                    number: usize::from(service.answer_words()),
                    one: "name of a variable",
                    several: "names of variables",
                };
                write!(f, "Write {names} behind `->`.")
            }
            What::Return => f.write_str("Leave it out, or move it into a procedure."),
            What::Long(_) => f.write_str("Write a shorter name."),
            What::TooLarge => f.write_str("Write a number up to 9223372036854775807."),
            What::Outside { low, high, .. } => write!(f, "Write a number from {low} to {high}."),
            What::NoTime { .. } => f.write_str("Write -1, or a number from 1 to 1099511627776."),
            What::TooMany {
                thing: Many::FrameWords,
                ..
            } => f.write_str("Give it fewer locals and operands."),
            What::TooMany { most, .. } => write!(f, "Write at most {most} of them."),
            What::Frame { words, .. } => write!(
                f,
                "Give it a stack of {words} words or more, or fewer locals and operands."
            ),
            What::Odd { partition, .. } => write!(f, "Write -1, or a multiple of {partition}."),
            What::Instructions { .. } => f.write_str(
                "Shorten a body, or call a procedure in place of text that stands twice: `mb cost` lists how many instructions each body has.",
            ),
        }
    }
}

/// The arguments that a service takes, in parentheses.
fn service_arguments<W: fmt::Write>(f: &mut fmt::Formatter<W>, service: Service) -> fmt::Result {
    f.write_str("It takes (")?;
    for (index, kind) in service.arguments().iter().enumerate() {
        let comma = if index == 0 { "" } else { ", " };
        let argument = argument_text(*kind);
        write!(f, "{comma}{argument}")?;
    }
    f.write_str(").")
}
