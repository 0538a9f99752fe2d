//! The context of a service call, without its arguments.

use apex_types::{ArrayPlace, Mode, Moment, Runner};

/// A call of a service: its caller, its tick, and the mode of the partition.
#[derive(Clone, Copy)]
pub struct Request {
    pub caller: Runner,
    pub moment: Moment,
    pub mode: Mode,
}

/// What a call passes: its array, and how many words of it are the message. The words go
/// separately, since a value with a reference to them would cost each call a copy of them.
#[derive(Clone, Copy)]
pub struct Handed {
    pub array: ArrayPlace,
    pub length: i64,
}
