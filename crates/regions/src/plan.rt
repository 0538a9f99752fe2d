//! The memory that a partition is to have.

ghost use Rattle.std.specs.Prelude.{◌<◌, length};

/// The memory that a partition asks for: its initial data, and the words of the stack of each of
/// its runners. It has at least one stack.
#[derive(Drop)]
pub struct MemoryPlan {
    pub initial: Vec<i64>,
    pub stacks: Vec<u16>,
    pub ghost some: { 0 < length stacks.items },
}
