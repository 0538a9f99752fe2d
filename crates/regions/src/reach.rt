//! The words that the current runner may touch.

ghost use Rattle.std.specs.Prelude.{◌≤◌, length};

/// The words that the current runner may touch: its partition's data, and its own stack of at most
/// 65,535 words.
#[derive(Drop)]
pub struct Reach {
    pub words: Vec<i64>,
    pub stack: Vec<i64>,
    pub ghost small: { length stack.items ≤ 65_535 },
}
