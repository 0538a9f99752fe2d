//! The place of a scalar variable.

/// A word of the partition's data, or a slot of the running body (parameters first, then locals).
#[derive(Clone, Copy)]
pub enum Place {
    Data(u32),
    Slot(u16),
}
