//! What names stand for while a program is lowered.

/// What a name stands for.
#[derive(Clone, Copy)]
pub enum Standing {
    /// A local, by its number.
    Local(usize),
    /// The index of the block.
    Index,
    /// A scalar from outside the block, by its number.
    Outer(usize),
    /// An array, by its number.
    Elements(usize),
    /// The array of the recurrence itself.
    Own,
}
