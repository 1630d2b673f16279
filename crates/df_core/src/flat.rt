//! Flat programs.
use crate::terms::Term;
use df_values::inputs::Input;
use df_values::kinds::Op;
use df_values::values::Integer;
use sqlite_items::Items;

/// What makes one array or one scalar.
#[derive(Drop)]
pub enum Body {
    /// The array from `lo` with `n` elements, each the value of `elem` at its index.
    Construct {
        lo: Integer,
        n: u32,
        elem: Term,
    },
    /// The scalar that joins these values from the lowest index to the highest.
    Fold {
        op: Op,
        lo: Integer,
        n: u32,
        elem: Term,
    },
    /// The array that has `first` at `lo - 1` and then, in `n` turns from `lo` on, the value of `elem`.
    Recurrence {
        lo: Integer,
        n: u32,
        first: Term,
        elem: Term,
    },
    /// The scalar that a term gives.
    Scalar {
        term: Term,
    },
}

/// A block.
#[derive(Drop)]
pub struct Block {
    /// What it makes.
    pub body: Body,
    /// Whether it is a result without a name.
    pub is_result: bool,
}

/// A flat program: what stands outside a block is numbered in one list, the parameters first and then the blocks.
#[derive(Drop)]
pub struct Flat {
    /// The parameters in order.
    pub parameters: Items<Input>,
    /// The blocks in order.
    pub blocks: Items<Block>,
    /// The numbers of the results in order.
    pub results: Items<usize>,
}
