//! What the names of a source stand for.
use df_syntax::piped::Outcome;
use df_values::name::Name;
use df_values::values::Integer;

/// What a name of a source stands for where the main function is put into blocks.
#[derive(Clone, Copy, Debug)]
pub enum Standing {
    /// A constant: this number.
    Constant(Integer),
    /// A scalar that is a parameter or a block.
    Scalar(Outcome),
    /// An array that is a parameter or a block, with the name that it has there.
    Array {
        /// The parameter or block.
        outcome: Outcome,
        /// Its name.
        name: Name,
    },
}
