//! Where an expression stands in a source.
use df_values::name::Name;

/// The part of a source that an expression is.
#[derive(Clone, Copy, Debug)]
pub enum Part {
    /// A whole result of the main function, or the whole right side of one of its definitions.
    Whole,
    /// A part of a scalar expression.
    Inside,
    /// A part of the element of a block.
    Element {
        /// The index of the block.
        index: Name,
        /// Its own array, where it is a recurrence.
        own: Option<Name>,
    },
    /// The right side of a definition of array type inside an expression.
    Defined,
    /// The array of one element with which a recurrence begins.
    First,
    /// The array with one element more in a recurrence.
    Next {
        /// The index of the recurrence.
        index: Name,
        /// Its array.
        own: Name,
    },
}
