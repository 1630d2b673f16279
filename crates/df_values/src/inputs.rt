//! What a program takes: the names, types and ranges of its parameters.
use crate::name::Name;
use crate::values::{Basic, Integer};

/// The range of an array.
#[derive(Clone, Copy, Debug, PartialEq, Eq)]
pub struct Extent {
    /// The lowest index.
    pub lo: Integer,
    /// How many elements there are.
    pub n: u32,
}

/// A parameter of the main function.
#[derive(Clone, Copy, Debug, PartialEq, Eq)]
pub struct Input {
    /// The name.
    pub name: Name,
    /// The type of its value or of its elements.
    pub basic: Basic,
    /// The range of an array; none for a scalar.
    pub extent: Option<Extent>,
}
