//! The terms of the core language.
use df_values::kinds::{Binary, Unary};
use df_values::values::Value;
use sqlite_items::{Boxed, Items};

/// Wide enough for the distance of any element.
pub type Offset = i128;

/// A term.
#[cycle(term)]
#[derive(Drop)]
pub enum Term {
    /// A number, a truth value or an error value.
    Constant {
        value: Value,
    },
    /// What a definition or an argument stands for, by how many were bound before it.
    Local {
        number: usize,
    },
    /// The index of the block.
    Index,
    /// A scalar from outside the block, by the place of the parameter or block.
    Outer {
        number: usize,
    },
    /// The element at the index and an offset together, of the array of a parameter or block.
    Element {
        array: usize,
        offset: Offset,
    },
    /// In the element of a recurrence, the element before its own.
    Previous,
    /// Operands joined from the left, pair by pair.
    Chain {
        first: Boxed<Term>,
        rest: Items<Step>,
    },
    /// An operand that is negated, inverted or tested.
    Change {
        how: Unary,
        of: Boxed<Term>,
    },
    /// `if`, and each `elseif`, as a branch.
    If {
        branches: Items<Branch>,
        last: Boxed<Term>,
    },
    /// A value behind definitions or arguments.
    Let {
        definitions: Items<Term>,
        value: Boxed<Term>,
    },
    /// Names whose values change from turn to turn, all at once.
    ///
    /// The names are locals behind those that were bound before: the first, and then the others in order. There is always one.
    /// The lists are boxed so that a term is no larger than a chain.
    Loop {
        /// What the first name stands for at first.
        first: Boxed<Term>,
        /// What each other name stands for at first, which sees the names before its own.
        more: Boxed<Items<Term>>,
        /// Whether there is one turn more.
        test: Boxed<Term>,
        /// What some names stand for after a turn. Of two assignments to one name the later one counts.
        next: Boxed<Items<Assignment>>,
        /// What the loop gives when there is no turn more.
        last: Boxed<Term>,
    },
}

/// What joins, and its right operand.
#[cycle(term)]
#[derive(Drop)]
pub struct Step {
    /// What joins.
    pub with: Binary,
    /// The right operand.
    pub operand: Term,
}

/// A value for where a test holds.
#[cycle(term)]
#[derive(Drop)]
pub struct Branch {
    /// What is tested.
    pub test: Term,
    /// The value where the test holds.
    pub value: Term,
}

/// What a name of a loop stands for after a turn.
#[cycle(term)]
#[derive(Drop)]
pub struct Assignment {
    /// The place of the name among those of the loop. One past the last names nothing.
    pub name: usize,
    /// The value, under what the names stood for before the turn.
    pub value: Term,
}
