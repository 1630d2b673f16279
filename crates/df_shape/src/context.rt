//! Where a walk stands.
ghost use Rattle.std.specs.Prelude.{◌≡◌, None};
ghost use Rattle.df_shape.specs.declared.part.Part.TheVariants.{Element};
ghost use Rattle.df_shape.specs.Demands.{operand_part, definition_part, update_part, may_be_block};
ghost use Rattle.df_shape.specs.Walks.{Stands, is_own};

use crate::forms::is_array;
use crate::part::Part;
use df_syntax::tree::Sort;
use df_values::name::Name;

/// The part that an expression is, and the array of the recurrence around it.
#[derive(Clone, Copy)]
pub(crate) struct Context {
    /// The part.
    pub part: Part,
    /// The array, where a recurrence is around.
    pub own: Option<Name>,
}

impl Context {
    /// Another part.
    pub fn at(&self, part: Part) -> Context
        ensures { result ≡ record { part = part; own = self.now.own } }
    {
        Context {
            part,
            own: self.own,
        }
    }

    /// An operand, an argument, a test or a value.
    pub fn inside(&self) -> Context
        ensures value { result ≡ record { part = operand_part self.now.part; own = self.now.own } }
        ensures stands { Stands result }
    {
        match &self.part {
            Part::Element { .. } => *self,
            _ => self.at(Part::Inside),
        }
    }

    /// The element of a construct or a fold over this index.
    pub fn element(&self, index: Name) -> Context
        ensures { result ≡ record { part = Element index None; own = self.now.own } }
    {
        self.at(Part::Element { index, own: None })
    }

    /// The right side of a definition of this type inside an expression.
    pub fn defined(&self, sort: Sort) -> Context
        requires { Stands self.now }
        ensures value { result ≡ record { part = definition_part sort self.now.part; own = self.now.own } }
        ensures stands { Stands result }
    {
        if is_array(sort) {
            self.at(Part::Defined)
        } else {
            *self
        }
    }

    /// What stands behind the colon of `name[at : ..]`.
    pub fn updated(&self) -> Context
        ensures value { result ≡ record { part = update_part self.now.part; own = self.now.own } }
        ensures stands { Stands result }
    {
        match &self.part {
            Part::Next { index, own } => self.at(Part::Element {
                index: *index,
                own: Some(*own),
            }),
            _ => self.at(Part::Inside),
        }
    }

    /// Whether this is the array of the recurrence around.
    pub fn is_own(&self, name: &Name) -> bool
        ensures { result ≡ is_own self.now.own name.now }
    {
        match &self.own {
            Some(own) => own == name,
            None => false,
        }
    }

    /// Whether a block may stand here.
    pub fn may_be_block(&self) -> bool
        ensures { result ≡ may_be_block self.now.part }
    {
        match &self.part {
            Part::Whole => true,
            _ => false,
        }
    }
}
