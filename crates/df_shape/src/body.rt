//! The body of the main function: a list of results, or one `let` whose body is such a body.
ghost use Rattle.std.specs.Prelude.{◌≡◌};
ghost use Rattle.df_shape.specs.Demands.{demands_of};
ghost use Rattle.df_shape.specs.Sources.{body_of, body_demands, body_definitions, with_arrays, whole};
ghost use Rattle.df_shape.specs.Bodies.{main_around, bodies, body_looks};
ghost use Rattle.df_shape.specs.Walked.{Walked, Kept, Tried};

use crate::answers::ShapeAnswer;
use crate::context::Context;
use crate::forms::{is_array, is_let};
use crate::part::Part;
use crate::walk::Walk;
use df_names::NameMap;
use df_syntax::tree::{Definition, Expr, Node};
use df_values::values::Integer;

/// What the names of the main function stand for, beside its arrays.
#[derive(Clone, Copy)]
pub(crate) struct Main<'a> {
    /// The numbers of the constants.
    pub numbers: &'a NameMap<Integer>,
    /// The functions that may be called.
    pub callable: &'a NameMap<()>,
    /// The functions that give an array.
    pub gives: &'a NameMap<()>,
}

impl Main<'_> {
    /// A whole result, or the whole right side of a definition.
    fn ask_whole(&self, expr: &Expr, arrays: &NameMap<()>) -> Result<(), ShapeAnswer>
        ensures { Walked (demands_of expr.now (whole (main_around self.now arrays.now))) result }
    {
        let walk = Walk {
            numbers: self.numbers,
            arrays,
            callable: self.callable,
            gives: self.gives,
        };
        walk.ask_all(
            expr,
            &Context {
                part: Part::Whole,
                own: None,
            },
        )
    }

    /// The definitions of a body, each of which may name the arrays before it.
    fn ask_definitions(
        &self,
        definitions: &[Definition],
        arrays: &mut NameMap<()>,
    ) -> Result<(), ShapeAnswer>
        ensures { Tried (body_definitions (main_around self.now arrays.old) (body_looks definitions.now)) (λ _. main_around self.now arrays.new ≡ with_arrays (main_around self.now arrays.old) (body_looks definitions.now)) result }
    {
        for definition in definitions {
            self.ask_whole(&definition.value, arrays)?;
            if is_array(definition.sort) {
                arrays.bind(definition.name.name, ())?;
            }
        }
        Ok(())
    }

    /// An expression as a body.
    #[cycle(body)]
    fn ask_body(&self, expr: &Expr, arrays: &mut NameMap<()>) -> Result<(), ShapeAnswer>
        ensures { Kept (body_of expr.now (main_around self.now arrays.old)) result }
    {
        match expr.node.get() {
            Node::Parens { of } => {
                if is_let(expr) {
                    self.ask_body(of, arrays)
                } else {
                    self.ask_whole(expr, arrays)
                }
            }
            Node::Let {
                definitions,
                values,
            } => {
                self.ask_definitions(definitions.as_slice(), arrays)?;
                self.ask_results(values.as_slice(), arrays)
            }
            _ => self.ask_whole(expr, arrays),
        }
    }

    /// Expressions as a body.
    #[cycle(body)]
    pub fn ask_results(&self, values: &[Expr], arrays: &mut NameMap<()>) -> Result<(), ShapeAnswer>
        ensures { Kept (body_demands (bodies values.now) (main_around self.now arrays.old)) result }
    {
        if values.len() == 1 {
            return self.ask_body(&values[0], arrays);
        }
        for value in values {
            self.ask_whole(value, arrays)?;
        }
        Ok(())
    }
}
