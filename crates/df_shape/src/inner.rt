//! Whole expressions: the rules on a node, and then what is demanded inside it, from left to right.
ghost use Rattle.std.specs.Prelude.{◌≡◌, None};
ghost use Rattle.df_syntax.specs.Demands.{first_refusal};
ghost use Rattle.df_shape.specs.Demands.{own_demands, inner_demands, demands_of, all_of, definitions_demands};
ghost use Rattle.df_shape.specs.Walks.{Stands, around_of, plain, with_looks, looks, link_looks, arm_looks, definition_looks, links_demands, arms_demands, next_of, turns_demands};
ghost use Rattle.df_shape.specs.Walked.{Walked};

use crate::answers::ShapeAnswer;
use crate::context::Context;
use crate::forms::is_array;
use crate::part::Part;
use crate::walk::Walk;
use df_syntax::tree::{Arm, Definition, Expr, Link, Node};

impl Walk<'_> {
    /// All demands on an expression and in it.
    #[cycle(ask)]
    #[tactic(auto, using(crate::proofs::Joined::joined, crate::proofs::Looked::demands_are))]
    pub fn ask_all(&self, expr: &Expr, context: &Context) -> Result<(), ShapeAnswer>
        requires { Stands context.now }
        ensures { Walked (demands_of expr.now (around_of self.now context.now)) result }
    {
        self.ask_own(expr, context)?;
        self.ask_inner(expr, context)
    }

    /// What is demanded inside an expression on whose own node all rules hold.
    #[cycle(ask)]
    #[tactic(auto, using(crate::proofs::Joined::joined))]
    fn ask_inner(&self, expr: &Expr, context: &Context) -> Result<(), ShapeAnswer>
        requires stands { Stands context.now }
        requires holds { first_refusal (own_demands (around_of self.now context.now) expr.now (plain expr.now)) ≡ None }
        ensures { Walked (inner_demands (around_of self.now context.now) (with_looks expr.now)) result }
    {
        let within = context.inside();
        match expr.node.get() {
            Node::Call { arguments, .. } => self.ask_each(arguments.as_slice(), &within),
            Node::Chain { first, rest } => {
                self.ask_all(first, &within)?;
                self.ask_links(rest.as_slice(), &within)
            }
            Node::Compare { left, right, .. } => {
                self.ask_all(left, &within)?;
                self.ask_all(right, &within)
            }
            Node::Negate { of } => self.ask_all(of, &within),
            Node::Invert { of } => self.ask_all(of, &within),
            Node::Parens { of } => self.ask_all(of, context),
            Node::Test { of, .. } => self.ask_all(of, &within),
            Node::TwoPlace { left, right, .. } => {
                self.ask_all(left, &within)?;
                self.ask_all(right, &within)
            }
            Node::If { arms, last } => {
                self.ask_arms(arms.as_slice(), &within)?;
                self.ask_all(last, &within)
            }
            Node::Let {
                definitions,
                values,
            } => {
                self.ask_definitions(definitions.as_slice(), &within)?;
                self.ask_each(values.as_slice(), &within)
            }
            Node::Construct { index, elem, .. } => {
                self.ask_all(elem, &context.element(index.name))
            }
            Node::Fold { index, elem, .. } => self.ask_all(elem, &context.element(index.name)),
            Node::For { .. } => self.ask_turns(expr, context),
            Node::Array { value, .. } => self.ask_all(value, &context.at(Part::Inside)),
            Node::Update { value, .. } => self.ask_all(value, &context.updated()),
            _ => Ok(()),
        }
    }

    /// What is demanded inside a loop around which no other recurrence is; inside another expression nothing.
    #[cycle(ask)]
    #[tactic(auto, using(crate::proofs::Joined::joined))]
    fn ask_turns(&self, expr: &Expr, context: &Context) -> Result<(), ShapeAnswer>
        requires { context.now.own ≡ None }
        ensures { Walked (turns_demands (around_of self.now context.now) (with_looks expr.now)) result }
    {
        match expr.node.get() {
            Node::For {
                definitions,
                assigns,
                ..
            } => {
                let definitions = definitions.as_slice();
                let assigns = assigns.as_slice();
                if definitions.len() != 2 {
                    return Ok(());
                }
                if assigns.len() != 2 {
                    return Ok(());
                }
                let (index, array, next) = (&definitions[0], &definitions[1], &assigns[0]);
                self.ask_all(&array.value, &context.at(Part::First))?;
                self.ask_all(&next.value, &next_of(index, array))
            }
            _ => Ok(()),
        }
    }

    /// Each of these expressions.
    #[cycle(ask)]
    pub fn ask_each(&self, exprs: &[Expr], context: &Context) -> Result<(), ShapeAnswer>
        requires { Stands context.now }
        ensures { Walked (all_of (looks exprs.now) (around_of self.now context.now)) result }
    {
        for expr in exprs {
            self.ask_all(expr, context)?;
        }
        Ok(())
    }

    /// The operands of a chain behind its first one.
    #[cycle(ask)]
    fn ask_links(&self, links: &[Link], context: &Context) -> Result<(), ShapeAnswer>
        requires { Stands context.now }
        ensures { Walked (links_demands (around_of self.now context.now) (link_looks links.now)) result }
    {
        for link in links {
            self.ask_all(&link.operand, context)?;
        }
        Ok(())
    }

    /// The tests and values of arms.
    #[cycle(ask)]
    fn ask_arms(&self, arms: &[Arm], context: &Context) -> Result<(), ShapeAnswer>
        requires { Stands context.now }
        ensures { Walked (arms_demands (around_of self.now context.now) (arm_looks arms.now)) result }
    {
        for arm in arms {
            self.ask_all(&arm.test, context)?;
            self.ask_all(&arm.value, context)?;
        }
        Ok(())
    }

    /// The values of definitions inside an expression.
    #[cycle(ask)]
    fn ask_definitions(
        &self,
        definitions: &[Definition],
        context: &Context,
    ) -> Result<(), ShapeAnswer>
        requires { Stands context.now }
        ensures { Walked (definitions_demands (around_of self.now context.now) (definition_looks definitions.now)) result }
    {
        for definition in definitions {
            self.ask_all(&definition.value, &context.defined(definition.sort))?;
        }
        Ok(())
    }
}

/// The array with one element more, in the recurrence over this index that makes this array.
fn next_of(index: &Definition, array: &Definition) -> Context
    ensures { result ≡ next_of index.now array.now }
{
    let own = array.name.name;
    Context {
        part: Part::Next {
            index: index.name.name,
            own,
        },
        own: if is_array(array.sort) {
            Some(own)
        } else {
            None
        },
    }
}
