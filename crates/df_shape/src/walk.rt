//! What is demanded of expressions: each rule in its order, an outer expression before an inner one.
ghost use Rattle.std.specs.Prelude.{◌≡◌};
ghost use Rattle.df_syntax.specs.declared.form.Form.TheVariants as rule;
ghost use Rattle.df_syntax.specs.SourceForms.{form};
ghost use Rattle.df_shape.specs.declared.answers.ShapeAnswer.TheVariants.{NotPiped};
ghost use Rattle.df_shape.specs.Demands.{demand, gives_array, may_be_block, is_call_or_let, defined_rule, own_demands};
ghost use Rattle.df_shape.specs.Walks.{around_of, plain, is_first, is_next};
ghost use Rattle.df_shape.specs.Walked.{Walked};

use crate::answers::ShapeAnswer;
use crate::context::Context;
use crate::endings::{Ending, ending_of};
use crate::forms::bare;
use crate::part::Part;
use crate::ranges::{ask, ask_range, ask_recurrence};
use crate::subscripts::is_subscript;
use df_io::Place;
use df_names::NameMap;
use df_ranges::lengths::has_first;
use df_syntax::form::Form;
use df_syntax::tree::{Expr, Node};
use df_values::name::Name;
use df_values::values::Integer;

/// What the names around an expression stand for.
#[derive(Clone, Copy)]
pub(crate) struct Walk<'a> {
    /// The numbers of the constants.
    pub numbers: &'a NameMap<Integer>,
    /// The arrays, beside that of a recurrence.
    pub arrays: &'a NameMap<()>,
    /// The functions that may be called.
    pub callable: &'a NameMap<()>,
    /// The functions that give an array.
    pub gives: &'a NameMap<()>,
}

impl Walk<'_> {
    /// Whether the value of an expression is an array.
    fn gives_array(&self, expr: &Expr, context: &Context) -> bool
        ensures { result ≡ gives_array (around_of self.now context.now) expr.now }
    {
        match ending_of(expr) {
            Ending::Array => true,
            Ending::Scalar => false,
            Ending::Name(name) => context.is_own(name) || self.arrays.get(name).is_some(),
            Ending::Call(name) => self.gives.get(name).is_some(),
        }
    }

    /// No array is defined inside an expression, and none by a call or a `let`.
    fn ask_defined(&self, expr: &Expr, context: &Context) -> Result<(), ShapeAnswer>
        ensures { Walked (defined_rule (around_of self.now context.now) context.now.part expr.now) result }
    {
        let refusal = ShapeAnswer::NotPiped(Form::ArrayDefinition, expr.place);
        match &context.part {
            Part::Defined => Err(refusal),
            Part::Whole => {
                let is_array = is_call_or_let(expr) && self.gives_array(expr, context);
                ask(!is_array, refusal)
            }
            _ => Ok(()),
        }
    }

    /// All rules on one node, in their order.
    #[tactic(auto, using(crate::proofs::Joined::joined))]
    pub fn ask_own(&self, expr: &Expr, context: &Context) -> Result<(), ShapeAnswer>
        ensures { Walked (own_demands (around_of self.now context.now) expr.now (plain expr.now)) result }
    {
        let place = expr.place;
        match expr.node.get() {
            Node::Call { name, .. } => {
                let refusal = ShapeAnswer::LaterFunction(*name, place);
                ask(self.callable.get(name).is_some(), refusal)?;
                self.ask_defined(expr, context)
            }
            Node::If { .. } => {
                let refusal = ShapeAnswer::NotPiped(Form::ArrayIf, place);
                ask(!self.gives_array(expr, context), refusal)?;
                self.ask_defined(expr, context)
            }
            Node::Construct { low, high, .. } => {
                ask_block(context, place)?;
                self.ask_defined(expr, context)?;
                ask_range(self.numbers, place, low, high)?;
                Ok(())
            }
            Node::Fold { low, high, op, .. } => {
                ask_block(context, place)?;
                self.ask_defined(expr, context)?;
                let length = ask_range(self.numbers, place, low, high)?;
                ask(has_first(*op, length), ShapeAnswer::EmptyReduce(place))
            }
            Node::For { .. } => {
                ask_block(context, place)?;
                self.ask_defined(expr, context)?;
                ask_recurrence(self.numbers, expr)
            }
            Node::Array { .. } => {
                self.ask_defined(expr, context)?;
                ask(
                    is_first(context),
                    ShapeAnswer::NotPiped(Form::ArrayValue, place),
                )
            }
            Node::Update { .. } => {
                self.ask_defined(expr, context)?;
                ask(
                    is_next(context),
                    ShapeAnswer::NotPiped(Form::ArrayValue, place),
                )
            }
            Node::Access { name, at } => {
                self.ask_defined(expr, context)?;
                let has_form = is_subscript(self.numbers, &context.part, name, at);
                ask(has_form, ShapeAnswer::NotPiped(Form::Subscript, place))
            }
            _ => self.ask_defined(expr, context),
        }
    }
}

/// A block stands alone.
fn ask_block(context: &Context, place: Place) -> Result<(), ShapeAnswer>
    ensures { Walked (demand (may_be_block context.now.part) (NotPiped rule.Block place)) result }
{
    ask(
        context.may_be_block(),
        ShapeAnswer::NotPiped(Form::Block, place),
    )
}

/// Whether this is the array of one element of a recurrence.
fn is_first(context: &Context) -> bool
    ensures { result ≡ is_first context.now.part }
{
    match &context.part {
        Part::First => true,
        _ => false,
    }
}

/// Whether this is the array with one element more of a recurrence.
fn is_next(context: &Context) -> bool
    ensures { result ≡ is_next context.now.part }
{
    match &context.part {
        Part::Next { .. } => true,
        _ => false,
    }
}

/// Whether an expression is a call or a `let`.
fn is_call_or_let(expr: &Expr) -> bool
    ensures { result ≡ is_call_or_let (form expr.now) }
{
    match bare(expr).node.get() {
        Node::Call { .. } => true,
        Node::Let { .. } => true,
        _ => false,
    }
}
