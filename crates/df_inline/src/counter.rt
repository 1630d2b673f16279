//! The sizes of expressions, counted.
ghost use Rattle.std.specs.Prelude.{◌≡◌, map};
ghost use Rattle.df_syntax.specs.WellBuilt.{error_nesting, sort_nesting};
ghost use Rattle.df_inline.specs.Sizes.{bracketed, beside, expr_size, only_size, body_size, blocks_size};
ghost use Rattle.df_inline.specs.Counts.{saturated, Counts, links_of, arms_of, definitions_of, assigns_of};

use crate::size::Size;
use crate::table::Table;
use df_syntax::piped::{Block, Body};
use df_syntax::tree::{Arm, Assign, Definition, Expr, Link, Node, Sort};
use df_values::values::ErrorValue;

/// What counts expressions, with a size for each call of a function.
#[derive(Clone, Copy)]
pub(crate) struct Counter<'a> {
    /// The sizes of what stands in place of calls.
    pub sizes: &'a Table,
}

/// The brackets of an error value's text.
fn of_error(value: ErrorValue) -> Size
    ensures { result ≡ saturated (bracketed (error_nesting value)) }
{
    match value {
        ErrorValue::Undef => Size::bracket(),
        ErrorValue::MissElt => Size::bracket(),
        _ => Size::nothing(),
    }
}

/// The brackets of a type's text.
fn of_sort(sort: Sort) -> Size
    ensures { result ≡ saturated (bracketed (sort_nesting sort)) }
{
    match sort {
        Sort::Basic(_) => Size::nothing(),
        Sort::Array(_) => Size::bracket(),
    }
}

impl Counter<'_> {
    /// The size of an expression.
    #[cycle(count)]
    pub fn expr(&self, expr: &Expr) -> Size
        ensures { Counts self.now.sizes.now result (λ of_call. expr_size of_call expr.now) }
    {
        match expr.node.get() {
            Node::Number { .. } => Size::node(),
            Node::Truth { .. } => Size::node(),
            Node::Error { value, .. } => of_error(*value).one_more(),
            Node::Name { .. } => Size::node(),
            Node::Access { at, .. } => self.expr(at).inside().one_more(),
            Node::Call { name, arguments } => {
                let arguments = self.exprs(arguments.as_slice());
                arguments.and(self.sizes.size(name)).inside().one_more()
            }
            Node::Chain { first, rest } => {
                let first = self.expr(first);
                first.and(self.links(rest.as_slice())).one_more()
            }
            Node::Compare { left, right, .. } => {
                let left = self.expr(left);
                left.and(self.expr(right)).one_more()
            }
            Node::Negate { of } => self.expr(of).one_more(),
            Node::Invert { of } => self.expr(of).one_more(),
            Node::Parens { of } => self.expr(of).inside().one_more(),
            Node::Test { of, .. } => self.expr(of).inside().one_more(),
            Node::TwoPlace { left, right, .. } => {
                let left = self.expr(left);
                left.and(self.expr(right)).inside().one_more()
            }
            Node::If { arms, last } => {
                let arms = self.arms(arms.as_slice());
                arms.and(self.expr(last)).inside().one_more()
            }
            Node::Let {
                definitions,
                values,
            } => {
                let definitions = self.definitions(definitions.as_slice());
                let values = self.exprs(values.as_slice());
                definitions.and(values).inside().one_more()
            }
            Node::Construct {
                low,
                high,
                elem,
                ..
            } => {
                let low = self.expr(low);
                let bounds = low.and(self.expr(high)).inside();
                bounds.and(self.expr(elem)).inside().one_more()
            }
            Node::Fold {
                low,
                high,
                elem,
                ..
            } => {
                let low = self.expr(low);
                let bounds = low.and(self.expr(high)).inside();
                bounds.and(self.expr(elem)).inside().one_more()
            }
            Node::For {
                definitions,
                test,
                assigns,
                last,
            } => {
                let definitions = self.definitions(definitions.as_slice());
                let test = self.expr(test);
                let assigns = self.assigns(assigns.as_slice());
                let turn = test.and(assigns.and(self.expr(last))).inside();
                definitions.and(turn).inside().one_more()
            }
            Node::Array { at, value } => {
                let at = self.expr(at);
                at.and(self.expr(value)).inside().one_more()
            }
            Node::Update { at, value, .. } => {
                let at = self.expr(at);
                at.and(self.expr(value)).inside().one_more()
            }
        }
    }

    /// Expressions in order.
    #[cycle(count)]
    fn exprs(&self, exprs: &[Expr]) -> Size
        ensures { Counts self.now.sizes.now result (λ of_call. beside (map (expr_size of_call) exprs.now)) }
    {
        let mut size = Size::nothing();
        for expr in exprs {
            size = size.and(self.expr(expr));
        }
        size
    }

    /// Links in order.
    #[cycle(count)]
    fn links(&self, links: &[Link]) -> Size
        ensures { Counts self.now.sizes.now result (λ of_call. links_of of_call links.now) }
    {
        let mut size = Size::nothing();
        for link in links {
            size = size.and(self.expr(&link.operand).one_more());
        }
        size
    }

    /// Arms in order.
    #[cycle(count)]
    fn arms(&self, arms: &[Arm]) -> Size
        ensures { Counts self.now.sizes.now result (λ of_call. arms_of of_call arms.now) }
    {
        let mut size = Size::nothing();
        for arm in arms {
            let test = self.expr(&arm.test);
            size = size.and(test.and(self.expr(&arm.value)));
        }
        size
    }

    /// Definitions in order.
    #[cycle(count)]
    fn definitions(&self, definitions: &[Definition]) -> Size
        ensures { Counts self.now.sizes.now result (λ of_call. definitions_of of_call definitions.now) }
    {
        let mut size = Size::nothing();
        for definition in definitions {
            let sort = of_sort(definition.sort);
            size = size.and(sort.and(self.expr(&definition.value)).one_more());
        }
        size
    }

    /// Assignments in order.
    #[cycle(count)]
    fn assigns(&self, assigns: &[Assign]) -> Size
        ensures { Counts self.now.sizes.now result (λ of_call. assigns_of of_call assigns.now) }
    {
        let mut size = Size::nothing();
        for assign in assigns {
            size = size.and(self.expr(&assign.value).one_more());
        }
        size
    }

    /// What stands in place of a call of a function with these values.
    pub fn only(&self, values: &[Expr]) -> Size
        ensures { Counts self.now.sizes.now result (λ of_call. only_size (expr_size of_call) values.now) }
    {
        match values {
            [value] => self.expr(value),
            _ => Size::nothing(),
        }
    }

    /// What makes a block.
    fn body(&self, body: &Body) -> Size
        ensures { Counts self.now.sizes.now result (λ of_call. body_size of_call body.now) }
    {
        match body {
            Body::Construct { elem, .. } => self.expr(elem).inside().one_more(),
            Body::Fold { elem, .. } => self.expr(elem).inside().one_more(),
            Body::Recur { first, elem, .. } => {
                let first = self.expr(first);
                first.and(self.expr(elem)).inside().one_more()
            }
            Body::Scalar { expr } => self.expr(expr),
        }
    }

    /// Blocks in order.
    pub fn blocks(&self, blocks: &[Block]) -> Size
        ensures { Counts self.now.sizes.now result (λ of_call. blocks_size of_call blocks.now) }
    {
        let mut size = Size::nothing();
        for block in blocks {
            size = size.and(self.body(&block.body));
        }
        size
    }
}
