//! Whether a name stands in an expression.
ghost use Rattle.std.specs.Prelude.{◌≡◌};
ghost use Rattle.df_syntax.specs.SourceForms.{names_it};
ghost use Rattle.df_shape.specs.NamesInside.{in_links, in_arms, in_definitions, in_assigns, in_values};

use df_syntax::tree::{Arm, Assign, Definition, Expr, Link, Node};
use df_values::name::Name;

/// Whether this name stands somewhere in an expression as a value.
#[cycle(naming)]
#[tactic(auto)]
pub(crate) fn names_it(name: &Name, expr: &Expr) -> bool
    ensures { result ≡ names_it name.now expr.now }
{
    match expr.node.get() {
        Node::Number { .. } => false,
        Node::Truth { .. } => false,
        Node::Error { .. } => false,
        Node::Name { name: other } => name == other,
        Node::Access { at, .. } => names_it(name, at),
        Node::Call { arguments, .. } => in_values(name, arguments.as_slice()),
        Node::Chain { first, rest } => names_it(name, first) || in_links(name, rest.as_slice()),
        Node::Compare { left, right, .. } => names_it(name, left) || names_it(name, right),
        Node::Negate { of } => names_it(name, of),
        Node::Invert { of } => names_it(name, of),
        Node::Parens { of } => names_it(name, of),
        Node::Test { of, .. } => names_it(name, of),
        Node::TwoPlace { left, right, .. } => names_it(name, left) || names_it(name, right),
        Node::If { arms, last } => in_arms(name, arms.as_slice()) || names_it(name, last),
        Node::Let {
            definitions,
            values,
        } => { in_definitions(name, definitions.as_slice()) || in_values(name, values.as_slice()) }
        Node::Construct {
            low,
            high,
            elem,
            ..
        } => {
            if names_it(name, low) {
                return true;
            }
            names_it(name, high) || names_it(name, elem)
        }
        Node::Fold {
            low,
            high,
            elem,
            ..
        } => {
            if names_it(name, low) {
                return true;
            }
            names_it(name, high) || names_it(name, elem)
        }
        Node::For {
            definitions,
            test,
            assigns,
            last,
        } => {
            if in_definitions(name, definitions.as_slice()) {
                return true;
            }
            if names_it(name, test) {
                return true;
            }
            in_assigns(name, assigns.as_slice()) || names_it(name, last)
        }
        Node::Array { at, value } => names_it(name, at) || names_it(name, value),
        Node::Update { at, value, .. } => names_it(name, at) || names_it(name, value),
    }
}

/// Whether the name stands in one of these expressions.
#[cycle(naming)]
fn in_values(name: &Name, values: &[Expr]) -> bool
    ensures { result ≡ in_values name.now values.now }
{
    for value in values {
        if names_it(name, value) {
            return true;
        }
    }
    false
}

/// Whether the name stands in an operand of a chain behind its first one.
#[cycle(naming)]
fn in_links(name: &Name, links: &[Link]) -> bool
    ensures { result ≡ in_links name.now links.now }
{
    for link in links {
        if names_it(name, &link.operand) {
            return true;
        }
    }
    false
}

/// Whether the name stands in an arm.
#[cycle(naming)]
fn in_arms(name: &Name, arms: &[Arm]) -> bool
    ensures { result ≡ in_arms name.now arms.now }
{
    for arm in arms {
        if names_it(name, &arm.test) || names_it(name, &arm.value) {
            return true;
        }
    }
    false
}

/// Whether the name stands in the value of a definition.
#[cycle(naming)]
fn in_definitions(name: &Name, definitions: &[Definition]) -> bool
    ensures { result ≡ in_definitions name.now definitions.now }
{
    for definition in definitions {
        if names_it(name, &definition.value) {
            return true;
        }
    }
    false
}

/// Whether the name stands in a next value of a loop.
#[cycle(naming)]
fn in_assigns(name: &Name, assigns: &[Assign]) -> bool
    ensures { result ≡ in_assigns name.now assigns.now }
{
    for assign in assigns {
        if names_it(name, &assign.value) {
            return true;
        }
    }
    false
}
