//! Whether the value of an expression is an array.
ghost use Rattle.std.specs.Prelude.{◌≡◌};
ghost use Rattle.df_shape.specs.Demands.{Around, gives_array};
ghost use Rattle.df_shape.specs.Endings.{Decides, is_array_by, with_defined, defines};

use crate::forms::is_array;
use df_syntax::tree::{Definition, Expr, Node};
use df_values::name::Name;

/// What decides whether the value of an expression is an array.
#[derive(Clone, Copy)]
pub(crate) enum Ending<'a> {
    /// It is one.
    Array,
    /// It is none.
    Scalar,
    /// It is one if this name stands for an array.
    Name(&'a Name),
    /// It is one if this function gives an array.
    Call(&'a Name),
}

/// What decides whether the value of an expression is an array: what it ends with.
#[cycle(ending)]
pub(crate) fn ending_of(expr: &Expr) -> Ending<'_>
    ensures { Decides expr.now result }
{
    match expr.node.get() {
        Node::Name { name } => Ending::Name(name),
        Node::Call { name, .. } => Ending::Call(name),
        Node::Parens { of } => ending_of(of),
        Node::If { last, .. } => ending_of(last),
        Node::Let {
            definitions,
            values,
        } => match values.as_slice() {
            [first, ..] => behind(definitions.as_slice(), ending_of(first)),
            _ => Ending::Scalar,
        },
        Node::Construct { .. } => Ending::Array,
        Node::For {
            definitions,
            last,
            ..
        } => behind(definitions.as_slice(), ending_of(last)),
        Node::Array { .. } => Ending::Array,
        Node::Update { .. } => Ending::Array,
        _ => Ending::Scalar,
    }
}

/// What decides in front of definitions, where this does behind them.
fn behind<'a>(definitions: &[Definition], ending: Ending<'a>) -> Ending<'a>
    ensures { (around : Around) → is_array_by (with_defined definitions.now around) ending.entry ≡ is_array_by around result }
{
    match ending {
        Ending::Name(name) => {
            if defines(definitions, name) {
                Ending::Array
            } else {
                Ending::Name(name)
            }
        }
        Ending::Call(name) => Ending::Call(name),
        Ending::Array => Ending::Array,
        Ending::Scalar => Ending::Scalar,
    }
}

/// Whether one of these definitions is an array of this name.
fn defines(definitions: &[Definition], name: &Name) -> bool
    ensures { result ≡ defines definitions.now name.now }
{
    definitions.iter().any(|definition| is_array(definition.sort) && &definition.name.name == name)
}
